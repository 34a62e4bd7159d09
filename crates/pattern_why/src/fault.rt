//! The faults that stop the program.

use go_base::NoMemory;
use std::alloc::{AllocError, AllocFailed};
use std::io;

/// The reason why the program has no answer.
#[derive(Debug, Drop)]
pub(crate) enum Fault {
    /// Memory ran out.
    NoMemory,
    /// The output cannot be written, or the input cannot be read.
    Io(io::Error),
    /// Another fault, in words.
    Note(String),
}

impl From<NoMemory> for Fault {
    fn from(_: NoMemory) -> Fault {
        Fault::NoMemory
    }
}

impl From<AllocError> for Fault {
    fn from(_: AllocError) -> Fault {
        Fault::NoMemory
    }
}

impl<T: Drop> From<AllocFailed<T>> for Fault {
    fn from(_: AllocFailed<T>) -> Fault {
        Fault::NoMemory
    }
}

impl From<io::Error> for Fault {
    fn from(error: io::Error) -> Fault {
        Fault::Io(error)
    }
}

/// The fault with the words of this note; out of memory if the note could not be made.
pub(crate) fn noted(text: Result<String, AllocError>) -> Fault {
    match text {
        Ok(text) => Fault::Note(text),
        Err(_) => Fault::NoMemory,
    }
}
