//! The errors of this crate's calls.
ghost use Rattle.std.specs.Prelude.{◌≡◌, Some, codes};
ghost use Rattle.gtp_io.specs.declared.errors.LoadError.TheVariants as load;
ghost use Rattle.gtp_io.specs.Loading.{load_error_text};

use std::alloc::AllocError;
use std::error::Error;
use std::fmt;

/// A source or a sink failed: its count of faults rose in this call, or stands at the greatest value of a u64.
#[derive(Clone, Copy, Debug, PartialEq, Eq)]
pub struct Failed;

/// Memory was not found.
#[derive(Clone, Copy, Debug, PartialEq, Eq)]
pub struct NoMemory;

/// Why a load has no contents: the loader failed, or memory was not found.
#[derive(Clone, Copy, Debug, PartialEq, Eq)]
pub enum LoadError {
    /// The loader failed, and the name was appended to its missed names.
    Failed,
    /// Memory was not found.
    NoMemory,
}

impl fmt::Display for Failed {
    ghost output = { λ _. Some (codes "failed") };

    fn fmt<W: fmt::Write>(&self, f: &mut fmt::Formatter<W>) -> fmt::Result {
        f.write_str("failed")
    }
}

impl Error for Failed {}

impl fmt::Display for NoMemory {
    ghost output = { λ _. Some (codes "out of memory") };

    fn fmt<W: fmt::Write>(&self, f: &mut fmt::Formatter<W>) -> fmt::Result {
        f.write_str("out of memory")
    }
}

impl Error for NoMemory {}

impl fmt::Display for LoadError {
    ghost output = { λ e. Some (load_error_text e) };

    fn fmt<W: fmt::Write>(&self, f: &mut fmt::Formatter<W>) -> fmt::Result {
        match self {
            LoadError::Failed => f.write_str("failed"),
            LoadError::NoMemory => f.write_str("out of memory"),
        }
    }
}

impl Error for LoadError {}

impl From<AllocError> for LoadError {
    ghost from_gives = { λ _ e. e ≡ load.NoMemory };

    fn from(_error: AllocError) -> LoadError {
        LoadError::NoMemory
    }
}
