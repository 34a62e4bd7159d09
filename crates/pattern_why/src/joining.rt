//! Notes on entries that have no automaton.

use crate::fault::{Fault, noted};
use dfa_join::JoinError;
use std::alloc::Global;

/// The most entries that an automaton may have.
pub(crate) const MOST_ENTRIES: usize = 4096;

/// The most states that an automaton may have.
pub(crate) const MOST_STATES: u32 = 4_000_000;

/// The note on a file with too many entries.
pub(crate) fn too_many(alloc: Global, file: &str) -> Fault {
    noted(format!(in alloc; "{file}: more than {MOST_ENTRIES} entries"))
}

/// The note on a file whose entries have no automaton.
pub(crate) fn join_fault(alloc: Global, file: &str, error: &JoinError) -> Fault {
    match error {
        JoinError::TooManyStates { limit } => noted(format!(in alloc;
            "{file}: more than {limit} states; split the file"
        )),
        JoinError::NoMemory => Fault::NoMemory,
    }
}
