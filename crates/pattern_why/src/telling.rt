//! The answer about a position.

use std::alloc::Global;
use why_report::Try;

/// The answer about a position.
#[derive(Drop)]
pub(crate) struct Telling {
    /// The text that is printed.
    pub(crate) page: String,
    /// Whether a try matched.
    pub(crate) matches: bool,
}

impl Telling {
    /// The answer before any try.
    pub(crate) fn new(alloc: Global) -> Telling {
        Telling {
            page: String::new(alloc),
            matches: false,
        }
    }

    /// Notes whether the try `one` is a match.
    pub(crate) fn note(&mut self, one: &Try<'_>) {
        self.matches = self.matches || one.reason.is_none();
    }
}
