//! The answer that the exit status gives.

/// The answer that the exit status gives.
#[derive(Clone, Copy, PartialEq, Eq)]
pub(crate) enum Outcome {
    /// Something matches; or each entry fits somewhere and no record has a fault; or nothing changed.
    Yes,
    /// Nothing matches; or an entry never fits or a record has a fault; or something changed.
    No,
    /// The answer is incomplete, or there is none.
    Trouble,
}

impl Outcome {
    /// Yes if `is_so`, else no.
    pub(crate) fn of(is_so: bool) -> Outcome {
        if is_so { Outcome::Yes } else { Outcome::No }
    }

    /// The exit status.
    pub(crate) fn status(self) -> u8 {
        match self {
            Outcome::Yes => 0,
            Outcome::No => 1,
            Outcome::Trouble => 2,
        }
    }
}
