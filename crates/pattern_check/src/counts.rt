//! The numbers of accepted entries, of faults and of warnings.

/// One more than the greatest kind of fault.
pub(crate) const KINDS: usize = 19;

/// The number of accepted entries, of faults of each kind, and of warnings.
#[derive(Clone, Copy)]
pub(crate) struct Counts {
    /// The accepted entries.
    pub(crate) taken: u64,
    /// The faults of each kind; the number of the kind is the index.
    pub(crate) kinds: [u64; 19],
    /// The warnings.
    pub(crate) warnings: u64,
}

impl Counts {
    /// The counts before any file.
    pub(crate) fn new() -> Counts {
        Counts {
            taken: 0,
            kinds: [0; KINDS],
            warnings: 0,
        }
    }

    /// Counts `entries` as accepted.
    pub(crate) fn take(&mut self, entries: usize) {
        self.taken = self.taken.saturating_add(entries as u64);
    }

    /// Counts a fault.
    pub(crate) fn refuse(&mut self, kind: u8) {
        if let Some(count) = self.kinds.get_mut(kind as usize) {
            *count = count.saturating_add(1);
        }
    }

    /// Counts a warning.
    pub(crate) fn warn(&mut self) {
        self.warnings = self.warnings.saturating_add(1);
    }

    /// Adds the counts of `other`.
    pub(crate) fn add(&mut self, other: &Counts) {
        self.taken = self.taken.saturating_add(other.taken);
        self.warnings = self.warnings.saturating_add(other.warnings);
        for (count, more) in self.kinds.iter_mut().zip(other.kinds.iter()) {
            *count = count.saturating_add(*more);
        }
    }

    /// The number of all faults.
    pub(crate) fn refused(&self) -> u64 {
        let mut all: u64 = 0;
        for count in &self.kinds {
            all = all.saturating_add(*count);
        }
        all
    }
}
