//! The entries of all files in one list, as `gopat` loads them.

use pat_types::{NoMemory, Pattern};
use pattern_report::Report;
use std::alloc::Global;

/// The place of an entry of the list.
#[derive(Clone, Copy)]
pub(crate) struct Origin {
    /// The index of the file of the entry.
    pub(crate) file: usize,
    /// The number of its Pattern line in the file.
    pub(crate) line: u64,
}

/// The accepted entries of all files, in order.
#[derive(Drop)]
pub(crate) struct List {
    /// The patterns of the entries.
    pub(crate) patterns: Vec<Pattern>,
    /// The place of each entry.
    pub(crate) origins: Vec<Origin>,
}

impl List {
    /// The empty list.
    pub(crate) fn new(alloc: Global) -> List {
        List {
            patterns: Vec::new(alloc),
            origins: Vec::new(alloc),
        }
    }

    /// Appends the entries of a file.
    pub(crate) fn extend(&mut self, file: usize, report: Report<'_>) -> Result<(), NoMemory> {
        for part in &report.entries {
            self.origins.push(Origin {
                file,
                line: part.number,
            })?;
        }
        for pattern in report.patterns {
            self.patterns.push(pattern)?;
        }
        Ok(())
    }
}
