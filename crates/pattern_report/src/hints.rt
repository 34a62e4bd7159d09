//! The warnings about a text that has a report.

use crate::report::Report;
use pat_types::NoMemory;
use pattern_hints::Warning;
use pattern_lines::Part;
use std::alloc::Global;

/// All warnings about a text with these `parts` and this `report`, in the order of their lines. Takes memory.
pub fn warnings<'a>(
    alloc: Global,
    text: &'a [u8],
    parts: &[Part<'a>],
    report: &Report<'a>,
) -> Result<Vec<Warning<'a>>, NoMemory> {
    let entries = report.entries.as_slice();
    pattern_hints::warnings(alloc, text, parts, entries, report.patterns.as_slice())
}
