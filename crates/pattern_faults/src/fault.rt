//! A fault as an author sees it.

use crate::cause::Cause;
use pattern_lines::Place;

/// A fault of an entry.
#[derive(Clone, Copy)]
pub struct Fault<'a> {
    /// The number of the line that `db_read` reports.
    pub line: u64,
    /// The number of the kind, from 1 to 18.
    pub kind: u8,
    /// The name of the entry; empty before the first Pattern line, or if the entry has no name.
    pub entry: &'a [u8],
    /// The place where the fault is best seen. In an expression of several lines it can be below the reported line; for
    /// a missing line it is above.
    pub place: Place<'a>,
    /// The cause.
    pub cause: Cause<'a>,
}
