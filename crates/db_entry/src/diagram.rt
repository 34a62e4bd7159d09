//! The main diagram of an entry, line by line.

ghost use Rattle.std.specs.Prelude.{◌≤◌};

mod lines;

use db_rules::Shape;
use pat_types::Letters;

/// What is kept of the main diagram of an entry so far.
#[derive(Debug, Drop)]
pub struct Diagram {
    /// The number of lines, edge lines among them.
    pub lines: usize,
    /// The number of rows.
    pub rows: usize,
    /// Whether the first line is an edge line.
    pub top: bool,
    /// Whether the last line is an edge line after a row.
    pub bottom: bool,
    /// The shape of the first row, or of the top edge if there is no row.
    pub shape: Option<Shape>,
    /// The letters of the rows.
    pub letters: Letters,
    ghost few: { rows ≤ lines },
}
