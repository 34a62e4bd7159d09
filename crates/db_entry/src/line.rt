//! The lines of diagrams.

ghost use Rattle.std.specs.Prelude.{◌≡◌};
ghost use Rattle.db_entry.specs.DiagramLines.{line_of, is_edge as is_an_edge, is_row as is_a_row, shape_on};

use crate::words::{edge_shape, row_shape};
use db_rules::Shape;

/// A line of a diagram.
#[derive(Clone, Copy, Debug, PartialEq, Eq)]
pub enum DiagramLine {
    /// An edge line with its shape.
    Edge(Shape),
    /// A row with its shape.
    Row(Shape),
}

impl DiagramLine {
    /// The diagram line that `word` is; `None` if it is neither an edge line nor a row.
    pub fn of(word: &[u8]) -> Option<DiagramLine>
        ensures { result ≡ line_of word.now }
    {
        if let Some(shape) = row_shape(word) {
            return Some(DiagramLine::Row(shape));
        }
        if let Some(shape) = edge_shape(word) {
            return Some(DiagramLine::Edge(shape));
        }
        None
    }

    /// Whether the line is an edge line.
    pub fn is_edge(self) -> bool
        ensures { result ≡ is_an_edge self }
    {
        matches!(self, DiagramLine::Edge(_))
    }

    /// Whether the line is a row.
    pub fn is_row(self) -> bool
        ensures { result ≡ is_a_row self }
    {
        matches!(self, DiagramLine::Row(_))
    }

    /// The shape of the line.
    pub fn shape(self) -> Shape
        ensures { result ≡ shape_on self }
    {
        match self {
            DiagramLine::Edge(shape) | DiagramLine::Row(shape) => shape,
        }
    }
}
