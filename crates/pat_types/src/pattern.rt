//! A pattern of the database, with what its type keeps.

ghost use Rattle.std.specs.Prelude.{IsTrue};
ghost use Rattle.pat_types.specs.Diagrams.{IsDiagram};
ghost use Rattle.pat_types.specs.Labels.{are_labels, is_constraint};

use crate::expr::Expr;
use crate::lists::{Items, Labels, Letters};
use crate::mark::Mark;
use go_base::Bytes;

/// A further field of a pattern's colon line: the name of a helper, or a name with a text in parentheses, which tests
/// nothing.
#[derive(Debug, Drop)]
pub struct Item {
    /// The helper's name, or the name before the parentheses.
    pub name: Bytes,
    /// What stands between the parentheses, if there are any.
    pub text: Option<Bytes>,
}

/// A label of a constraint diagram, and the cell of the diagram that it names.
#[derive(Clone, Copy, Debug, PartialEq, Eq)]
pub struct LabelAt {
    /// The label's letter, an ASCII letter.
    pub letter: u8,
    /// The row of the label's cell.
    pub row: u8,
    /// The column of the label's cell.
    pub col: u8,
}

/// A pattern of the database, after GNU Go Manual, "The Pattern Code".
///
/// The type guarantees that the diagram is a whole rectangle with one star and lies with its edges within the largest
/// board, that the labels lie in the diagram and differ, and that the constraint can be evaluated.
#[derive(Debug, Drop)]
pub struct Pattern {
    /// The name, as the Pattern line has it. Two patterns may have the same name.
    pub name: Bytes,
    /// How many rows of letters the diagram has.
    pub rows: u8,
    /// How many letters a row has.
    pub cols: u8,
    /// The letters in reading order, `rows * cols` of them.
    pub letters: Letters,
    /// Whether an edge is drawn above.
    pub top: bool,
    /// Whether an edge is drawn below.
    pub bottom: bool,
    /// Whether an edge is drawn on the left.
    pub left: bool,
    /// Whether an edge is drawn on the right.
    pub right: bool,
    /// The row and the column of the star, the point of the pattern's move.
    pub star: (u8, u8),
    /// The mark, which says under which transformations the pattern is tried.
    pub mark: Mark,
    /// The class letters, without `-`.
    pub classes: Bytes,
    /// The further fields of the colon line, in order.
    pub items: Items,
    /// The labels of the constraint diagram, in reading order.
    pub labels: Labels,
    /// The constraint, if there is one.
    pub constraint: Option<Expr>,
    pub ghost diagram: { IsDiagram rows cols letters top bottom left right star },
    ghost labelled: { IsTrue (are_labels rows cols labels) },
    ghost constrained: { IsTrue (is_constraint labels constraint) },
}
