//! The shape of a line of a diagram.

/// On which sides a line of a diagram has an edge, and its number of letters or of `-`.
#[derive(Clone, Copy, Debug, PartialEq, Eq)]
pub struct Shape {
    /// Whether an edge is drawn on the left.
    pub left: bool,
    /// Whether an edge is drawn on the right.
    pub right: bool,
    /// How many letters or `-` the line has.
    pub width: usize,
}
