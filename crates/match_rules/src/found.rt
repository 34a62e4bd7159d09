//! A match.

use go_base::{Point, Transform};

/// A pattern that matches: its place in the list of patterns, the transformation, and the point of its move. Matches
/// are in order by these three.
#[derive(Clone, Copy, Debug, PartialEq, Eq, PartialOrd, Ord)]
pub struct Match {
    /// The pattern's place in the list, counted from 0.
    pub pattern: u16,
    /// The transformation of its diagram.
    pub transform: Transform,
    /// The point of the pattern's star.
    pub at: Point,
}
