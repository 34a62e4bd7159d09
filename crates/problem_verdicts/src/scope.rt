//! The moves of a question that are judged.

/// The moves of a question that are judged.
#[derive(Clone, Copy, Debug, PartialEq, Eq)]
pub enum Scope {
    /// The moves that the tree tries at the first turn: the pass, and the candidates.
    Tried,
    /// Every legal move: the pass, and the points of the board, candidates or not.
    Anywhere,
}
