//! The defender's replies against which an answer holds.

/// The defender's replies against which the answer to a question holds.
#[derive(Clone, Copy, Debug, PartialEq, Eq)]
pub enum Replies {
    /// The replies that the tree of a reading tries.
    Tried,
    /// Every reply: the answer is sure.
    Every,
}
