//! What a reading returns.

use read_rules::Answer;

/// What a reading found, how many plays it tried, and its view of the position as it is after the reading.
#[derive(Drop)]
pub struct Report<L> {
    /// The code and the first move that attains it.
    pub answer: Answer,
    /// How many trial plays were made.
    pub trials: u64,
    /// The view that the caller passed in; what the reading looked at is among its facts.
    pub look: L,
}
