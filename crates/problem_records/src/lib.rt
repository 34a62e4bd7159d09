//! What the game record of a problem asks, and what its author expects: the position after the first node, the string
//! that is to be captured or saved, and the moves that are to do it.
//!
//! A line `gopat:` in the comment of the first node says all this. A record without such a line has one marked stone,
//! the player to move, and right moves. What a record lacks is reported; nothing is guessed. Clauses of `problem_of`
//! state the position, the question, and what is lacking. What a line says behind its question, and which moves of a
//! record are right, is only tested.
#![tactic(auto)]

mod lack;
mod line;
mod marks;
mod node;
mod pieces;
mod problem;
mod record;
mod variations;

pub use lack::{Lack, ProblemError};
pub use problem::Problem;
pub use record::problem_of;
