//! Judges a problem: the code of its question, all moves that attain it, the fewest plies with which the question has
//! it, and whether that is what the author expects.
//!
//! `judge` reads the question; `verdict_of` is the rule that compares what was found with what is expected. By
//! `Replies`, the codes are those of a reading, or the sure ones of `sure_rules`, which hold against every reply. By
//! `Scope`, the moves are those that the tree tries, or all legal moves. Nothing takes memory.
#![tactic(auto)]

mod expected;
mod judged;
mod laws;
mod moves;
mod replies;
mod scope;
mod sure_judged;
mod sure_moves;
mod verdict;

pub use expected::Expected;
pub use judged::{Found, Judged, judge};
pub use laws::answers_mean_moves;
pub use moves::Moves;
pub use read_all::{Depths, Kind, Tree};
pub use replies::Replies;
pub use scope::Scope;
pub use verdict::{Verdict, verdict_of};
