//! Choosing a move among matches.
//!
//! The author of a pattern gives its worth by an item of its colon line, as `value(20)`; a pattern without one has the
//! worth 0. The match of the greatest worth is chosen; if several have it, the first of them in the order of matches.
//! Nothing takes memory.
#![tactic(auto)]

mod choice;
pub mod laws;
mod worth;

pub use choice::choose;
pub use match_rules::Match;
pub use worth::worth_of;
