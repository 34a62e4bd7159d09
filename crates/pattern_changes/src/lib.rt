//! What a change of a list of patterns changes over the positions of games: the matches that went, and those that came.
//!
//! Patterns of the old list and of the new list are compared by their names. Both lists have a match if each has a
//! pattern of the same name that matches at the same point under the same transformation. So the order of the patterns
//! does not count, and patterns with the same name in a list count as one.
#![tactic(auto)]

mod change;
pub mod laws;
mod matcher;

pub use change::{Change, Way, changes_over};
pub use matcher::Matcher;
