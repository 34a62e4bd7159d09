//! Matches: which patterns fit a position, at which points and under which transformations, with a legal move that
//! their classes, constraints and helpers allow; and the readings that these ask for.
//!
//! A match names a pattern by its place in the list of patterns, counted from 0, a transformation, and the point of the
//! pattern's move. `matches` finds them by an automaton, and its contract holds for every automaton. With the automaton
//! of the patterns it is the plain definition, which compares each transformed diagram with the board point by point.
//!
//! After GNU Go Manual, "The Pattern Code" and "The DFA pattern matcher".
#![tactic(auto)]

mod agreeing;
mod allowing;
mod constraint_question;
mod finder;
mod keys;
pub mod laws;
mod legality;
mod placing;
mod plays;
mod ranks;
mod readings;

pub use finder::matches;
pub use keys::Key;
pub use match_rules::Match;
pub use readings::Readings;
