//! A caller's own helper, from its struct to a run that asks it: an example to copy.
//!
//! `TwoLiberties` says yes to a play whose string has at least two liberties afterwards. A caller boxes it, hands it to
//! `run`, and names it in a pattern file, as the test does. Everything here uses public calls alone.
#![tactic(auto)]

mod two_liberties;

pub use two_liberties::TwoLiberties;

#[cfg(test)]
mod tests;
