//! Worked rows of the boards: what the rules give on drawn positions, trial moves, and games as lists of moves. There
//! is no code here but tests, so that the crates of the boards are not proved once more for them.
//!
//! The board that keeps its strings has no tests here: its clauses say of each call that it answers as `Position` does.
#![tactic(auto)]

#[cfg(test)]
mod tests;
