//! Worked rows of the reports that an author gets: for a text one row for each cause, each warning and each note, and
//! for a list the states that each entry adds. This crate has only tests, so that the crates below are not proved once
//! more for them.
#![tactic(auto)]

#[cfg(test)]
mod tests;
