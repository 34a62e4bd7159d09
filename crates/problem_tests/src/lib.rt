//! Worked rows of problem sets: what a record asks, what it lacks, and the verdict for its author. This crate has only
//! tests, so that the crates below it are not proved once more for them.
#![tactic(auto)]

#[cfg(test)]
mod tests;
