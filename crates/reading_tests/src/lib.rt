//! Worked rows of readings: depths, candidates, attack and defence, proofs of them, connections, and the order of the
//! cached answers. There is no code here but tests, so that a change of a test does not prove the crates of the
//! readings again.
#![tactic(auto)]

#[cfg(test)]
mod tests;
