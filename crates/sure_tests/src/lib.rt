//! Worked rows of sure captures: small positions, the answer of the plain game tree, and the sure answer; and sessions
//! of `gopat_sure` in memory. The crate holds only tests, so that the readers are not proved again for them.
#![tactic(auto)]

#[cfg(test)]
mod lines;
#[cfg(test)]
mod tests;
