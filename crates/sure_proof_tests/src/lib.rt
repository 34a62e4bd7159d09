//! Worked rows of printed proofs of sure captures: small positions, a text, and whether it is a proof. The crate holds
//! only tests, so that the checker is not proved again for them.
#![tactic(auto)]

#[cfg(test)]
mod tests;
