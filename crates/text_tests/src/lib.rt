//! Worked rows of the texts that gopat reads: constraint expressions, pattern files, game records. This crate holds
//! nothing but tests, so that the readers of these texts are not proved again for the tests.
#![tactic(auto)]

#[cfg(test)]
mod tests;
