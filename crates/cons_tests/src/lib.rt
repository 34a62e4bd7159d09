//! Worked rows of constraint expressions, from the text to the value on drawn positions, with codes that follow from
//! the liberties. There is no code here but the tests and the environment that they use.
#![tactic(auto)]

mod liberty_codes;

pub use liberty_codes::LibertyCodes;

#[cfg(test)]
mod tests;
