//! Worked rows of helpers that are passed in as boxed objects; one of them is of a type of this crate. They are asked
//! by their names, asked in turn, switched off and taken out.
#![tactic(auto)]

mod always;
mod handed;

pub use always::Always;
pub use handed::{answer_of, answer_of_always, answer_of_near_edge};

#[cfg(test)]
mod tests;
