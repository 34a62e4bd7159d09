//! The values of a constraint, part by part: one for each number, call, sign and operator, or none for a part that is
//! not needed, such as the right side of `&&` if the left side is 0.
//!
//! After GNU Go Manual, "The Pattern Code", on constraints.
#![tactic(auto)]

pub mod laws;
mod parts;
mod value;

pub use value::values;
