//! The values of constraint expressions: whole numbers, from a position, the points of the labels and the codes of
//! readings.
//!
//! A call rests on the rules of Go alone: it plays on copies of the position and asks the `Env` for the code of a
//! string. A test is worth 1 or 0, and any value but 0 counts as true. `eval` computes the definition `value_of`; it
//! takes no memory and never fails.
//!
//! After GNU Go Manual, "The Pattern Code", on constraints; the choice of the functions and their exact values are
//! this project's own.
#![tactic(auto)]

mod calls;
mod env;
mod readings;
mod rules;
mod value;

pub use env::Env;
pub use read_rules::Kind;
pub use value::eval;
