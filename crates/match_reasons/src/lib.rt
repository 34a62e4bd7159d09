//! Why a pattern does not match at a point under a transformation: the first part of the definition that fails.
//!
//! A match needs six things, in this order: the diagram fits; the friend's play is legal; its stone cannot be captured,
//! unless the pattern has class `s`; with class `n` the enemy's play there is legal and safe too; the constraint is not
//! 0; and each helper says yes. `first_reason` answers the first of these that fails, with what an author needs to see
//! it.
//!
//! Each reading is fresh and its answer is not cached, so no count of a session rises.
//!
//! After GNU Go Manual, "The Pattern Code".
#![tactic(auto)]

mod conditions;
mod constraint;
mod fresh;
pub mod laws;
mod reason;

pub use constraint::{FreshQuestion, constraint_values};
pub use match_misfit::Misfit;
pub use reason::{Reason, first_reason};
