//! The rules of pattern databases as definitions: lines, stages, blocks of whole lines, expressions, entries, and the
//! first fault of a text. The crates that read a database cite what stands in specs/; here are the small types that the
//! definitions speak of, and the laws that join the walk over the lines of a text to the form of a database.
//!
//! After GNU Go Manual, "The Pattern Code"; the exact grammar, the kinds of fault and their order are this project's
//! own.
#![tactic(auto)]

mod fault;
mod kind;
mod laws;
mod shape;
mod stage;

pub use fault::{Fault, LineError};
pub use kind::FaultKind;
pub use laws::{databases_have_no_fault, entries_are_those_of_the_blocks};
pub use shape::Shape;
pub use stage::{Stage, TableCell};
