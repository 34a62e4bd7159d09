//! Reading a pattern database: the text's patterns in order, or its first fault.
//!
//! The grammar, the patterns that a text spells and its first fault are defined in `db_rules`, and `read` returns
//! exactly these. The text is read once, line by line, and each pattern copies its own bytes once.
//!
//! After GNU Go Manual, "The Pattern Code"; the exact grammar and the kinds of fault are this project's own.
#![tactic(auto)]

mod draft;
mod error;
mod pattern_names;
mod reader;
mod stages;

pub use error::DbError;
pub use reader::read;
