//! Parsing a constraint expression: the expression that a text spells, or the first fault of the text.
//!
//! The text is cut into tokens, each as long as possible, and the tokens into items; a call with its arguments is one
//! item. A walk over the items tells whether they are in the grammar and how deep the leaves stand. Only then is an
//! expression built, with a stack of what is still open. Nothing here is recursive, so a deep text takes memory but no
//! stack.
//!
//! After GNU Go Manual, "The Pattern Code", on constraints; the grammar and the order of the faults are this project's
//! own.
#![tactic(auto)]

mod build;
mod calls;
mod error;
mod faults;
mod function_names;
pub mod laws;
mod parsing;
mod scan;
mod token;

pub use calls::Item;
pub use error::ConsError;
pub use parsing::parse;
pub use token::{Name, Token};
