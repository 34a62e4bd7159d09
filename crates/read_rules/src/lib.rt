//! The rules of a tactical reading as definitions: depths, kinds, questions and answers, the candidates of a target,
//! the bounded game trees with their ko allowances, the codes, and the active area. The laws say in Go's own words what
//! the computing definitions mean. There is next to no code here; the reader and every other crate that speaks of
//! readings cite these definitions.
//!
//! After GNU Go Manual, "Tactical reading"; the trees, their bounds and ko allowances are this project's own.
#![tactic(auto)]

pub mod depths;
pub mod laws;
pub mod node;
pub mod question;
pub mod tree;
pub mod turn;

pub use depths::{Depths, MAX_PLIES, MAX_WIDE, MIN_PLIES};
pub use node::Node;
pub use question::{Answer, Kind, ReadingQuestion, Spot};
pub use tree::Tree;
pub use turn::Turn;
