//! The tactical reader: whether a string can be captured, and whether it can be saved, by one of two bounded game
//! trees.
//!
//! `read` reads a question on a view of a position and returns the view. What it looked at is then among the view's
//! facts, and on every position that agrees with these facts the answer is the same. `attack` and `defend` make the
//! question from the stone at a point; their depths say which tree is read. The codes are 3, 2, 1 and 0: the side that
//! is asked about has its way even if the other side may ignore the ko ban once; if neither side may; only if it may do
//! so itself; not at all. Nothing takes memory.
//!
//! After GNU Go Manual, "Tactical reading"; the trees, their bounds and their ko allowances are this project's own.
#![tactic(auto)]

pub mod allowances;
mod apart;
mod bound;
mod candidates;
mod deepening;
mod escape;
mod first_look;
pub mod known_plies;
pub mod making;
pub mod memory;
pub mod nodes;
mod order;
pub mod outlook;
pub mod reading;
pub mod report;
pub mod table;
pub mod taking_back;
pub mod tree;

pub use allowances::Allowances;
pub use nodes::{NodeAt, wins};
pub use read_rules::{Answer, Depths, Kind, Node, ReadingQuestion, Spot, Tree, Turn};
pub use reading::{attack, defend, read};
pub use report::Report;
