//! Reads sure captures: whether a string is captured whatever its defender plays, within the plies.
//!
//! `sure_attack` and `sure_defend` answer with the sure answers of `sure_rules`. The attacker tries the candidates of a
//! reading, and the defender passes or plays at any point of the board. So a sure reading takes much longer than a
//! reading of `read_tree`, and is meant for few plies. Each function returns the view of the position, and on every
//! position that agrees with what was looked at the answer is the same. In the wider tree a lone stone that is taken
//! may be taken back, as in a reading. Nothing takes memory.
#![tactic(auto)]

mod points;
mod reading;
pub mod taking_back;
mod tree;

pub use read_rules::{Answer, Depths, Spot, Tree};
pub use reading::{sure_attack, sure_defend};
