//! A checker of proofs of readings: a proof says, with one word for each node, why an attack or a defence has its code.
//!
//! The words of a proof are those of a protocol line. A claim about a node is that the attacker wins there, or that he
//! does not. `.` proves a claim that is settled; a move proves it if the side to play has that move and it leads to the
//! claim; `*` proves it if each move of that side leads to it. If `check` is true, the code is that of the game tree.
//! The checker plays on positions alone and takes no memory. It does not search the tree, and it finds the candidates
//! by itself; the search of a string's stones and liberties is that of `go_base`, which the reader uses too.
//! `docs/PROOFS_OF_READINGS.md` explains a proof word by word.
#![tactic(auto)]

mod approach;
mod beside;
mod candidates;
mod checker;
pub mod children;
pub mod codes;
mod further;
pub mod laws;
mod settled;
mod strings;
pub mod taking_back;
mod token;
mod walk;

pub use checker::check;
pub use read_rules::{Depths, Kind as ProofOf, Node, Spot, Tree};
pub use token::Token;
