//! The doors of gopat for a program in another language: questions about a board given as bytes.
//!
//! Each door takes any numbers. Its result is the answer on the position of these numbers, or the first reason why
//! there is no answer: a `DoorFault`. The replies have the layout of C and one status each, 0 for an answer and a
//! number of its own for each fault. `gopat_c` exports the doors. Nothing takes memory.
#![tactic(auto)]

pub mod connections;
pub mod depths;
pub mod fault;
pub mod laws;
pub mod moves;
pub mod plays;
pub mod printed;
pub mod proofs_of_codes;
pub mod questions;
pub mod readings;
pub mod replies;
mod stones;
#[cfg(test)]
mod tests;

pub use board_bytes::{BoardBytes, BoardFault};
pub use connections::{connect, disconnect};
pub use depths::DepthBytes;
pub use fault::DoorFault;
pub use moves::{MoveSet, all};
pub use plays::{liberties, play};
pub use printed::proof;
pub use proofs_of_codes::check;
pub use readings::{attack, defend};
pub use replies::{AnswerReply, MovesReply, NumberReply, PlayReply, ProofReply};
