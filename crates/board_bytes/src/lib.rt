//! Positions from the bytes of a caller, and back: one byte for each point in reading order, and the ko ban.
//!
//! A caller in another language hands a board over as a `BoardBytes`, which has no pointer and may hold any numbers.
//! `position_of` reads it: the result is the position of these bytes, or the first reason why they are none. `bytes_of`
//! writes a position, and what it writes is read as this position again. Nothing takes memory.
#![tactic(auto)]

pub mod board;
pub mod read;
pub mod write;

pub use board::{BoardBytes, BoardFault};
pub use read::{colour_named, position_of};
pub use write::bytes_of;
