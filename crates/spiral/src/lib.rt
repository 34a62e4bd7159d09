//! The spiral: the order in which a diagram and a board are read, ring by ring around an anchor.
//!
//! Offset (0, 0) is ring 0 and has index 0. For each later k, ring k has the offsets whose greater absolute part is k.
//! It begins at index (2k - 1) squared with (-k, -k), and goes right, down, left and up. There are 2,401 offsets, and
//! each has both parts from -24 to 24.
//!
//! After GNU Go Manual, "The DFA pattern matcher"; the order within a ring is this project's own.
#![tactic(auto)]

pub mod laws;
mod moving;
mod numbering;
mod ring;

pub use moving::{place, place_beside, place_from};
pub use numbering::{OFFSETS, following, index, offset};
