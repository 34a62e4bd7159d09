//! The reader of connections: whether two strings of one colour can be joined, and whether they can be kept apart, by a
//! bounded tree.
//!
//! `connect` and `disconnect` read a view of a position and hand it back; its facts then include what they looked at,
//! and on every position that agrees with these facts the answer is the same. No side may ignore the ko ban. Nothing
//! takes memory.
//!
//! The tree is this project's own: GNU Go reads connections by trees of another kind.
#![tactic(auto)]

pub mod link_told;
mod moves;
pub mod reading;
mod sets;
mod tree;

pub use connect_rules::{Link, LinkKind, LinkQuestion, LinkSpot, Linkage};
pub use link_told::LinkTold;
pub use reading::{connect, disconnect, read};
