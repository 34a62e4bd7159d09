//! A stream of bytes, in pieces cut anywhere, as protocol lines. The room for a line is taken once, and no memory after
//! it.
//!
//! A line is the bytes before a line feed. A line of more than 65,536 bytes is reported as too long, and the line after
//! it is whole again. However the bytes are cut into pieces, the lines are those that `gtp_rules` defines for the whole
//! stream.
#![tactic(auto)]

pub mod laws;
mod lines;
mod raw;

pub use lines::{Lines, Taken};
pub use raw::Raw;
