//! What a run says of itself at its end: its counts, what it sent, and how it ended. Each of these is a line of text.
//!
//! `put_notes` puts these lines on a sink piece by piece, without memory, and stops at the sink's first failure. The
//! sink gets the whole text, or a front of it if its count of faults rose.
#![tactic(auto)]

mod notes;
mod pieces;

pub use notes::{Counts, Links, Sent, put_notes};
