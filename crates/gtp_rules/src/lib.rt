//! The protocol as definitions: what the lines of a stream are, what a machine gives for a line, and what may be
//! written for a list of lines. There is no code here; the crates of the protocol cite the definitions in specs/.
//!
//! A stream is a list of bytes, and a line is the bytes before a line feed, after the GTP version 2 draft. A line with
//! more bytes than the longest line may have is too long, whatever it holds.
#![tactic(auto)]

pub mod laws;
