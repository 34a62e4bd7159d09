//! The plain machine of the protocol, as definitions: what it keeps, what each line does to it and what it replies, and
//! what a line asks of the readings and about connections. Nothing here runs.
//!
//! The machine keeps settings, moves and helpers, and its position is the replay of the moves. The definition `step`
//! says what the machine gives for a line, when a matcher finds the matches of its patterns. The laws say in words what
//! every step keeps.
#![tactic(auto)]

pub mod laws;
