//! A source of generated protocol lines. With it the program can be run and measured without an input.
//!
//! `Workload::new(n)` gives two lines that set up the board, and then n lines of plays, readings, matches and undos,
//! which a recurrence chooses. Its bytes left are `generated_text`. It takes no memory and never fails.
#![tactic(auto)]

pub mod laws;
mod lines;
mod rest;
mod source;

pub use source::Workload;
