//! Worked rows for the crates of lines, and for what these crates need: what a line of the protocol says and the bytes
//! of a reply, a stream as lines, sources, sinks and loaders, generated lines, notes, and the words of a command line.
//! This crate has tests and no other code, so the crates of lines need not be proved again for their tests.
#![tactic(auto)]

#[cfg(test)]
mod tests;
