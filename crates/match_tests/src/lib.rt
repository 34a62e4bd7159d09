//! Worked rows of the spiral, of automata and of matches, from the text of a database to the list of matches and to the
//! move that is chosen among them. This crate has only tests, which cross all crates of the layer.
#![tactic(auto)]

#[cfg(test)]
mod tests;
