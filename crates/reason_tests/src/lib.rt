//! Worked rows of the reasons why patterns do not match, from the text of a database to the reason and to counts, and
//! of the matches that a change of patterns changes. This crate has only tests, which cross the crates of the layer.
#![tactic(auto)]

#[cfg(test)]
mod changes;
#[cfg(test)]
mod ends;
#[cfg(test)]
mod tests;
#[cfg(test)]
mod values;
