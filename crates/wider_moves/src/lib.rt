//! The further candidates of a target, found on a trial board: the moves that the wider tree tries and the stated tree
//! does not. The module `sides` finds the neighbours of points that hold a given cell; every tree uses it to find the
//! empty neighbours.
//!
//! The contracts state the answer for every position that agrees with what was seen afterwards. The search leaves the
//! trial moves as they were and takes no memory.
#![tactic(auto)]

mod approach;
pub mod further;
mod last;
mod sets;
pub mod sides;
mod strings;

pub use further::further_candidates;
