//! The moves that a reading tries: the liberties of the target, the empty points next to them if the target has few,
//! and the last liberties of the enemy strings next to it; in the wider tree also the further candidates.
//!
//! The contracts state the answer for every position that agrees with what was seen afterwards. The search leaves the
//! trial moves as they were and takes no memory.
#![tactic(auto)]

pub mod moves;
mod quiet;
pub mod reach;
pub mod stages;

pub use moves::{add_sides, empty_sides};
pub use quiet::is_quiet;
pub use read_rules::Depths;
pub use stages::{candidates, later_candidates};
