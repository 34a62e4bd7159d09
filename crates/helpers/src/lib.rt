//! Helpers: tests of a move that the caller passes in as objects, and that patterns ask for by name.
//!
//! Contracts see a helper as its name, its meaning (what it says of a position, a point and a colour) and the number of
//! its calls. A list of helpers is asked by name; if two share a name, the first is meant. A helper that is switched
//! off or taken out is not asked, and counts as one that says no.
#![tactic(auto)]

mod agreement;
mod helper;
mod near_edge;
mod no_ban;
mod slots;

pub use agreement::{all_agree, first_refusal};
pub use helper::Helper;
pub use near_edge::NearEdge;
pub use no_ban::NoBan;
pub use slots::{HelperSlot, Helpers};
