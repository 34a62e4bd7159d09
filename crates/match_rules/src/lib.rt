//! What the matches of patterns are, by letters and places alone: an automaton has to find exactly these.
//!
//! A diagram is moved by a transformation so that its star stands at a point. It fits there if each letter lies on the
//! board and admits what stands there, and each edge cell lies off the board. A match is a pattern, a transformation
//! and a point, in this order; the list of matches has each once.
//!
//! After GNU Go Manual, "The Pattern Code".
#![tactic(auto)]

mod found;
pub mod laws;

pub use found::Match;
