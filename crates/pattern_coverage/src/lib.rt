//! How many tries of each pattern end at each part of the definition of a match, position by position.
//!
//! A try of a pattern is a transformation of its mark and a point of the board. It ends at the first part that fails.
//! Parts are numbered in the order of the definition: 0 the diagram, 1 the move, 2 the stone, 3 class `n`, 4 the
//! constraint, 5 the helpers; a try that is a match ends at 6.
//!
//! An automaton finds the diagrams, by means of bare patterns: a bare pattern has the diagram of a pattern, and asks
//! for nothing else but a legal move. At the few empty points where the move is not legal, each diagram is compared
//! with the board. All other tries end at the diagram.
#![tactic(auto)]

mod bare;
mod blocked;
mod counts;
mod ends;
mod position;
mod tally;

pub use bare::Diagrams;
pub use counts::{ENDS, PartCounts};
pub use position::ends_on;
