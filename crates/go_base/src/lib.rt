//! The Go board: sizes, points, sets of points, positions and plays, and views of a position that record what was
//! asked. Every crate that knows of stones stands on this one.
//!
//! A point of a board of size `s` is a number below `s * s`: point `r * s + c` stands in row `r` from the top and
//! column `c` from the left, both counted from 0. Reading order is the order of these numbers. Each call meets the
//! rules as `go_rules` defines them, and only the calls that make `Bytes` longer take memory.
#![tactic(auto)]

pub mod ban;
pub mod bits;
pub mod bytes;
pub mod capture;
mod enemies;
pub mod facts;
pub mod flood;
pub mod laws;
mod legal;
pub mod look;
pub mod points;
pub mod position;
mod setup;
pub mod sides;
pub mod size;
pub mod surroundings;
pub mod transform;
pub mod view;
mod without_liberty;

pub use bytes::{Bytes, NoMemory};
pub use facts::Facts;
pub use go_rules::{Cell, Colour, Illegal};
pub use look::{Look, Watch};
pub use points::PointSet;
pub use position::Position;
pub use size::{Point, Size};
pub use transform::Transform;
