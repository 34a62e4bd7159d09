//! Patterns as the matcher takes them: a diagram of letters with its edges, a mark, class letters, labels and a
//! constraint.
//!
//! A diagram is a rectangle of letters in reading order. A cell is given by its row from the top and its column from
//! the left of the rectangle, both counted from 0, so an edge cell stands in row or column -1 or just past the last.
//! The type `Pattern` guarantees what every pattern of the database must satisfy. Only `push`, on the lists, takes
//! memory.
#![tactic(auto)]

mod cell;
mod expr;
mod laws;
mod letter;
mod lists;
mod mark;
mod pattern;

pub use cell::{Drawn, Strip, anchor, drawn_in};
pub use expr::{
    Arg, Expr, Function, MovesFunction, Op, PairFunction, PointFunction, PointsFunction,
};
pub use go_base::{Bytes, NoMemory};
pub use laws::cells_are_drawn_as_seen;
pub use letter::{Letter, letter_fits};
pub use lists::{Args, Items, Labels, Letters};
pub use mark::{Mark, mark_count};
pub use pattern::{Item, LabelAt, Pattern};
