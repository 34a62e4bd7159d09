//! Why a diagram does not fit at a point: its first cell that does not fit, what is drawn there and what stands there.
//!
//! Rows and columns are counted from the first letter, so an edge that is drawn above or on the left is row or column
//! -1. The cell is named as in the drawing, before the transformation moves it; its point is the one that it is moved
//! to.
//!
//! After GNU Go Manual, "The Pattern Code".
#![tactic(auto)]

mod diagram;
pub mod laws;

pub use diagram::{Misfit, first_misfit};
