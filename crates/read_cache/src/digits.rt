//! The digits of a number that a question is hashed as.

/// How many values the digit of a point may have in the number of a question: those of a `u16`.
pub const POINT_VALUES: u64 = 65_536;

/// How many values the digit of the plies may have in the number of a question: those of a `u8`.
pub const PLY_VALUES: u64 = 256;
