//! A board as bytes, and why it may be no position.

use go_base::size::MAX_POINTS;

/// A board as a caller hands it over. Its layout is that of C, and each field may hold any number.
#[repr(C)]
#[derive(Clone, Copy)]
pub struct BoardBytes {
    /// How many rows the board has, which is also how many columns.
    pub size: u8,
    /// The colour that the ko ban forbids to play: 1 is Black, 2 is White, and 0 says that there is no ban.
    pub ban_colour: u8,
    /// The point where this colour may not play. It is not looked at if there is no ban.
    pub ban_point: u16,
    /// What stands on each point, in reading order: 0 is an empty point, 1 a black stone, 2 a white stone. Bytes behind
    /// the last point of the board are not looked at.
    pub cells: [u8; MAX_POINTS],
}

/// Why bytes are no position. If several reasons apply, the first of these is given.
#[derive(Clone, Copy, Debug, PartialEq, Eq)]
pub enum BoardFault {
    /// No board has this size.
    Size,
    /// The byte of some point is none of 0, 1 and 2.
    Cell,
    /// Some string has no liberty.
    NoLiberty,
    /// The ban's colour is none of 0, 1 and 2, or the colour is banned from a point that is not an empty point of the
    /// board.
    Ban,
}
