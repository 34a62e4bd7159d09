//! The points of a board in reading order, with their places on the padded board.
ghost use Rattle.std.specs.Prelude.{◌≡◌, ℕ, ◌+◌, ◌<◌, ◌≤◌};
ghost use Rattle.dfa_match.specs.Steps.{anchor_at_corner, cursor_at, last_corner};

use crate::padded_board::SIDE;
use go_base::{Point, Size};

/// Where a point of a board stands. The cursor at the next point is found without a division.
#[derive(Clone, Copy)]
pub struct Cursor {
    /// The column of the point.
    pub column: u8,
    /// The index at which the square of all offsets around the point begins on the padded board.
    pub corner: u16,
}

impl Cursor {
    /// The cursor at the first point.
    pub fn first() -> Cursor
        ensures { (size : ℕ) → 0 < size → result ≡ cursor_at size 0 }
    {
        Cursor {
            column: 0,
            corner: 0,
        }
    }

    /// The cursor at the next point.
    pub fn next(self, size: Size) -> Cursor
        requires column { self.column < size }
        requires corner { self.corner ≤ last_corner }
        ensures { (m : ℕ) → self ≡ cursor_at size m → result ≡ cursor_at size (m + 1) }
    {
        let side = size.get();
        if self.column + 1 < side {
            Cursor {
                column: self.column + 1,
                corner: self.corner + 1,
            }
        } else {
            Cursor {
                column: 0,
                corner: self.corner + SIDE as u16 - self.column as u16,
            }
        }
    }
}

/// The point of a board around which the square of all offsets begins at the index `corner` of the padded board.
pub fn anchor_at(corner: u16, size: Size) -> Point
    requires { corner ≤ last_corner }
    ensures { result ≡ anchor_at_corner size corner }
{
    corner / SIDE as u16 * size.get() as u16 + corner % SIDE as u16
}
