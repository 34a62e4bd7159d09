//! Sizes of boards, and their points.

ghost use Rattle.std.specs.Prelude.{◌≡◌, ℕ, ◌≤◌, ◌*◌, ◌↔◌, IsSome, IfSome};
ghost use Rattle.go_rules.specs.Board.{smallest_size, largest_size, largest_points, IsSize, IsOnBoard, point_at};

use std::marker::Model;

/// The least number of rows that a board may have.
pub const MIN_SIZE: u8 = 2;

/// The greatest number of rows that a board may have.
pub const MAX_SIZE: u8 = 25;

/// How many points the largest board has.
pub const MAX_POINTS: usize = MAX_SIZE as usize * MAX_SIZE as usize;

/// The greatest number of rows or of columns between two points of the largest board.
pub const MAX_OFFSET: i8 = MAX_SIZE as i8 - 1;

/// A point of a board, as `row * size + column`.
pub use go_rules::Point;

/// The size of a board: how many rows and how many columns it has. It is seen as this number.
#[derive(Clone, Copy, Debug, PartialEq, Eq, Hash)]
pub struct Size {
    rows: u8,
}

impl Model for Size {
    ghost Value = { ℕ };

    ghost view = { λ s. s.rows };

    ghost invariant = { λ s. (smallest_size ≤ s.rows) × (s.rows ≤ largest_size) };

    ghost inverse = { λ n. record { rows = n } };
}

impl Size {
    /// The size of a board with `n` rows; `None` exactly if no board may have that many.
    pub fn new(n: u8) -> Option<Size>
        ensures valid { IsSome result ↔ IsSize n }
        ensures value { IfSome result (λ s. s ≡ n) }
    {
        if MIN_SIZE <= n && n <= MAX_SIZE {
            Some(Size { rows: n })
        } else {
            None
        }
    }

    /// How many rows the board has, which is also how many columns.
    pub fn get(self) -> u8
        ensures value { result ≡ self }
        ensures at_least { smallest_size ≤ self }
        ensures at_most { self ≤ largest_size }
    {
        self.rows
    }

    /// How many points the board has.
    pub fn points(self) -> u16
        ensures value { result ≡ self * self }
        ensures bound { result ≤ largest_points }
    {
        self.rows as u16 * self.rows as u16
    }

    /// The point in a row from the top and a column from the left, both counted from 0; `None` exactly if it is off the
    /// board.
    pub fn point(self, row: u8, column: u8) -> Option<Point>
        ensures valid { IsSome result ↔ IsOnBoard self (row, column) }
        ensures value { IfSome result (λ p. p ≡ point_at self (row, column)) }
    {
        if row < self.rows && column < self.rows {
            Some(row as u16 * self.rows as u16 + column as u16)
        } else {
            None
        }
    }
}
