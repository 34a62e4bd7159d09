//! The rules of Go as definitions: points, strings, liberties, plays, the ko ban and games, and the laws that say in
//! Go's own words what the computing definitions mean. There is next to no code here; every other crate cites what
//! stands in specs/.
//!
//! A point of a board of size `s` is a number below `s * s`: point `r * s + c` stands in row `r` from the top and
//! column `c` from the left, both counted from 0.
#![tactic(auto)]

ghost use Rattle.std.specs.Prelude.{◌≡◌, ◌≢◌};
ghost use Rattle.go_rules.specs.Position.{other, stone_of, colour_of};

pub mod laws;

/// A point of a board, `row * size + column`, with rows counted from the top and columns from the left, both from 0.
pub type Point = u16;

/// The colour of a stone, and of the player who puts it.
#[derive(Clone, Copy, Debug, PartialEq, Eq, Hash)]
pub enum Colour {
    Black,
    White,
}

/// What stands on a point of a board.
#[derive(Clone, Copy, Debug, PartialEq, Eq)]
pub enum Cell {
    Empty,
    Black,
    White,
}

/// A move of a game: `colour` plays at the point `at`, or passes if `at` is `None`.
#[derive(Clone, Copy, Debug, PartialEq, Eq)]
pub struct Move {
    /// The colour that moves.
    pub colour: Colour,
    /// The point of the play; `None` for a pass.
    pub at: Option<Point>,
}

/// Why a play is refused. If several reasons apply, the first of these is given.
#[derive(Clone, Copy, Debug, PartialEq, Eq)]
pub enum Illegal {
    /// A stone stands at the point.
    Occupied,
    /// The ko ban forbids the play.
    Ko,
    /// The string of the stone would have no liberty after the captures.
    Suicide,
}

impl Colour {
    /// The other colour.
    pub fn other(self) -> Colour
        ensures { result ≡ other self }
    {
        match self {
            Colour::Black => Colour::White,
            Colour::White => Colour::Black,
        }
    }

    /// The cell of a stone of this colour.
    pub fn cell(self) -> Cell
        ensures { result ≡ stone_of self }
    {
        match self {
            Colour::Black => Cell::Black,
            Colour::White => Cell::White,
        }
    }
}

impl Cell {
    /// The colour of the stone in this cell, which is not empty.
    pub fn colour(self) -> Colour
        requires { self ≢ Cell.Empty }
        ensures { result ≡ colour_of self }
    {
        match self {
            Cell::Black => Colour::Black,
            Cell::White => Colour::White,
            Cell::Empty => unreachable!(),
        }
    }
}
