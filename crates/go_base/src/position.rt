//! Positions of the game, and the plays and passes that lead from one to the next.

ghost use Rattle.std.specs.Prelude.{◌≡◌, ◌*◌, ◌<◌, replicate, None, IfOk};
ghost use Rattle.go_rules.specs.Board.{largest_points};
ghost use Rattle.go_rules.specs.Position.{BoardState, IsPosition, is_banned};
ghost use Rattle.go_rules.specs.Play.{pass as passed, play as played, play_free as played_free};
ghost use Rattle.go_rules.specs.Strings.{cell_at, string_at, liberty_points, liberties as liberties_at};
ghost use Rattle.go_base.specs.Positions.{Holds, HoldsWith, position_on};

use crate::ban::is_banned;
use crate::capture::play_on;
use crate::flood::{liberties_of, string_of};
use crate::points::PointSet;
use crate::size::{MAX_POINTS, Point, Size};
use crate::view::Flat;
use go_rules::{Cell, Colour, Illegal};
use std::marker::Model;

/// A position of the game: what stands on each point, and the ko ban. Every string has a liberty, and the ban's point
/// is on the board and empty. It is small and may be copied; no call takes memory.
#[derive(Clone, Copy, Debug, PartialEq, Eq)]
pub struct Position {
    size: Size,
    ban: Option<(Point, Colour)>,
    cells: [Cell; MAX_POINTS],
}

impl Model for Position {
    ghost use Rattle.go_rules.specs.Position.{BoardState};

    ghost Value = { BoardState };

    ghost use Rattle.go_base.specs.Positions.{position_of, HoldsPosition, kept_of, kept_of-position_of};

    ghost view = { position_of };

    ghost invariant = { HoldsPosition };

    ghost inverse = { kept_of };

    ghost inverse_ok = { kept_of-position_of };
}

/// The cells of a board with no stone.
fn empty_cells() -> [Cell; MAX_POINTS]
    ensures { result ≡ replicate largest_points Cell.Empty }
{
    [Cell::Empty; MAX_POINTS]
}

impl Position {
    /// The position that `board` holds, with the ban `ban`. If there is a ban, its point is empty.
    pub fn of(board: &Flat, ban: Option<(Point, Colour)>) -> Position
        requires { HoldsWith board.now ban }
        ensures { result ≡ position_on board.now ban }
    {
        Position {
            size: board.size,
            ban,
            cells: board.cells,
        }
    }

    /// The empty board, without a ban.
    pub fn new(size: Size) -> Position
        ensures { result ≡ record { size = size; cells = replicate (size * size) Cell.Empty; ban = None } }
    {
        let _ = size.get();
        Position {
            size,
            ban: None,
            cells: empty_cells(),
        }
    }

    /// The size of the board.
    pub fn size(&self) -> Size
        ensures value { result ≡ self.now.size }
        ensures position { IsPosition self.now }
    {
        self.size
    }

    /// What stands at `p`.
    pub fn cell(&self, p: Point) -> Cell
        requires { p < self.now.size * self.now.size }
        ensures { result ≡ cell_at self.now.cells p }
    {
        self.cells[p as usize]
    }

    /// The play that the ko ban forbids: a point, and the colour that may not play there.
    pub fn ban(&self) -> Option<(Point, Colour)>
        ensures { result ≡ self.now.ban }
    {
        self.ban
    }

    /// The position after a pass of either colour: this position without its ban.
    pub fn pass(&self) -> Position
        ensures { result ≡ passed self.now }
    {
        let mut next = *self;
        next.ban = None;
        next
    }

    /// A copy of the board, on which plays can be made.
    pub fn board(&self) -> Flat
        ensures { Holds self.now result }
    {
        let _ = self.size.get();
        Flat {
            size: self.size,
            cells: self.cells,
        }
    }

    /// The stones of the string of `p`; none if `p` is empty.
    pub fn string(&self, p: Point) -> PointSet
        requires { p < self.now.size * self.now.size }
        ensures { result ≡ string_at self.now.size self.now.cells p }
    {
        let mut board = self.board();
        string_of(&mut board, p)
    }

    /// The liberties of the string of `p`; none if `p` is empty.
    pub fn liberty_points(&self, p: Point) -> PointSet
        requires { p < self.now.size * self.now.size }
        ensures { result ≡ liberty_points self.now.size self.now.cells p }
    {
        let mut board = self.board();
        liberties_of(&mut board, p)
    }

    /// How many liberties the string of `p` has; 0 if `p` is empty.
    pub fn liberties(&self, p: Point) -> u16
        requires { p < self.now.size * self.now.size }
        ensures { result ≡ liberties_at self.now.size self.now.cells p }
    {
        self.liberty_points(p).count()
    }

    /// Whether the ko ban forbids `c` to play at `p`.
    pub fn bans(&self, c: Colour, p: Point) -> bool
        ensures { result ≡ is_banned self.now.ban c p }
    {
        is_banned(self.ban, c, p)
    }

    /// The position after `c` plays at `p` with the ban dropped first, or the refusal: `Occupied` or `Suicide` as for
    /// `play`, and never `Ko`.
    pub fn play_free(&self, c: Colour, p: Point) -> Result<Position, Illegal>
        requires { p < self.now.size * self.now.size }
        ensures value { result ≡ played_free self.now c p }
        ensures same_size { IfOk result (λ next. next.size ≡ self.now.size) }
    {
        let mut board = self.board();
        match play_on(&mut board, c, p) {
            Ok(played) => Ok(Position {
                size: board.size,
                ban: played.ban,
                cells: board.cells,
            }),
            Err(e) => Err(e),
        }
    }

    /// The position after `c` plays at `p`, or the first reason against it: `Occupied` if a stone stands at `p`, `Ko`
    /// if the ban forbids the play, `Suicide` if the stone's string would have no liberty after the captures.
    pub fn play(&self, c: Colour, p: Point) -> Result<Position, Illegal>
        requires { p < self.now.size * self.now.size }
        ensures value { result ≡ played self.now c p }
        ensures same_size { IfOk result (λ next. next.size ≡ self.now.size) }
    {
        if self.cells[p as usize] != Cell::Empty {
            return Err(Illegal::Occupied);
        }
        if self.bans(c, p) {
            return Err(Illegal::Ko);
        }
        self.play_free(c, p)
    }
}
