//! A board that keeps its strings, seen as a view of its position: the answers are the board's own, and no facts are
//! stored.

ghost use Rattle.std.specs.Prelude.{◌≡◌};
ghost use Rattle.go_base.specs.Facts.{Agrees, Agrees-prop};
ghost use Rattle.go_strings.specs.Games.{reached};
ghost use Rattle.go_strings.specs.Seen.{is_so};

use crate::board::StringBoard;
use go_base::look::Look;
use go_base::{Cell, Colour, Point, Size};

/// A view of the position that a board shows. The facts seen are all facts of this position.
#[derive(Drop)]
pub struct BoardLook<'a> {
    board: &'a StringBoard,
    ghost holds: { Agrees (is_so (reached board.now)) (reached board.now) } by { Agrees-prop _ _ },
}

impl<'a> BoardLook<'a> {
    ghost use Rattle.go_strings.specs.Shown.{shown_by};

    /// The view of the board as it is now.
    pub fn new(board: &'a StringBoard) -> BoardLook<'a>
        ensures { shown_by result ≡ reached board.now }
    {
        let _ = board.size();
        BoardLook { board }
    }
}

impl<'a> Look for BoardLook<'a> {
    ghost use Rattle.go_strings.specs.Games.{reached};
    ghost use Rattle.go_strings.specs.Seen.{is_so, size_is_so};

    ghost shows = { λ w. reached w.board.now };

    ghost seen = { λ w. is_so (reached w.board.now) };

    ghost holds = { λ w. w.holds };

    ghost sized = { λ w. size_is_so (reached w.board.now) };

    fn size(&self) -> Size {
        self.board.size()
    }

    fn cell(&mut self, p: Point) -> Cell {
        self.board.cell(p)
    }

    fn ko(&mut self, p: Point, c: Colour) -> bool {
        self.board.bans(c, p)
    }
}
