//! The points where a colour may play.

ghost use Rattle.std.specs.Prelude.{◌≡◌, ◌*◌, ◌<◌, is_ok};
ghost use Rattle.go_rules.specs.Position.{BoardState};
ghost use Rattle.go_rules.specs.Play.{play_free, is_legal, legal_points};
ghost use Rattle.go_base.specs.Positions.{Holds};

use crate::capture::{play_on, take_back};
use crate::points::PointSet;
use crate::position::Position;
use crate::size::Point;
use crate::view::Flat;
use go_rules::Colour;

/// Whether `c` may play at `p` with no regard to a ban. Afterwards the board is as it was before.
fn is_free(board: &mut Flat, c: Colour, p: Point) -> bool
    requires { p < board.old.size * board.old.size }
    ensures holds { (pos : BoardState) → Holds pos board.old → Holds pos board.new }
    ensures value { (pos : BoardState) → Holds pos board.old → result ≡ is_ok (play_free pos c p) }
{
    match play_on(board, c, p) {
        Ok(played) => {
            take_back(board, c, p, &played.taken);
            true
        }
        Err(_) => false,
    }
}

impl Position {
    /// Whether `c` may play at `p`. The play is tried on `board`, which holds the position before and afterwards.
    fn is_legal_on(&self, board: &mut Flat, c: Colour, p: Point) -> bool
        requires on_board { p < self.now.size * self.now.size }
        requires holds { Holds self.now board.old }
        ensures holds { Holds self.now board.new }
        ensures value { result ≡ is_legal self.now c p }
    {
        if self.bans(c, p) {
            return false;
        }
        is_free(board, c, p)
    }

    /// The points where `c` may play. The board is copied once, and each point is tried once on the copy. Takes no
    /// memory.
    pub fn legal_points(&self, c: Colour) -> PointSet
        ensures { result ≡ legal_points self.now c }
    {
        let mut board = self.board();
        let mut found = PointSet::new();
        for p in 0..self.size().points() {
            if self.is_legal_on(&mut board, c, p) {
                found.add(p);
            }
        }
        found
    }
}
