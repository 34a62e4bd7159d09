//! Whether a play takes nothing.

ghost use Rattle.std.specs.Prelude.{◌≡◌, ◌*◌, ◌<◌, true, false};
ghost use Rattle.go_rules.specs.Board.{largest_points};
ghost use Rattle.go_rules.specs.Position.{BoardState};
ghost use Rattle.go_rules.specs.Neighbourhood.{neighbourhood_of};
ghost use Rattle.go_base.specs.Facts.{Agrees, AddsIn};
ghost use Rattle.go_base.specs.Views.{alone};
ghost use Rattle.trial_board.specs.Overlays.{neighbourhood_twice};
ghost use Rattle.trial_board.specs.Trials.{KeepsTrial, after};
ghost use Rattle.read_moves.specs.Steps.{LivesWithout, AllLive};

use crate::reach::first_other;
use go_base::sides::neighbour;
use go_base::size::Point;
use go_base::{Colour, Look};
use trial_board::Trial;

/// How many liberties a string in atari has.
pub(crate) const IN_ATARI: u16 = 1;

/// Whether the string of `q` has a liberty other than `l`; true also if `q` holds no stone of the other colour than
/// `c`.
fn lives_without<L: Look>(board: &mut Trial<L>, c: Colour, l: Point, q: Point) -> bool
    requires small { l < largest_points }
    requires on_board { q < (L.shows board.old.look).size * (L.shows board.old.look).size }
    ensures stays { KeepsTrial L.shows L.seen board.old board.new }
    ensures over { (pos : BoardState) → Agrees (L.seen board.new.look) pos → result ≡ true
        → LivesWithout pos.size (after pos board.old.moves).cells c l q }
    ensures dies { (pos : BoardState) → Agrees (L.seen board.new.look) pos → result ≡ false
        → LivesWithout pos.size (after pos board.old.moves).cells c l q → ⊥ }
    ensures near { (pos : BoardState) → Agrees (L.seen board.new.look) pos
        → AddsIn (L.seen board.old.look) (L.seen board.new.look)
        (neighbourhood_of pos.size (after pos board.old.moves).cells (alone q)) }
{
    if board.cell(q) != c.other().cell() {
        return true;
    }
    let found = board.some_liberties(q, IN_ATARI);
    if found.count() > IN_ATARI {
        return true;
    }
    first_other(&found, l, 0).is_some()
}

/// Whether a stone of colour `c` at `l` takes nothing: each enemy string next to `l` has another liberty.
pub fn is_quiet<L: Look>(board: &mut Trial<L>, c: Colour, l: Point) -> bool
    requires { l < (L.shows board.old.look).size * (L.shows board.old.look).size }
    ensures stays { KeepsTrial L.shows L.seen board.old board.new }
    ensures over { (pos : BoardState) → Agrees (L.seen board.new.look) pos → result ≡ true
        → AllLive pos.size (after pos board.old.moves).cells c l }
    ensures dies { (pos : BoardState) → Agrees (L.seen board.new.look) pos → result ≡ false
        → AllLive pos.size (after pos board.old.moves).cells c l → ⊥ }
    ensures near { (pos : BoardState) → Agrees (L.seen board.new.look) pos
        → AddsIn (L.seen board.old.look) (L.seen board.new.look)
        (neighbourhood_twice pos.size (after pos board.old.moves).cells l) }
{
    let size = board.size();
    let _ = size.points();
    for side in 0..4 {
        if let Some(beside) = neighbour(size, l, side) {
            if !lives_without(board, c, l, beside) {
                return false;
            }
        }
    }
    true
}
