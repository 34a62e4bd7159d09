//! The last liberties of strings in atari.

ghost use Rattle.std.specs.Prelude.{◌≡◌, ℕ, ◌*◌, ◌<◌, ◌&&◌, ◌||◌, IsTrue};
ghost use Rattle.std.specs.FinSet as set;
ghost use Rattle.go_rules.specs.Below.{any_below};
ghost use Rattle.go_rules.specs.Position.{BoardState};
ghost use Rattle.go_rules.specs.Neighbourhood.{neighbourhood_of};
ghost use Rattle.go_base.specs.Facts.{Agrees, AddsIn};
ghost use Rattle.go_base.specs.Surroundings.{is_only_liberty};
ghost use Rattle.go_base.specs.Views.{alone};
ghost use Rattle.trial_board.specs.Trials.{KeepsTrial, after};

use go_base::Look;
use go_base::points::PointSet;
use go_base::size::Point;
use trial_board::Trial;

/// How many liberties a string in atari has.
const IN_ATARI: u16 = 1;

/// Adds the last liberty of the string of `r` to `found` if the string is in atari. The search stops at the second
/// liberty.
fn add_last_liberty<L: Look>(board: &mut Trial<L>, r: Point, found: &mut PointSet)
    requires { r < (L.shows board.old.look).size * (L.shows board.old.look).size }
    ensures stays { KeepsTrial L.shows L.seen board.old board.new }
    ensures over { (pos : BoardState) → Agrees (L.seen board.new.look) pos → (p : ℕ)
        → set.contains found.new p
        ≡ (set.contains found.old p || is_only_liberty pos.size (after pos board.old.moves).cells r p) }
    ensures near { (pos : BoardState) → Agrees (L.seen board.new.look) pos
        → AddsIn (L.seen board.old.look) (L.seen board.new.look)
        (neighbourhood_of pos.size (after pos board.old.moves).cells (alone r)) }
{
    let liberties = board.some_liberties(r, IN_ATARI);
    if liberties.count() == IN_ATARI {
        found.join(&liberties);
    }
}

/// The points that are the last liberty of a string at one of `points`.
pub(crate) fn last_liberties<L: Look>(board: &mut Trial<L>, points: &PointSet) -> PointSet
    requires { (r : ℕ) → IsTrue (set.contains points.now r)
        → r < (L.shows board.old.look).size * (L.shows board.old.look).size }
    ensures stays { KeepsTrial L.shows L.seen board.old board.new }
    ensures over { (pos : BoardState) → Agrees (L.seen board.new.look) pos → (p : ℕ)
        → set.contains result p ≡ any_below (pos.size * pos.size)
        (λ r. set.contains points.now r && is_only_liberty pos.size (after pos board.old.moves).cells r p) }
    ensures near { (pos : BoardState) → Agrees (L.seen board.new.look) pos
        → AddsIn (L.seen board.old.look) (L.seen board.new.look)
        (neighbourhood_of pos.size (after pos board.old.moves).cells (set.contains points.now)) }
{
    let mut found = PointSet::new();
    let mut next = 0;
    while let Some(r) = points.first_from(next) {
        add_last_liberty(board, r, &mut found);
        next = r + 1;
    }
    found
}
