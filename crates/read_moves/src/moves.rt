//! The points that a reading tries besides a target's liberties: the empty neighbours of a point, and the liberties
//! that plays on the target's liberties would leave.

ghost use Rattle.std.specs.Prelude.{◌≡◌, ℕ, ◌*◌, ◌<◌, ◌≤◌, ◌&&◌, ◌||◌, IsTrue};
ghost use Rattle.std.specs.FinSet as set;
ghost use Rattle.go_rules.specs.Below.{any_below, count_below};
ghost use Rattle.go_rules.specs.Board.{largest_points};
ghost use Rattle.go_rules.specs.Position.{BoardState};
ghost use Rattle.go_base.specs.Facts.{Agrees, AddsIn};
ghost use Rattle.go_base.specs.Views.{alone, neighbours_of};
ghost use Rattle.trial_board.specs.Overlays.{neighbourhood_twice};
ghost use Rattle.trial_board.specs.Trials.{KeepsTrial, after};
ghost use Rattle.read_rules.specs.Candidates.{is_empty_beside};
ghost use Rattle.read_moves.specs.Steps.{is_left};

use crate::quiet::is_quiet;
use crate::reach::{Reach, reach_of};
use go_base::points::PointSet;
use go_base::size::Point;
use go_base::{Cell, Colour, Look};
use trial_board::Trial;
use wider_moves::sides;

/// Adds the empty neighbours of `l` to `found`.
pub fn add_sides<L: Look>(board: &mut Trial<L>, l: Point, found: &mut PointSet)
    requires { l < (L.shows board.old.look).size * (L.shows board.old.look).size }
    ensures stays { KeepsTrial L.shows L.seen board.old board.new }
    ensures over { (pos : BoardState) → Agrees (L.seen board.new.look) pos → (p : ℕ)
        → set.contains found.new p
        ≡ (set.contains found.old p || is_empty_beside pos.size (after pos board.old.moves).cells (alone l) p) }
    ensures near { (pos : BoardState) → Agrees (L.seen board.new.look) pos
        → AddsIn (L.seen board.old.look) (L.seen board.new.look) (neighbours_of pos.size l) }
{
    sides::add_sides(board, Cell::Empty, l, found);
}

/// How many neighbours of `l` are empty.
pub fn empty_sides<L: Look>(board: &mut Trial<L>, l: Point) -> u16
    requires { l < (L.shows board.old.look).size * (L.shows board.old.look).size }
    ensures stays { KeepsTrial L.shows L.seen board.old board.new }
    ensures few { result ≤ largest_points }
    ensures over { (pos : BoardState) → Agrees (L.seen board.new.look) pos
        → result ≡ count_below (pos.size * pos.size) (is_empty_beside pos.size (after pos board.old.moves).cells
        (alone l)) }
    ensures near { (pos : BoardState) → Agrees (L.seen board.new.look) pos
        → AddsIn (L.seen board.old.look) (L.seen board.new.look) (neighbours_of pos.size l) }
{
    let mut sides = PointSet::new();
    add_sides(board, l, &mut sides);
    sides.count()
}

/// Adds the one liberty that a stone of colour `c` at `l` would have to `found`, if that point is empty now. No play is
/// tried: the liberties of a stone that takes nothing are the points that it reaches, and a stone that takes a string
/// has a liberty where a taken stone stood, which is not empty now.
fn add_backfilling_at<L: Look>(board: &mut Trial<L>, c: Colour, l: Point, found: &mut PointSet)
    requires { l < (L.shows board.old.look).size * (L.shows board.old.look).size }
    ensures stays { KeepsTrial L.shows L.seen board.old board.new }
    ensures over { (pos : BoardState) → Agrees (L.seen board.new.look) pos → (p : ℕ)
        → set.contains found.new p ≡ (set.contains found.old p || is_left (after pos board.old.moves) c l p) }
    ensures near { (pos : BoardState) → Agrees (L.seen board.new.look) pos
        → AddsIn (L.seen board.old.look) (L.seen board.new.look)
        (neighbourhood_twice pos.size (after pos board.old.moves).cells l) }
{
    if board.cell(l) != Cell::Empty {
        return;
    }
    match reach_of(board, c, l) {
        Reach::Nothing | Reach::More => {}
        Reach::Only(p) => {
            if is_quiet(board, c, l) {
                found.add(p);
            }
        }
    }
}

/// For each point of `points`, adds the one liberty that a stone of colour `c` there would have to `found`, if that
/// liberty is empty now.
pub(crate) fn add_backfilling<L: Look>(
    board: &mut Trial<L>,
    c: Colour,
    points: &PointSet,
    found: &mut PointSet,
)
    requires { (l : ℕ) → IsTrue (set.contains points.now l)
        → l < (L.shows board.old.look).size * (L.shows board.old.look).size }
    ensures stays { KeepsTrial L.shows L.seen board.old board.new }
    ensures over { (pos : BoardState) → Agrees (L.seen board.new.look) pos → (p : ℕ)
        → set.contains found.new p ≡ (set.contains found.old p || any_below (pos.size * pos.size)
        (λ l. set.contains points.now l && is_left (after pos board.old.moves) c l p)) }
    ensures near { (pos : BoardState) → Agrees (L.seen board.new.look) pos
        → AddsIn (L.seen board.old.look) (L.seen board.new.look)
        (λ r. any_below (pos.size * pos.size)
        (λ l. set.contains points.now l && neighbourhood_twice pos.size (after pos board.old.moves).cells l r)) }
{
    let mut from = 0;
    while let Some(l) = points.first_from(from) {
        add_backfilling_at(board, c, l, found);
        from = l + 1;
    }
}
