//! The neighbours of given points that hold a given cell.

ghost use Rattle.std.specs.Prelude.{◌≡◌, ℕ, ◌*◌, ◌<◌, ◌&&◌, ◌||◌, IsTrue, if◌then◌else◌};
ghost use Rattle.std.specs.FinSet as set;
ghost use Rattle.go_rules.specs.Below.{any_below};
ghost use Rattle.go_rules.specs.Board.{largest_points};
ghost use Rattle.go_rules.specs.Strings.{cell_at, same_cell};
ghost use Rattle.go_rules.specs.Position.{BoardState};
ghost use Rattle.go_rules.specs.Neighbourhood.{neighbourhood_of};
ghost use Rattle.go_base.specs.Facts.{Agrees, AddsIn};
ghost use Rattle.go_base.specs.Views.{alone, neighbours_of};
ghost use Rattle.trial_board.specs.Trials.{KeepsTrial, after};
ghost use Rattle.wider_rules.specs.Strings.{holds_next};

use go_base::points::PointSet;
use go_base::sides::neighbour;
use go_base::size::Point;
use go_base::{Cell, Look};
use trial_board::Trial;

/// Adds `q` to `found` if `q` holds `cell`.
fn add_where<L: Look>(board: &mut Trial<L>, cell: Cell, q: Point, found: &mut PointSet)
    requires on_board { q < (L.shows board.old.look).size * (L.shows board.old.look).size }
    requires small { q < largest_points }
    ensures stays { KeepsTrial L.shows L.seen board.old board.new }
    ensures over { (pos : BoardState) → Agrees (L.seen board.new.look) pos
        → found.new ≡ (if same_cell (cell_at (after pos board.old.moves).cells q) cell then set.insert found.old q
        else found.old) }
    ensures near { AddsIn (L.seen board.old.look) (L.seen board.new.look) (alone q) }
{
    if board.cell(q) == cell {
        found.add(q);
    }
}

/// Adds the neighbours of `l` that hold `cell` to `found`. The trial moves stay as they were, and it takes no memory.
pub fn add_sides<L: Look>(board: &mut Trial<L>, cell: Cell, l: Point, found: &mut PointSet)
    requires { l < (L.shows board.old.look).size * (L.shows board.old.look).size }
    ensures stays { KeepsTrial L.shows L.seen board.old board.new }
    ensures over { (pos : BoardState) → Agrees (L.seen board.new.look) pos → (p : ℕ)
        → set.contains found.new p
        ≡ (set.contains found.old p || holds_next pos.size (after pos board.old.moves).cells cell l p) }
    ensures near { (pos : BoardState) → Agrees (L.seen board.new.look) pos
        → AddsIn (L.seen board.old.look) (L.seen board.new.look) (neighbours_of pos.size l) }
{
    let size = board.size();
    for side in 0..4 {
        if let Some(q) = neighbour(size, l, side) {
            add_where(board, cell, q, found);
        }
    }
}

/// Adds each neighbour of a point of `points` that holds `cell` to `found`. The trial moves stay as they were, and it
/// takes no memory.
pub fn add_sides_of<L: Look>(
    board: &mut Trial<L>,
    cell: Cell,
    points: &PointSet,
    found: &mut PointSet,
)
    requires { (l : ℕ) → IsTrue (set.contains points.now l)
        → l < (L.shows board.old.look).size * (L.shows board.old.look).size }
    ensures stays { KeepsTrial L.shows L.seen board.old board.new }
    ensures over { (pos : BoardState) → Agrees (L.seen board.new.look) pos → (p : ℕ)
        → set.contains found.new p ≡ (set.contains found.old p || any_below (pos.size * pos.size)
        (λ l. set.contains points.now l && holds_next pos.size (after pos board.old.moves).cells cell l p)) }
    ensures near { (pos : BoardState) → Agrees (L.seen board.new.look) pos
        → AddsIn (L.seen board.old.look) (L.seen board.new.look)
        (λ r. any_below (pos.size * pos.size) (λ l. set.contains points.now l && neighbours_of pos.size l r)) }
{
    let mut next = 0;
    while let Some(l) = points.first_from(next) {
        add_sides(board, cell, l, found);
        next = l + 1;
    }
}

/// Each neighbour of a point of `points` that holds `cell`.
pub(crate) fn sides_of<L: Look>(board: &mut Trial<L>, cell: Cell, points: &PointSet) -> PointSet
    requires { (l : ℕ) → IsTrue (set.contains points.now l)
        → l < (L.shows board.old.look).size * (L.shows board.old.look).size }
    ensures stays { KeepsTrial L.shows L.seen board.old board.new }
    ensures over { (pos : BoardState) → Agrees (L.seen board.new.look) pos → (p : ℕ)
        → set.contains result p ≡ any_below (pos.size * pos.size)
        (λ l. set.contains points.now l && holds_next pos.size (after pos board.old.moves).cells cell l p) }
    ensures near { (pos : BoardState) → Agrees (L.seen board.new.look) pos
        → AddsIn (L.seen board.old.look) (L.seen board.new.look)
        (neighbourhood_of pos.size (after pos board.old.moves).cells (set.contains points.now)) }
{
    let mut found = PointSet::new();
    add_sides_of(board, cell, points, &mut found);
    found
}
