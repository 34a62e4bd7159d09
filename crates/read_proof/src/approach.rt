//! The points of Approach: plays by which the defender clears the way for a stone of his that would be cramped.

ghost use Rattle.std.specs.Prelude.{◌≡◌, ℕ, ◌*◌, ◌<◌, ◌==◌, ◌&&◌, ◌||◌, nat_lt};
ghost use Rattle.std.specs.FinSet as set;
ghost use Rattle.go_rules.specs.Board.{largest_points};
ghost use Rattle.wider_rules.specs.Cramped.{foe_of, is_reached, takes_some, is_cramped};
ghost use Rattle.wider_rules.specs.Further.{is_beside, is_in_the_way, is_approach};
ghost use Rattle.wider_rules.specs.Strings.{holds_next};

use crate::beside::beside;
use crate::strings::{all_liberties, around_strings, last_liberties};
use go_base::{Cell, Point, PointSet, Position};

/// A stone that reaches this number of points or more is not cramped.
const ROOM: u16 = 2;

/// How many liberties an enemy string may have that the defender approaches.
const FEW_OF_APPROACHED: u16 = 2;

/// The stone of the other colour; nothing if there is no stone.
fn foe_of(cell: Cell) -> Cell
    ensures { result ≡ foe_of cell }
{
    match cell {
        Cell::Empty => Cell::Empty,
        Cell::Black => Cell::White,
        Cell::White => Cell::Black,
    }
}

/// The neighbours of `l` whose cell is `cell`.
fn next_to(pos: &Position, cell: Cell, l: Point) -> PointSet
    requires on_board { l < pos.now.size * pos.now.size }
    requires small { l < largest_points }
    ensures { (q : ℕ) → set.contains result q ≡ holds_next pos.now.size pos.now.cells cell l q }
{
    let mut alone = PointSet::new();
    alone.add(l);
    beside(pos, cell, &alone)
}

/// The points that a stone `own` played at `l` reaches: the empty neighbours of `l`, and the other liberties of the
/// strings of its colour next to `l`.
fn reached(pos: &Position, own: Cell, l: Point) -> PointSet
    requires on_board { l < pos.now.size * pos.now.size }
    requires small { l < largest_points }
    ensures { (x : ℕ) → set.contains result x ≡ is_reached pos.now.size pos.now.cells own l x }
{
    let mut found = all_liberties(pos, &next_to(pos, own, l)).without(l);
    found.join(&next_to(pos, Cell::Empty, l));
    found
}

/// Whether a stone `own` played at `l` captures an enemy string next to it.
fn takes_some(pos: &Position, own: Cell, l: Point) -> bool
    requires on_board { l < pos.now.size * pos.now.size }
    requires small { l < largest_points }
    ensures { result ≡ takes_some pos.now.size pos.now.cells own l }
{
    last_liberties(pos, &next_to(pos, foe_of(own), l)).has(l)
}

/// Whether a stone that reaches `reached` points has no room.
fn is_no_room(reached: u16) -> bool
    ensures { result ≡ nat_lt reached 2 }
{
    reached < ROOM
}

/// Whether a stone `own` played at `l` is cramped: it captures nothing, and it reaches at most one point.
fn is_cramped(pos: &Position, own: Cell, l: Point) -> bool
    requires on_board { l < pos.now.size * pos.now.size }
    requires small { l < largest_points }
    ensures { result ≡ is_cramped pos.now.size pos.now.cells own l }
{
    let takes = takes_some(pos, own, l);
    is_no_room(reached(pos, own, l).count()) && !takes
}

/// Adds `l` to `found` if `l` is in `points` and a stone `own` is cramped there.
fn add_cramped(pos: &Position, own: Cell, points: &PointSet, l: Point, found: &mut PointSet)
    requires on_board { l < pos.now.size * pos.now.size }
    requires small { l < largest_points }
    ensures { (r : ℕ) → set.contains found.new r ≡ (set.contains found.old r || ((r == l)
        && (nat_lt l (pos.now.size * pos.now.size)
        && (set.contains points.now l && is_cramped pos.now.size pos.now.cells own l)))) }
{
    if !points.has(l) {
        return;
    }
    if is_cramped(pos, own, l) {
        found.add(l);
    }
}

/// The points of `points` at which a stone `own` is cramped.
fn cramped(pos: &Position, own: Cell, points: &PointSet) -> PointSet
    ensures { (l : ℕ) → set.contains result l ≡ (nat_lt l (pos.now.size * pos.now.size)
        && (set.contains points.now l && is_cramped pos.now.size pos.now.cells own l)) }
{
    let mut found = PointSet::new();
    for l in 0..pos.size().points() {
        add_cramped(pos, own, points, l, &mut found);
    }
    found
}

/// The enemy stones next to a point of Beside at which a stone of the target's colour is cramped. `weak` holds the
/// points of Beside: the liberties of the enemy strings next to the target that have at most two.
fn in_the_way(pos: &Position, target: Point, weak: &PointSet) -> PointSet
    requires on_board { target < pos.now.size * pos.now.size }
    requires weak { (l : ℕ) → set.contains weak.now l ≡ is_beside 2 pos.now.size pos.now.cells target l }
    ensures { (r : ℕ) → set.contains result r
        ≡ (nat_lt r (pos.now.size * pos.now.size) && is_in_the_way pos.now.size pos.now.cells target r) }
{
    let own = pos.cell(target);
    beside(pos, foe_of(own), &cramped(pos, own, weak))
}

/// The points of Approach: the liberties of the strings in the way that have at most two. `weak` holds the points of
/// Beside: the liberties of the enemy strings next to the target that have at most two.
pub(crate) fn approach(pos: &Position, target: Point, weak: &PointSet) -> PointSet
    requires on_board { target < pos.now.size * pos.now.size }
    requires weak { (l : ℕ) → set.contains weak.now l ≡ is_beside 2 pos.now.size pos.now.cells target l }
    ensures { (p : ℕ) → set.contains result p ≡ is_approach pos.now.size pos.now.cells target p }
{
    around_strings(pos, 0, FEW_OF_APPROACHED, &in_the_way(pos, target, weak)).liberties
}
