//! Approach: the enemy strings that stand in the way at a point where a defender's stone would be cramped.

ghost use Rattle.std.specs.Prelude.{◌≡◌, ℕ, ◌*◌, ◌<◌, ◌&&◌, ◌||◌, IsTrue, nat_lt};
ghost use Rattle.std.specs.FinSet as set;
ghost use Rattle.go_rules.specs.Below.{any_below};
ghost use Rattle.go_rules.specs.Neighbourhood.{neighbourhood_of};
ghost use Rattle.go_rules.specs.Position.{BoardState};
ghost use Rattle.go_base.specs.Facts.{Agrees, AddsIn};
ghost use Rattle.go_base.specs.Views.{neighbours_of};
ghost use Rattle.trial_board.specs.Overlays.{neighbourhood_twice};
ghost use Rattle.trial_board.specs.Trials.{KeepsTrial, after};
ghost use Rattle.wider_rules.specs.Cramped.{foe_of, is_reached, takes_some, is_cramped};
ghost use Rattle.wider_rules.specs.Further.{is_in_the_way, is_approach};
ghost use Rattle.wider_rules.specs.FurtherAreas.{fourth_area};
ghost use Rattle.wider_rules.specs.Strings.{holds_next};

use crate::last::last_liberties;
use crate::sets::weak_enemies;
use crate::sides::add_sides;
use crate::strings::around_strings;
use go_base::points::PointSet;
use go_base::size::Point;
use go_base::{Cell, Look};
use trial_board::Trial;

/// The bound on the liberties of an enemy string that stands in the way, and of the enemy string next to the target.
const FEW_IN_THE_WAY: u16 = 2;

/// How many points a cramped stone reaches at most.
const FEW_REACHED: u16 = 1;

/// A stone of the other colour; an empty cell stays empty.
fn foe_of(cell: Cell) -> Cell
    ensures { result ≡ foe_of cell }
{
    match cell {
        Cell::Empty => Cell::Empty,
        Cell::Black => Cell::White,
        Cell::White => Cell::Black,
    }
}

/// The neighbours of `l` that hold `cell`.
fn neighbours_with<L: Look>(board: &mut Trial<L>, cell: Cell, l: Point) -> PointSet
    requires { l < (L.shows board.old.look).size * (L.shows board.old.look).size }
    ensures stays { KeepsTrial L.shows L.seen board.old board.new }
    ensures over { (pos : BoardState) → Agrees (L.seen board.new.look) pos → (q : ℕ)
        → set.contains result q ≡ holds_next pos.size (after pos board.old.moves).cells cell l q }
    ensures near { (pos : BoardState) → Agrees (L.seen board.new.look) pos
        → AddsIn (L.seen board.old.look) (L.seen board.new.look) (neighbours_of pos.size l) }
{
    let mut found = PointSet::new();
    add_sides(board, cell, l, &mut found);
    found
}

/// The points that a stone `own` reaches if it is played at `l`.
fn reached<L: Look>(board: &mut Trial<L>, own: Cell, l: Point) -> PointSet
    requires { l < (L.shows board.old.look).size * (L.shows board.old.look).size }
    ensures stays { KeepsTrial L.shows L.seen board.old board.new }
    ensures over { (pos : BoardState) → Agrees (L.seen board.new.look) pos → (x : ℕ)
        → set.contains result x ≡ is_reached pos.size (after pos board.old.moves).cells own l x }
    ensures near { (pos : BoardState) → Agrees (L.seen board.new.look) pos
        → AddsIn (L.seen board.old.look) (L.seen board.new.look)
        (neighbourhood_twice pos.size (after pos board.old.moves).cells l) }
{
    let all = board.size().points();
    let friends = neighbours_with(board, own, l);
    let joined = around_strings(board, 0, all, &friends);
    let mut found = joined.liberties.without(l);
    add_sides(board, Cell::Empty, l, &mut found);
    found
}

/// Whether a stone `own` takes a string if it is played at `l`.
fn takes_some<L: Look>(board: &mut Trial<L>, own: Cell, l: Point) -> bool
    requires { l < (L.shows board.old.look).size * (L.shows board.old.look).size }
    ensures stays { KeepsTrial L.shows L.seen board.old board.new }
    ensures over { (pos : BoardState) → Agrees (L.seen board.new.look) pos
        → result ≡ takes_some pos.size (after pos board.old.moves).cells own l }
    ensures near { (pos : BoardState) → Agrees (L.seen board.new.look) pos
        → AddsIn (L.seen board.old.look) (L.seen board.new.look)
        (neighbourhood_twice pos.size (after pos board.old.moves).cells l) }
{
    let _ = board.size().points();
    let foes = neighbours_with(board, foe_of(own), l);
    last_liberties(board, &foes).has(l)
}

/// Whether a stone `own` is cramped if it is played at `l`: it takes nothing, and it reaches at most one point.
fn is_cramped<L: Look>(board: &mut Trial<L>, own: Cell, l: Point) -> bool
    requires { l < (L.shows board.old.look).size * (L.shows board.old.look).size }
    ensures stays { KeepsTrial L.shows L.seen board.old board.new }
    ensures over { (pos : BoardState) → Agrees (L.seen board.new.look) pos
        → result ≡ is_cramped pos.size (after pos board.old.moves).cells own l }
    ensures near { (pos : BoardState) → Agrees (L.seen board.new.look) pos
        → AddsIn (L.seen board.old.look) (L.seen board.new.look)
        (neighbourhood_twice pos.size (after pos board.old.moves).cells l) }
{
    if reached(board, own, l).count() > FEW_REACHED {
        return false;
    }
    !takes_some(board, own, l)
}

/// Adds the enemy stones next to `l` to `found` if a stone `own` would be cramped at `l`.
fn add_in_the_way<L: Look>(board: &mut Trial<L>, own: Cell, l: Point, found: &mut PointSet)
    requires { l < (L.shows board.old.look).size * (L.shows board.old.look).size }
    ensures stays { KeepsTrial L.shows L.seen board.old board.new }
    ensures over { (pos : BoardState) → Agrees (L.seen board.new.look) pos → (r : ℕ)
        → set.contains found.new r ≡ (set.contains found.old r
        || (is_cramped pos.size (after pos board.old.moves).cells own l
        && holds_next pos.size (after pos board.old.moves).cells (foe_of own) l r)) }
    ensures near { (pos : BoardState) → Agrees (L.seen board.new.look) pos
        → AddsIn (L.seen board.old.look) (L.seen board.new.look)
        (neighbourhood_twice pos.size (after pos board.old.moves).cells l) }
{
    if is_cramped(board, own, l) {
        add_sides(board, foe_of(own), l, found);
    }
}

/// The enemy stones next to a point of `points` at which a stone `own` would be cramped.
fn beside_cramped<L: Look>(board: &mut Trial<L>, own: Cell, points: &PointSet) -> PointSet
    requires { (l : ℕ) → IsTrue (set.contains points.now l)
        → l < (L.shows board.old.look).size * (L.shows board.old.look).size }
    ensures stays { KeepsTrial L.shows L.seen board.old board.new }
    ensures over { (pos : BoardState) → Agrees (L.seen board.new.look) pos → (r : ℕ)
        → set.contains result r ≡ any_below (pos.size * pos.size) (λ l. set.contains points.now l
        && (is_cramped pos.size (after pos board.old.moves).cells own l
        && holds_next pos.size (after pos board.old.moves).cells (foe_of own) l r)) }
    ensures near { (pos : BoardState) → Agrees (L.seen board.new.look) pos
        → AddsIn (L.seen board.old.look) (L.seen board.new.look)
        (neighbourhood_of pos.size (after pos board.old.moves).cells
        (neighbourhood_of pos.size (after pos board.old.moves).cells (set.contains points.now))) }
{
    let mut found = PointSet::new();
    let mut next = 0;
    while let Some(l) = points.first_from(next) {
        add_in_the_way(board, own, l, &mut found);
        next = l + 1;
    }
    found
}

/// The enemy stones that stand in the way of the target's side: they are next to a liberty of a weak enemy string, and
/// a stone of the target's colour would be cramped at that liberty.
fn in_the_way<L: Look>(board: &mut Trial<L>, target: Point) -> PointSet
    requires { target < (L.shows board.old.look).size * (L.shows board.old.look).size }
    ensures stays { KeepsTrial L.shows L.seen board.old board.new }
    ensures over { (pos : BoardState) → Agrees (L.seen board.new.look) pos → (r : ℕ)
        → set.contains result r
        ≡ (nat_lt r (pos.size * pos.size) && is_in_the_way pos.size (after pos board.old.moves).cells target r) }
    ensures near { (pos : BoardState) → Agrees (L.seen board.new.look) pos
        → AddsIn (L.seen board.old.look) (L.seen board.new.look)
        (fourth_area pos.size (after pos board.old.moves).cells target) }
{
    let own = board.cell(target);
    let weak = weak_enemies(board, target, FEW_IN_THE_WAY);
    beside_cramped(board, own, &weak.liberties)
}

/// The points of Approach: the liberties of the strings that stand in the way and have at most two liberties.
pub(crate) fn approach<L: Look>(board: &mut Trial<L>, target: Point) -> PointSet
    requires { target < (L.shows board.old.look).size * (L.shows board.old.look).size }
    ensures stays { KeepsTrial L.shows L.seen board.old board.new }
    ensures over { (pos : BoardState) → Agrees (L.seen board.new.look) pos → (p : ℕ)
        → set.contains result p ≡ is_approach pos.size (after pos board.old.moves).cells target p }
    ensures near { (pos : BoardState) → Agrees (L.seen board.new.look) pos
        → AddsIn (L.seen board.old.look) (L.seen board.new.look)
        (fourth_area pos.size (after pos board.old.moves).cells target) }
{
    let foes = in_the_way(board, target);
    let near = around_strings(board, 0, FEW_IN_THE_WAY, &foes);
    near.liberties
}
