//! The sets of further candidates, and the strings that give these sets.

ghost use Rattle.std.specs.Prelude.{◌≡◌, ℕ, ◌*◌, ◌<◌, ◌&&◌, IsTrue, nat_lt};
ghost use Rattle.std.specs.FinSet as set;
ghost use Rattle.go_rules.specs.Position.{BoardState};
ghost use Rattle.go_rules.specs.Strings.{liberty_points};
ghost use Rattle.go_rules.specs.Neighbourhood.{neighbourhood_of};
ghost use Rattle.go_base.specs.Facts.{Agrees, AddsIn};
ghost use Rattle.trial_board.specs.Trials.{KeepsTrial, after};
ghost use Rattle.wider_rules.specs.Further.{is_net, is_beside, is_ally, is_join, is_cutter};
ghost use Rattle.wider_rules.specs.Further.{is_covered_liberty, is_cover};
ghost use Rattle.wider_rules.specs.FurtherAreas.{second_area, third_area};
ghost use Rattle.wider_rules.specs.Strings.{is_near_friend};

use crate::sides::sides_of;
use crate::strings::{Around, around_strings};
use go_base::flood::Found;
use go_base::points::PointSet;
use go_base::size::Point;
use go_base::{Cell, Look};
use trial_board::Trial;

/// The attacker tries a net around a target with exactly this many liberties.
const NETTED: u16 = 3;

/// The defender tries a net around an enemy string with at least this many liberties.
const LEAST_OF_COVERED: u16 = 2;

/// The defender tries a net around an enemy string with at most this many liberties.
const FEW_OF_COVERED: u16 = 3;

/// What stands around the enemy strings next to a target that have few liberties.
#[derive(Drop)]
pub(crate) struct WeakEnemies {
    /// The liberties of the weak enemy strings, which are the points of Beside.
    pub liberties: PointSet,
    /// The stones of the target's colour next to the weak enemy strings that are not of the target's string.
    pub allies: PointSet,
}

/// The points of Net: the empty neighbours of `liberties`, which are the target's, if there are exactly three.
pub(crate) fn net<L: Look>(board: &mut Trial<L>, liberties: &PointSet) -> PointSet
    requires { (l : ℕ) → IsTrue (set.contains liberties.now l)
        → l < (L.shows board.old.look).size * (L.shows board.old.look).size }
    ensures stays { KeepsTrial L.shows L.seen board.old board.new }
    ensures over { (pos : BoardState) → Agrees (L.seen board.new.look) pos → (target : ℕ)
        → liberties.now ≡ liberty_points pos.size (after pos board.old.moves).cells target → (p : ℕ)
        → set.contains result p ≡ is_net pos.size (after pos board.old.moves).cells target p }
    ensures near { (pos : BoardState) → Agrees (L.seen board.new.look) pos
        → AddsIn (L.seen board.old.look) (L.seen board.new.look)
        (neighbourhood_of pos.size (after pos board.old.moves).cells (set.contains liberties.now)) }
{
    if liberties.count() == NETTED {
        return sides_of(board, Cell::Empty, liberties);
    }
    PointSet::new()
}

/// The points of Beside for enemy strings with at most `most` liberties, and the allies next to these strings.
pub(crate) fn weak_enemies<L: Look>(board: &mut Trial<L>, target: Point, most: u16) -> WeakEnemies
    requires { target < (L.shows board.old.look).size * (L.shows board.old.look).size }
    ensures stays { KeepsTrial L.shows L.seen board.old board.new }
    ensures liberties { (pos : BoardState) → Agrees (L.seen board.new.look) pos → (p : ℕ)
        → set.contains result.liberties p ≡ is_beside most pos.size (after pos board.old.moves).cells target p }
    ensures allies { (pos : BoardState) → Agrees (L.seen board.new.look) pos → (r : ℕ)
        → set.contains result.allies r
        ≡ (nat_lt r (pos.size * pos.size) && is_ally most pos.size (after pos board.old.moves).cells target r) }
    ensures near { (pos : BoardState) → Agrees (L.seen board.new.look) pos
        → AddsIn (L.seen board.old.look) (L.seen board.new.look)
        (second_area pos.size (after pos board.old.moves).cells target) }
{
    let Found {
        stones,
        liberties: _,
        enemies,
    } = board.string(target);
    let weak = around_strings(board, 0, most, &enemies);
    WeakEnemies {
        liberties: weak.liberties,
        allies: weak.enemies.difference(&stones),
    }
}

/// The stones of the target's colour next to one of its `liberties` that are not of the target's string.
fn near_friends<L: Look>(board: &mut Trial<L>, target: Point, liberties: &PointSet) -> PointSet
    requires on_board { target < (L.shows board.old.look).size * (L.shows board.old.look).size }
    requires liberties { (pos : BoardState) → Agrees (L.seen board.old.look) pos
        → liberties.now ≡ liberty_points pos.size (after pos board.old.moves).cells target }
    ensures stays { KeepsTrial L.shows L.seen board.old board.new }
    ensures over { (pos : BoardState) → Agrees (L.seen board.new.look) pos → (q : ℕ)
        → set.contains result q
        ≡ (nat_lt q (pos.size * pos.size) && is_near_friend pos.size (after pos board.old.moves).cells target q) }
    ensures near { (pos : BoardState) → Agrees (L.seen board.new.look) pos
        → AddsIn (L.seen board.old.look) (L.seen board.new.look)
        (second_area pos.size (after pos board.old.moves).cells target) }
{
    let cell = board.cell(target);
    let Found {
        stones,
        liberties: _,
        enemies: _,
    } = board.string(target);
    let friends = sides_of(board, cell, liberties);
    friends.difference(&stones)
}

/// The liberties of the linked strings with at most `most` liberties, which are the points of Join and of Link, and the
/// enemy stones next to these strings. `liberties` are the target's.
pub(crate) fn linked_strings<L: Look>(
    board: &mut Trial<L>,
    target: Point,
    most: u16,
    liberties: &PointSet,
) -> Around
    requires on_board { target < (L.shows board.old.look).size * (L.shows board.old.look).size }
    requires liberties { (pos : BoardState) → Agrees (L.seen board.old.look) pos
        → liberties.now ≡ liberty_points pos.size (after pos board.old.moves).cells target }
    ensures stays { KeepsTrial L.shows L.seen board.old board.new }
    ensures liberties { (pos : BoardState) → Agrees (L.seen board.new.look) pos → (p : ℕ)
        → set.contains result.liberties p ≡ is_join most pos.size (after pos board.old.moves).cells target p }
    ensures enemies { (pos : BoardState) → Agrees (L.seen board.new.look) pos → (r : ℕ)
        → set.contains result.enemies r ≡ (nat_lt r (pos.size * pos.size)
        && is_cutter most pos.size (after pos board.old.moves).cells target r) }
    ensures near { (pos : BoardState) → Agrees (L.seen board.new.look) pos
        → AddsIn (L.seen board.old.look) (L.seen board.new.look)
        (third_area pos.size (after pos board.old.moves).cells target) }
{
    let friends = near_friends(board, target, liberties);
    around_strings(board, 0, most, &friends)
}

/// The liberties of the enemy strings that are next to the target and have two or three liberties.
fn covered_liberties<L: Look>(board: &mut Trial<L>, target: Point) -> PointSet
    requires { target < (L.shows board.old.look).size * (L.shows board.old.look).size }
    ensures stays { KeepsTrial L.shows L.seen board.old board.new }
    ensures over { (pos : BoardState) → Agrees (L.seen board.new.look) pos → (l : ℕ)
        → set.contains result l ≡ is_covered_liberty pos.size (after pos board.old.moves).cells target l }
    ensures near { (pos : BoardState) → Agrees (L.seen board.new.look) pos
        → AddsIn (L.seen board.old.look) (L.seen board.new.look)
        (second_area pos.size (after pos board.old.moves).cells target) }
{
    let Found {
        stones: _,
        liberties: _,
        enemies,
    } = board.string(target);
    let covered = around_strings(board, LEAST_OF_COVERED, FEW_OF_COVERED, &enemies);
    covered.liberties
}

/// The points of Cover: the empty neighbours of the liberties of an enemy string that is next to the target and has two
/// or three liberties.
pub(crate) fn cover<L: Look>(board: &mut Trial<L>, target: Point) -> PointSet
    requires { target < (L.shows board.old.look).size * (L.shows board.old.look).size }
    ensures stays { KeepsTrial L.shows L.seen board.old board.new }
    ensures over { (pos : BoardState) → Agrees (L.seen board.new.look) pos → (p : ℕ)
        → set.contains result p ≡ is_cover pos.size (after pos board.old.moves).cells target p }
    ensures near { (pos : BoardState) → Agrees (L.seen board.new.look) pos
        → AddsIn (L.seen board.old.look) (L.seen board.new.look)
        (third_area pos.size (after pos board.old.moves).cells target) }
{
    let liberties = covered_liberties(board, target);
    sides_of(board, Cell::Empty, &liberties)
}
