//! The further candidates of a target, at either side's turn, with a wide ply left or without.

ghost use Rattle.std.specs.Prelude.{◌≡◌, ℕ, ◌*◌, ◌<◌, true, false};
ghost use Rattle.std.specs.FinSet as set;
ghost use Rattle.go_rules.specs.Position.{BoardState};
ghost use Rattle.go_rules.specs.Strings.{liberty_points};
ghost use Rattle.go_base.specs.Facts.{Agrees, AddsIn};
ghost use Rattle.trial_board.specs.Trials.{KeepsTrial, after};
ghost use Rattle.wider_rules.specs.Further.{is_further_always, is_further_wide, is_further};
ghost use Rattle.wider_rules.specs.FurtherAreas.{third_area, fourth_area, near_further};

use crate::approach::approach;
use crate::last::last_liberties;
use crate::sets::{cover, linked_strings, net, weak_enemies};
use go_base::Look;
use go_base::points::PointSet;
use go_base::size::Point;
use trial_board::Trial;

/// The attacker strengthens an enemy string next to the target's if it has at most this many liberties. Rescue and Save
/// also ask this of the string next to a string in atari.
const FEW_OF_ATTACKER: u16 = 2;

/// The defender presses an enemy string next to the target's if it has at most this many liberties.
const FEW_OF_DEFENDER: u16 = 4;

/// The attacker keeps a linked string from the target if it has at most this many liberties.
const FEW_OF_PARTED: u16 = 2;

/// The defender joins a linked string if it has at most this many liberties. Cut looks beside these strings too.
const FEW_OF_LINKED: u16 = 4;

/// Beside and Rescue: the attacker's further candidates of every ply.
fn always_for_attacker<L: Look>(board: &mut Trial<L>, target: Point) -> PointSet
    requires on_board { target < (L.shows board.old.look).size * (L.shows board.old.look).size }
    ensures stays { KeepsTrial L.shows L.seen board.old board.new }
    ensures over { (pos : BoardState) → Agrees (L.seen board.new.look) pos → (p : ℕ)
        → set.contains result p ≡ is_further_always true pos.size (after pos board.old.moves).cells target p }
    ensures near { (pos : BoardState) → Agrees (L.seen board.new.look) pos
        → AddsIn (L.seen board.old.look) (L.seen board.new.look)
        (third_area pos.size (after pos board.old.moves).cells target) }
{
    let weak = weak_enemies(board, target, FEW_OF_ATTACKER);
    let mut found = weak.liberties;
    let rescues = last_liberties(board, &weak.allies);
    found.join(&rescues);
    found
}

/// Net and Link: the attacker's further candidates of a wide ply. `liberties` are the target's.
fn wide_for_attacker<L: Look>(board: &mut Trial<L>, target: Point, liberties: &PointSet) -> PointSet
    requires on_board { target < (L.shows board.old.look).size * (L.shows board.old.look).size }
    requires liberties { (pos : BoardState) → Agrees (L.seen board.old.look) pos
        → liberties.now ≡ liberty_points pos.size (after pos board.old.moves).cells target }
    ensures stays { KeepsTrial L.shows L.seen board.old board.new }
    ensures over { (pos : BoardState) → Agrees (L.seen board.new.look) pos → (p : ℕ)
        → set.contains result p ≡ is_further_wide true pos.size (after pos board.old.moves).cells target p }
    ensures near { (pos : BoardState) → Agrees (L.seen board.new.look) pos
        → AddsIn (L.seen board.old.look) (L.seen board.new.look)
        (third_area pos.size (after pos board.old.moves).cells target) }
{
    let mut found = net(board, liberties);
    let linked = linked_strings(board, target, FEW_OF_PARTED, liberties);
    found.join(&linked.liberties);
    found
}

/// Save and Cut: the defender's further candidates of every ply. `liberties` are the target's.
fn always_for_defender<L: Look>(
    board: &mut Trial<L>,
    target: Point,
    liberties: &PointSet,
) -> PointSet
    requires on_board { target < (L.shows board.old.look).size * (L.shows board.old.look).size }
    requires liberties { (pos : BoardState) → Agrees (L.seen board.old.look) pos
        → liberties.now ≡ liberty_points pos.size (after pos board.old.moves).cells target }
    ensures stays { KeepsTrial L.shows L.seen board.old board.new }
    ensures over { (pos : BoardState) → Agrees (L.seen board.new.look) pos → (p : ℕ)
        → set.contains result p ≡ is_further_always false pos.size (after pos board.old.moves).cells target p }
    ensures near { (pos : BoardState) → Agrees (L.seen board.new.look) pos
        → AddsIn (L.seen board.old.look) (L.seen board.new.look)
        (fourth_area pos.size (after pos board.old.moves).cells target) }
{
    let linked = linked_strings(board, target, FEW_OF_LINKED, liberties);
    let weak = weak_enemies(board, target, FEW_OF_ATTACKER);
    let mut found = last_liberties(board, &weak.allies);
    let cuts = last_liberties(board, &linked.enemies);
    found.join(&cuts);
    found
}

/// Beside, Join, Cover and Approach: the defender's further candidates of a wide ply. `liberties` are the target's.
fn wide_for_defender<L: Look>(board: &mut Trial<L>, target: Point, liberties: &PointSet) -> PointSet
    requires on_board { target < (L.shows board.old.look).size * (L.shows board.old.look).size }
    requires liberties { (pos : BoardState) → Agrees (L.seen board.old.look) pos
        → liberties.now ≡ liberty_points pos.size (after pos board.old.moves).cells target }
    ensures stays { KeepsTrial L.shows L.seen board.old board.new }
    ensures over { (pos : BoardState) → Agrees (L.seen board.new.look) pos → (p : ℕ)
        → set.contains result p ≡ is_further_wide false pos.size (after pos board.old.moves).cells target p }
    ensures near { (pos : BoardState) → Agrees (L.seen board.new.look) pos
        → AddsIn (L.seen board.old.look) (L.seen board.new.look)
        (fourth_area pos.size (after pos board.old.moves).cells target) }
{
    let linked = linked_strings(board, target, FEW_OF_LINKED, liberties);
    let weak = weak_enemies(board, target, FEW_OF_DEFENDER);
    let mut found = weak.liberties;
    found.join(&linked.liberties);
    let covers = cover(board, target);
    found.join(&covers);
    let near = approach(board, target);
    found.join(&near);
    found
}

/// The further candidates of every ply, at the attacker's turn or the defender's. `liberties` are the target's.
fn of_every_ply<L: Look>(
    board: &mut Trial<L>,
    target: Point,
    attacker_to_play: bool,
    liberties: &PointSet,
) -> PointSet
    requires on_board { target < (L.shows board.old.look).size * (L.shows board.old.look).size }
    requires liberties { (pos : BoardState) → Agrees (L.seen board.old.look) pos
        → liberties.now ≡ liberty_points pos.size (after pos board.old.moves).cells target }
    ensures stays { KeepsTrial L.shows L.seen board.old board.new }
    ensures over { (pos : BoardState) → Agrees (L.seen board.new.look) pos → (p : ℕ)
        → set.contains result p
        ≡ is_further_always attacker_to_play pos.size (after pos board.old.moves).cells target p }
    ensures near { (pos : BoardState) → Agrees (L.seen board.new.look) pos
        → AddsIn (L.seen board.old.look) (L.seen board.new.look)
        (near_further attacker_to_play pos.size (after pos board.old.moves).cells target) }
{
    if attacker_to_play {
        always_for_attacker(board, target)
    } else {
        always_for_defender(board, target, liberties)
    }
}

/// The further candidates of a wide ply only, at the attacker's turn or the defender's. `liberties` are the target's.
fn of_a_wide_ply<L: Look>(
    board: &mut Trial<L>,
    target: Point,
    attacker_to_play: bool,
    liberties: &PointSet,
) -> PointSet
    requires on_board { target < (L.shows board.old.look).size * (L.shows board.old.look).size }
    requires liberties { (pos : BoardState) → Agrees (L.seen board.old.look) pos
        → liberties.now ≡ liberty_points pos.size (after pos board.old.moves).cells target }
    ensures stays { KeepsTrial L.shows L.seen board.old board.new }
    ensures over { (pos : BoardState) → Agrees (L.seen board.new.look) pos → (p : ℕ)
        → set.contains result p
        ≡ is_further_wide attacker_to_play pos.size (after pos board.old.moves).cells target p }
    ensures near { (pos : BoardState) → Agrees (L.seen board.new.look) pos
        → AddsIn (L.seen board.old.look) (L.seen board.new.look)
        (near_further attacker_to_play pos.size (after pos board.old.moves).cells target) }
{
    if attacker_to_play {
        wide_for_attacker(board, target, liberties)
    } else {
        wide_for_defender(board, target, liberties)
    }
}

/// The further candidates of a target. In every ply they are the points of Beside by strings with at most two liberties
/// and of Rescue at the attacker's turn, and the points of Save and Cut at the defender's turn. If a wide ply is left,
/// Net and Link come in at the attacker's turn, and Beside by strings with at most four liberties, Join, Cover and
/// Approach at the defender's turn.
///
/// `liberties` are the target's. The trial moves stay as they were, no play is tried, and it takes no memory. The
/// choice of these points is this project's own.
pub fn further_candidates<L: Look>(
    board: &mut Trial<L>,
    target: Point,
    attacker_to_play: bool,
    wide: bool,
    liberties: &PointSet,
) -> PointSet
    requires on_board { target < (L.shows board.old.look).size * (L.shows board.old.look).size }
    requires liberties { (pos : BoardState) → Agrees (L.seen board.old.look) pos
        → liberties.now ≡ liberty_points pos.size (after pos board.old.moves).cells target }
    ensures stays { KeepsTrial L.shows L.seen board.old board.new }
    ensures over { (pos : BoardState) → Agrees (L.seen board.new.look) pos → (p : ℕ)
        → set.contains result p
        ≡ is_further wide attacker_to_play pos.size (after pos board.old.moves).cells target p }
    ensures near { (pos : BoardState) → Agrees (L.seen board.new.look) pos
        → AddsIn (L.seen board.old.look) (L.seen board.new.look)
        (near_further attacker_to_play pos.size (after pos board.old.moves).cells target) }
{
    let mut found = of_every_ply(board, target, attacker_to_play, liberties);
    if wide {
        let more = of_a_wide_ply(board, target, attacker_to_play, liberties);
        found.join(&more);
    }
    found
}
