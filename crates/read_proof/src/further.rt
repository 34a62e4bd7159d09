//! The further candidates of a target, which the wider tree tries, found on a position: some in every ply, and some
//! only if a wide ply is left.

ghost use Rattle.std.specs.Prelude.{◌≡◌, ℕ, ◌*◌, ◌<◌, ◌==◌, ◌&&◌, IsTrue, nat_lt};
ghost use Rattle.std.specs.FinSet as set;
ghost use Rattle.go_rules.specs.Strings.{liberty_points};
ghost use Rattle.wider_rules.specs.Further.{netted, few_of_linked, is_net, is_beside, is_ally, is_rescue, is_join};
ghost use Rattle.wider_rules.specs.Further.{is_cutter, is_cut, is_covered_liberty, is_cover};
ghost use Rattle.wider_rules.specs.Further.{is_further_always, is_further_wide, is_further};
ghost use Rattle.wider_rules.specs.Strings.{is_near_friend};

use crate::approach::approach;
use crate::beside::beside;
use crate::strings::{Around, around_strings, last_liberties, string_of};
use go_base::flood::Found;
use go_base::{Cell, Point, PointSet, Position};

/// The number of liberties of a target around which the attacker tries a net.
const NETTED: u16 = 3;

/// How many liberties an enemy string next to the target's may have that the attacker strengthens.
const FEW_OF_ATTACKER: u16 = 2;

/// How many liberties an enemy string next to the target's may have that the defender presses.
const FEW_OF_DEFENDER: u16 = 4;

/// How many liberties a linked string may have that the defender joins.
const FEW_OF_LINKED: u16 = 4;

/// How many liberties a linked string may have that the attacker keeps from the target.
const FEW_OF_PARTED: u16 = 2;

/// How many liberties at least an enemy string next to the target's has around which the defender tries a net.
const LEAST_OF_COVERED: u16 = 2;

/// How many liberties an enemy string next to the target's may have around which the defender tries a net.
const FEW_OF_COVERED: u16 = 3;

/// Whether the attacker tries a net around a target with this number of liberties.
fn is_netted(liberties: u16) -> bool
    ensures { result ≡ (liberties == netted) }
{
    liberties == NETTED
}

/// The points of Net: the empty neighbours of the target's liberties, if it has three; else none. `liberties` are the
/// target's.
fn net(pos: &Position, liberties: &PointSet) -> PointSet
    ensures { (target p : ℕ) → liberties.now ≡ liberty_points pos.now.size pos.now.cells target
        → set.contains result p ≡ is_net pos.now.size pos.now.cells target p }
{
    if is_netted(liberties.count()) {
        return beside(pos, Cell::Empty, liberties);
    }
    PointSet::new()
}

/// What stands around the enemy strings next to the target that have at most `most` liberties: their liberties, which
/// are the points of Beside, and the stones next to them of the target's colour that are not of its string.
fn weak_enemies(pos: &Position, target: Point, most: u16) -> Around
    requires { target < pos.now.size * pos.now.size }
    ensures liberties { (p : ℕ) → set.contains result.liberties p
        ≡ is_beside most pos.now.size pos.now.cells target p }
    ensures enemies { (r : ℕ) → set.contains result.enemies r
        ≡ (nat_lt r (pos.now.size * pos.now.size) && is_ally most pos.now.size pos.now.cells target r) }
{
    let Found {
        stones,
        liberties: _,
        enemies,
    } = string_of(pos, target);
    let weak = around_strings(pos, 0, most, &enemies);
    Around {
        liberties: weak.liberties,
        enemies: weak.enemies.difference(&stones),
    }
}

/// The points of Rescue: the last liberties of strings of the target's colour, other than its own, that are next to a
/// weak enemy string.
fn rescue(pos: &Position, target: Point) -> PointSet
    requires { target < pos.now.size * pos.now.size }
    ensures { (p : ℕ) → set.contains result p ≡ is_rescue pos.now.size pos.now.cells target p }
{
    last_liberties(pos, &weak_enemies(pos, target, FEW_OF_ATTACKER).enemies)
}

/// The stones of the target's colour that are next to its liberties and not of its string. `liberties` are the
/// target's.
fn near_friends(pos: &Position, target: Point, liberties: &PointSet) -> PointSet
    requires on_board { target < pos.now.size * pos.now.size }
    requires liberties { liberties.now ≡ liberty_points pos.now.size pos.now.cells target }
    ensures { (q : ℕ) → set.contains result q
        ≡ (nat_lt q (pos.now.size * pos.now.size) && is_near_friend pos.now.size pos.now.cells target q) }
{
    beside(pos, pos.cell(target), liberties).difference(&pos.string(target))
}

/// The liberties of the linked strings that have at most `most`: the points of Join and of Link. `liberties` are the
/// target's.
fn linked_liberties(pos: &Position, target: Point, most: u16, liberties: &PointSet) -> PointSet
    requires on_board { target < pos.now.size * pos.now.size }
    requires liberties { liberties.now ≡ liberty_points pos.now.size pos.now.cells target }
    ensures { (p : ℕ) → set.contains result p ≡ is_join most pos.now.size pos.now.cells target p }
{
    around_strings(pos, 0, most, &near_friends(pos, target, liberties)).liberties
}

/// The enemy stones next to a linked string. `liberties` are the target's.
fn cutters(pos: &Position, target: Point, liberties: &PointSet) -> PointSet
    requires on_board { target < pos.now.size * pos.now.size }
    requires liberties { liberties.now ≡ liberty_points pos.now.size pos.now.cells target }
    ensures { (r : ℕ) → set.contains result r
        ≡ (nat_lt r (pos.now.size * pos.now.size) && is_cutter few_of_linked pos.now.size pos.now.cells target r) }
{
    around_strings(pos, 0, FEW_OF_LINKED, &near_friends(pos, target, liberties)).enemies
}

/// The points of Cut: the last liberties of enemy strings next to a linked string. `liberties` are the target's.
fn cut(pos: &Position, target: Point, liberties: &PointSet) -> PointSet
    requires on_board { target < pos.now.size * pos.now.size }
    requires liberties { liberties.now ≡ liberty_points pos.now.size pos.now.cells target }
    ensures { (p : ℕ) → set.contains result p ≡ is_cut pos.now.size pos.now.cells target p }
{
    last_liberties(pos, &cutters(pos, target, liberties))
}

/// The liberties of the enemy strings next to the target that have two or three.
fn covered_liberties(pos: &Position, target: Point) -> PointSet
    requires { target < pos.now.size * pos.now.size }
    ensures { (l : ℕ) → set.contains result l ≡ is_covered_liberty pos.now.size pos.now.cells target l }
{
    let Found {
        stones: _,
        liberties: _,
        enemies,
    } = string_of(pos, target);
    around_strings(pos, LEAST_OF_COVERED, FEW_OF_COVERED, &enemies).liberties
}

/// The points of Cover: the empty neighbours of the liberties of the enemy strings next to the target that have two or
/// three.
fn cover(pos: &Position, target: Point) -> PointSet
    requires { target < pos.now.size * pos.now.size }
    ensures { (p : ℕ) → set.contains result p ≡ is_cover pos.now.size pos.now.cells target p }
{
    beside(pos, Cell::Empty, &covered_liberties(pos, target))
}

/// The further candidates of every ply: for the attacker Beside and Rescue; for the defender Save, which has the points
/// of Rescue, and Cut.
fn always(pos: &Position, attacker_to_play: bool, target: Point, liberties: &PointSet) -> PointSet
    requires on_board { target < pos.now.size * pos.now.size }
    requires liberties { liberties.now ≡ liberty_points pos.now.size pos.now.cells target }
    ensures { (p : ℕ) → set.contains result p
        ≡ is_further_always attacker_to_play pos.now.size pos.now.cells target p }
{
    let mut found = rescue(pos, target);
    if attacker_to_play {
        found.join(&weak_enemies(pos, target, FEW_OF_ATTACKER).liberties);
        return found;
    }
    found.join(&cut(pos, target, liberties));
    found
}

/// The further candidates of a wide ply alone: for the attacker Net and Link, for the defender Beside, Join, Cover and
/// Approach.
fn wide_alone(
    pos: &Position,
    attacker_to_play: bool,
    target: Point,
    liberties: &PointSet,
) -> PointSet
    requires on_board { target < pos.now.size * pos.now.size }
    requires liberties { liberties.now ≡ liberty_points pos.now.size pos.now.cells target }
    ensures { (p : ℕ) → set.contains result p
        ≡ is_further_wide attacker_to_play pos.now.size pos.now.cells target p }
{
    if attacker_to_play {
        let mut found = net(pos, liberties);
        found.join(&linked_liberties(pos, target, FEW_OF_PARTED, liberties));
        return found;
    }
    let mut found = weak_enemies(pos, target, FEW_OF_DEFENDER).liberties;
    found.join(&linked_liberties(pos, target, FEW_OF_LINKED, liberties));
    found.join(&cover(pos, target));
    found.join(&approach(
        pos,
        target,
        &weak_enemies(pos, target, FEW_OF_ATTACKER).liberties,
    ));
    found
}

/// The further candidates of the target at the attacker's turn or at the defender's. `wide` says whether a wide ply is
/// left; `liberties` are the target's.
pub(crate) fn further_candidates(
    pos: &Position,
    wide: bool,
    attacker_to_play: bool,
    target: Point,
    liberties: &PointSet,
) -> PointSet
    requires on_board { target < pos.now.size * pos.now.size }
    requires liberties { liberties.now ≡ liberty_points pos.now.size pos.now.cells target }
    ensures { (p : ℕ) → set.contains result p
        ≡ is_further wide attacker_to_play pos.now.size pos.now.cells target p }
{
    let mut found = always(pos, attacker_to_play, target, liberties);
    if wide {
        found.join(&wide_alone(pos, attacker_to_play, target, liberties));
    }
    found
}
