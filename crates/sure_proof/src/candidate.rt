//! The points that show that a point is a candidate of the attacker, and that the target has not too many liberties.

ghost use Rattle.std.specs.Prelude.{◌≡◌, ◌*◌, ◌<◌, ◌&&◌, ◌==◌, not, nat_lt, nat_le, IsTrue, IfSome, ℕ, true, false, Some};
ghost use Rattle.std.specs.FinSet as set;
ghost use Rattle.go_rules.specs.Below.{any_below};
ghost use Rattle.go_rules.specs.Board.{largest_points, are_neighbours};
ghost use Rattle.go_rules.specs.Strings.{liberties as liberties_at, liberty_points, is_liberty, is_in_string};
ghost use Rattle.go_rules.specs.Strings.{cell_at, same_cell, string_at};
ghost use Rattle.go_base.specs.Floods.{enemy_points};
ghost use Rattle.go_base.specs.Sides.{neighbour_at};
ghost use Rattle.read_rules.specs.Candidates.{is_empty_beside, is_candidate};
ghost use Rattle.sure_rules.specs.Nodes.{is_attackers, is_gone, has_too_many};
ghost use Rattle.sure_rules.specs.Zones.{WhereverAgrees};
ghost use Rattle.wider_rules.specs.Further.{is_weak_enemy, is_linked, few_of_parted};
ghost use Rattle.sure_proof.specs.Rests.{all_points, most_wide, most_of_enemy, weak_enemy_at, with_string};
ghost use Rattle.sure_proof.specs.Rests.{linked_at, shown_at, candidate_rests_on};

use crate::shown::{close_to, string_of};
use go_base::flood::Found;
use go_base::sides::neighbour;
use go_base::{Cell, Point, PointSet, Position, Size};
use read_rules::{Node, Tree, Turn};

/// How many liberties a linked string may have whose liberties the attacker tries.
const FEW_OF_PARTED: u16 = 2;

/// All points of a board.
fn all_points(size: Size) -> PointSet
    ensures { result ≡ all_points size }
{
    let mut points = PointSet::new();
    'points: for p in 0..size.points() {
        points.add(p);
    }
    points
}

/// Whether `q` has a neighbour at this side and the neighbour is in `points`.
fn has_side(size: Size, points: &PointSet, q: Point, side: u8) -> bool
    requires on_board { q < size * size }
    requires side { side < 4 }
    ensures yes { IsTrue result → (l : ℕ) × (neighbour_at size q side ≡ Some l) × IsTrue (set.contains points.now l) }
    ensures no { result ≡ false → (l : ℕ) → neighbour_at size q side ≡ Some l → set.contains points.now l ≡ false }
{
    match neighbour(size, q, side) {
        Some(l) => points.has(l),
        None => false,
    }
}

/// Whether some neighbour of `q` is in `points`.
fn is_beside(pos: &Position, points: &PointSet, q: Point) -> bool
    requires { q < pos.now.size * pos.now.size }
    ensures { result ≡ any_below (pos.now.size * pos.now.size)
        (λ l. set.contains points.now l && are_neighbours pos.now.size l q) }
{
    let size = pos.size();
    for side in 0..4 {
        if has_side(size, points, q, side) {
            return true;
        }
    }
    false
}

/// Whether `p` is empty and next to one of the target's `liberties`.
fn is_empty_beside(pos: &Position, target: Point, liberties: &PointSet, p: Point) -> bool
    requires on_board { p < pos.now.size * pos.now.size }
    requires liberties { liberties.now ≡ liberty_points pos.now.size pos.now.cells target }
    ensures { result ≡ is_empty_beside pos.now.size pos.now.cells (is_liberty pos.now.size pos.now.cells target) p }
{
    let beside = is_beside(pos, liberties, p);
    pos.cell(p) == Cell::Empty && beside
}

/// Whether all three are true.
fn are_all(first: bool, second: bool, third: bool) -> bool
    ensures { result ≡ ((first && second) && third) }
{
    first && second && third
}

/// The attacker tries the empty points next to the target's liberties if a wide ply is left and the target has at most
/// this number of liberties.
fn most_wide(tree: Tree) -> u16
    ensures { result ≡ most_wide tree }
{
    match tree {
        Tree::Stated => 2,
        Tree::Wider => 3,
    }
}

/// Whether `p` is a wide candidate by the target's `liberties`: a wide ply is left, the liberties are few, and `p` is
/// empty and next to one of them.
fn is_wide(pos: &Position, turn: Turn, liberties: &PointSet, p: Point) -> bool
    requires on_board { p < pos.now.size * pos.now.size }
    requires liberties { liberties.now ≡ liberty_points pos.now.size pos.now.cells turn.target }
    ensures { result ≡ ((nat_lt 0 turn.wide
        && nat_le (liberties_at pos.now.size pos.now.cells turn.target) (most_wide turn.tree))
        && is_empty_beside pos.now.size pos.now.cells (is_liberty pos.now.size pos.now.cells turn.target) p) }
{
    let beside = is_empty_beside(pos, turn.target, liberties, p);
    are_all(
        turn.wide > 0,
        liberties.count() <= most_wide(turn.tree),
        beside,
    )
}

/// The liberties of an enemy string next to the target's are candidates in each ply if the string has at most this
/// number of them.
fn most_of_enemy(tree: Tree) -> u16
    ensures { result ≡ most_of_enemy tree }
{
    match tree {
        Tree::Stated => 1,
        Tree::Wider => 2,
    }
}

/// Whether both are true.
pub(crate) fn are_both(first: bool, second: bool) -> bool
    ensures { result ≡ (first && second) }
{
    first && second
}

/// Whether the string of `q` has at most `most` liberties, one of which is `p`.
fn has_few(pos: &Position, most: u16, q: Point, p: Point) -> bool
    requires on_board { q < pos.now.size * pos.now.size }
    requires point { p < pos.now.size * pos.now.size }
    requires small { p < largest_points }
    ensures { result ≡ (nat_le (liberties_at pos.now.size pos.now.cells q) most
        && is_liberty pos.now.size pos.now.cells q p) }
{
    let liberties = pos.liberty_points(q);
    are_both(liberties.count() <= most, liberties.has(p))
}

/// Whether `q` is one of `enemies`, the enemy stones next to the target's string, and its string has at most `most`
/// liberties, one of which is `p`.
fn is_weak_at(
    pos: &Position,
    target: Point,
    enemies: &PointSet,
    most: u16,
    q: Point,
    p: Point,
) -> bool
    requires on_board { q < pos.now.size * pos.now.size }
    requires point { p < pos.now.size * pos.now.size }
    requires small { (q < largest_points) × (p < largest_points) }
    requires enemies { enemies.now ≡ enemy_points pos.now.size pos.now.cells target }
    ensures { result ≡ (is_weak_enemy most pos.now.size pos.now.cells target q
        && is_liberty pos.now.size pos.now.cells q p) }
{
    enemies.has(q) && has_few(pos, most, q, p)
}

/// The first enemy stone next to the target's string, in reading order, whose string has at most `most` liberties, one
/// of which is `p`.
fn weak_enemy_at(pos: &Position, target: Point, most: u16, p: Point) -> Option<Point>
    requires target { target < pos.now.size * pos.now.size }
    requires point { p < pos.now.size * pos.now.size }
    requires small { p < largest_points }
    ensures value { result ≡ weak_enemy_at most pos.now.size pos.now.cells target p }
    ensures on_board { IfSome result (λ q. q < pos.now.size * pos.now.size) }
{
    let enemies = string_of(pos, target).enemies;
    for q in 0..pos.size().points() {
        if is_weak_at(pos, target, &enemies, most, q, p) {
            return Some(q);
        }
    }
    None
}

/// Whether `q` holds a stone of the target's colour that is next to a liberty of the target and not of its string.
/// `found` is the target's string.
fn is_friend(pos: &Position, target: Point, found: &Found, q: Point) -> bool
    requires target { target < pos.now.size * pos.now.size }
    requires on_board { q < pos.now.size * pos.now.size }
    requires small { q < largest_points }
    requires stones { found.now.stones ≡ string_at pos.now.size pos.now.cells target }
    requires liberties { found.now.liberties ≡ liberty_points pos.now.size pos.now.cells target }
    ensures { result ≡ ((same_cell (cell_at pos.now.cells q) (cell_at pos.now.cells target)
        && any_below (pos.now.size * pos.now.size)
        (λ l. is_liberty pos.now.size pos.now.cells target l && are_neighbours pos.now.size l q))
        && not (is_in_string pos.now.size pos.now.cells target q)) }
{
    let own = pos.cell(q) == pos.cell(target);
    let beside = is_beside(pos, &found.liberties, q);
    are_all(own, beside, !found.stones.has(q))
}

/// Whether `q` is a stone of a string linked to the target that has at most two liberties, one of which is `p`. `found`
/// is the target's string.
fn is_linked_at(pos: &Position, target: Point, found: &Found, q: Point, p: Point) -> bool
    requires target { target < pos.now.size * pos.now.size }
    requires on_board { q < pos.now.size * pos.now.size }
    requires point { p < pos.now.size * pos.now.size }
    requires small { (q < largest_points) × (p < largest_points) }
    requires stones { found.now.stones ≡ string_at pos.now.size pos.now.cells target }
    requires liberties { found.now.liberties ≡ liberty_points pos.now.size pos.now.cells target }
    ensures { result ≡ (is_linked few_of_parted pos.now.size pos.now.cells target q
        && is_liberty pos.now.size pos.now.cells q p) }
{
    is_friend(pos, target, found, q) && has_few(pos, FEW_OF_PARTED, q, p)
}

/// The first stone, in reading order, of a string linked to the target that has at most two liberties, one of which is
/// `p`.
fn linked_at(pos: &Position, target: Point, p: Point) -> Option<Point>
    requires target { target < pos.now.size * pos.now.size }
    requires point { p < pos.now.size * pos.now.size }
    requires small { p < largest_points }
    ensures value { result ≡ linked_at pos.now.size pos.now.cells target p }
    ensures on_board { IfSome result (λ q. q < pos.now.size * pos.now.size) }
{
    let found = string_of(pos, target);
    for q in 0..pos.size().points() {
        if is_linked_at(pos, target, &found, q, p) {
            return Some(q);
        }
    }
    None
}

/// A stone of another string than the target's that shows that `p` is a candidate: a stone of a weak enemy string; or,
/// if there is none and a wide ply is left in the wider tree, a stone of a linked string.
#[tactic(auto, unfolding(crate::specs::Rests::shown_at))]
fn shown_at(pos: &Position, turn: Turn, p: Point) -> Option<Point>
    requires target { turn.target < pos.now.size * pos.now.size }
    requires point { p < pos.now.size * pos.now.size }
    requires small { p < largest_points }
    ensures value { result ≡ shown_at turn pos.now.size pos.now.cells p }
    ensures on_board { IfSome result (λ q. q < pos.now.size * pos.now.size) }
{
    match weak_enemy_at(pos, turn.target, most_of_enemy(turn.tree), p) {
        Some(q) => Some(q),
        None => {
            if are_both(turn.wide > 0, turn.tree.is_wider()) {
                linked_at(pos, turn.target, p)
            } else {
                None
            }
        }
    }
}

/// The string of the target and the string of `other`, each with all its neighbours; all points of the board if `other`
/// is `None`.
fn with_string(pos: &Position, target: Point, other: Option<Point>) -> PointSet
    requires target { target < pos.now.size * pos.now.size }
    requires other { IfSome other (λ q. q < pos.now.size * pos.now.size) }
    ensures { result ≡ with_string pos.now.size pos.now.cells target other }
{
    match other {
        Some(q) => {
            let mut points = close_to(pos, target);
            points.join(&close_to(pos, q));
            points
        }
        None => all_points(pos.size()),
    }
}

/// The points that show that `p` is a candidate of the attacker at the turn, and that the target has not too many
/// liberties.
pub(crate) fn candidate_rests_on(pos: &Position, turn: Turn, p: Point) -> PointSet
    requires target { turn.target < pos.now.size * pos.now.size }
    requires on_board { p < pos.now.size * pos.now.size }
    requires small { p < largest_points }
    ensures { result ≡ candidate_rests_on turn pos.now p }
{
    let liberties = pos.liberty_points(turn.target);
    if liberties.has(p) {
        return close_to(pos, turn.target);
    }
    if is_wide(pos, turn, &liberties, p) {
        let mut points = close_to(pos, turn.target);
        points.add(p);
        return points;
    }
    with_string(pos, turn.target, shown_at(pos, turn, p))
}

/// The zone of a candidate: on every position that agrees at these points `p` is a candidate of the attacker, and the
/// target has not too many liberties.
pub fn candidate_shown(pos: &Position, node: Node, p: Point) -> PointSet
    requires target { node.turn.target < pos.now.size * pos.now.size }
    requires turn { is_attackers node ≡ true }
    requires stands { is_gone node pos.now ≡ false }
    requires few { has_too_many node pos.now ≡ false }
    requires candidate { is_candidate node.turn pos.now p ≡ true }
    ensures shown { WhereverAgrees pos.now (set.contains result) (λ here. (has_too_many node here ≡ false)
        × (is_candidate node.turn here p ≡ true)) }
    ensures on_board { (q : ℕ) → set.contains result q ≡ true → q < pos.now.size * pos.now.size }
{
    let _ = pos.size().points();
    candidate_rests_on(pos, node.turn, p)
}
