//! The points on which the result of a play rests.

ghost use Rattle.std.specs.Prelude.{◌≡◌, ℕ, ◌*◌, ◌<◌, ◌||◌, true};
ghost use Rattle.std.specs.FinSet as set;
ghost use Rattle.go_rules.specs.Board.{largest_points};
ghost use Rattle.go_rules.specs.Position.{BoardState};
ghost use Rattle.go_base.specs.Sides.{neighbour_at};
ghost use Rattle.read_rules.specs.GameTree.{child_of};
ghost use Rattle.sure_rules.specs.Zones.{WhereverAgrees};
ghost use Rattle.sure_proof.specs.Alike.{AreAlikeChildren};
ghost use Rattle.sure_proof.specs.Rests.{is_empty_at, has_empty_neighbour, shows_cell, shows_neighbour};
ghost use Rattle.sure_proof.specs.Rests.{play_rests_on};

use crate::candidate::are_both;
use crate::guard::one_point;
use crate::shown::shows_atari;
use go_base::sides::neighbour;
use go_base::{Cell, Colour, Point, PointSet, Position};
use read_rules::Node;

/// Whether `p` has a neighbour at this side, and the neighbour is empty.
fn is_empty_at(pos: &Position, p: Point, side: u8) -> bool
    requires on_board { p < pos.now.size * pos.now.size }
    requires side { side < 4 }
    ensures { result ≡ is_empty_at pos.now.cells (neighbour_at pos.now.size p side) }
{
    match neighbour(pos.size(), p, side) {
        Some(q) => pos.cell(q) == Cell::Empty,
        None => false,
    }
}

/// Whether `p` has an empty neighbour.
fn has_empty_neighbour(pos: &Position, p: Point) -> bool
    requires { p < pos.now.size * pos.now.size }
    ensures { result ≡ has_empty_neighbour pos.now.size pos.now.cells p }
{
    for side in 0..4 {
        if is_empty_at(pos, p, side) {
            return true;
        }
    }
    false
}

/// Whether a neighbour of the point of a play of `c` shows nothing but its cell: the cell is empty; or it holds a stone
/// of `c`, and `free` is true, which says that the point has an empty neighbour.
fn shows_cell(cell: Cell, c: Colour, free: bool) -> bool
    ensures { result ≡ shows_cell c free cell }
{
    let own = cell == c.cell();
    is_either(cell == Cell::Empty, are_both(free, own))
}

/// Whether one of both is true.
fn is_either(first: bool, second: bool) -> bool
    ensures { result ≡ (first || second) }
{
    first || second
}

/// Of the neighbour of `p` at this side, the points on which a play of `c` at `p` rests: the neighbour alone, if it
/// shows nothing but its cell; else the points that show whether its string is in atari, liberties in `zone` before the
/// others. None if the board ends there.
fn shows_side(
    pos: &Position,
    c: Colour,
    free: bool,
    zone: &PointSet,
    p: Point,
    side: u8,
) -> PointSet
    requires on_board { p < pos.now.size * pos.now.size }
    requires side { side < 4 }
    ensures { result ≡ shows_neighbour pos.now.size pos.now.cells c free zone.now (neighbour_at pos.now.size p side) }
{
    match neighbour(pos.size(), p, side) {
        Some(q) => {
            if shows_cell(pos.cell(q), c, free) {
                one_point(q)
            } else {
                shows_atari(pos, zone, q)
            }
        }
        None => PointSet::new(),
    }
}

/// The points on which a play of `c` at `p` rests, if what follows rests on `zone`: `p`, its neighbours, and the points
/// that show whether the strings of these are in atari. If `p` has an empty neighbour, the strings of `c` are left out:
/// the play can be made whatever their liberties.
#[tactic(auto, unfolding(crate::specs::Rests::play_rests_on))]
pub(crate) fn play_rests_on(pos: &Position, c: Colour, zone: &PointSet, p: Point) -> PointSet
    requires on_board { p < pos.now.size * pos.now.size }
    requires small { p < largest_points }
    ensures { result ≡ play_rests_on pos.now.size pos.now.cells c zone.now p }
{
    let free = has_empty_neighbour(pos, p);
    let mut near = zone.copied();
    near.add(p);
    let mut points = PointSet::new();
    'sides: for side in 0..4 {
        points.join(&shows_side(pos, c, free, &near, p, side));
    }
    points.add(p);
    points
}

/// The zone of the mover's play at `p`: on every position that agrees at these points, the play leads to a position
/// that is alike at the points `after`; or it cannot be made on either position. The zone contains `after`, which may be
/// empty if the play cannot be made.
pub fn play_shown(pos: &Position, node: Node, p: Point, after: &PointSet) -> PointSet
    requires on_board { p < pos.now.size * pos.now.size }
    requires points { (q : ℕ) → set.contains after.now q ≡ true → q < pos.now.size * pos.now.size }
    ensures on_board { (q : ℕ) → set.contains result q ≡ true → q < pos.now.size * pos.now.size }
    ensures shown { WhereverAgrees pos.now (set.contains result) (λ here.
        AreAlikeChildren (set.contains after.now) (child_of node pos.now p) (child_of node here p)) }
{
    let _ = pos.size().points();
    let mut points = play_rests_on(pos, node.mover(), after, p);
    points.join(after);
    points
}
