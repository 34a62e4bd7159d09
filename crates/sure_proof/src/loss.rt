//! The points that show whether the defender takes back a target that is taken, and to which position that leads.

ghost use Rattle.std.specs.Prelude.{◌≡◌, ◌*◌, ◌<◌, IfSome};
ghost use Rattle.std.specs.FinSet as set;
ghost use Rattle.go_rules.specs.Board.{largest_points};
ghost use Rattle.go_base.specs.Sides.{neighbour_at};
ghost use Rattle.sure_proof.specs.Rests.{is_open, open_neighbour, wall_rests_on, loss_rests_on};

use crate::guard::one_point;
use crate::play::play_rests_on;
use go_base::sides::neighbour;
use go_base::{Colour, Point, PointSet, Position};
use read_rules::Node;

/// Whether `p` has a neighbour at this side, and the neighbour holds no stone of `c`.
fn is_open(pos: &Position, p: Point, side: u8, c: Colour) -> bool
    requires on_board { p < pos.now.size * pos.now.size }
    requires side { side < 4 }
    ensures { result ≡ is_open pos.now.cells c (neighbour_at pos.now.size p side) }
{
    match neighbour(pos.size(), p, side) {
        Some(q) => pos.cell(q) != c.cell(),
        None => false,
    }
}

/// The first neighbour of `p`, in the order of the sides, that holds no stone of `c`.
fn open_neighbour(pos: &Position, p: Point, c: Colour) -> Option<Point>
    requires { p < pos.now.size * pos.now.size }
    ensures value { result ≡ open_neighbour pos.now.size pos.now.cells c p }
    ensures small { IfSome result (λ q. q < largest_points) }
{
    for side in 0..4 {
        if is_open(pos, p, side, c) {
            return neighbour(pos.size(), p, side);
        }
    }
    None
}

/// The points that show whether each neighbour of the empty point `p` holds a stone of `wall`, and whether `c` can play
/// at `p`.
fn wall_rests_on(pos: &Position, wall: Colour, c: Colour, p: Point) -> PointSet
    requires on_board { p < pos.now.size * pos.now.size }
    requires small { p < largest_points }
    ensures { result ≡ wall_rests_on pos.now.size pos.now.cells c p
        (open_neighbour pos.now.size pos.now.cells wall p) }
{
    match open_neighbour(pos, p, wall) {
        Some(q) => {
            let mut points = one_point(p);
            points.add(q);
            points
        }
        None => play_rests_on(pos, c, &PointSet::new(), p),
    }
}

/// The points that show whether the defender takes back the target, which is taken, and to which position that leads.
#[tactic(auto, unfolding(crate::specs::Rests::loss_rests_on))]
pub(crate) fn loss_rests_on(pos: &Position, node: Node) -> PointSet
    requires on_board { node.turn.target < pos.now.size * pos.now.size }
    requires small { node.turn.target < largest_points }
    ensures { result ≡ loss_rests_on node pos.now }
{
    let target = node.turn.target;
    if node.turn.tree.is_wider() && !node.turn.attacker_to_play {
        return wall_rests_on(pos, node.turn.defender.other(), node.mover(), target);
    }
    one_point(target)
}
