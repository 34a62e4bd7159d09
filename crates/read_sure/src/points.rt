//! The points that a side tries.

ghost use Rattle.std.specs.Prelude.{◌≡◌, ℕ, ◌*◌, ◌<◌, true, nat_lt};
ghost use Rattle.std.specs.FinSet as set;
ghost use Rattle.trial_board.specs.Trials.{KeepsTrial};
ghost use Rattle.read_tree.specs.Walk.{IsPointOf, OnEachAgreeing};
ghost use Rattle.sure_rules.specs.SureTree.{is_tried};

use go_base::{Look, PointSet, Size};
use read_moves::candidates;
use read_rules::Node;
use trial_board::Trial;

/// All points of a board.
fn every_point(size: Size) -> PointSet
    ensures { (p : ℕ) → set.contains result p ≡ nat_lt p (size * size) }
{
    let mut points = PointSet::new();
    'points: for p in 0..size.points() {
        points.add(p);
    }
    points
}

/// The points that the side to play tries: the attacker tries the candidates, the defender every point of the board.
pub fn tried_points<L: Look>(board: &mut Trial<L>, node: Node) -> PointSet
    requires target { IsPointOf L.shows board.old node.turn.target }
    ensures stays { KeepsTrial L.shows L.seen board.old board.new }
    ensures on_board { (p : ℕ) → set.contains result p ≡ true → IsPointOf L.shows board.old p }
    ensures over { OnEachAgreeing L.seen board.old board.new (λ here. (p : ℕ)
        → set.contains result p ≡ is_tried node here p) }
{
    if node.turn.attacker_to_play {
        return candidates(board, node.turn);
    }
    every_point(board.size())
}
