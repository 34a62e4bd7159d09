//! The enemy strings next to a string, on a board that is read cell by cell.

ghost use Rattle.std.specs.Prelude.{◌≡◌, ◌*◌, ◌<◌};
ghost use Rattle.go_rules.specs.Board.{largest_points};
ghost use Rattle.trial_board.specs.Boundary.{boundary_points, AddsLeast, KnowsLeast};
ghost use Rattle.go_rules.specs.Neighbourhood.{neighbourhood_of};
ghost use Rattle.go_rules.specs.Position.{BoardState};
ghost use Rattle.go_base.specs.Views.{Looks, anywhere, alone};

use go_base::flood::flood;
use go_base::points::PointSet;
use go_base::size::Point;
use go_base::view::View;

/// Adds the least point of the string of `q` to `least`, unless the string was seen before.
fn add_least<V: View>(board: &mut V, q: Point, seen: &mut PointSet, least: &mut PointSet)
    requires on_board { q < V.rows board.old * V.rows board.old }
    requires small { q < largest_points }
    ensures looks { Looks V.cells V.asks board.old board.new anywhere }
    ensures near { (pos : BoardState) → V.agrees board.new pos
        → V.asks board.old board.new (neighbourhood_of (V.rows board.old) (V.cells board.old pos) (alone q)) }
    ensures adds { (pos : BoardState) → V.agrees board.new pos
        → KnowsLeast (V.rows board.old) (V.cells board.old pos) seen.old least.old
        → AddsLeast (V.rows board.old) (V.cells board.old pos) q least.old least.new }
    ensures knows { (pos : BoardState) → V.agrees board.new pos
        → KnowsLeast (V.rows board.old) (V.cells board.old pos) seen.old least.old
        → KnowsLeast (V.rows board.old) (V.cells board.old pos) seen.new least.new }
{
    if seen.has(q) {
        return;
    }
    let found = flood(board, q);
    seen.join(&found.stones);
    if let Some(r) = found.stones.first_from(0) {
        least.add(r);
    }
}

/// The least point of each enemy string next to the string of `p`; none if `p` is empty.
pub(crate) fn boundary_of<V: View>(board: &mut V, p: Point) -> PointSet
    requires { p < V.rows board.old * V.rows board.old }
    ensures looks { Looks V.cells V.asks board.old board.new anywhere }
    ensures near { (pos : BoardState) → V.agrees board.new pos
        → V.asks board.old board.new (neighbourhood_of (V.rows board.old) (V.cells board.old pos)
        (neighbourhood_of (V.rows board.old) (V.cells board.old pos) (alone p))) }
    ensures over { (pos : BoardState) → V.agrees board.new pos
        → result ≡ boundary_points (V.rows board.old) (V.cells board.old pos) p }
{
    let found = flood(board, p);
    let mut seen = PointSet::new();
    let mut least = PointSet::new();
    let mut next = 0;
    'enemies: while let Some(q) = found.enemies.first_from(next) {
        add_least(board, q, &mut seen, &mut least);
        next = q + 1;
    }
    least
}
