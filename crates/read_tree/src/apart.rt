//! A set of points made from another: all but one point.

ghost use Rattle.std.specs.Prelude.{◌≡◌, ℕ, ◌<◌, ◌==◌, ◌&&◌, not};
ghost use Rattle.std.specs.FinSet as set;
ghost use Rattle.go_rules.specs.Board.{largest_points};

use go_base::Point;
use go_base::points::PointSet;

/// The members of `points` other than `p`. It takes no memory.
pub fn all_but(points: &PointSet, p: Point) -> PointSet
    requires { p < largest_points }
    ensures { (q : ℕ) → set.contains result q ≡ (set.contains points.now q && not (q == p)) }
{
    points.without(p)
}
