//! Sets of points computed from the liberties of two strings. No point of the board is looked at, and nothing takes
//! memory.

ghost use Rattle.std.specs.Prelude.{◌≡◌, ℕ, ◌*◌, ◌<◌, ◌&&◌, ◌||◌, ◌==◌, not, IsTrue, true, false};
ghost use Rattle.std.specs.FinSet as set;
ghost use Rattle.read_connect.specs.Stages.{is_beside_member, reaches_among};

use go_base::points::PointSet;
use go_base::sides::neighbour;
use go_base::{Point, Size};

/// Whether `p` is a neighbour of a point of `points`.
fn is_beside(size: Size, p: Point, points: &PointSet) -> bool
    requires { p < size * size }
    ensures { result ≡ is_beside_member size points.now p }
{
    for side in 0..4 {
        if let Some(q) = neighbour(size, p, side) {
            if points.has(q) {
                return true;
            }
        }
    }
    false
}

/// Whether `p` is not in `others`, and is either the only liberty of its own string, as `only` says, or a neighbour of
/// a point of `others`.
fn reaches(size: Size, p: Point, only: bool, others: &PointSet) -> bool
    requires on_board { p < size * size }
    ensures { result ≡ (not (set.contains others.now p) && (only || is_beside_member size others.now p)) }
{
    let _ = size.points();
    if others.has(p) {
        return false;
    }
    if only {
        return true;
    }
    is_beside(size, p, others)
}

/// The liberties of one string, `points`, that are not in `others`, the liberties of the other string, and that are
/// neighbours of a point of `others` or the only liberty of their own string.
pub fn reaching(size: Size, points: &PointSet, others: &PointSet) -> PointSet
    requires { (p : ℕ) → IsTrue (set.contains points.now p) → p < size * size }
    ensures { (p : ℕ) → set.contains result p ≡ reaches_among size points.now others.now p }
{
    let only = points.count() == 1;
    let mut found = PointSet::new();
    let mut next = 0;
    while let Some(p) = points.first_from(next) {
        if reaches(size, p, only, others) {
            found.add(p);
        }
        next = p + 1;
    }
    found
}
