//! The points of the board next to a set of points, by what stands there.

ghost use Rattle.std.specs.Prelude.{◌≡◌, ℕ, ◌*◌, ◌<◌, ◌==◌, ◌&&◌, ◌||◌, false, IsTrue, Some};
ghost use Rattle.std.specs.FinSet as set;
ghost use Rattle.go_rules.specs.Below.{any_below};
ghost use Rattle.go_rules.specs.Board.{largest_points, are_neighbours};
ghost use Rattle.go_rules.specs.Strings.{cell_at, same_cell};
ghost use Rattle.go_base.specs.Sides.{neighbour_at};
ghost use Rattle.read_proof.specs.Beside.{stands_beside};

use go_base::sides::neighbour;
use go_base::{Cell, Point, PointSet, Position, Size};

/// Whether `q` has a neighbour at this side and the neighbour is in `points`.
fn has_side(size: Size, points: &PointSet, q: Point, side: u8) -> bool
    requires on_board { q < size * size }
    requires side { side < 4 }
    ensures yes { IsTrue result → (l : ℕ) × (neighbour_at size q side ≡ Some l) × IsTrue (set.contains points.now l) }
    ensures no { result ≡ false → (l : ℕ) → neighbour_at size q side ≡ Some l → set.contains points.now l ≡ false }
{
    match neighbour(size, q, side) {
        Some(l) => points.has(l),
        None => false,
    }
}

/// Whether some neighbour of `q` is in `points`.
fn is_beside(pos: &Position, points: &PointSet, q: Point) -> bool
    requires { q < pos.now.size * pos.now.size }
    ensures { result ≡ any_below (pos.now.size * pos.now.size)
        (λ l. set.contains points.now l && are_neighbours pos.now.size l q) }
{
    let size = pos.size();
    for side in 0..4 {
        if has_side(size, points, q, side) {
            return true;
        }
    }
    false
}

/// Adds `p` to `found` if its cell is `cell`.
pub(crate) fn add_where(pos: &Position, cell: Cell, p: Point, found: &mut PointSet)
    requires on_board { p < pos.now.size * pos.now.size }
    requires small { p < largest_points }
    ensures { (r : ℕ) → set.contains found.new r
        ≡ (set.contains found.old r || ((r == p) && same_cell (cell_at pos.now.cells p) cell)) }
{
    if pos.cell(p) == cell {
        found.add(p);
    }
}

/// Adds `p` to `found` if its cell is `cell` and it is next to a point of `points`.
fn add_beside(pos: &Position, cell: Cell, points: &PointSet, p: Point, found: &mut PointSet)
    requires on_board { p < pos.now.size * pos.now.size }
    requires small { p < largest_points }
    ensures { (r : ℕ) → set.contains found.new r ≡ (set.contains found.old r
        || ((r == p) && stands_beside pos.now.size pos.now.cells cell (set.contains points.now) p)) }
{
    if is_beside(pos, points, p) {
        add_where(pos, cell, p, found);
    }
}

/// The points of the board whose cell is `cell` and which are next to a point of `points`.
pub(crate) fn beside(pos: &Position, cell: Cell, points: &PointSet) -> PointSet
    ensures { (p : ℕ) → set.contains result p
        ≡ stands_beside pos.now.size pos.now.cells cell (set.contains points.now) p }
{
    let mut found = PointSet::new();
    for p in 0..pos.size().points() {
        add_beside(pos, cell, points, p, &mut found);
    }
    found
}
