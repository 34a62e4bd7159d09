//! The four sides of a point.

ghost use Rattle.std.specs.Prelude.{◌≡◌, ◌*◌, ◌%◌, ◌<◌, IfSome, IsTrue};
ghost use Rattle.go_rules.specs.Board.{largest_points, are_neighbours};
ghost use Rattle.go_base.specs.Sides.{neighbour_at};

use crate::size::{Point, Size};

/// A point of a board with its column, which is computed once for all four sides.
#[derive(Drop)]
pub(crate) struct Spot {
    /// The size of the board.
    pub(crate) size: Size,
    /// The point whose sides are asked for.
    pub(crate) point: Point,
    /// The column of the point, counted from 0 at the left.
    pub(crate) column: u16,
}

impl Spot {
    /// The spot of `p`.
    #[inline(always)]
    pub(crate) fn new(size: Size, p: Point) -> Spot
        requires { p < size * size }
        ensures size { result.size ≡ size }
        ensures point { result.point ≡ p }
        ensures column { result.column ≡ p % size }
    {
        Spot {
            size,
            point: p,
            column: p % size.get() as u16,
        }
    }

    /// The neighbour above (side 0), below (1), to the left (2) or to the right (3); `None` if the point is on that
    /// edge.
    #[inline(always)]
    pub(crate) fn neighbour(&self, side: u8) -> Option<Point>
        requires on_board { self.now.point < self.now.size * self.now.size }
        requires column { self.now.column ≡ self.now.point % self.now.size }
        requires side { side < 4 }
        ensures value { result ≡ neighbour_at self.now.size self.now.point side }
        ensures near { IfSome result (λ q. (q < self.now.size * self.now.size) × (q < largest_points)
            × IsTrue (are_neighbours self.now.size self.now.point q)) }
    {
        let s = self.size.get() as u16;
        let p = self.point;
        match side {
            0 => if p < s { None } else { Some(p - s) },
            1 => if p + s < s * s { Some(p + s) } else { None },
            2 => if self.column == 0 { None } else { Some(p - 1) },
            _ => if self.column + 1 == s {
                None
            } else {
                Some(p + 1)
            },
        }
    }
}

/// The neighbour of `p` above (side 0), below (1), to the left (2) or to the right (3); `None` if `p` is on that edge.
#[inline(always)]
pub fn neighbour(size: Size, p: Point, side: u8) -> Option<Point>
    requires on_board { p < size * size }
    requires side { side < 4 }
    ensures value { result ≡ neighbour_at size p side }
    ensures near { IfSome result (λ q. (q < size * size) × (q < largest_points) × IsTrue (are_neighbours size p q)) }
{
    Spot::new(size, p).neighbour(side)
}
