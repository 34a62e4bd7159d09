//! Where offsets lead from a point of a board.
ghost use Rattle.std.specs.Prelude.{◌≡◌, ℕ, ◌*◌, ◌/◌, ◌%◌, ◌<◌, pos, ◌+ℤ◌, IfSome};
ghost use Rattle.go_rules.specs.Transform.{IsNear};
ghost use Rattle.spiral.specs.Spiral.{offset_count, offset_at, strip_of, point_of, place_at};

use crate::numbering::offset;
use go_base::{Point, Size, Transform};

/// The row or column `by` steps from `from`; `None` if it is off the board.
fn moved(from: u8, by: i8, size: Size) -> Option<u8>
    requires { from < size }
    ensures value { result ≡ strip_of size (pos from +ℤ by) }
    ensures within { IfSome result (λ n. n < size) }
{
    let to = from as i16 + by as i16;
    if to >= 0 && to < size.get() as i16 {
        Some(to as u8)
    } else {
        None
    }
}

/// The point that an offset leads to from a row and a column; `None` exactly if it is off the board.
fn stepped(row: u8, column: u8, by: (i8, i8), size: Size) -> Option<Point>
    requires row { row < size }
    requires column { column < size }
    ensures value { result ≡ point_of size (strip_of size (pos row +ℤ by.0)) (strip_of size (pos column +ℤ by.1)) }
    ensures on_board { IfSome result (λ p. p < size * size) }
{
    let row = moved(row, by.0, size)?;
    let column = moved(column, by.1, size)?;
    Some(row as u16 * size.get() as u16 + column as u16)
}

/// The point that an offset, moved by a transformation, leads to from the point in a row and a column; `None` exactly
/// if it is off the board.
pub fn place_beside(
    row: u8,
    column: u8,
    t: Transform,
    offset: (i8, i8),
    size: Size,
) -> Option<Point>
    requires near { IsNear offset }
    requires row { row < size }
    requires column { column < size }
    ensures value { (from : ℕ) → row ≡ from / size → column ≡ from % size → result ≡ place_at size t from offset }
    ensures on_board { IfSome result (λ p. p < size * size) }
{
    stepped(row, column, t.apply(offset.0, offset.1), size)
}

/// The point that the offset of `dr` rows down and `dc` columns to the right, moved by a transformation, leads to from
/// the point `from`; `None` exactly if it is off the board.
pub fn place_from(from: Point, t: Transform, dr: i8, dc: i8, size: Size) -> Option<Point>
    requires near { IsNear (dr, dc) }
    requires on_board { from < size * size }
    ensures value { result ≡ place_at size t from (dr, dc) }
    ensures on_board { IfSome result (λ p. p < size * size) }
{
    let side = size.get() as u16;
    place_beside((from / side) as u8, (from % side) as u8, t, (dr, dc), size)
}

/// The point that the offset with an index, moved by a transformation, leads to from `anchor`; `None` exactly if it is
/// off the board.
pub fn place(index: u16, t: Transform, anchor: Point, size: Size) -> Option<Point>
    requires index { index < offset_count }
    requires on_board { anchor < size * size }
    ensures value { result ≡ place_at size t anchor (offset_at index) }
    ensures on_board { IfSome result (λ p. p < size * size) }
{
    let (dr, dc) = offset(index);
    place_from(anchor, t, dr, dc, size)
}
