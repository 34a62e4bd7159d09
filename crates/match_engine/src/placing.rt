//! Where the cells of a diagram lie on a board.
ghost use Rattle.std.specs.Prelude.{◌≡◌, ◌*◌, ◌<◌, pos, IfSome};
ghost use Rattle.match_rules.specs.Fits.{place_of_cell};
ghost use Rattle.match_engine.specs.Found.{place_of_star, star_if_whole};

use go_base::{Point, Size, Transform};
use pat_types::{Pattern, anchor};
use spiral::{place_beside, place_from};

/// The star's point, if the anchor's cell of `p` lies at `from` under the transformation `t`; `None` if some letter of
/// the diagram lies off the board then. Two opposite corners tell whether all letters lie on the board.
pub fn star_place(p: &Pattern, t: Transform, from: Point, size: Size) -> Option<Point>
    requires { from < size * size }
    ensures value { result ≡ star_if_whole p.now size t (place_of_star p.now size t from) }
    ensures on_board { IfSome result (λ m. m < size * size) }
{
    let _ = t.get();
    let side = size.get() as u16;
    let row = (from / side) as u8;
    let column = (from % side) as u8;
    let (r, c) = anchor(p);
    let first = (0 - r as i8, 0 - c as i8);
    let last = ((p.rows - 1) as i8 - r as i8, (p.cols - 1) as i8 - c as i8);
    let star = (p.star.0 as i8 - r as i8, p.star.1 as i8 - c as i8);
    place_beside(row, column, t, first, size)?;
    place_beside(row, column, t, last, size)?;
    place_beside(row, column, t, star, size)
}

/// The point of a letter's cell, with the star at `star` under the transformation `t`, or `None` if it is off the
/// board.
pub fn cell_place(
    p: &Pattern,
    t: Transform,
    star: Point,
    row: u8,
    column: u8,
    size: Size,
) -> Option<Point>
    requires star { star < size * size }
    requires row { row < p.now.rows }
    requires column { column < p.now.cols }
    ensures { result ≡ place_of_cell p.now size t star (pos row) (pos column) }
{
    let dr = row as i8 - p.star.0 as i8;
    let dc = column as i8 - p.star.1 as i8;
    place_from(star, t, dr, dc, size)
}
