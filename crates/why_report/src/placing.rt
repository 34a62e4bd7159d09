//! The places of the cells of a diagram after turning.
use go_base::{Point, Size, Transform};
use pat_types::{Pattern, anchor};
use vertices::{Short, vertex_text};

/// The greatest distance between two rows or two columns of a board.
const FARTHEST: i16 = 24;

/// A row and a column, counted from the star or from the corner of the board.
#[derive(Clone, Copy)]
pub(crate) struct Spot {
    pub(crate) row: i16,
    pub(crate) column: i16,
}

/// The vertex of a point, as it is printed; empty off the board.
pub(crate) fn vertex_bytes(size: Size, at: Point) -> Short {
    if at < size.points() {
        vertex_text(size, at)
    } else {
        Short::new()
    }
}

/// The offset from the star of the cell in this `row` and `column` of the drawing, after turning. No cell of a pattern
/// is farther from the star than two points of a board can be from each other.
pub(crate) fn turned(pattern: &Pattern, transform: Transform, row: i16, column: i16) -> Spot {
    let down = row.saturating_sub(i16::from(pattern.star.0));
    let right = column.saturating_sub(i16::from(pattern.star.1));
    if down < -FARTHEST || FARTHEST < down || right < -FARTHEST || FARTHEST < right {
        return Spot { row: 0, column: 0 };
    }
    let (row, column) = transform.apply(down as i8, right as i8);
    Spot {
        row: i16::from(row),
        column: i16::from(column),
    }
}

/// The point at this `offset` from the point `at`; `None` off the board.
pub(crate) fn point_from(size: Size, at: Point, offset: Spot) -> Option<Point> {
    let side = u16::from(size.get());
    let row = offset.row.saturating_add((at / side) as i16);
    let column = offset.column.saturating_add((at % side) as i16);
    if row < 0 || column < 0 || row > FARTHEST || column > FARTHEST {
        return None;
    }
    size.point(row as u8, column as u8)
}

/// The point of a pattern's star, if the cell where reading of its diagram begins is at the point `from`; `None` off
/// the board.
pub fn star_from(
    pattern: &Pattern,
    transform: Transform,
    size: Size,
    from: Point,
) -> Option<Point> {
    let (row, column) = anchor(pattern);
    let read = turned(pattern, transform, i16::from(row), i16::from(column));
    let back = Spot {
        row: read.row.saturating_neg(),
        column: read.column.saturating_neg(),
    };
    point_from(size, from, back)
}
