//! Vertices, as words name them and as they are printed.

ghost use Rattle.std.specs.Prelude.{◌≡◌, ◌*◌, ◌<◌, ◌≤◌, Some, length};
ghost use Rattle.vertices.specs.Words.{kept};
ghost use Rattle.vertices.specs.RawWords.{capped};
ghost use Rattle.vertices.specs.Vertices.{row_number_of, point_of, vertex_of, target_of, vertex_text};

use crate::columns::{column_letter, column_named};
use crate::numbers::number;
use crate::room::Short;
use crate::words::{byte_count, first_byte, spells_in_either_case};
use go_base::{Point, Size};
use itoa::Buffer;

/// The number of a row that one or two digits write; `None` for any other text.
fn row_number(digits: &[u8]) -> Option<u32>
    ensures { result ≡ capped (row_number_of (kept digits.now)) }
{
    if byte_count(digits) > 2 {
        return None;
    }
    number(digits)
}

/// The point in the column `column` and in the row of the number `number`; `None` if it is off the board. Row 1 is the
/// bottom row.
fn point(size: Size, column: u8, number: u32) -> Option<Point>
    ensures { result ≡ point_of size (Some column) (Some number) }
{
    let rows = size.get();
    if number == 0 || number > u32::from(rows) {
        return None;
    }
    size.point(rows - number as u8, column)
}

/// The point that `word` names on a board of this size; `None` if the word is no vertex of the board.
pub fn vertex_named(word: &[u8], size: Size) -> Option<Point>
    ensures { result ≡ vertex_of size (kept word.now) }
{
    let (letter, digits) = first_byte(word)?;
    let column = column_named(letter)?;
    let number = row_number(digits)?;
    point(size, column, number)
}

/// Where a move goes by `word`: `Some(None)` for `pass`, the point for a vertex of the board, and `None` for any other
/// word.
pub fn target_named(word: &[u8], size: Size) -> Option<Option<Point>>
    ensures { result ≡ target_of size (kept word.now) }
{
    if spells_in_either_case(word, b"pass") {
        return Some(None);
    }
    let at = vertex_named(word, size)?;
    Some(Some(at))
}

/// The vertex of a point, as it is printed: the letter of its column, and the number of its row from below.
pub fn vertex_text(size: Size, p: Point) -> Short
    requires { p < size * size }
    ensures text { result ≡ vertex_text size p }
    ensures short { length result ≤ 4 }
{
    let rows = u16::from(size.get());
    let mut buffer = Buffer::new();
    let mut text = Short::of(&[column_letter((p % rows) as u8)]);
    text.extend(buffer.format((rows - p / rows) as u8).as_bytes());
    text
}
