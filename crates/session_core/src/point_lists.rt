//! Points as vertices, in a growing text.
ghost use Rattle.std.specs.Prelude.{◌≡◌, ℕ, ◌-◌, ◌*◌, ◌<◌, ◌≤◌, ◌++◌, ◌∷◌, [], false, OnOk, IfOk, IfSome, IfNone};
ghost use Rattle.std.specs.Prelude.{IsTrue, decimal, slice_index};
ghost use Rattle.std.specs.FinSet as set;
ghost use Rattle.go_strings.specs.Games.{reached};
ghost use Rattle.gtp_cmd.specs.Vertices.{vertex_text, column_letters};
ghost use Rattle.machine_rules.specs.PointLists.{in_reading_order, legal_list, liberty_list};
ghost use Rattle.machine_rules.specs.PointLists.{vertices_text, blank_after};

use go_base::{Bytes, Colour, NoMemory, Point, PointSet, Size};
use go_strings::StringBoard;
use gtp_cmd::column_letter;
use itoa::Buffer;
use std::alloc::Global;

/// Appends the letter of a column.
pub(crate) fn push_letter(out: &mut Bytes, column: u8) -> Result<(), NoMemory>
    requires { column < 25 }
    ensures { OnOk result (out.new ≡ out.old ++ slice_index column_letters column ∷ []) }
{
    out.push(column_letter(column))
}

/// Appends a number in decimal.
pub(crate) fn push_number(out: &mut Bytes, n: u8) -> Result<(), NoMemory>
    ensures { OnOk result (out.new ≡ out.old ++ decimal n) }
{
    let mut buffer = Buffer::new();
    out.extend(buffer.format(n).as_bytes())
}

/// Appends the vertex of a point, all its bytes at once, so that room is looked for once. The row has one or two
/// digits.
pub(crate) fn push_vertex(out: &mut Bytes, size: Size, p: Point) -> Result<(), NoMemory>
    requires { p < size * size }
    ensures { OnOk result (out.new ≡ out.old ++ vertex_text size p) }
{
    let rows = u16::from(size.get());
    let letter = column_letter((p % rows) as u8);
    let number = (rows - p / rows) as u8;
    if number < 10 {
        return out.extend(&[letter, b'0' + number]);
    }
    out.extend(&[letter, b'0' + number / 10, b'0' + number % 10])
}

/// Appends the vertex of a point of a list, after a blank if it is not the first.
fn push_next(out: &mut Bytes, size: Size, p: Point) -> Result<(), NoMemory>
    requires { p < size * size }
    ensures { OnOk result (out.new ≡ out.old ++ blank_after out.old ++ vertex_text size p) }
{
    if !out.as_slice().is_empty() {
        out.push(b' ')?;
    }
    push_vertex(out, size, p)
}

/// The least member of `points` from `from` on, or `None` exactly if there is none below `end`.
fn member_below(points: &PointSet, from: u16, end: u16) -> Option<Point>
    ensures some { IfSome result (λ q. (from ≤ q) × (q < end) × IsTrue (set.contains points.now q)
        × ((r : ℕ) → from ≤ r → r < q → set.contains points.now r ≡ false)) }
    ensures none { IfNone result ((r : ℕ) → from ≤ r → r < end → set.contains points.now r ≡ false) }
{
    match points.first_from(from) {
        Some(q) => if q < end { Some(q) } else { None },
        None => None,
    }
}

/// The points of a set as vertices in reading order.
fn points_text(alloc: Global, size: Size, points: &PointSet) -> Result<Bytes, NoMemory>
    ensures { IfOk result (λ text. text ≡ vertices_text size (in_reading_order size points.now)) }
{
    let mut text = Bytes::new(alloc);
    let end = size.points();
    let mut next = 0;
    while let Some(p) = member_below(points, next, end) {
        push_next(&mut text, size, p)?;
        next = p + 1;
    }
    Ok(text)
}

/// The points where a colour may play, as vertices in reading order.
pub(crate) fn legal_text(alloc: Global, board: &StringBoard, c: Colour) -> Result<Bytes, NoMemory>
    ensures { IfOk result
        (λ text. text ≡ vertices_text (reached board.now).size (legal_list (reached board.now) c)) }
{
    points_text(alloc, board.size(), &board.legal_points(c))
}

/// The liberties of the string of `p`, as vertices in reading order.
pub(crate) fn liberties_text(
    alloc: Global,
    board: &StringBoard,
    p: Point,
) -> Result<Bytes, NoMemory>
    requires { p < (reached board.now).size * (reached board.now).size }
    ensures { IfOk result
        (λ text. text ≡ vertices_text (reached board.now).size (liberty_list (reached board.now) p)) }
{
    points_text(alloc, board.size(), &board.liberty_points(p))
}
