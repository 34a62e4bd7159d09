//! The generated lines, one at a time.
ghost use Rattle.std.specs.Prelude.{◌≡◌, ◌+◌, ◌*◌, ◌<◌, ◌≤◌, ◌^◌, ◌++◌, codes, length};
ghost use Rattle.vertices.specs.Vertices.{vertex_text};
ghost use Rattle.workload.specs.GeneratedLines.{colour_of_line, ended, line_with, next_number, opening_lines};
ghost use Rattle.workload.specs.GeneratedLines.{rows, text_of};

use go_base::Size;
use vertices::{Short, vertex_text};

/// How many rows the board has on which the generated lines play.
const ROWS: u8 = 9;

/// The number after the number `x` in the recurrence.
pub(crate) fn next_number(x: u32) -> u32
    ensures value { result ≡ next_number x }
    ensures small { result < 2 ^ 31 }
{
    ((u64::from(x) * 1_103_515_245 + 12_345) % 0x8000_0000) as u32
}

/// The size of the board on which the generated lines play.
fn size() -> Size
    ensures { result ≡ rows }
{
    Size::new(ROWS).unwrap()
}

/// The line with the vertex of a point appended.
fn with_vertex(mut line: Short, point: u8) -> Short
    requires point { point < rows * rows }
    requires room { length line ≤ 20 }
    ensures text { result ≡ line ++ vertex_text rows point }
    ensures short { length result ≤ 30 }
{
    line.extend(vertex_text(size(), u16::from(point)).as_slice());
    line
}

/// The line with the colour of line `i` appended.
fn with_colour(mut line: Short, i: u32) -> Short
    requires { length line ≤ 20 }
    ensures text { result ≡ line ++ colour_of_line i }
    ensures short { length result ≤ length line + 1 }
{
    line.extend(if i % 2 == 1 { b"b" } else { b"w" });
    line
}

/// The line with a blank appended.
fn with_blank(mut line: Short) -> Short
    requires { length line ≤ 20 }
    ensures { result ≡ line ++ codes " " }
{
    line.extend(b" ");
    line
}

/// Line `i` with the number `x`, without its line feed.
#[tactic(auto, unfolding(crate::specs::GeneratedLines::line_with))]
fn bare_line(i: u32, x: u32) -> Short
    ensures text { result ≡ line_with i x }
    ensures short { length result ≤ 40 }
{
    let point = (x / 65_536 % 81) as u8;
    match i % 16 {
        4 => Short::of(b"undo"),
        8 => with_vertex(Short::of(b"attack "), point),
        12 => with_vertex(Short::of(b"defend "), point),
        0 => with_colour(Short::of(b"match_patterns "), i),
        _ => with_vertex(with_blank(with_colour(Short::of(b"play "), i)), point),
    }
}

/// Line `i` with the number `x`, and with its line feed.
pub(crate) fn line(i: u32, x: u32) -> Short
    ensures text { result ≡ ended (line_with i x) }
    ensures some { 0 < length result }
{
    let mut line = bare_line(i, x);
    line.extend(b"\n");
    line
}

/// The lines that set up the board.
pub(crate) fn opening() -> Short
    ensures { result ≡ text_of opening_lines }
{
    Short::of(b"boardsize 9\ndepths 5 1\n")
}
