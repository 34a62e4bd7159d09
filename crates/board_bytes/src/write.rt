//! Writing a position as bytes.

ghost use Rattle.std.specs.Prelude.{◌≡◌, ◌*◌, ◌-◌, ◌++◌, length, map, replicate, Ok};
ghost use Rattle.go_rules.specs.Board.{largest_points};
ghost use Rattle.board_bytes.specs.Bytes.{byte_of, ban_byte, ban_point, bytes_of, position_of};

use crate::board::BoardBytes;
use go_base::size::MAX_POINTS;
use go_base::{Cell, Colour, Point, Position};

/// The byte of a cell.
fn byte_of(cell: Cell) -> u8
    ensures { result ≡ byte_of cell }
{
    match cell {
        Cell::Empty => 0,
        Cell::Black => 1,
        Cell::White => 2,
    }
}

/// The byte of the colour that may not play; 0 if there is no ban.
fn ban_byte(ban: Option<(Point, Colour)>) -> u8
    ensures { result ≡ ban_byte ban }
{
    match ban {
        None => 0,
        Some((_, Colour::Black)) => 1,
        Some((_, Colour::White)) => 2,
    }
}

/// The point of the ban; 0 if there is no ban.
fn ban_point(ban: Option<(Point, Colour)>) -> u16
    ensures { result ≡ ban_point ban }
{
    match ban {
        None => 0,
        Some((p, _)) => p,
    }
}

/// Bytes that are all 0.
fn no_bytes() -> [u8; MAX_POINTS]
    ensures { result ≡ replicate largest_points 0 }
{
    [0; MAX_POINTS]
}

/// The bytes of what stands on the points, with 0 behind the last point.
fn cells_of(position: &Position) -> [u8; MAX_POINTS]
    ensures { result ≡ map byte_of position.now.cells
        ++ replicate (largest_points - position.now.size * position.now.size) 0 }
{
    let mut cells = no_bytes();
    for p in 0..position.size().points() {
        cells[p as usize] = byte_of(position.cell(p));
    }
    cells
}

/// The bytes of a position. `position_of` reads this position from them. Takes no memory.
pub fn bytes_of(position: &Position) -> BoardBytes
    ensures value { result ≡ bytes_of position.now }
    ensures read_back { position_of result ≡ Ok position.now }
{
    BoardBytes {
        size: position.size().get(),
        ban_colour: ban_byte(position.ban()),
        ban_point: ban_point(position.ban()),
        cells: cells_of(position),
    }
}
