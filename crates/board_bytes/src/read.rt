//! Reading bytes as a position.

ghost use Rattle.std.specs.Prelude.{◌≡◌, ℕ, ◌*◌, ◌≤◌, length};
ghost use Rattle.std.specs.List.{list_all};
ghost use Rattle.std.specs.FinSet as set;
ghost use Rattle.go_rules.specs.Board.{largest_points};
ghost use Rattle.board_bytes.specs.Bytes.{is_cell_byte, has_byte, colour_named, stones_of, with_ban, position_of};

use crate::board::{BoardBytes, BoardFault};
use go_base::{Cell, Colour, PointSet, Position, Size};

/// The byte of a black stone, and of the colour Black.
const BLACK: u8 = 1;

/// The byte of a white stone, and of the colour White.
const WHITE: u8 = 2;

/// The colour that a byte names: 1 is Black, 2 is White, and no other byte names one.
pub fn colour_named(byte: u8) -> Option<Colour>
    ensures { result ≡ colour_named byte }
{
    match byte {
        1 => Some(Colour::Black),
        2 => Some(Colour::White),
        _ => None,
    }
}

/// Whether each byte names an empty point or a stone.
fn are_cell_bytes(bytes: &[u8]) -> bool
    ensures { result ≡ list_all is_cell_byte bytes.now }
{
    bytes.iter().all(|b| *b <= WHITE)
}

/// The points among the first `points` ones that have the byte `byte`.
fn points_with(bytes: &[u8], byte: u8, points: u16) -> PointSet
    requires enough { points ≤ length bytes.now }
    requires few { points ≤ largest_points }
    ensures { (p : ℕ) → set.contains result p ≡ has_byte bytes.now byte points p }
{
    let mut found = PointSet::new();
    for p in 0..points {
        if bytes[p as usize] == byte {
            found.add(p);
        }
    }
    found
}

/// The position with the stones that the bytes name and without a ban; `None` if some string has no liberty.
fn stones_of(size: Size, bytes: &[u8]) -> Option<Position>
    requires { length bytes.now ≡ size * size }
    ensures { result ≡ stones_of size bytes.now }
{
    let _ = size.get();
    let black = points_with(bytes, BLACK, size.points());
    let white = points_with(bytes, WHITE, size.points());
    Position::setup(size, &black, &white)
}

/// The position with the ban that `colour` and `point` name; `None` if the colour is none of 0, 1 and 2, or the point
/// of a ban is not an empty point of the board.
#[tactic(auto, unfolding(crate::specs::Bytes::with_ban))]
fn with_ban(position: &Position, colour: u8, point: u16) -> Option<Position>
    ensures { result ≡ with_ban position.now colour point }
{
    if colour == 0 {
        return Some(*position);
    }
    let colour = colour_named(colour)?;
    if point >= position.size().points() || position.cell(point) != Cell::Empty {
        return None;
    }
    Some(Position::of(&position.board(), Some((point, colour))))
}

/// The position that the bytes of `board` describe, or the first reason why they describe none. Takes no memory.
pub fn position_of(board: &BoardBytes) -> Result<Position, BoardFault>
    ensures { result ≡ position_of board.now }
{
    let Some(size) = Size::new(board.size) else {
        return Err(BoardFault::Size);
    };
    let bytes = &board.cells[..usize::from(size.points())];
    if !are_cell_bytes(bytes) {
        return Err(BoardFault::Cell);
    }
    let Some(stones) = stones_of(size, bytes) else {
        return Err(BoardFault::NoLiberty);
    };
    with_ban(&stones, board.ban_colour, board.ban_point).ok_or(BoardFault::Ban)
}

#[cfg(test)]
mod tests {
    use crate::{BoardBytes, BoardFault, bytes_of, position_of};
    use go_base::{Cell, Colour};
    use std::test::Fail;

    /// A board of this size with the bytes of `points`, 0 at every other point, and the ban `ban`.
    fn board(size: u8, points: &[(u16, u8)], ban: (u8, u16)) -> BoardBytes {
        let mut cells = [0; 625];
        for (p, byte) in points {
            if *p < 625 {
                cells[*p as usize] = *byte;
            }
        }
        BoardBytes {
            size,
            ban_colour: ban.0,
            ban_point: ban.1,
            cells,
        }
    }

    /// Boards as bytes, and the fault of each that is no position.
    static BOARDS: [(&str, u8, &[(u16, u8)], (u8, u16), Option<BoardFault>); 13] = [
        ("an empty board", 19, &[], (0, 0), None),
        ("a board of one row", 1, &[], (0, 0), Some(BoardFault::Size)),
        (
            "a board of 26 rows",
            26,
            &[],
            (0, 0),
            Some(BoardFault::Size),
        ),
        ("the byte 3", 9, &[(80, 3)], (0, 0), Some(BoardFault::Cell)),
        (
            "the byte 3 behind the last point",
            9,
            &[(81, 3)],
            (0, 0),
            None,
        ),
        (
            "two stones beside each other",
            2,
            &[(0, 1), (1, 2)],
            (0, 0),
            None,
        ),
        (
            "a dead stone",
            2,
            &[(0, 1), (1, 2), (2, 2)],
            (0, 0),
            Some(BoardFault::NoLiberty),
        ),
        ("a ban", 2, &[(0, 1)], (2, 3), None),
        (
            "a ban on a stone",
            2,
            &[(0, 1)],
            (2, 0),
            Some(BoardFault::Ban),
        ),
        (
            "a ban behind the last point",
            2,
            &[(0, 1)],
            (1, 4),
            Some(BoardFault::Ban),
        ),
        (
            "a ban on the third colour",
            2,
            &[(0, 1)],
            (3, 3),
            Some(BoardFault::Ban),
        ),
        ("a point without a ban", 2, &[(0, 1)], (0, 9), None),
        ("two faults", 2, &[(0, 9)], (3, 3), Some(BoardFault::Cell)),
    ];

    #[test]
    fn bytes_are_a_position_or_have_a_first_fault(rt: HostRuntime) {
        for (what, size, points, ban, fault) in &BOARDS {
            match position_of(&board(*size, points, *ban)) {
                Ok(_) => assert!(rt; fault.is_none(), "{what}"),
                Err(found) => assert!(rt; *fault == Some(found), "{what}"),
            }
        }
    }

    #[test]
    fn stones_and_the_ban_are_read_and_written(rt: HostRuntime) -> Result<(), Fail> {
        let Ok(position) = position_of(&board(3, &[(1, 1), (3, 2)], (1, 4))) else {
            return Err("the bytes are a position".into());
        };
        assert!(rt; position.size().points() == 9);
        for (p, cell) in [(0, Cell::Empty), (1, Cell::Black), (3, Cell::White)] {
            assert!(rt; position.cell(p) == cell);
        }
        assert!(rt; position.ban() == Some((4, Colour::Black)));
        let bytes = bytes_of(&position);
        assert!(rt; bytes.cells[..5] == [0, 1, 0, 2, 0][..]);
        assert!(rt; (bytes.size, bytes.ban_colour, bytes.ban_point) == (3, 1, 4));
        Ok(())
    }
}
