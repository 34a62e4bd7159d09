//! Plays, passes and liberties.

ghost use Rattle.std.specs.Prelude.{◌≡◌};
ghost use Rattle.board_doors.specs.Doors.{play_on, play_of, liberties_on, liberties_of};

use crate::fault::DoorFault;
use crate::stones::stone_at;
use board_bytes::{BoardBytes, colour_named, position_of};
use go_base::{Point, Position};

/// The number of a point that stands for a pass.
pub const PASS: Point = 65535;

/// The position after the colour with this number plays at the point or passes, or the first fault: of the colour, of
/// the point, of the rules.
#[tactic(auto, unfolding(crate::specs::Doors::play_on))]
fn play_on(colour: u8, at: Point, position: &Position) -> Result<Position, DoorFault>
    ensures { result ≡ play_on colour at position.now }
{
    let Some(colour) = colour_named(colour) else {
        return Err(DoorFault::Colour);
    };
    if at == PASS {
        return Ok(position.pass());
    }
    if at >= position.size().points() {
        return Err(DoorFault::OffBoard);
    }
    match position.play(colour, at) {
        Ok(next) => Ok(next),
        Err(why) => Err(DoorFault::Illegal(why)),
    }
}

/// The position after the colour 1, Black, or 2, White, plays at `at`, or passes if `at` is 65535. The faults come in
/// this order: of the board, of the colour, of the point, of the rules. Takes no memory.
#[tactic(auto, unfolding(crate::specs::Doors::play_of))]
pub fn play(board: &BoardBytes, colour: u8, at: Point) -> Result<Position, DoorFault>
    ensures { result ≡ play_of board.now colour at }
{
    match position_of(board) {
        Ok(position) => play_on(colour, at, &position),
        Err(fault) => Err(DoorFault::Board(fault)),
    }
}

/// How many liberties the string at `p` has, or the fault of the point.
#[tactic(auto, unfolding(crate::specs::Doors::liberties_on))]
fn liberties_on(p: Point, position: &Position) -> Result<u16, DoorFault>
    ensures { result ≡ liberties_on p position.now }
{
    let _ = stone_at(position, p)?;
    Ok(position.liberties(p))
}

/// How many liberties the string at `p` has. The faults come in this order: of the board, of the point. Takes no
/// memory.
#[tactic(auto, unfolding(crate::specs::Doors::liberties_of))]
pub fn liberties(board: &BoardBytes, p: Point) -> Result<u16, DoorFault>
    ensures { result ≡ liberties_of board.now p }
{
    match position_of(board) {
        Ok(position) => liberties_on(p, &position),
        Err(fault) => Err(DoorFault::Board(fault)),
    }
}
