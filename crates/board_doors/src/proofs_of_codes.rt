//! Whether a text proves the code of a reading.

ghost use Rattle.std.specs.Prelude.{◌≡◌, ◌≤◌};
ghost use Rattle.board_doors.specs.Doors.{check_on, checking_of};

use crate::depths::{DepthBytes, depths_of};
use crate::fault::DoorFault;
use crate::questions::kind_named;
use crate::stones::stone_at;
use board_bytes::{BoardBytes, position_of};
use go_base::{Point, Position};

/// Whether `text` proves `code`, or the first fault: of the question, of the point, of the depths, of the code.
#[tactic(auto, unfolding(crate::specs::Doors::check_on))]
fn check_on(
    kind: u8,
    target: Point,
    depths: DepthBytes,
    code: u8,
    text: &[u8],
    position: &Position,
) -> Result<bool, DoorFault>
    ensures { result ≡ check_on kind target depths code text.now position.now }
{
    let Some(kind) = kind_named(kind) else {
        return Err(DoorFault::Kind);
    };
    let _ = stone_at(position, target)?;
    let Some(depths) = depths_of(depths) else {
        return Err(DoorFault::Depths);
    };
    if code > 3 {
        return Err(DoorFault::Code);
    }
    Ok(read_proof::check(position, kind, target, depths, code, text))
}

/// Whether `text` proves that an attack on the string at `target` (`kind` 1) or its defence (`kind` 2) has this `code`.
/// The words are those that `prove_attack` and `prove_defend` print. The faults come in this order: of the board, of
/// the question, of the point, of the depths, of the code. Takes no memory.
#[tactic(auto, unfolding(crate::specs::Doors::checking_of))]
pub fn check(
    board: &BoardBytes,
    kind: u8,
    target: Point,
    depths: DepthBytes,
    code: u8,
    text: &[u8],
) -> Result<bool, DoorFault>
    ensures { result ≡ checking_of board.now kind target depths code text.now }
{
    match position_of(board) {
        Ok(position) => check_on(kind, target, depths, code, text, &position),
        Err(fault) => Err(DoorFault::Board(fault)),
    }
}
