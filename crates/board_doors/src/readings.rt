//! Whether a string can be captured, and whether it can be saved.

ghost use Rattle.std.specs.Prelude.{◌≡◌};
ghost use Rattle.board_doors.specs.Doors.{read_on, reading_of};

use crate::depths::{DepthBytes, depths_of};
use crate::fault::DoorFault;
use crate::stones::stone_at;
use board_bytes::{BoardBytes, position_of};
use go_base::{Point, Position, Watch};
use read_rules::{Answer, Kind};

/// The answer to the question about the stone at `target`, or the first fault: of the point, of the depths.
#[tactic(auto, unfolding(crate::specs::Doors::read_on))]
fn read_on(
    kind: Kind,
    target: Point,
    depths: DepthBytes,
    position: &Position,
) -> Result<Answer, DoorFault>
    ensures { result ≡ read_on kind target depths position.now }
{
    let _ = stone_at(position, target)?;
    let Some(depths) = depths_of(depths) else {
        return Err(DoorFault::Depths);
    };
    let look = Watch::new(position);
    match kind {
        Kind::Attack => Ok(read_tree::attack(look, target, depths).answer),
        Kind::Defend => Ok(read_tree::defend(look, target, depths).answer),
    }
}

/// The answer on the position of `board`, or the first fault.
#[tactic(auto, unfolding(crate::specs::Doors::reading_of))]
fn read(
    kind: Kind,
    board: &BoardBytes,
    target: Point,
    depths: DepthBytes,
) -> Result<Answer, DoorFault>
    ensures { result ≡ reading_of kind board.now target depths }
{
    match position_of(board) {
        Ok(position) => read_on(kind, target, depths, &position),
        Err(fault) => Err(DoorFault::Board(fault)),
    }
}

/// Whether the string at `target` can be captured when the attacker plays first: the code and the first move that
/// attains it. The faults come in this order: of the board, of the point, of the depths. Takes no memory.
pub fn attack(board: &BoardBytes, target: Point, depths: DepthBytes) -> Result<Answer, DoorFault>
    ensures { result ≡ reading_of Kind.Attack board.now target depths }
{
    read(Kind::Attack, board, target, depths)
}

/// Whether the string at `target` can be saved when the defender plays first: the code and the first move that attains
/// it, the pass before all points. The faults come in the same order as for `attack`. Takes no memory.
pub fn defend(board: &BoardBytes, target: Point, depths: DepthBytes) -> Result<Answer, DoorFault>
    ensures { result ≡ reading_of Kind.Defend board.now target depths }
{
    read(Kind::Defend, board, target, depths)
}
