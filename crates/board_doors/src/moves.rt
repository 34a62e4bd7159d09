//! All moves that attain the code of a reading.

ghost use Rattle.std.specs.Prelude.{◌≡◌};
ghost use Rattle.board_doors.specs.Doors.{question_on, question_of};
ghost use Rattle.board_doors.specs.Moves.{TellsMoves};

use crate::depths::DepthBytes;
use crate::fault::DoorFault;
use crate::questions::question_on;
use board_bytes::{BoardBytes, position_of};
use go_base::{Point, PointSet, Position, Watch};
use read_all::{AllMoves, all_moves};

/// The code of a question, and all moves that attain it: none if the code is 0, else one or more.
#[derive(Drop)]
pub struct MoveSet {
    /// The code: 3, 2, 1 or 0.
    pub code: u8,
    /// Whether the defender's pass attains the code.
    pub pass: bool,
    /// The points at which a play attains the code.
    pub points: PointSet,
}

/// All moves that attain the code, or the first fault: of the question, of the point, of the depths.
fn all_on(
    kind: u8,
    target: Point,
    depths: DepthBytes,
    position: &Position,
) -> Result<MoveSet, DoorFault>
    ensures { TellsMoves (question_on kind target depths position.now) result }
{
    match question_on(kind, target, depths, position) {
        Ok((kind, depths)) => {
            let look = Watch::new(position);
            let AllMoves {
                code,
                pass,
                points,
                ..
            } = all_moves(look, kind, target, depths);
            Ok(MoveSet { code, pass, points })
        }
        Err(fault) => Err(fault),
    }
}

/// All moves that attain the code of an attack on the string at `target` (`kind` 1) or of its defence (`kind` 2): the
/// pass, and the points, of the moves that the reader tries. The faults come in this order: of the board, of the
/// question, of the point, of the depths. Takes no memory.
#[tactic(auto, unfolding(crate::specs::Doors::question_of))]
pub fn all(
    board: &BoardBytes,
    kind: u8,
    target: Point,
    depths: DepthBytes,
) -> Result<MoveSet, DoorFault>
    ensures { TellsMoves (question_of board.now kind target depths) result }
{
    match position_of(board) {
        Ok(position) => all_on(kind, target, depths, &position),
        Err(fault) => Err(DoorFault::Board(fault)),
    }
}
