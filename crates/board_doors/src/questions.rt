//! The questions of a reading as numbers of a caller.

ghost use Rattle.std.specs.Prelude.{◌≡◌, ◌≢◌, ◌*◌, ◌<◌, IfOk};
ghost use Rattle.go_rules.specs.Strings.{cell_at};
ghost use Rattle.board_doors.specs.Doors.{kind_named, question_on, with_question};

use crate::depths::{DepthBytes, depths_of};
use crate::fault::DoorFault;
use crate::stones::stone_at;
use go_base::{Cell, Point, Position};
use read_rules::{Depths, Kind};

/// The question with this number: 1 is attack, 2 is defend, and other numbers give `None`.
pub fn kind_named(kind: u8) -> Option<Kind>
    ensures { result ≡ kind_named kind }
{
    match kind {
        1 => Some(Kind::Attack),
        2 => Some(Kind::Defend),
        _ => None,
    }
}

/// What is asked about the stone at `target`, and how deep; or the first fault: of the question, of the point, of the
/// depths.
#[tactic(auto, unfolding(crate::specs::Doors::question_on))]
pub fn question_on(
    kind: u8,
    target: Point,
    depths: DepthBytes,
    position: &Position,
) -> Result<(Kind, Depths), DoorFault>
    ensures value { question_on kind target depths position.now ≡ with_question target position.now result }
    ensures on_board { IfOk result (λ asked. target < position.now.size * position.now.size) }
    ensures stone { IfOk result (λ asked. cell_at position.now.cells target ≢ Cell.Empty) }
{
    let Some(kind) = kind_named(kind) else {
        return Err(DoorFault::Kind);
    };
    let _ = stone_at(position, target)?;
    let Some(depths) = depths_of(depths) else {
        return Err(DoorFault::Depths);
    };
    Ok((kind, depths))
}
