//! Whether two strings can be joined, and whether they can be kept apart.

ghost use Rattle.std.specs.Prelude.{◌≡◌};
ghost use Rattle.board_doors.specs.Doors.{link_on, linking_of};

use crate::fault::DoorFault;
use crate::stones::stone_at;
use board_bytes::{BoardBytes, position_of};
use connect_rules::{LinkKind, Linkage};
use go_base::{Point, Position, Watch};
use read_rules::{MAX_PLIES, MIN_PLIES};

/// The answer to the question about the stones at `a` and `b`, or the first fault: of `a`, of `b`, of the colours, of
/// the plies.
#[tactic(auto, unfolding(crate::specs::Doors::link_on))]
fn link_on(
    kind: LinkKind,
    a: Point,
    b: Point,
    plies: u8,
    position: &Position,
) -> Result<Linkage, DoorFault>
    ensures { result ≡ link_on kind a b plies position.now }
{
    let first = stone_at(position, a)?;
    let second = stone_at(position, b)?;
    if second != first {
        return Err(DoorFault::TwoColours);
    }
    if plies < MIN_PLIES || plies > MAX_PLIES {
        return Err(DoorFault::Depths);
    }
    let look = Watch::new(position);
    match kind {
        LinkKind::Connect => Ok(read_connect::connect(look, a, b, plies).linkage),
        LinkKind::Disconnect => Ok(read_connect::disconnect(look, a, b, plies).linkage),
    }
}

/// The answer to the question on the position of `board`, or the first fault.
#[tactic(auto, unfolding(crate::specs::Doors::linking_of))]
fn link(
    kind: LinkKind,
    board: &BoardBytes,
    a: Point,
    b: Point,
    plies: u8,
) -> Result<Linkage, DoorFault>
    ensures { result ≡ linking_of kind board.now a b plies }
{
    match position_of(board) {
        Ok(position) => link_on(kind, a, b, plies, &position),
        Err(fault) => Err(DoorFault::Board(fault)),
    }
}

/// Whether the strings at `a` and `b`, of one colour, can be joined when their own colour plays first, and the first
/// move that does it. The faults come in this order: of the board, of `a`, of `b`, of the colours, of the plies. Takes
/// no memory.
pub fn connect(board: &BoardBytes, a: Point, b: Point, plies: u8) -> Result<Linkage, DoorFault>
    ensures { result ≡ linking_of LinkKind.Connect board.now a b plies }
{
    link(LinkKind::Connect, board, a, b, plies)
}

/// Whether the strings at `a` and `b`, of one colour, can be kept apart when the other colour plays first, and the
/// first move that does it. The faults come in the same order as for `connect`. Takes no memory.
pub fn disconnect(board: &BoardBytes, a: Point, b: Point, plies: u8) -> Result<Linkage, DoorFault>
    ensures { result ≡ linking_of LinkKind.Disconnect board.now a b plies }
{
    link(LinkKind::Disconnect, board, a, b, plies)
}
