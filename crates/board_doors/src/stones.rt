//! The stone that a question is about.

ghost use Rattle.std.specs.Prelude.{◌≡◌, ◌≢◌, ◌*◌, ◌<◌, IfOk};
ghost use Rattle.go_rules.specs.Strings.{cell_at};
ghost use Rattle.board_doors.specs.Doors.{stone_at};

use crate::fault::DoorFault;
use go_base::{Cell, Point, Position};

/// The stone at a point, or why there is none: the point is off the board, or empty.
#[tactic(auto, unfolding(crate::specs::Doors::stone_at))]
pub fn stone_at(position: &Position, p: Point) -> Result<Cell, DoorFault>
    ensures value { result ≡ stone_at position.now p }
    ensures on_board { IfOk result (λ stone. p < position.now.size * position.now.size) }
    ensures stands { IfOk result (λ stone. stone ≡ cell_at position.now.cells p) }
    ensures stone { IfOk result (λ stone. stone ≢ Cell.Empty) }
{
    if p >= position.size().points() {
        return Err(DoorFault::OffBoard);
    }
    let cell = position.cell(p);
    if cell == Cell::Empty {
        return Err(DoorFault::NoStone);
    }
    Ok(cell)
}
