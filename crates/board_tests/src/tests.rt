//! The boards, lowest first.

ghost use Rattle.std.specs.Prelude.{◌*◌, ◌<◌, IfSome};

mod games;
mod positions;
mod trial_moves;

use go_base::Colour::{self, Black, White};
use go_base::{Point, Position, Size};

/// A play: a colour, a row from the top and a column from the left.
type Play = (Colour, u8, u8);

// . . . . .
// . . X O .     The white play at the dot takes the black
// . X . X O     stone beside it, and black may not retake
// . . X O .     at once.
// . . . . .
/// The plays of a ko on a board of five rows, after which black may not play at D3, where white took a
/// stone by playing at C3.
static KO: [Play; 8] = [
    (Black, 2, 1),
    (Black, 1, 2),
    (Black, 3, 2),
    (Black, 2, 3),
    (White, 1, 3),
    (White, 2, 4),
    (White, 3, 3),
    (White, 2, 2),
];

/// The point in a row and a column of the position's board; `None` if it is off the board.
fn on(position: &Position, row: u8, column: u8) -> Option<Point>
    ensures { IfSome result (λ p. p < position.now.size * position.now.size) }
{
    let size = position.size();
    let p = size.point(row, column)?;
    if p < size.points() { Some(p) } else { None }
}

/// The position after the plays on an empty board of `rows` rows; `None` if a play is refused or off the board.
fn after(rows: u8, plays: &[Play]) -> Option<Position> {
    let mut position = Position::new(Size::new(rows)?);
    for &(colour, row, column) in plays {
        let p = on(&position, row, column)?;
        position = position.play(colour, p).ok()?;
    }
    Some(position)
}
