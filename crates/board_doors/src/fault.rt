//! Why a door has no answer.

use board_bytes::BoardFault;
use go_base::Illegal;

/// Why a question has no answer. If several reasons apply, the door gives the first that it finds; it checks the board
/// first.
#[derive(Clone, Copy, Debug, PartialEq, Eq)]
pub enum DoorFault {
    /// The bytes are not a position.
    Board(BoardFault),
    /// The board has no point with this number.
    OffBoard,
    /// There is no stone at the point.
    NoStone,
    /// The plies or the wide plies are out of their range, or no tree has the number.
    Depths,
    /// The two stones are of different colours.
    TwoColours,
    /// The number of a colour is neither 1 nor 2.
    Colour,
    /// The number of a question is neither 1 nor 2.
    Kind,
    /// The code is above 3.
    Code,
    /// The rules forbid the play.
    Illegal(Illegal),
    /// The answer does not fit into the caller's buffer.
    ShortBuffer,
    /// The proof has more than 60,000 bytes.
    TooLong,
}
