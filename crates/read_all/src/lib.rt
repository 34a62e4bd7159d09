//! What the author of a problem asks beyond the first move, which is all that a reading tells: all moves by which a
//! string is captured or saved, the fewest plies with which it is, and how another move fails.
//!
//! `all_moves` answers the code of a question and each move that attains it, of the moves that the reader tries;
//! `moves_anywhere` answers the moves at all points of the board. `fewest_plies` answers with how many plies the code
//! is attained first, and `refutation` answers the other side's reply to a play that fails. Each function hands back
//! the view of the position, and on every position that agrees with what was looked at its answer is the same. Nothing
//! takes memory.
#![tactic(auto)]

mod fewest;
mod moves;
mod question;
mod replies;

pub use fewest::{Fewest, fewest_plies};
pub use moves::{AllMoves, all_moves, moves_anywhere};
pub use read_tree::{Depths, Kind, Tree};
pub use replies::{Refuted, refutation};
