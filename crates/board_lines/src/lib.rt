//! A position that protocol lines set up, and the front of a game record with some of its moves.
//!
//! The lines are those of the protocol that set up a game, and they mean here what they mean to `gopat`: `boardsize`,
//! `clear_board`, `play`, `undo`, `loadsgf`, `komi` and `depths`. Each move is played by `go_history`, and each record
//! is read by `sgf_read`. No contract says what a line does.
#![tactic(auto)]

mod game;
mod record;
#[cfg(test)]
mod tests;

pub use game::{Game, LineFault};
pub use go_base::NoMemory;
pub use record::{Cut, cut_record};
