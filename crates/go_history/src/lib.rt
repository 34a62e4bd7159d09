//! The list of the moves of a game, with the board that they lead to. A move is added only if it is legal, and the last
//! move can be taken back.
//!
//! A `History` is seen as the position that the game began from and its moves. Each public call is stated over the
//! replay of these moves, and by the rules of Go as `go_rules` defines them. Only `new` and `play` take memory.
#![tactic(auto)]

mod captures;
mod history;

pub use go_rules::Move;
pub use history::{History, HistoryError, MAX_MOVES, Nothing};
