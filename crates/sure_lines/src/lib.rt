//! The machine of `gopat_sure`: protocol lines that set up a position, and questions about sure captures on it.
//!
//! A line means what it means to gopat if its command is one of this program's: `boardsize`, `clear_board`, `komi`,
//! `play`, `undo`, `loadsgf`, `depths`, `attack`, `defend`, `attack_proof`, `defend_proof`, `check_proof`, and those
//! that ask about the program. The code and the move of an answer are those of `sure_rules` on the present position.
//! Nothing is cached from question to question. What a session writes for its lines is a transcript by this machine, as
//! the clause of `serve` says.
#![tactic(auto)]

mod answer;
mod answer_text;
mod board_commands;
mod command_names;
mod files;
mod heard;
mod line;
mod machine;
mod proof_commands;
mod question_commands;
mod record_commands;
mod reply;
mod session;

pub use machine::SureMachine;
pub use read_rules::{Depths, Tree};
pub use reply::Reply;
pub use session::{End, serve};
