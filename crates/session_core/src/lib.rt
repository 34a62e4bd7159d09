//! A session of the protocol: what it keeps, and its answer to one line.
//!
//! A session is a plain machine (`machine_rules`) that keeps its strings, its readings and its connections besides the
//! settings and moves, with a matcher that no line changes. `Session::line` gives exactly the machine's reply, and the
//! machine after it; a line that may take long can be postponed. Eight modules under `engine` answer the commands: for
//! the board, readings, matches, game records, proofs, connections, the choice of a move, and helpers.
#![tactic(auto)]

mod answer;
mod board_text;
mod engine;
mod match_text;
mod matcher;
mod pattern_text;
mod point_lists;
mod readings;
mod reply;
mod session;
mod slow;

pub use self::engine::Engine;
pub use self::matcher::Matcher;
pub use self::session::Session;
pub use reply::Reply;
pub use slow::{Slow, Work};
