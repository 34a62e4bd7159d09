//! Matches for a program in another language: the patterns of a text, and where they match on a board of bytes.
//!
//! `read_patterns` reads a text and joins its patterns into one automaton, or says why not. A `Matcher` keeps both, and
//! `find` writes the matches on a board into the caller's buffer: for each match the number of its pattern, the point
//! of its move, and its transformation. Patterns have no helpers here. `gopat_matches_c` exports this behind a handle.
#![tactic(auto)]

mod board_matches;
mod matcher;
mod patterns;
mod replies;

pub use board_matches::find;
pub use matcher::Matcher;
pub use patterns::{PatternFault, Patterns, read_patterns};
pub use replies::{
    CLOSED, MatchBytes, MatchReply, NO_MEMORY, OpenReply, closed_reply, opened_reply, refused_reply,
};
