//! The top call of the program: it opens the pattern files, serves the lines of a stream by a session, and notes how
//! that ended.
//!
//! What a session answers to one line stands in the crate `session_core`, and its plain machine in `machine_rules`.
//! `run` writes a transcript of this machine for a stream of lines; its outcome says why it ended.
#![tactic(auto)]

mod outbox;
mod outcome;
mod pattern_files;
mod serve;
mod top_call;

pub use outcome::{End, OpenError, Outcome, WordsError};
pub use session_core::{Engine, Matcher, Reply, Session, Slow, Work};
pub use top_call::{run, run_in, run_words, run_words_in};
