//! What a handle holds.

use session_core::{Engine, Matcher, Reply};

/// A session without helpers, and its reply to the last line, for a handle.
#[derive(Drop)]
pub struct HeldSession {
    /// What the session keeps.
    pub engine: Engine,
    /// The patterns, and the automaton that finds their matches.
    pub matcher: Matcher,
    /// The reply to the last line; `Nothing` before the first line.
    pub reply: Reply,
}
