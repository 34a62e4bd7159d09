//! What the author of a problem expects.

ghost use Rattle.std.specs.Prelude.{◌≡◌};
ghost use Rattle.problem_verdicts.specs.Verdicts.{is_told, expects_pass};

use crate::moves::Moves;

/// What the author of a problem expects.
#[derive(Debug, Drop)]
pub struct Expected {
    /// The code, if the author tells it.
    pub code: Option<u8>,
    /// The moves that attain the code, if the author tells some.
    pub answers: Option<Moves>,
    /// No other move may attain the code.
    pub only: bool,
}

impl Expected {
    /// Whether the author tells anything.
    pub fn is_told(&self) -> bool
        ensures { result ≡ is_told self.now }
    {
        self.code.is_some() || self.answers.is_some()
    }

    /// Whether the pass is one of the moves that the author tells.
    pub fn expects_pass(&self) -> bool
        ensures { result ≡ expects_pass self.now }
    {
        match &self.answers {
            Some(moves) => moves.pass,
            None => false,
        }
    }
}
