//! A helper that says the same about every move.

ghost use Rattle.std.specs.Prelude.{◌≡◌, string_bytes};
ghost use Rattle.helper_tests.specs.Always.{always};

use go_base::{Colour, Point, Position};
use helpers::Helper;

/// A helper of any name that gives the same answer to every question.
#[derive(Drop)]
pub struct Always {
    name: String,
    answer: bool,
    calls: u64,
}

impl Always {
    /// An `Always` that was not asked yet.
    pub fn new(name: String, answer: bool) -> Always
        ensures { ⟦<Always as Helper>⟧.state result ≡ always (string_bytes name) answer 0 }
    {
        Always {
            name,
            answer,
            calls: 0,
        }
    }
}

impl Helper for Always {
    ghost state = { λ h. always (string_bytes h.name) h.answer h.calls };

    fn name(&self) -> &str {
        self.name.as_str()
    }

    fn decide(&mut self, _pos: &Position, _at: Point, _friend: Colour) -> bool {
        self.calls = self.calls.saturating_add(1);
        self.answer
    }

    fn calls(&self) -> u64 {
        self.calls
    }
}
