//! The helper that asks for two liberties.
ghost use Rattle.std.specs.Prelude.{◌≡◌, ◌<◌, ◌*◌};
ghost use Rattle.helper_example.specs.TwoLiberties.{has_two_liberties, two_liberties};

use go_base::{Colour, Point, Position};
use helpers::Helper;

/// Says yes exactly if the play is legal and its string has at least two liberties afterwards. Its name is
/// `two_liberties`.
#[derive(Drop)]
pub struct TwoLiberties {
    calls: u64,
}

impl TwoLiberties {
    /// A helper that was not asked yet.
    pub fn new() -> TwoLiberties
        ensures { ⟦<TwoLiberties as Helper>⟧.state result ≡ two_liberties 0 }
    {
        TwoLiberties { calls: 0 }
    }
}

/// Whether the play of `friend` at `at` is legal and its string has at least two liberties afterwards.
fn has_two_liberties(pos: &Position, at: Point, friend: Colour) -> bool
    requires { at < pos.now.size * pos.now.size }
    ensures { result ≡ has_two_liberties pos.now at friend }
{
    match pos.play(friend, at) {
        Ok(next) => next.liberties(at) >= 2,
        Err(_) => false,
    }
}

impl Helper for TwoLiberties {
    ghost state = { λ h. two_liberties h.calls };

    fn name(&self) -> &str {
        "two_liberties"
    }

    fn decide(&mut self, pos: &Position, at: Point, friend: Colour) -> bool {
        self.calls = self.calls.saturating_add(1);
        has_two_liberties(pos, at, friend)
    }

    fn calls(&self) -> u64 {
        self.calls
    }
}
