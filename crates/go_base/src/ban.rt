//! The test of the ko ban.

ghost use Rattle.std.specs.Prelude.{◌≡◌, ◌↔◌, IsTrue};
ghost use Rattle.go_rules.specs.Position.{is_banned};

use crate::size::Point;
use go_rules::Colour;

/// Whether `ban` forbids `c` to play at `p`. A ban forbids one play at most.
pub fn is_banned(ban: Option<(Point, Colour)>, c: Colour, p: Point) -> bool
    ensures { result ≡ is_banned ban c p }
{
    match ban {
        Some((q, colour)) => q == p && colour == c,
        None => false,
    }
}

/// Whether two bans are the same.
pub(crate) fn are_same(ban: Option<(Point, Colour)>, other: Option<(Point, Colour)>) -> bool
    ensures { IsTrue result ↔ (ban ≡ other) }
{
    ban == other
}
