//! The two strings of a connection.

ghost use Rattle.std.specs.Prelude.{◌≡◌};
ghost use Rattle.connect_rules.specs.Connection.{mover_of};

use go_base::{Colour, Point};

/// Two strings of one colour, each named by one of its points; they may be one string.
#[derive(Clone, Copy, Debug, PartialEq, Eq)]
pub struct Link {
    /// A point of the first string.
    pub a: Point,
    /// A point of the second string.
    pub b: Point,
    /// The colour of both strings.
    pub colour: Colour,
}

impl Link {
    /// The colour whose turn it is: the strings' own colour if `own`, else the other.
    pub fn mover(self, own: bool) -> Colour
        ensures { result ≡ mover_of self own }
    {
        if own {
            self.colour
        } else {
            self.colour.other()
        }
    }
}
