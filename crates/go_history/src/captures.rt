//! How many stones each colour took.

ghost use Rattle.std.specs.Prelude.{◌≡◌, ◌+◌, ◌-◌, ◌^◌, ◌<◌, ◌≤◌, if◌then◌else◌};
ghost use Rattle.go_rules.specs.declared.Colour.{Colour};
ghost use Rattle.go_rules.specs.Position.{same_colour};
ghost use Rattle.go_history.specs.Taken.{taken_of};

use go_base::Colour;

/// How many stones each colour took.
#[derive(Clone, Copy)]
pub struct Captures {
    /// How many white stones Black took.
    pub by_black: u32,
    /// How many black stones White took.
    pub by_white: u32,
}

impl Captures {
    /// The counts at the beginning: no stone was taken.
    pub fn none() -> Captures
        ensures { (c : Colour) → taken_of result c ≡ 0 }
    {
        Captures {
            by_black: 0,
            by_white: 0,
        }
    }

    /// How many stones `c` took.
    pub fn by(&self, c: Colour) -> u32
        ensures { result ≡ taken_of self.now c }
    {
        match c {
            Colour::Black => self.by_black,
            Colour::White => self.by_white,
        }
    }

    /// Counts `stones` more stones that `c` took.
    pub fn add(&mut self, c: Colour, stones: u32)
        requires { taken_of self.old c + stones < 2 ^ 32 }
        ensures { (d : Colour) → taken_of self.new d ≡ taken_of self.old d + (if same_colour c d then stones else 0) }
    {
        match c {
            Colour::Black => self.by_black += stones,
            Colour::White => self.by_white += stones,
        }
    }

    /// Counts `stones` stones less that `c` took, as they stand again.
    pub fn remove(&mut self, c: Colour, stones: u32)
        requires { stones ≤ taken_of self.old c }
        ensures { (d : Colour) → taken_of self.new d ≡ taken_of self.old d - (if same_colour c d then stones else 0) }
    {
        match c {
            Colour::Black => self.by_black -= stones,
            Colour::White => self.by_white -= stones,
        }
    }
}
