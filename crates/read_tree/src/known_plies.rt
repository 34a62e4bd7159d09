//! What is known of a node under one ko allowance, for each number of plies left.

ghost use Rattle.std.specs.Prelude.{◌≡◌, ◌||◌, ℕ, Bool, None, nat_lt};
ghost use Rattle.read_tree.specs.KnownPlies.{is_from, IsMonotone, IsTrueKnown};

/// With how many plies the attacker is known to have his way at a node, and with how many he is known not to have it.
#[derive(Clone, Copy, Debug, PartialEq, Eq)]
pub struct KnownPlies {
    /// With at least this many plies he is known to have his way; `None` if that is known of no number.
    pub won_from: Option<u8>,
    /// With fewer plies than this he is known not to have his way.
    pub lost_below: u8,
}

impl KnownPlies {
    /// Nothing is known.
    pub fn nothing() -> KnownPlies
        ensures { result ≡ record { won_from = None; lost_below = 0 } }
    {
        KnownPlies {
            won_from: None,
            lost_below: 0,
        }
    }

    /// Whether the attacker is known to have his way with `plies` plies.
    pub fn is_won(self, plies: u8) -> bool
        ensures { result ≡ is_from self.won_from plies }
    {
        match self.won_from {
            Some(least) => least <= plies,
            None => false,
        }
    }

    /// Whether the attacker is known not to have his way with `plies` plies.
    pub fn is_lost(self, plies: u8) -> bool
        ensures { result ≡ nat_lt plies self.lost_below }
    {
        plies < self.lost_below
    }

    /// Whether it is known if the attacker has his way with `plies` plies.
    pub fn is_known(self, plies: u8) -> bool
        ensures { result ≡ (is_from self.won_from plies || nat_lt plies self.lost_below) }
    {
        self.is_won(plies) || self.is_lost(plies)
    }

    /// What is known after it was found whether the attacker has his way with `plies` plies: if he has, he also has it
    /// with more plies; if he has not, he has not with fewer.
    pub fn with(self, plies: u8, good: bool) -> KnownPlies
        ensures { (won : ℕ → Bool) → IsMonotone won → IsTrueKnown won self → good ≡ won plies → IsTrueKnown won result }
    {
        if self.is_known(plies) {
            return self;
        }
        if good {
            return KnownPlies {
                won_from: Some(plies),
                lost_below: self.lost_below,
            };
        }
        KnownPlies {
            won_from: self.won_from,
            lost_below: plies.saturating_add(1),
        }
    }

    /// How many plies the knowledge reaches: the more, the longer it took to find.
    pub fn depth(self) -> u8 {
        match self.won_from {
            Some(least) if least > self.lost_below => least,
            _ => self.lost_below,
        }
    }
}
