//! Which of two game trees is read.

ghost use Rattle.std.specs.Prelude.{◌≡◌};
ghost use Rattle.read_rules.specs.Trees.{is_wider, most_narrow};

/// Which moves a reading tries, and with how many liberties the attacker still plays at a target.
#[derive(Clone, Copy, Debug, PartialEq, Eq, Hash)]
pub enum Tree {
    /// The smaller tree. It tries the liberties of the target and the last liberties of the enemy strings next to it.
    /// If a wide ply is left, it also tries backfilling moves, and the empty neighbours of the liberties of a target
    /// with at most two. The attacker does not play at a target with more than four liberties, or with more than two if
    /// no wide ply is left.
    Stated,
    /// The larger tree. It tries the further candidates too, some of them in every ply and some only if a wide ply is
    /// left. The attacker does not play at a target with more than four liberties, with a wide ply left or without.
    Wider,
}

impl Tree {
    /// Whether the tree tries the further candidates.
    pub fn is_wider(self) -> bool
        ensures { result ≡ is_wider self }
    {
        match self {
            Tree::Stated => false,
            Tree::Wider => true,
        }
    }

    /// If no wide ply is left, the attacker still plays at a target with at most this many liberties.
    pub fn most_narrow(self) -> u16
        ensures { result ≡ most_narrow self }
    {
        match self {
            Tree::Stated => 2,
            Tree::Wider => 4,
        }
    }
}
