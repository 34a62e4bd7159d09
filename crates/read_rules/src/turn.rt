//! Whose turn it is at a node of the game tree, without the ko allowances.

ghost use Rattle.std.specs.Prelude.{◌≡◌, ◌&&◌, ◌||◌, ◌==◌, nat_lt};
ghost use Rattle.read_rules.specs.Stages.{has_later_candidates};
ghost use Rattle.read_rules.specs.Trees.{most_narrow};
ghost use Rattle.read_rules.specs.Turns.{mover_of, next_turn};

use crate::tree::Tree;
use go_base::{Colour, Point};

/// A turn of the game tree: a node without its position, the plies that are left, and the ko allowances.
#[derive(Clone, Copy, Debug, PartialEq, Eq)]
pub struct Turn {
    /// Which tree is read.
    pub tree: Tree,
    /// The point whose string is read.
    pub target: Point,
    /// The colour of the target's stone.
    pub defender: Colour,
    /// Whether it is the attacker's turn; else it is the defender's.
    pub attacker_to_play: bool,
    /// How many wide plies are left.
    pub wide: u8,
}

impl Turn {
    /// The colour whose turn it is.
    pub fn mover(self) -> Colour
        ensures { result ≡ mover_of self }
    {
        if self.attacker_to_play {
            self.defender.other()
        } else {
            self.defender
        }
    }

    /// The turn after a move: the other side is to play, and a wide ply is spent if one is left.
    pub fn next(self) -> Turn
        ensures { result ≡ next_turn self }
    {
        Turn {
            tree: self.tree,
            target: self.target,
            defender: self.defender,
            attacker_to_play: !self.attacker_to_play,
            wide: self.wide.saturating_sub(1),
        }
    }

    /// Whether there may be later candidates at the turn: a wide ply is left, or the tree is the wider one.
    pub fn has_later_candidates(self) -> bool
        ensures { result ≡ has_later_candidates self }
    {
        self.wide > 0 || self.tree.is_wider()
    }

    /// Whether the attacker may not play at a target with `liberties` liberties, since these are too many.
    pub fn has_many(self, liberties: u16) -> bool
        ensures { result ≡ (nat_lt 4 liberties || ((self.wide == 0) && nat_lt (most_narrow self.tree) liberties)) }
    {
        liberties > 4 || (self.wide == 0 && liberties > self.tree.most_narrow())
    }
}
