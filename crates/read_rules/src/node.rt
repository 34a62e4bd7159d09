//! A node of the game tree: whose turn it is, and how often each side may still ignore the ban.

ghost use Rattle.std.specs.Prelude.{◌≡◌};
ghost use Rattle.read_rules.specs.GameTree.{allowance_of, next_node};
ghost use Rattle.read_rules.specs.Turns.{mover_of};

use crate::turn::Turn;
use go_base::Colour;

/// A node of the game tree, without its position and the plies that are left.
#[derive(Clone, Copy, Debug, PartialEq, Eq)]
pub struct Node {
    /// Whose turn it is, in the reading of which string, and with how many wide plies left.
    pub turn: Turn,
    /// How often the attacker may still ignore the ko ban.
    pub attacker_ko: u8,
    /// How often the defender may still ignore the ko ban.
    pub defender_ko: u8,
}

impl Node {
    /// The colour whose turn it is.
    pub fn mover(self) -> Colour
        ensures { result ≡ mover_of self.turn }
    {
        self.turn.mover()
    }

    /// How often the side to play may still ignore the ko ban.
    pub fn allowance(self) -> u8
        ensures { result ≡ allowance_of self }
    {
        if self.turn.attacker_to_play {
            self.attacker_ko
        } else {
            self.defender_ko
        }
    }

    /// The node after a move that leaves its mover the allowance `left`.
    pub fn next(self, left: u8) -> Node
        ensures { result ≡ next_node self left }
    {
        Node {
            turn: self.turn.next(),
            attacker_ko: if self.turn.attacker_to_play {
                left
            } else {
                self.attacker_ko
            },
            defender_ko: if self.turn.attacker_to_play {
                self.defender_ko
            } else {
                left
            },
        }
    }
}
