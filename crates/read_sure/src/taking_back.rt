//! Whether the defender has just lost a lone stone, which he may take back.

ghost use Rattle.std.specs.Prelude.{◌≡◌, true, false};
ghost use Rattle.trial_board.specs.Trials.{KeepsTrial};
ghost use Rattle.read_rules.specs.GameTree.{has_lost_one_stone};
ghost use Rattle.read_tree.specs.Walk.{IsPointOf, OnEachAgreeing};

use go_base::{Cell, Look};
use read_rules::Node;
use read_tree::taking_back::is_walled_in;
use trial_board::Trial;

/// Whether in the wider tree it is the defender's turn, the target's point is empty, and each neighbour of that point
/// holds a stone of the attacker: a lone stone was just taken there.
pub fn has_lost_one_stone<L: Look>(board: &mut Trial<L>, node: Node) -> bool
    requires target { IsPointOf L.shows board.old node.turn.target }
    ensures stays { KeepsTrial L.shows L.seen board.old board.new }
    ensures turn { result ≡ true → node.turn.attacker_to_play ≡ false }
    ensures over { OnEachAgreeing L.seen board.old board.new (λ here. result ≡ has_lost_one_stone node here) }
{
    if !node.turn.tree.is_wider() {
        return false;
    }
    if node.turn.attacker_to_play {
        return false;
    }
    if board.cell(node.turn.target) != Cell::Empty {
        return false;
    }
    is_walled_in(board, node.turn.target, node.turn.defender)
}
