//! What the plain game tree, in which the defender tries only candidates, says about a node. It is quick to read, and a
//! target that it does not capture is not surely captured.

ghost use Rattle.std.specs.Prelude.{◌≡◌, ◌*◌, ◌<◌, ◌≤◌, true, false};
ghost use Rattle.trial_board.specs.Trials.{most_moves};
ghost use Rattle.read_rules.specs.GameTree.{attacker_wins};
ghost use Rattle.sure_rules.specs.SureTree.{surely_wins};

use go_base::{Position, Watch};
use read_rules::Node;
use read_tree::memory::Memory;
use read_tree::nodes::wins_at;
use trial_board::{MAX_TRIAL_MOVES, Trial};

/// Whether the attacker wins at the node in the plain game tree, with `plies` plies left. No table of nodes is used:
/// most readings end sooner than a table is made.
fn is_won(position: &Position, node: Node, plies: u8) -> bool
    requires target { node.turn.target < position.now.size * position.now.size }
    requires room { plies ≤ most_moves }
    ensures { result ≡ attacker_wins plies node position.now }
{
    let mut memory = Memory {
        reply: node.turn.target,
        table: &mut [],
    };
    let mut board = Trial::new(Watch::new(position));
    let won = wins_at(&mut board, node, plies, &mut memory);
    let _look = board.finish();
    won
}

/// Whether the plain game tree shows that the target is not surely captured, with `plies` plies left. False says
/// nothing. With fewer than two plies left the tree is not read, since the zones are found as soon.
pub fn is_lost(position: &Position, node: Node, plies: u8) -> bool
    requires target { node.turn.target < position.now.size * position.now.size }
    ensures { result ≡ true → surely_wins plies node position.now ≡ false }
{
    if plies < 2 {
        return false;
    }
    if plies as usize > MAX_TRIAL_MOVES {
        return false;
    }
    !is_won(position, node, plies)
}
