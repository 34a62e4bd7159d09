//! The position of the first node of a game record.

ghost use Rattle.std.specs.Prelude.{◌≡◌, ◌≤◌, length};
ghost use Rattle.sgf_rules.specs.MainLine.{nodes_in};
ghost use Rattle.sgf_rules.specs.Game.{after_nodes};
ghost use Rattle.sgf_rules.specs.FirstNode.{first_alone, first_position_of};
ghost use Rattle.sgf_read.specs.Reads.{tokens_from};

use crate::game::{play_node, record_size};
use crate::tree::{begins_with_tree, next_node, tree_start};
use go_base::Position;
use sgf_rules::FaultKind;

/// The position after the first node from the index `start` on, or `pos` if no node stands before the first `)`.
fn play_first(text: &[u8], start: usize, pos: Position) -> Result<Position, FaultKind>
    requires { start ≤ length text.now }
    ensures { result ≡ after_nodes pos (first_alone (nodes_in (tokens_from text.now start))) }
{
    let mut now = pos;
    match next_node(text, start) {
        Some(node) => {
            play_node(text, node, &mut now)?;
            Ok(now)
        }
        None => Ok(now),
    }
}

/// The position after the setup and the moves of the record's first node, or the first fault up to there. In a problem
/// this position is the question, and the main line goes on with the solution. Faults of later nodes are not looked
/// for, but the whole first tree has to be in the grammar. Takes no memory.
pub fn read_first_node(text: &[u8]) -> Result<Position, FaultKind>
    ensures { result ≡ first_position_of text.now }
{
    let start = tree_start(text);
    if !begins_with_tree(text, start) {
        return Err(FaultKind::Grammar);
    }
    match record_size(text, start) {
        Some(size) => play_first(text, start, Position::new(size)),
        None => Err(FaultKind::BadSize),
    }
}
