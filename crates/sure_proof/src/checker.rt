//! The checker: whether a text proves a sure capture.

ghost use Rattle.std.specs.Prelude.{◌≡◌, ◌≢◌, ◌↔◌, ◌*◌, ◌<◌, ◌≤◌, IsTrue};
ghost use Rattle.go_rules.specs.Strings.{cell_at};
ghost use Rattle.read_rules.specs.Answer.{asked_in, first_node};
ghost use Rattle.read_proof.specs.Tokens.{words_in};
ghost use Rattle.sure_rules.specs.SureTree.{surely_wins};
ghost use Rattle.sure_proof.specs.SureProofs.{IsSureProof};

use crate::walk::proved;
use go_base::{Cell, Point, PointSet, Position};
use read_proof::codes::{first_node, question_on};
use read_rules::{Depths, Kind, Node};
use vertices::next_word;

/// Whether the text is a proof that the target is surely captured at the node with `plies` plies left, with no word
/// behind the proof. If the answer is true, the target is surely captured. Takes no memory.
pub fn check_node(pos: &Position, node: Node, plies: u8, text: &[u8]) -> bool
    requires target { node.turn.target < pos.now.size * pos.now.size }
    ensures proof { IsTrue result ↔ IsSureProof plies node pos.now (words_in text.now) }
    ensures sound { IsTrue result → IsTrue (surely_wins plies node pos.now) }
{
    let _ = pos.size();
    let mut zone = PointSet::new();
    match proved(pos, node, plies, text, &mut zone) {
        Some(left) => next_word(left).is_none(),
        None => false,
    }
}

/// Whether the text is a proof that the string at `target` is surely captured with these depths, under the ko
/// allowances of `code`: for an attack the attacker plays first, and for a defence the defender. If the answer is true,
/// the string is surely captured so. For a code from 1 to 3, a sure attack then has at least this code, and a sure
/// defence has a smaller one. Takes no memory.
pub fn checks_surely(
    pos: &Position,
    of: Kind,
    target: Point,
    depths: Depths,
    code: u8,
    text: &[u8],
) -> bool
    requires on_board { target < pos.now.size * pos.now.size }
    requires stone { cell_at pos.now.cells target ≢ Cell.Empty }
    ensures proof { IsTrue result ↔ IsSureProof depths.plies
        (first_node (asked_in depths.tree pos.now of target depths.plies depths.wide) code) pos.now
        (words_in text.now) }
    ensures sound { IsTrue result → IsTrue (surely_wins depths.plies
        (first_node (asked_in depths.tree pos.now of target depths.plies depths.wide) code) pos.now) }
{
    let question = question_on(pos, of, target, depths);
    check_node(pos, first_node(&question, code), question.plies, text)
}
