//! The proof of a sure capture: written by the walk, and accepted by the checker.

ghost use Rattle.std.specs.Prelude.{◌≡◌, ◌≢◌, ◌↔◌, ◌*◌, ◌<◌, ◌≤◌, Ok, None, IfOk, IfSome, IsTrue, false, length};
ghost use Rattle.go_rules.specs.Strings.{cell_at};
ghost use Rattle.read_rules.specs.Answer.{asked_in, first_node};
ghost use Rattle.read_proof.specs.Tokens.{words_in};
ghost use Rattle.sure_rules.specs.SureTree.{surely_wins};
ghost use Rattle.sure_proof.specs.SureProofs.{IsSureProof};
ghost use Rattle.write_sure.specs.Room.{longest_proof};

use crate::refusal::SureProofError;
use crate::text::is_short;
use crate::walk::write_first;
use go_base::{Bytes, Cell, Point, Position};
use read_proof::codes::{first_node, question_on};
use read_rules::{Depths, Kind, Node};
use read_zones::zone_of;
use std::alloc::Global;
use sure_proof::check_node;

/// Whether the target is surely captured at the node, with `plies` plies left.
fn is_sure(pos: &Position, node: Node, plies: u8) -> bool
    requires { node.turn.target < pos.now.size * pos.now.size }
    ensures { result ≡ surely_wins plies node pos.now }
{
    let _ = pos.size();
    zone_of(pos, node, plies).is_some()
}

/// The text that the walk writes, if it is not too long and the checker accepts it.
fn accepted(alloc: Global, pos: &Position, node: Node, plies: u8) -> Result<Bytes, SureProofError>
    requires { node.turn.target < pos.now.size * pos.now.size }
    ensures proof { IfOk result (λ text. IsSureProof plies node pos.now (words_in text)) }
    ensures short { IfOk result (λ text. length text ≤ longest_proof) }
{
    let mut text = Bytes::new(alloc);
    write_first(pos, node, plies, &mut text)?;
    if !is_short(text.as_slice()) {
        return Err(SureProofError::TooLong);
    }
    if !check_node(pos, node, plies, text.as_slice()) {
        return Err(SureProofError::NotFound);
    }
    Ok(text)
}

/// A proof that the target is surely captured at the node, with `plies` plies left; `Ok(None)` exactly if it is not
/// surely captured.
fn node_proof(
    alloc: Global,
    pos: &Position,
    node: Node,
    plies: u8,
) -> Result<Option<Bytes>, SureProofError>
    requires { node.turn.target < pos.now.size * pos.now.size }
    ensures proof { IfOk result (λ told. IfSome told (λ text. IsSureProof plies node pos.now (words_in text))) }
    ensures short { IfOk result (λ told. IfSome told (λ text. length text ≤ longest_proof)) }
    ensures not_sure { result ≡ Ok None ↔ (surely_wins plies node pos.now ≡ false) }
{
    if !is_sure(pos, node, plies) {
        return Ok(None);
    }
    match accepted(alloc, pos, node, plies) {
        Ok(text) => Ok(Some(text)),
        Err(why) => Err(why),
    }
}

/// A proof that the string at `target` is surely captured with these depths, under the ko allowances of `code`: for an
/// attack the attacker plays first, and for a defence the defender. `Ok(None)` exactly if the string is not surely
/// captured so.
///
/// Each text that is answered is a proof, since the crate `sure_proof` accepts it. That a text is found for each sure
/// capture, if it is not too long and there is memory, is tested and not proved. If the attacker plays first, the text
/// begins with the first move in reading order that surely captures. Takes memory.
pub fn sure_proof(
    alloc: Global,
    pos: &Position,
    of: Kind,
    target: Point,
    depths: Depths,
    code: u8,
) -> Result<Option<Bytes>, SureProofError>
    requires on_board { target < pos.now.size * pos.now.size }
    requires stone { cell_at pos.now.cells target ≢ Cell.Empty }
    ensures proof { IfOk result (λ told. IfSome told (λ text. IsSureProof depths.plies
        (first_node (asked_in depths.tree pos.now of target depths.plies depths.wide) code) pos.now
        (words_in text))) }
    ensures short { IfOk result (λ told. IfSome told (λ text. length text ≤ longest_proof)) }
    ensures not_sure { result ≡ Ok None ↔ (surely_wins depths.plies
        (first_node (asked_in depths.tree pos.now of target depths.plies depths.wide) code) pos.now ≡ false) }
{
    let question = question_on(pos, of, target, depths);
    node_proof(alloc, pos, first_node(&question, code), question.plies)
}
