//! The nodes to which the moves at a node lead.

ghost use Rattle.std.specs.Prelude.{◌≡◌, ◌*◌, ◌<◌, Err, IfSome};
ghost use Rattle.go_rules.specs.Play.{play};
ghost use Rattle.read_rules.specs.GameTree.{child_of};
ghost use Rattle.read_rules.specs.Turns.{mover_of};
ghost use Rattle.read_proof.specs.Proves.{passed, child_after};

use crate::candidates::is_candidate;
use go_base::{Illegal, Point, Position};
use read_rules::{Node, Spot};

/// The child after a play that the ko ban alone forbids, if the mover may still ignore the ban.
fn allowed_child(pos: &Position, node: Node, p: Point) -> Option<(Node, Position)>
    requires target { node.turn.target < pos.now.size * pos.now.size }
    requires on_board { p < pos.now.size * pos.now.size }
    requires banned { play pos.now (mover_of node.turn) p ≡ Err Illegal.Ko }
    ensures value { result ≡ child_of node pos.now p }
    ensures target { IfSome result (λ child. child.0.turn.target < child.1.size * child.1.size) }
{
    let left = node.allowance();
    if left == 0 {
        return None;
    }
    match pos.play_free(node.mover(), p) {
        Ok(new) => Some((node.next(left - 1), new)),
        Err(_) => None,
    }
}

/// The child after a play that the rules forbid because of `why`: there is one only if `why` is the ko ban.
fn forbidden_child(pos: &Position, node: Node, p: Point, why: Illegal) -> Option<(Node, Position)>
    requires target { node.turn.target < pos.now.size * pos.now.size }
    requires on_board { p < pos.now.size * pos.now.size }
    requires forbidden { play pos.now (mover_of node.turn) p ≡ Err why }
    ensures value { result ≡ child_of node pos.now p }
    ensures target { IfSome result (λ child. child.0.turn.target < child.1.size * child.1.size) }
{
    match why {
        Illegal::Ko => allowed_child(pos, node, p),
        Illegal::Occupied | Illegal::Suicide => None,
    }
}

/// The child to which the mover's play at `p` leads, if `p` can be played.
pub fn child_of(pos: &Position, node: Node, p: Point) -> Option<(Node, Position)>
    requires target { node.turn.target < pos.now.size * pos.now.size }
    requires on_board { p < pos.now.size * pos.now.size }
    ensures value { result ≡ child_of node pos.now p }
    ensures target { IfSome result (λ child. child.0.turn.target < child.1.size * child.1.size) }
{
    match pos.play(node.mover(), p) {
        Ok(new) => Some((node.next(node.allowance()), new)),
        Err(why) => forbidden_child(pos, node, p, why),
    }
}

/// The child to which the defender's pass leads.
pub fn passed(pos: &Position, node: Node) -> (Node, Position)
    ensures { result ≡ passed node pos.now }
{
    (node.next(node.allowance()), pos.pass())
}

/// The child to which a move leads, if the node has that move: a candidate that can be played, or the defender's pass.
pub fn child_after(pos: &Position, node: Node, spot: Spot) -> Option<(Node, Position)>
    requires { node.turn.target < pos.now.size * pos.now.size }
    ensures value { result ≡ child_after node pos.now spot }
    ensures target { IfSome result (λ child. child.0.turn.target < child.1.size * child.1.size) }
{
    match spot {
        Spot::At(p) => {
            if p >= pos.size().points() {
                return None;
            }
            if !is_candidate(pos, node.turn, p) {
                return None;
            }
            child_of(pos, node, p)
        }
        Spot::Pass => {
            if node.turn.attacker_to_play {
                return None;
            }
            Some(passed(pos, node))
        }
    }
}
