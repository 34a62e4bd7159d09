//! Whether a claim at a node is settled, and whether one move or all moves may prove it.

ghost use Rattle.std.specs.Prelude.{◌≡◌, ◌*◌, ◌<◌};
ghost use Rattle.read_rules.specs.GameTree.{has_many_liberties};
ghost use Rattle.read_proof.specs.Proves.{is_settled, has_too_many, is_wanted, move_may_prove, each_may_prove};

use crate::taking_back::{can_take_back, is_captured};
use go_base::Position;
use read_rules::{Node, Turn};

/// Whether the target has so many liberties that the attacker may not play at it.
#[tactic(auto, unfolding(read_rules::specs::GameTree::has_many_liberties))]
pub fn has_many_liberties(pos: &Position, turn: Turn) -> bool
    requires { turn.target < pos.now.size * pos.now.size }
    ensures { result ≡ has_many_liberties turn pos.now }
{
    turn.has_many(pos.liberties(turn.target))
}

/// Whether the target has more liberties than the attacker can fill with `plies` plies left, or so many that he may not
/// play at it.
#[tactic(auto, unfolding(crate::specs::Proves::has_too_many, read_rules::specs::GameTree::has_many_liberties))]
fn has_too_many(pos: &Position, node: Node, plies: u8) -> bool
    requires { node.turn.target < pos.now.size * pos.now.size }
    ensures { result ≡ has_too_many plies node pos.now }
{
    let liberties = pos.liberties(node.turn.target);
    if node.turn.attacker_to_play {
        liberties > (u16::from(plies) + 1) / 2 || node.turn.has_many(liberties)
    } else {
        liberties > u16::from(plies) / 2
    }
}

/// Whether the claim, that the attacker wins or that he does not, is settled with `plies` plies left.
#[tactic(auto, unfolding(crate::specs::Proves::is_settled))]
pub fn is_settled(pos: &Position, node: Node, plies: u8, won: bool) -> bool
    requires { node.turn.target < pos.now.size * pos.now.size }
    ensures { result ≡ is_settled plies won node pos.now }
{
    if won {
        return is_captured(pos, node) && !can_take_back(pos, node);
    }
    if is_captured(pos, node) {
        return plies == 0 && can_take_back(pos, node);
    }
    plies == 0 || has_too_many(pos, node, plies)
}

/// Whether the claim is what the side to play wants.
pub fn is_wanted(node: Node, won: bool) -> bool
    ensures { result ≡ is_wanted won node }
{
    if node.turn.attacker_to_play {
        won
    } else {
        !won
    }
}

/// Whether one move may prove the claim: the target is taken; or the claim is what the side to play wants, and it is
/// not the attacker's turn at a target that he may not play at.
#[tactic(auto, unfolding(crate::specs::Proves::move_may_prove))]
pub fn move_may_prove(pos: &Position, node: Node, won: bool) -> bool
    requires { node.turn.target < pos.now.size * pos.now.size }
    ensures { result ≡ move_may_prove won node pos.now }
{
    is_captured(pos, node)
        || (is_wanted(node, won)
            && !(node.turn.attacker_to_play && has_many_liberties(pos, node.turn)))
}

/// Whether all moves together may prove the claim: it is not what the side to play wants, and the target stands.
#[tactic(auto, unfolding(crate::specs::Proves::each_may_prove))]
pub fn each_may_prove(pos: &Position, node: Node, won: bool) -> bool
    requires { node.turn.target < pos.now.size * pos.now.size }
    ensures { result ≡ each_may_prove won node pos.now }
{
    !is_wanted(node, won) && !is_captured(pos, node)
}
