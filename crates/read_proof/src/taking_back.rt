//! Taking back a lone stone that was just taken, and the child at which a proof goes on behind a move.

ghost use Rattle.std.specs.Prelude.{◌≡◌, ℕ, ◌*◌, ◌<◌, false, IsTrue, Some, IfSome};
ghost use Rattle.go_rules.specs.Position.{stone_of};
ghost use Rattle.go_rules.specs.Strings.{cell_at, same_cell};
ghost use Rattle.go_base.specs.Sides.{neighbour_at};
ghost use Rattle.read_rules.specs.GameTree.{is_captured, is_walled_in, has_lost_one_stone, taking_back};
ghost use Rattle.read_proof.specs.Proves.{can_take_back, back_after, child_behind};

use crate::children::{child_after, child_of};
use go_base::sides::neighbour;
use go_base::{Cell, Colour, Point, Position};
use read_rules::{Node, Spot};

/// Whether the target's point is empty.
pub fn is_captured(pos: &Position, node: Node) -> bool
    requires { node.turn.target < pos.now.size * pos.now.size }
    ensures { result ≡ is_captured pos.now node.turn.target }
{
    pos.cell(node.turn.target) == Cell::Empty
}

/// Whether the neighbour of `t` at this side, if there is one, holds a stone of the colour `c`.
fn side_holds(pos: &Position, t: Point, side: u8, c: Colour) -> bool
    requires on_board { t < pos.now.size * pos.now.size }
    requires side { side < 4 }
    ensures yes { IsTrue result → (q : ℕ) → neighbour_at pos.now.size t side ≡ Some q
        → IsTrue (same_cell (cell_at pos.now.cells q) (stone_of c)) }
    ensures no { result ≡ false → (q : ℕ) × (neighbour_at pos.now.size t side ≡ Some q)
        × (same_cell (cell_at pos.now.cells q) (stone_of c) ≡ false) }
{
    match neighbour(pos.size(), t, side) {
        Some(q) => pos.cell(q) == c.cell(),
        None => true,
    }
}

/// Whether each neighbour of `t` holds a stone of the colour `c`.
fn is_walled_in(pos: &Position, t: Point, c: Colour) -> bool
    requires { t < pos.now.size * pos.now.size }
    ensures { result ≡ is_walled_in pos.now.size pos.now.cells t c }
{
    for side in 0..4 {
        if !side_holds(pos, t, side, c) {
            return false;
        }
    }
    true
}

/// Whether the defender may try to take back: it is his turn in the wider tree, and the target was a lone stone that
/// was just taken.
fn has_lost_one_stone(pos: &Position, node: Node) -> bool
    requires { node.turn.target < pos.now.size * pos.now.size }
    ensures { result ≡ has_lost_one_stone node pos.now }
{
    node.turn.tree.is_wider()
        && !node.turn.attacker_to_play
        && is_captured(pos, node)
        && is_walled_in(pos, node.turn.target, node.turn.defender.other())
}

/// The child to which the defender's taking back leads, if he can take back the target.
#[tactic(auto, unfolding(read_rules::specs::GameTree::taking_back))]
pub fn taking_back(pos: &Position, node: Node) -> Option<(Node, Position)>
    requires { node.turn.target < pos.now.size * pos.now.size }
    ensures value { result ≡ taking_back node pos.now }
    ensures target { IfSome result (λ child. child.0.turn.target < child.1.size * child.1.size) }
{
    if !has_lost_one_stone(pos, node) {
        return None;
    }
    child_of(pos, node, node.turn.target)
}

/// Whether the defender can take back the target.
pub fn can_take_back(pos: &Position, node: Node) -> bool
    requires { node.turn.target < pos.now.size * pos.now.size }
    ensures { result ≡ can_take_back node pos.now }
{
    taking_back(pos, node).is_some()
}

/// The child to which a move leads that takes back the target; `None` for any other move.
fn back_after(pos: &Position, node: Node, spot: Spot) -> Option<(Node, Position)>
    requires { node.turn.target < pos.now.size * pos.now.size }
    ensures value { result ≡ back_after node pos.now spot }
    ensures target { IfSome result (λ child. child.0.turn.target < child.1.size * child.1.size) }
{
    match spot {
        Spot::At(p) => {
            if p != node.turn.target {
                return None;
            }
            taking_back(pos, node)
        }
        Spot::Pass => None,
    }
}

/// The child at which a proof goes on behind a move. If the target is taken, only the play that takes it back has a
/// child; else each move of the node has one.
#[tactic(auto, unfolding(crate::specs::Proves::child_behind))]
pub fn child_behind(pos: &Position, node: Node, spot: Spot) -> Option<(Node, Position)>
    requires { node.turn.target < pos.now.size * pos.now.size }
    ensures value { result ≡ child_behind node pos.now spot }
    ensures target { IfSome result (λ child. child.0.turn.target < child.1.size * child.1.size) }
{
    if is_captured(pos, node) {
        return back_after(pos, node, spot);
    }
    child_after(pos, node, spot)
}
