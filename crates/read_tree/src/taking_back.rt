//! Whether the defender of a lone stone that was just taken can take back.

ghost use Rattle.std.specs.Prelude.{◌≡◌, ◌*◌, ◌<◌, true, false};
ghost use Rattle.go_rules.specs.Position.{BoardState, IsPosition, other};
ghost use Rattle.go_base.specs.Facts.{Agrees, AddsIn};
ghost use Rattle.go_base.specs.Views.{neighbours_of};
ghost use Rattle.trial_board.specs.Overlays.{neighbourhood_twice};
ghost use Rattle.trial_board.specs.Trials.{KeepsTrial, after};
ghost use Rattle.read_rules.specs.GameTree.{is_walled_in, is_captured, can_play};
ghost use Rattle.read_tree.specs.Allowances.{under, IsFiltered};

use crate::allowances::Allowances;
use crate::outlook::stone_of;
use go_base::points::PointSet;
use go_base::{Cell, Colour, Look, Point};
use read_moves::is_quiet;
use read_rules::{Node, Turn};
use trial_board::Trial;
use wider_moves::sides::add_sides;

/// Whether each neighbour of `p` holds a stone of the colour that attacks `defender`.
pub fn is_walled_in<L: Look>(board: &mut Trial<L>, p: Point, defender: Colour) -> bool
    requires { p < (L.shows board.old.look).size * (L.shows board.old.look).size }
    ensures stays { KeepsTrial L.shows L.seen board.old board.new }
    ensures over { (pos : BoardState) → Agrees (L.seen board.new.look) pos
        → result ≡ is_walled_in pos.size (after pos board.old.moves).cells p (other defender) }
    ensures near { (pos : BoardState) → Agrees (L.seen board.new.look) pos
        → AddsIn (L.seen board.old.look) (L.seen board.new.look) (neighbours_of pos.size p) }
{
    let mut free = PointSet::new();
    add_sides(board, Cell::Empty, p, &mut free);
    add_sides(board, stone_of(defender), p, &mut free);
    free.first_from(0).is_none()
}

/// Of `asked`, the allowances under which the defender can play at the target's point, which is empty and walled in by
/// the attacker: none if the play takes no stones, all if the ban does not forbid it, else only the defender's own.
pub fn may_take_back<L: Look>(board: &mut Trial<L>, turn: Turn, asked: Allowances) -> Allowances
    requires target { turn.target < (L.shows board.old.look).size * (L.shows board.old.look).size }
    requires defender { turn.attacker_to_play ≡ false }
    ensures stays { KeepsTrial L.shows L.seen board.old board.new }
    ensures over { (pos : BoardState) → Agrees (L.seen board.new.look) pos → IsPosition (after pos board.old.moves)
        → is_captured (after pos board.old.moves) turn.target ≡ true
        → is_walled_in pos.size (after pos board.old.moves).cells turn.target (other turn.defender) ≡ true
        → IsFiltered asked result (λ ko. can_play (under turn ko) (after pos board.old.moves) turn.target) }
    ensures near { (pos : BoardState) → Agrees (L.seen board.new.look) pos
        → AddsIn (L.seen board.old.look) (L.seen board.new.look)
        (neighbourhood_twice pos.size (after pos board.old.moves).cells turn.target) }
{
    if is_quiet(board, turn.defender, turn.target) {
        return Allowances::none();
    }
    if board.bans(turn.defender, turn.target) {
        return Allowances::own_where(false, asked.defender);
    }
    asked
}

/// Whether the defender can play at the target's point under the allowances of a node. The point is empty and walled in
/// by the attacker.
pub fn may_take_back_at<L: Look>(board: &mut Trial<L>, node: Node) -> bool
    requires target { node.turn.target < (L.shows board.old.look).size * (L.shows board.old.look).size }
    requires defender { node.turn.attacker_to_play ≡ false }
    ensures stays { KeepsTrial L.shows L.seen board.old board.new }
    ensures over { (pos : BoardState) → Agrees (L.seen board.new.look) pos → IsPosition (after pos board.old.moves)
        → is_captured (after pos board.old.moves) node.turn.target ≡ true
        → is_walled_in pos.size (after pos board.old.moves).cells node.turn.target (other node.turn.defender) ≡ true
        → result ≡ can_play node (after pos board.old.moves) node.turn.target }
{
    if is_quiet(board, node.turn.defender, node.turn.target) {
        return false;
    }
    if board.bans(node.turn.defender, node.turn.target) {
        return node.allowance() > 0;
    }
    true
}
