//! What the liberties of the target tell, on a board with trial moves.

ghost use Rattle.std.specs.Prelude.{◌≡◌, ℕ, true};
ghost use Rattle.std.specs.FinSet as set;
ghost use Rattle.trial_board.specs.Trials.{KeepsTrial};
ghost use Rattle.read_rules.specs.Candidates.{is_candidate};
ghost use Rattle.read_tree.specs.Steps.{IsTaken};
ghost use Rattle.read_tree.specs.Walk.{IsPointOf, OnEachAgreeing};

use go_base::{Look, PointSet};
use read_rules::{Node, Turn};
use read_tree::outlook::can_take;
use trial_board::Trial;

/// The liberties of the target; each of them is a candidate of either side.
pub fn liberties_to_try<L: Look>(board: &mut Trial<L>, node: Node) -> PointSet
    requires target { IsPointOf L.shows board.old node.turn.target }
    ensures stays { KeepsTrial L.shows L.seen board.old board.new }
    ensures over { OnEachAgreeing L.seen board.old board.new (λ here. (p : ℕ) → set.contains result p ≡ true
        → is_candidate node.turn here p ≡ true) }
{
    board.liberties(node.turn.target)
}

/// Whether it is the attacker's turn and he can take the target by its only liberty, for good. False says nothing.
pub fn takes<L: Look>(board: &mut Trial<L>, turn: Turn) -> bool
    requires target { IsPointOf L.shows board.old turn.target }
    ensures stays { KeepsTrial L.shows L.seen board.old board.new }
    ensures over { OnEachAgreeing L.seen board.old board.new (λ here. result ≡ true → IsTaken turn here) }
{
    let liberties = board.liberties(turn.target);
    can_take(board, turn, &liberties)
}
