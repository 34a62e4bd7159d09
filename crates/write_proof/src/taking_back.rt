//! Whether the defender can take back the target under each of the asked ko allowances.

ghost use Rattle.std.specs.Prelude.{◌≡◌, ◌≢◌};
ghost use Rattle.trial_board.specs.Trials.{KeepsTrial};
ghost use Rattle.read_tree.specs.Allowances.{under};
ghost use Rattle.read_tree.specs.Walk.{IsPointOf};
ghost use Rattle.read_proof.specs.Proves.{can_take_back};
ghost use Rattle.write_proof.specs.Printed.{position_on};
ghost use Rattle.write_proof.specs.Alike.{IsMoveSuccess, IsOne};

use crate::alike::{MoveSuccess, success_under};
use go_base::{Cell, Look};
use read_rules::Turn;
use read_tree::Allowances;
use read_tree::taking_back::{is_walled_in, may_take_back};
use trial_board::Trial;

/// What the allowances `asked` tell of taking back: the target was a lone stone that was just taken, and the defender
/// can play at its point. Only in the wider tree can the defender take back.
pub fn back_success<L: Look>(board: &mut Trial<L>, turn: Turn, asked: Allowances) -> MoveSuccess
    requires target { IsPointOf L.shows board.old turn.target }
    ensures stays { KeepsTrial L.shows L.seen board.old board.new }
    ensures success { IsMoveSuccess asked result (λ ko. can_take_back (under turn ko) (position_on L.shows board.old)) }
    ensures one { IsOne asked → result ≢ MoveSuccess.Differs }
{
    if !turn.tree.is_wider() {
        return MoveSuccess::Never;
    }
    if turn.attacker_to_play {
        return MoveSuccess::Never;
    }
    if board.cell(turn.target) != Cell::Empty {
        return MoveSuccess::Never;
    }
    if !is_walled_in(board, turn.target, turn.defender) {
        return MoveSuccess::Never;
    }
    let good = may_take_back(board, turn, asked);
    success_under(asked, good)
}
