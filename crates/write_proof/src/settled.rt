//! Whether a claim is settled at a node, on a board with trial moves.

ghost use Rattle.std.specs.Prelude.{◌≡◌, ◌+◌, ◌*◌, ◌<◌, ◌/◌, ◌||◌, ◌&&◌, ◌==◌, nat_lt, None, if◌then◌else◌};
ghost use Rattle.trial_board.specs.Trials.{KeepsTrial};
ghost use Rattle.read_rules.specs.GameTree.{taking_back};
ghost use Rattle.read_rules.specs.Trees.{most_narrow};
ghost use Rattle.read_tree.specs.Allowances.{Ko, under};
ghost use Rattle.read_proof.specs.Proves.{is_settled, is_wanted};
ghost use Rattle.write_proof.specs.Printed.{position_on};

use go_base::{Cell, Look};
use read_rules::{Node, Turn};
use trial_board::Trial;

/// Whether `liberties` liberties of the target are more than the attacker can fill with `plies` plies left, or so many
/// that he may not play at it.
fn are_too_many(turn: Turn, plies: u8, liberties: u16) -> bool
    ensures { result ≡ (if turn.attacker_to_play then nat_lt ((plies + 1) / 2) liberties
        || (nat_lt 4 liberties || ((turn.wide == 0) && nat_lt (most_narrow turn.tree) liberties))
        else nat_lt (plies / 2) liberties) }
{
    if turn.attacker_to_play {
        liberties > (u16::from(plies) + 1) / 2 || turn.has_many(liberties)
    } else {
        liberties > u16::from(plies) / 2
    }
}

/// Whether the claim, that the attacker wins or that he does not, is settled with `plies` plies left. The answer holds
/// under each ko allowance under which the defender cannot take back.
pub fn is_settled<L: Look>(board: &mut Trial<L>, turn: Turn, plies: u8, won: bool) -> bool
    requires target { turn.target < (L.shows board.old.look).size * (L.shows board.old.look).size }
    ensures stays { KeepsTrial L.shows L.seen board.old board.new }
    ensures answer { (ko : Ko) → taking_back (under turn ko) (position_on L.shows board.old) ≡ None
        → result ≡ is_settled plies won (under turn ko) (position_on L.shows board.old) }
{
    let captured = board.cell(turn.target) == Cell::Empty;
    if won {
        return captured;
    }
    if captured {
        return false;
    }
    if plies == 0 {
        return true;
    }
    are_too_many(turn, plies, board.liberties(turn.target).count())
}

/// Whether the claim is what the side to play wants.
pub fn is_wanted(node: Node, won: bool) -> bool
    ensures { result ≡ is_wanted won node }
{
    if node.turn.attacker_to_play {
        won
    } else {
        !won
    }
}
