//! What a proof of a code claims under the allowances of each code from 3 down, and the nodes about which it claims
//! this.

ghost use Rattle.std.specs.Prelude.{◌≡◌, ◌*◌, ◌<◌, ◌==◌, if◌then◌else◌};
ghost use Rattle.go_rules.specs.Position.{colour_of};
ghost use Rattle.read_rules.specs.Answer.{asked_in, first_node};
ghost use Rattle.read_proof.specs.ProofOf.{claim_under};

use go_base::{Cell, Colour, Point, Position};
use read_rules::{Depths, Kind, Node, ReadingQuestion};

/// What a proof of `code` claims under the allowances of `more`: true if it claims that the attacker wins, false if it
/// claims that he does not.
pub fn claim_under(question: &ReadingQuestion, code: u8, more: u8) -> bool
    ensures { result ≡ claim_under question.now code more }
{
    match question.kind {
        Kind::Attack => more == code,
        Kind::Defend => more != code,
    }
}

/// How often a side may ignore the ko ban under `code`: once if `code` is `with_one`, else never. `with_one` is 1 for
/// the side that is asked about, and 3 for the other side.
fn allowance_under(code: u8, with_one: u8) -> u8
    ensures { result ≡ (if code == with_one then 1 else 0) }
{
    if code == with_one { 1 } else { 0 }
}

/// The first node of the question under the allowances of a code.
pub fn first_node(question: &ReadingQuestion, code: u8) -> Node
    ensures { result ≡ first_node question.now code }
{
    let own = allowance_under(code, 1);
    let other = allowance_under(code, 3);
    let turn = question.first_turn();
    match question.kind {
        Kind::Attack => Node {
            turn,
            attacker_ko: own,
            defender_ko: other,
        },
        Kind::Defend => Node {
            turn,
            attacker_ko: other,
            defender_ko: own,
        },
    }
}

/// The colour of a stone; an empty point counts as black.
fn colour_of(cell: Cell) -> Colour
    ensures { result ≡ colour_of cell }
{
    match cell {
        Cell::White => Colour::White,
        Cell::Black | Cell::Empty => Colour::Black,
    }
}

/// The question that a call asks about the stone at `target`.
pub fn question_on(pos: &Position, of: Kind, target: Point, depths: Depths) -> ReadingQuestion
    requires { target < pos.now.size * pos.now.size }
    ensures { result ≡ asked_in depths.tree pos.now of target depths.plies depths.wide }
{
    ReadingQuestion {
        tree: depths.tree,
        size: pos.size(),
        kind: of,
        target,
        colour: colour_of(pos.cell(target)),
        plies: depths.plies,
        wide: depths.wide,
    }
}
