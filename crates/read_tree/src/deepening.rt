//! A deep play is read with fewer plies first: what the attacker wins with few plies he wins with all, and the table
//! then knows the nodes by which he does.

ghost use Rattle.std.specs.Prelude.{◌≡◌, ℕ, ◌+◌, ◌<◌, ◌≤◌, suc, true, length, IsTrue, if◌then◌else◌};
ghost use Rattle.trial_board.specs.Trials.{KeepsTrial};
ghost use Rattle.read_rules.specs.Candidates.{is_candidate};
ghost use Rattle.read_rules.specs.GameTree.{succeeds};
ghost use Rattle.read_tree.specs.Allowances.{IsFiltered, under, without, either};
ghost use Rattle.read_tree.specs.Deepening.{IsLeftOpen};
ghost use Rattle.read_tree.specs.Table.{IsTrueTableAt};
ghost use Rattle.read_tree.specs.Walk.{IsPointOf, IsReady, LooksNearWhere, OnEachAgreeing};

use crate::allowances::Allowances;
use crate::memory::Memory;
use crate::tree::{attackers, succeeds};
use go_base::points::PointSet;
use go_base::{Look, Point};
use read_rules::Turn;
use trial_board::Trial;

/// A play with at least this many plies left after it is read with fewer plies first.
const DEEP: u8 = 17;

/// Whether a play with `plies` plies left after it is read with fewer plies first. This pays only in the wider tree.
fn is_deep(turn: Turn, plies: u8) -> bool {
    turn.tree.is_wider() && plies >= DEEP
}

/// Of `asked`, the allowances left open by reading the play at `p` with fewer plies than `plies` after it. Under the
/// others the attacker has his way.
fn open_after_fewer<L: Look>(
    board: &mut Trial<L>,
    turn: Turn,
    p: Point,
    plies: u8,
    asked: Allowances,
    known: &PointSet,
    memory: &mut Memory,
) -> Allowances
    requires ready { IsReady L.shows L.seen board.old turn plies asked known.now memory.old.table.now }
    requires on_board { IsPointOf L.shows board.old p }
    ensures stays { KeepsTrial L.shows L.seen board.old board.new }
    ensures table { IsTrueTableAt (L.seen board.new.look) turn memory.new.table.now }
    ensures over { OnEachAgreeing L.seen board.old board.new (λ here. IsLeftOpen plies turn here p asked result) }
    ensures near { LooksNearWhere L.seen board.old board.new (suc plies) turn asked (λ here.
        IsTrue (is_candidate turn here p)) }
{
    let mut left = asked;
    let mut fewer = plies % 2;
    'depths: while fewer < plies {
        let good = succeeds(board, turn, p, fewer, left, known, memory);
        left = left.without(attackers(turn.attacker_to_play, left, good));
        if !left.has_some() {
            return left;
        }
        fewer += 2;
    }
    left
}

/// Of `asked`, the allowances under which a play at `p` gives the side to play its way, with `plies` plies left after
/// it: from those that were left open, `left`, and those of `left` under which the play succeeds, `good`.
fn with_closed(attacker: bool, asked: Allowances, left: Allowances, good: Allowances) -> Allowances
    ensures { result ≡ (if attacker then without asked (without left good) else good) }
{
    if attacker {
        asked.without(left.without(good))
    } else {
        good
    }
}

/// Of `asked`, the allowances under which the play at `p` gives the side to play its way, with `plies` plies left after
/// it. A deep play is read with fewer plies first.
pub fn succeeds_by_depths<L: Look>(
    board: &mut Trial<L>,
    turn: Turn,
    p: Point,
    plies: u8,
    asked: Allowances,
    known: &PointSet,
    memory: &mut Memory,
) -> Allowances
    requires ready { IsReady L.shows L.seen board.old turn plies asked known.now memory.old.table.now }
    requires on_board { IsPointOf L.shows board.old p }
    ensures stays { KeepsTrial L.shows L.seen board.old board.new }
    ensures table { IsTrueTableAt (L.seen board.new.look) turn memory.new.table.now }
    ensures over { OnEachAgreeing L.seen board.old board.new (λ here.
        IsFiltered asked result (λ ko. succeeds plies (under turn ko) here p)) }
    ensures near { LooksNearWhere L.seen board.old board.new (suc plies) turn asked (λ here.
        IsTrue (is_candidate turn here p)) }
{
    if !is_deep(turn, plies) {
        return succeeds(board, turn, p, plies, asked, known, memory);
    }
    let left = open_after_fewer(board, turn, p, plies, asked, known, memory);
    if !left.has_some() {
        return with_closed(turn.attacker_to_play, asked, left, left);
    }
    let good = succeeds(board, turn, p, plies, left, known, memory);
    with_closed(turn.attacker_to_play, asked, left, good)
}
