//! The first move of a node under all of the asked ko allowances at once, if it is the same under each of them.

ghost use Rattle.std.specs.Prelude.{◌≡◌, ◌≢◌, ◌+◌, ◌<◌, true, not, length};
ghost use Rattle.trial_board.specs.Trials.{KeepsTrial, most_moves};
ghost use Rattle.read_rules.specs.GameTree.{pass_saves, succeeds, first_success, first_move, at_point};
ghost use Rattle.read_tree.specs.Allowances.{under, has, has_some, without, own_where};
ghost use Rattle.read_tree.specs.Table.{IsTrueTableAt};
ghost use Rattle.read_tree.specs.Walk.{IsReady, IsPointOf};
ghost use Rattle.write_proof.specs.Printed.{position_on};
ghost use Rattle.write_proof.specs.Alike.{IsMoveSuccess, IsCommon, IsOne, IsMoveOn};

use go_base::points::PointSet;
use go_base::{Look, Point};
use read_moves::candidates;
use read_rules::{Spot, Turn};
use read_tree::Allowances;
use read_tree::memory::Memory;
use read_tree::tree::{pass_saves, succeeds};
use trial_board::Trial;

/// Whether a move gives the side to play its way, under all of the asked allowances together.
#[derive(Clone, Copy, Debug, PartialEq, Eq)]
pub enum MoveSuccess {
    /// The move gives the side to play its way under each asked allowance.
    Always,
    /// The move does not give the side to play its way under any asked allowance.
    Never,
    /// The move gives the side to play its way under some asked allowances and not under others.
    Differs,
}

/// The first move of a node, under all of the asked allowances together.
#[derive(Clone, Copy, Debug, PartialEq, Eq)]
pub enum Common {
    /// This is the first move under each asked allowance.
    Move(Spot),
    /// There is no first move under any asked allowance.
    Nothing,
    /// The first move may differ between the asked allowances.
    Differs,
}

/// Whether `asked` holds no allowance but that of the side to play, which is the attacker if `attacker`.
pub fn is_own_alone(asked: Allowances, attacker: bool) -> bool
    ensures { result ≡ not (has_some (without asked (own_where attacker true))) }
{
    !asked
        .without(Allowances::own_where(attacker, true))
        .has_some()
}

/// What the allowances `asked` tell of a move, if `good` are those under which it gives the side to play its way.
pub fn success_under(asked: Allowances, good: Allowances) -> MoveSuccess
    ensures success { IsMoveSuccess asked result (has good) }
    ensures one { IsOne asked → result ≢ MoveSuccess.Differs }
{
    if !asked.without(good).has_some() {
        return MoveSuccess::Always;
    }
    if asked.both(good).has_some() {
        return MoveSuccess::Differs;
    }
    MoveSuccess::Never
}

/// What the allowances `asked` tell of the defender's pass, with `plies` plies left after it. The attacker does not
/// pass, so at his turn the answer is `Never`.
fn pass_success<L: Look>(
    board: &mut Trial<L>,
    turn: Turn,
    asked: Allowances,
    plies: u8,
    known: &PointSet,
    memory: &mut Memory,
) -> MoveSuccess
    requires { IsReady L.shows L.seen board.old turn plies asked known.now memory.old.table.now }
    ensures stays { KeepsTrial L.shows L.seen board.old board.new }
    ensures table { IsTrueTableAt (L.seen board.new.look) turn memory.new.table.now }
    ensures success { IsMoveSuccess asked result
        (λ ko. pass_saves plies (under turn ko) (position_on L.shows board.old)) }
    ensures one { IsOne asked → result ≢ MoveSuccess.Differs }
{
    if turn.attacker_to_play {
        return MoveSuccess::Never;
    }
    let good = pass_saves(board, turn, plies, asked, known, memory);
    success_under(asked, good)
}

/// What the allowances `asked` tell of a play at `p`, with `plies` plies left after it.
fn play_success<L: Look>(
    board: &mut Trial<L>,
    turn: Turn,
    asked: Allowances,
    p: Point,
    plies: u8,
    known: &PointSet,
    memory: &mut Memory,
) -> MoveSuccess
    requires ready { IsReady L.shows L.seen board.old turn plies asked known.now memory.old.table.now }
    requires on_board { IsPointOf L.shows board.old p }
    ensures stays { KeepsTrial L.shows L.seen board.old board.new }
    ensures table { IsTrueTableAt (L.seen board.new.look) turn memory.new.table.now }
    ensures success { IsMoveSuccess asked result
        (λ ko. succeeds plies (under turn ko) (position_on L.shows board.old) p) }
    ensures one { IsOne asked → result ≢ MoveSuccess.Differs }
{
    let good = succeeds(board, turn, p, plies, asked, known, memory);
    success_under(asked, good)
}

/// The first candidate in reading order that gives the side to play its way with `plies` plies left after it, if it is
/// the same under each allowance of `asked`.
fn first_point<L: Look>(
    board: &mut Trial<L>,
    turn: Turn,
    asked: Allowances,
    plies: u8,
    known: &PointSet,
    memory: &mut Memory,
) -> Common
    requires { IsReady L.shows L.seen board.old turn plies asked known.now memory.old.table.now }
    ensures stays { KeepsTrial L.shows L.seen board.old board.new }
    ensures table { IsTrueTableAt (L.seen board.new.look) turn memory.new.table.now }
    ensures first { IsCommon asked result (λ ko.
        at_point (first_success plies (under turn ko) (position_on L.shows board.old))) }
    ensures one { IsOne asked → result ≢ Common.Differs }
    ensures on_board { IsMoveOn (L.shows board.old.look).size result }
{
    let candidates = candidates(board, turn);
    let mut next = 0;
    'plays: while let Some(p) = candidates.first_from(next) {
        match play_success(board, turn, asked, p, plies, known, memory) {
            MoveSuccess::Always => return Common::Move(Spot::At(p)),
            MoveSuccess::Differs => return Common::Differs,
            MoveSuccess::Never => next = p + 1,
        }
    }
    Common::Nothing
}

/// The first move that gives the side to play its way with `plies` plies left after it, if it is the same under each
/// allowance of `asked`. The defender's pass is tried before all points, then the candidates in reading order.
pub fn first_alike<L: Look>(
    board: &mut Trial<L>,
    turn: Turn,
    asked: Allowances,
    plies: u8,
    memory: &mut Memory,
) -> Common
    requires room { length board.old.moves + plies < most_moves }
    requires target { IsPointOf L.shows board.old turn.target }
    requires some { has_some asked ≡ true }
    requires table { IsTrueTableAt (L.seen board.old.look) turn memory.old.table.now }
    ensures stays { KeepsTrial L.shows L.seen board.old board.new }
    ensures table { IsTrueTableAt (L.seen board.new.look) turn memory.new.table.now }
    ensures first { IsCommon asked result (λ ko.
        first_move plies (under turn ko) (position_on L.shows board.old)) }
    ensures one { IsOne asked → result ≢ Common.Differs }
    ensures on_board { IsMoveOn (L.shows board.old.look).size result }
{
    let known = board.liberties(turn.target);
    match pass_success(board, turn, asked, plies, &known, memory) {
        MoveSuccess::Always => Common::Move(Spot::Pass),
        MoveSuccess::Differs => Common::Differs,
        MoveSuccess::Never => first_point(board, turn, asked, plies, &known, memory),
    }
}
