//! The walk over the game tree: the plays of a node one after another, each read to its end before the next.

ghost use Rattle.std.specs.Prelude.{◌≡◌, ◌+◌, ◌≤◌, ℕ, suc, true, false};
ghost use Rattle.std.specs.Prelude.{IsTrue, IfSome, length, is_some, if◌then◌else◌};
ghost use Rattle.go_rules.specs.Neighbourhood.{neighbourhood_of};
ghost use Rattle.std.specs.FinSet as set;
ghost use Rattle.go_rules.specs.Position.{BoardState, IsPosition};
ghost use Rattle.go_base.specs.Facts.{Agrees, AddsIn};
ghost use Rattle.go_base.specs.Views.{alone};
ghost use Rattle.trial_board.specs.Trials.{KeepsTrial, most_moves, after};
ghost use Rattle.read_rules.specs.declared.question.ReadingQuestion.{ReadingQuestion};
ghost use Rattle.read_rules.specs.ActiveArea.{IsUndecided, InActiveArea, AddsNear};
ghost use Rattle.read_rules.specs.GameTree.{is_captured, attacker_wins, succeeds, first_success, pass_saves};
ghost use Rattle.read_tree.specs.Allowances.{Ko, under, has_some, without, IsFiltered};
ghost use Rattle.read_rules.specs.GoodMoves.{good_move};
ghost use Rattle.read_rules.specs.Turns.{next_turn};
ghost use Rattle.read_rules.specs.Candidates.{is_candidate};
ghost use Rattle.read_tree.specs.Steps.{has_way, AreNodesOf, TellsBy};
ghost use Rattle.read_tree.specs.Stages.{is_other, is_capture_or_liberty};
ghost use Rattle.read_tree.specs.Steps.{is_off_liberties, IsCarried, TellsLiberties};
ghost use Rattle.read_tree.specs.Table.{IsTrueTableAt};
ghost use Rattle.read_tree.specs.Walk.{IsReady, IsPointOf, AreLibertiesOf, AreCapturesOf, OnEachAgreeing};
ghost use Rattle.read_tree.specs.Walk.{LooksNear, LooksNearWhere, LooksNearOrAt, LooksNearLoss};

use crate::allowances::Allowances;
use crate::apart::all_but;
use crate::bound::leaves_too_many;
use crate::candidates::{captures_of, others_of};
use crate::escape::escapes;
use crate::making::{Made, make};
use crate::memory::Memory;
use crate::order::{TryOrder, last_reply, next_to_try};
use crate::outlook::{Outlook, is_in_atari, liberties_within, outlook_of, stone_of};
use crate::table::AttackerNode;
use crate::taking_back::{is_walled_in, may_take_back};
use go_base::points::PointSet;
use go_base::{Cell, Look, Point};
use read_rules::{Tree, Turn};
use trial_board::Trial;

/// If fewer plies than this are left after the attacker's play, his node is not remembered: reading it costs less than
/// finding it in the table. A node of the wider tree has more candidates, so that remembering it pays sooner.
fn least_plies(tree: Tree) -> u8 {
    match tree {
        Tree::Stated => 4,
        Tree::Wider => 2,
    }
}

/// The liberties of the target after the play at `p`, from its liberties before it, `known`: an attacker's play that
/// does not take the target takes no liberty but its own point. `None` if the liberties have to be found on the board.
#[inline(always)]
fn liberties_after<L: Look>(
    board: &mut Trial<L>,
    turn: Turn,
    p: Point,
    known: &PointSet,
) -> Option<PointSet>
    requires target { IsPointOf L.shows board.old turn.target }
    requires on_board { IsPointOf L.shows board.old p }
    ensures stays { KeepsTrial L.shows L.seen board.old board.new }
    ensures over { OnEachAgreeing L.seen board.old board.new (λ here. IfSome result (IsCarried turn here p known.now)) }
    ensures near { AddsIn (L.seen board.old.look) (L.seen board.new.look) (alone turn.target) }
{
    if !turn.attacker_to_play || board.cell(turn.target) != stone_of(turn.defender) {
        return None;
    }
    let _ = board.size().points();
    Some(all_but(known, p))
}

/// The liberties of the target: `known`, or else what is found on the board. If they are too many for `plies`, a part
/// of them that is too many already.
fn liberties_known<L: Look>(
    board: &mut Trial<L>,
    turn: Turn,
    plies: u8,
    known: Option<PointSet>,
) -> PointSet
    requires target { IsPointOf L.shows board.old turn.target }
    requires liberties { IfSome known (AreLibertiesOf L.seen board.old turn.target) }
    ensures stays { KeepsTrial L.shows L.seen board.old board.new }
    ensures over { (pos : BoardState) → Agrees (L.seen board.new.look) pos
        → TellsLiberties turn plies pos.size (after pos board.old.moves).cells result }
    ensures near { (pos : BoardState) → Agrees (L.seen board.new.look) pos
        → AddsIn (L.seen board.old.look) (L.seen board.new.look)
        (neighbourhood_of pos.size (after pos board.old.moves).cells (alone turn.target)) }
{
    match known {
        Some(found) => found,
        None => liberties_within(board, turn, plies),
    }
}

/// Turns the mover's successes into the attacker's: of `asked`, the allowances under which the attacker wins, from
/// `good`, those under which the mover has its way. The mover is the attacker if `attacker`, else the defender.
pub fn attackers(attacker: bool, asked: Allowances, good: Allowances) -> Allowances
    ensures { result ≡ (if attacker then good else without asked good) }
{
    if attacker { good } else { asked.without(good) }
}

/// Of `asked`, the allowances under which the side that has moved at `turn` has its way, with `plies` plies left.
#[cycle(read)]
fn has_way<L: Look>(
    board: &mut Trial<L>,
    turn: Turn,
    plies: u8,
    asked: Allowances,
    known: Option<PointSet>,
    memory: &mut Memory,
) -> Allowances
    requires room { length board.old.moves + plies ≤ most_moves }
    requires target { IsPointOf L.shows board.old turn.target }
    requires some { has_some asked ≡ true }
    requires liberties { IfSome known (AreLibertiesOf L.seen board.old turn.target) }
    requires table { IsTrueTableAt (L.seen board.old.look) turn memory.old.table.now }
    ensures stays { KeepsTrial L.shows L.seen board.old board.new }
    ensures table { IsTrueTableAt (L.seen board.new.look) turn memory.new.table.now }
    ensures over { OnEachAgreeing L.seen board.old board.new (λ here.
        IsFiltered asked result (λ ko. has_way turn.attacker_to_play (attacker_wins plies (under (next_turn turn) ko)
        here))) }
    ensures near { LooksNearOrAt L.seen board.old board.new plies (next_turn turn) asked }
{
    let won = attacker_wins(board, turn.next(), plies, asked, known, memory);
    attackers(turn.attacker_to_play, asked, won)
}

/// Of `asked`, the allowances under which the play at `p` gives the side to play its way, with `plies` plies left after
/// it.
#[cycle(read)]
pub fn succeeds<L: Look>(
    board: &mut Trial<L>,
    turn: Turn,
    p: Point,
    plies: u8,
    asked: Allowances,
    known: &PointSet,
    memory: &mut Memory,
) -> Allowances
    requires ready { IsReady L.shows L.seen board.old turn plies asked known.now memory.old.table.now }
    requires on_board { IsPointOf L.shows board.old p }
    ensures stays { KeepsTrial L.shows L.seen board.old board.new }
    ensures table { IsTrueTableAt (L.seen board.new.look) turn memory.new.table.now }
    ensures over { OnEachAgreeing L.seen board.old board.new (λ here.
        IsFiltered asked result (λ ko. succeeds plies (under turn ko) here p)) }
    ensures near { LooksNearWhere L.seen board.old board.new (suc plies) turn asked (λ here.
        IsTrue (is_candidate turn here p)) }
    ensures back { p ≡ turn.target → LooksNearLoss L.seen board.old board.new (suc plies) turn asked }
{
    let own = asked.has_own(turn.attacker_to_play);
    match make(board, turn, p, own) {
        Made::Not => Allowances::none(),
        Made::Legal => {
            let next = liberties_after(board, turn, p, known);
            let good = has_way(board, turn, plies, asked, next, memory);
            board.back();
            good
        }
        Made::Allowed => {
            let next = liberties_after(board, turn, p, known);
            let good = has_way(
                board,
                turn,
                plies,
                Allowances::neither_alone(),
                next,
                memory,
            );
            board.back();
            Allowances::own_where(turn.attacker_to_play, good.neither)
        }
    }
}

/// Of `asked`, the allowances under which a play at some point of the set gives the side to play its way, with `plies`
/// plies left after it. The attacker's play that last had its way comes first, and then the liberties with more empty
/// neighbours. A point is asked only for the allowances that the points before it left.
#[cycle(read)]
fn some_of<L: Look>(
    board: &mut Trial<L>,
    turn: Turn,
    plies: u8,
    asked: Allowances,
    points: &PointSet,
    known: &PointSet,
    memory: &mut Memory,
) -> Allowances
    requires ready { IsReady L.shows L.seen board.old turn plies asked known.now memory.old.table.now }
    requires on_board { (p : ℕ) → IsTrue (set.contains points.now p) → IsPointOf L.shows board.old p }
    ensures stays { KeepsTrial L.shows L.seen board.old board.new }
    ensures table { IsTrueTableAt (L.seen board.new.look) turn memory.new.table.now }
    ensures over { OnEachAgreeing L.seen board.old board.new (λ here.
        TellsBy plies turn here (set.contains points.now) asked result) }
    ensures near { LooksNearWhere L.seen board.old board.new (suc plies) turn asked (λ here.
        (p : ℕ) → IsTrue (set.contains points.now p) → IsTrue (is_candidate turn here p)) }
{
    let mut order = TryOrder::beginning_with(memory.reply);
    let mut missing = asked;
    let mut tried = PointSet::new();
    while let Some(p) = next_to_try(board, points, &tried, known, &mut order) {
        let good = succeeds(board, turn, p, plies, missing, known, memory);
        missing = missing.without(good);
        if !missing.has_some() {
            memory.reply = last_reply(turn.attacker_to_play, p, memory.reply);
            return asked;
        }
        tried.add(p);
    }
    asked.without(missing)
}

/// Of `asked`, the allowances under which a later candidate, neither a liberty of the target nor a capture, gives the
/// side to play its way, with `plies` plies left after it: none for a defender if `is_in_atari` says that the attacker
/// then takes the target.
#[cycle(read)]
fn some_later<L: Look>(
    board: &mut Trial<L>,
    turn: Turn,
    plies: u8,
    asked: Allowances,
    known: &PointSet,
    captures: &PointSet,
    memory: &mut Memory,
) -> Allowances
    requires ready { IsReady L.shows L.seen board.old turn plies asked known.now memory.old.table.now }
    requires captures { AreCapturesOf L.seen board.old turn.target captures.now }
    ensures stays { KeepsTrial L.shows L.seen board.old board.new }
    ensures table { IsTrueTableAt (L.seen board.new.look) turn memory.new.table.now }
    ensures over { OnEachAgreeing L.seen board.old board.new (λ here.
        TellsBy plies turn here (is_other turn here) asked result) }
    ensures near { LooksNear L.seen board.old board.new (suc plies) turn asked }
{
    if !turn.has_later_candidates() {
        return Allowances::none();
    }
    if is_in_atari(board, turn, plies, known) {
        return Allowances::none();
    }
    let others = others_of(board, turn, known, captures);
    some_of(board, turn, plies, asked, &others, known, memory)
}

/// Of `asked`, the allowances under which a candidate off the liberties of the target gives the side to play its way,
/// with `plies` plies left after it: none if an attacker's play off these liberties leaves the target too many. The
/// captures are tried first; the later candidates are found only if the captures leave something.
#[cycle(read)]
fn some_other<L: Look>(
    board: &mut Trial<L>,
    turn: Turn,
    plies: u8,
    asked: Allowances,
    known: &PointSet,
    memory: &mut Memory,
) -> Allowances
    requires { IsReady L.shows L.seen board.old turn plies asked known.now memory.old.table.now }
    ensures stays { KeepsTrial L.shows L.seen board.old board.new }
    ensures table { IsTrueTableAt (L.seen board.new.look) turn memory.new.table.now }
    ensures over { OnEachAgreeing L.seen board.old board.new (λ here.
        TellsBy plies turn here (is_off_liberties turn here) asked result) }
    ensures near { LooksNear L.seen board.old board.new (suc plies) turn asked }
{
    if leaves_too_many(turn, plies, known.count()) {
        return Allowances::none();
    }
    let captures = captures_of(board, turn.target, known);
    let good = some_of(board, turn, plies, asked, &captures, known, memory);
    let missing = asked.without(good);
    if !missing.has_some() {
        return good;
    }
    let later = some_later(board, turn, plies, missing, known, &captures, memory);
    asked.without(missing.without(later))
}

/// Of `asked`, the allowances under which some candidate gives the side to play its way, with `plies` plies left after
/// it. The liberties of the target are tried first; the other candidates are found only if the liberties leave
/// something.
#[cycle(read)]
fn some_success<L: Look>(
    board: &mut Trial<L>,
    turn: Turn,
    plies: u8,
    asked: Allowances,
    known: &PointSet,
    memory: &mut Memory,
) -> Allowances
    requires { IsReady L.shows L.seen board.old turn plies asked known.now memory.old.table.now }
    ensures stays { KeepsTrial L.shows L.seen board.old board.new }
    ensures table { IsTrueTableAt (L.seen board.new.look) turn memory.new.table.now }
    ensures over { OnEachAgreeing L.seen board.old board.new (λ here.
        IsFiltered asked result (λ ko. is_some (first_success plies (under turn ko) here))) }
    ensures near { LooksNear L.seen board.old board.new (suc plies) turn asked }
{
    let good = some_of(board, turn, plies, asked, known, known, memory);
    let missing = asked.without(good);
    if !missing.has_some() {
        return asked;
    }
    let rest = some_other(board, turn, plies, missing, known, memory);
    asked.without(missing.without(rest))
}

/// Of `asked`, the allowances under which some candidate gives the attacker his way, with `plies` plies left after it.
/// What the table knows of the node is not read again, and what is read is remembered. Near the end of the reading no
/// table is used, since reading a node is faster than finding it.
#[cycle(read)]
fn some_by_table<L: Look>(
    board: &mut Trial<L>,
    turn: Turn,
    plies: u8,
    asked: Allowances,
    known: &PointSet,
    memory: &mut Memory,
) -> Allowances
    requires ready { IsReady L.shows L.seen board.old turn plies asked known.now memory.old.table.now }
    requires attacker { turn.attacker_to_play ≡ true }
    ensures stays { KeepsTrial L.shows L.seen board.old board.new }
    ensures table { IsTrueTableAt (L.seen board.new.look) turn memory.new.table.now }
    ensures over { OnEachAgreeing L.seen board.old board.new (λ here.
        IsFiltered asked result (λ ko. is_some (first_success plies (under turn ko) here))) }
    ensures near { LooksNear L.seen board.old board.new (suc plies) turn asked }
{
    if plies < least_plies(turn.tree) || !memory.has_room() {
        return some_success(board, turn, plies, asked, known, memory);
    }
    let Some(changes) = board.changes() else {
        return some_success(board, turn, plies, asked, known, memory);
    };
    let node = AttackerNode {
        changes,
        plies,
        wide: turn.wide,
    };
    let before = memory.find(&node);
    let missing = asked.without(before.known);
    if !missing.has_some() {
        return asked.both(before.good);
    }
    let good = some_success(board, turn, plies, missing, known, memory);
    let verdict = before.with(missing, good);
    memory.keep(&node, verdict);
    asked.both(verdict.good)
}

/// Of `asked`, the allowances under which the defender's pass saves the target, with `plies` plies left after it: none
/// if `is_in_atari` says that the attacker then takes the target.
#[cycle(read)]
#[tactic(auto, using(crate::proofs::TableLemmas::table_more))]
pub fn pass_saves<L: Look>(
    board: &mut Trial<L>,
    turn: Turn,
    plies: u8,
    asked: Allowances,
    known: &PointSet,
    memory: &mut Memory,
) -> Allowances
    requires ready { IsReady L.shows L.seen board.old turn plies asked known.now memory.old.table.now }
    requires defender { turn.attacker_to_play ≡ false }
    ensures stays { KeepsTrial L.shows L.seen board.old board.new }
    ensures table { IsTrueTableAt (L.seen board.new.look) turn memory.new.table.now }
    ensures over { OnEachAgreeing L.seen board.old board.new (λ here.
        IsFiltered asked result (λ ko. pass_saves plies (under turn ko) here)) }
    ensures near { (pos : BoardState) → Agrees (L.seen board.new.look) pos → (q : ReadingQuestion) (root : BoardState)
        → AreNodesOf q root (suc plies) turn asked (after pos board.old.moves)
        → is_captured (after pos board.old.moves) turn.target ≡ false
        → AddsNear (L.seen board.old.look) (L.seen board.new.look) (InActiveArea q root) }
{
    if is_in_atari(board, turn, plies, known) {
        return Allowances::none();
    }
    board.pass();
    let good = has_way(board, turn, plies, asked, Some(known.copied()), memory);
    board.back();
    good
}

/// Of `asked`, the allowances under which a capture or a play at a liberty of the target gives the side to play its
/// way, with `plies` plies left after it. The captures are tried first: most captures of the defender save the target,
/// and only a third of his plays at its liberties do.
#[cycle(read)]
fn some_capture_or_liberty<L: Look>(
    board: &mut Trial<L>,
    turn: Turn,
    plies: u8,
    asked: Allowances,
    known: &PointSet,
    captures: &PointSet,
    memory: &mut Memory,
) -> Allowances
    requires ready { IsReady L.shows L.seen board.old turn plies asked known.now memory.old.table.now }
    requires captures { AreCapturesOf L.seen board.old turn.target captures.now }
    ensures stays { KeepsTrial L.shows L.seen board.old board.new }
    ensures table { IsTrueTableAt (L.seen board.new.look) turn memory.new.table.now }
    ensures over { OnEachAgreeing L.seen board.old board.new (λ here.
        TellsBy plies turn here (is_capture_or_liberty here turn.target) asked result) }
    ensures near { LooksNear L.seen board.old board.new (suc plies) turn asked }
{
    let good = some_of(board, turn, plies, asked, captures, known, memory);
    let missing = asked.without(good);
    if !missing.has_some() {
        return good;
    }
    let rest = some_of(board, turn, plies, missing, known, known, memory);
    asked.without(missing.without(rest))
}

/// Of `asked`, the allowances under which the defender has his way, with `plies` plies left after his move.
///
/// He tries the captures, the liberties of the target, the pass, and the later candidates, in this order. If the target
/// can be saved, a capture or a liberty mostly does it. To read the pass is to read all of the attacker's candidates,
/// so it comes after them. The later candidates take long to find, and few of them save the target. The order changes
/// no answer.
#[cycle(read)]
fn defender_has_good_move<L: Look>(
    board: &mut Trial<L>,
    turn: Turn,
    plies: u8,
    asked: Allowances,
    known: &PointSet,
    memory: &mut Memory,
) -> Allowances
    requires ready { IsReady L.shows L.seen board.old turn plies asked known.now memory.old.table.now }
    requires defender { turn.attacker_to_play ≡ false }
    ensures stays { KeepsTrial L.shows L.seen board.old board.new }
    ensures table { IsTrueTableAt (L.seen board.new.look) turn memory.new.table.now }
    ensures over { OnEachAgreeing L.seen board.old board.new (λ here.
        IsFiltered asked result (λ ko. is_some (good_move plies (under turn ko) here))) }
    ensures near { LooksNear L.seen board.old board.new (suc plies) turn asked }
{
    let captures = captures_of(board, turn.target, known);
    let close = some_capture_or_liberty(board, turn, plies, asked, known, &captures, memory);
    let missing = asked.without(close);
    if !missing.has_some() {
        return asked;
    }
    let lost = missing.without(pass_saves(board, turn, plies, missing, known, memory));
    if !lost.has_some() {
        return asked;
    }
    let later = some_later(board, turn, plies, lost, known, &captures, memory);
    asked.without(lost.without(later))
}

/// Of `asked`, the allowances under which the side to play has its way, with `plies` plies left after its move.
#[cycle(read)]
fn has_good_move<L: Look>(
    board: &mut Trial<L>,
    turn: Turn,
    plies: u8,
    asked: Allowances,
    known: &PointSet,
    memory: &mut Memory,
) -> Allowances
    requires { IsReady L.shows L.seen board.old turn plies asked known.now memory.old.table.now }
    ensures stays { KeepsTrial L.shows L.seen board.old board.new }
    ensures table { IsTrueTableAt (L.seen board.new.look) turn memory.new.table.now }
    ensures over { OnEachAgreeing L.seen board.old board.new (λ here.
        ((ko : Ko) → IsUndecided (under turn ko) here)
        → IsFiltered asked result (λ ko. is_some (good_move plies (under turn ko) here))) }
    ensures near { LooksNear L.seen board.old board.new (suc plies) turn asked }
{
    if turn.attacker_to_play {
        return some_by_table(board, turn, plies, asked, known, memory);
    }
    if escapes(board, turn, plies, known) {
        return asked;
    }
    defender_has_good_move(board, turn, plies, asked, known, memory)
}

/// Of `asked`, the allowances under which the target, whose point is empty, is captured, with `plies` plies left. They
/// are all, if no lone stone of the defender was taken in the wider tree. Else they are those under which the defender
/// cannot take back, or a ply is left for taking back and the attacker wins afterwards.
#[cycle(read)]
fn taken<L: Look>(
    board: &mut Trial<L>,
    turn: Turn,
    plies: u8,
    asked: Allowances,
    memory: &mut Memory,
) -> Allowances
    requires room { length board.old.moves + plies ≤ most_moves }
    requires target { IsPointOf L.shows board.old turn.target }
    requires some { has_some asked ≡ true }
    requires captured { (pos : BoardState) → Agrees (L.seen board.old.look) pos
        → is_captured (after pos board.old.moves) turn.target ≡ true }
    requires sound { (pos : BoardState) → Agrees (L.seen board.old.look) pos → IsPosition (after pos board.old.moves) }
    requires table { IsTrueTableAt (L.seen board.old.look) turn memory.old.table.now }
    ensures stays { KeepsTrial L.shows L.seen board.old board.new }
    ensures table { IsTrueTableAt (L.seen board.new.look) turn memory.new.table.now }
    ensures over { OnEachAgreeing L.seen board.old board.new (λ here.
        IsFiltered asked result (λ ko. attacker_wins plies (under turn ko) here)) }
    ensures near { LooksNearOrAt L.seen board.old board.new plies turn asked }
{
    if !turn.tree.is_wider() {
        return asked;
    }
    if turn.attacker_to_play {
        return asked;
    }
    if !is_walled_in(board, turn.target, turn.defender) {
        return asked;
    }
    if plies == 0 {
        let back = may_take_back(board, turn, asked);
        return asked.without(back);
    }
    let nothing = PointSet::new();
    let back = succeeds(board, turn, turn.target, plies - 1, asked, &nothing, memory);
    asked.without(back)
}

/// Of `asked`, the allowances under which the target is captured, with `plies` plies left.
#[cycle(read)]
pub fn attacker_wins<L: Look>(
    board: &mut Trial<L>,
    turn: Turn,
    plies: u8,
    asked: Allowances,
    known: Option<PointSet>,
    memory: &mut Memory,
) -> Allowances
    requires room { length board.old.moves + plies ≤ most_moves }
    requires target { IsPointOf L.shows board.old turn.target }
    requires some { has_some asked ≡ true }
    requires liberties { IfSome known (AreLibertiesOf L.seen board.old turn.target) }
    requires table { IsTrueTableAt (L.seen board.old.look) turn memory.old.table.now }
    ensures stays { KeepsTrial L.shows L.seen board.old board.new }
    ensures table { IsTrueTableAt (L.seen board.new.look) turn memory.new.table.now }
    ensures over { OnEachAgreeing L.seen board.old board.new (λ here.
        IsFiltered asked result (λ ko. attacker_wins plies (under turn ko) here)) }
    ensures near { LooksNearOrAt L.seen board.old board.new plies turn asked }
{
    if board.cell(turn.target) == Cell::Empty {
        return taken(board, turn, plies, asked, memory);
    }
    if plies == 0 {
        return Allowances::none();
    }
    let known = liberties_known(board, turn, plies, known);
    match outlook_of(board, turn, plies, &known) {
        Outlook::Safe => Allowances::none(),
        Outlook::Taken => asked,
        Outlook::Open => {
            let good = has_good_move(board, turn, plies - 1, asked, &known, memory);
            attackers(turn.attacker_to_play, asked, good)
        }
    }
}
