//! Reading a question, and the two questions: attack and defend.

ghost use Rattle.std.specs.Prelude.{◌≡◌, ◌≢◌, ◌+◌, ◌*◌, ◌<◌, ◌≤◌, ◌↔◌, suc, true, false, length, IsNone};
ghost use Rattle.std.specs.Prelude.{IfSome, IsTrue, None, Some};
ghost use Rattle.go_rules.specs.Position.{BoardState, stone_of};
ghost use Rattle.go_rules.specs.Strings.{cell_at, liberties};
ghost use Rattle.go_rules.specs.Neighbourhood.{neighbourhood_of};
ghost use Rattle.go_base.specs.Facts.{Agrees, Grows, AddsIn, CellIs};
ghost use Rattle.trial_board.specs.Trials.{KeepsTrial, most_moves};
ghost use Rattle.go_base.specs.Views.{nowhere, alone};
ghost use Rattle.read_rules.specs.Ranges.{most_plies};
ghost use Rattle.read_rules.specs.ActiveArea.{InActiveArea, AddsNear};
ghost use Rattle.read_rules.specs.Answer.{is_attack, answer_of, asked_in};
ghost use Rattle.read_tree.specs.Allowances.{all_three};
ghost use Rattle.read_rules.specs.Bound.{outlasts};
ghost use Rattle.read_rules.specs.GoodMoves.{IsOnBoard};
ghost use Rattle.read_rules.specs.Candidates.{is_candidate};
ghost use Rattle.read_tree.specs.Steps.{unread, better, IsBest};
ghost use Rattle.read_tree.specs.Readings.{IsToRead, AnswersQuestion, untried};
ghost use Rattle.read_tree.specs.Table.{IsTrueTable, IsTrueTableAt};
ghost use Rattle.read_tree.specs.Walk.{IsPointOf, AreLibertiesOf, OnEachAgreeing, LooksNear};

use crate::allowances::Allowances;
use crate::bound::has_too_many;
use crate::deepening::succeeds_by_depths;
use crate::first_look::{FirstLook, first_look};
use crate::memory::Memory;
use crate::report::Report;
use crate::table::{Entry, empty_table, smaller_table};
use crate::tree::pass_saves;
use go_base::points::PointSet;
use go_base::{Cell, Look, Point};
use read_moves::candidates;
use read_rules::{Answer, Depths, Kind, ReadingQuestion, Spot, Tree, Turn};
use trial_board::Trial;

/// A reading of at least this many plies remembers nodes.
const PLIES_WITH_TABLE: u8 = 12;

/// The best answer so far; or the move `spot`, if it has its way under some allowances, `good`, of greater codes.
fn better(best: Answer, attack: bool, good: Allowances, spot: Spot) -> Answer
    ensures is { result ≡ better best attack good spot }
    ensures code { best.code ≤ 3 → result.code ≤ 3 }
    ensures none { (IsNone best.at ↔ (best.code ≡ 0)) → IsNone result.at ↔ (result.code ≡ 0) }
{
    if !good.has_some() {
        return best;
    }
    Answer {
        code: good.best_code(best.code, attack),
        at: Some(spot),
    }
}

/// The best answer after the candidates in reading order, beginning with the best answer so far, `first`. Each
/// candidate is asked only for the codes above the best.
fn best_point<L: Look>(
    board: &mut Trial<L>,
    turn: Turn,
    plies: u8,
    first: Answer,
    known: &PointSet,
    memory: &mut Memory,
) -> Answer
    requires room { length board.old.moves + plies < most_moves }
    requires target { IsPointOf L.shows board.old turn.target }
    requires liberties { AreLibertiesOf L.seen board.old turn.target known.now }
    requires code { first.code < 3 }
    requires none { IsNone first.at ↔ (first.code ≡ 0) }
    requires on_board { IfSome first.at (IsOnBoard (L.shows board.old.look).size) }
    requires table { IsTrueTableAt (L.seen board.old.look) turn memory.old.table.now }
    ensures stays { KeepsTrial L.shows L.seen board.old board.new }
    ensures code { result.code ≤ 3 }
    ensures none { IsNone result.at ↔ (result.code ≡ 0) }
    ensures on_board { IfSome result.at (IsOnBoard (L.shows board.old.look).size) }
    ensures over { OnEachAgreeing L.seen board.old board.new (λ here. IsBest plies turn here nowhere first
        → IsBest plies turn here (is_candidate turn here) result) }
    ensures near { LooksNear L.seen board.old board.new (suc plies) turn all_three }
{
    let candidates = candidates(board, turn);
    let mut best = first;
    let mut next = 0;
    while let Some(p) = candidates.first_from(next) {
        let asked = Allowances::above(best.code, turn.attacker_to_play);
        let good = succeeds_by_depths(board, turn, p, plies, asked, known, memory);
        best = better(best, turn.attacker_to_play, good, Spot::At(p));
        if best.code == 3 {
            return best;
        }
        next = p + 1;
    }
    best
}

/// The answer if the target has too many liberties: an attack fails, and no defence is needed.
fn unread(attack: bool) -> Answer
    ensures { result ≡ unread attack }
{
    if attack {
        Answer { code: 0, at: None }
    } else {
        Answer {
            code: 3,
            at: Some(Spot::Pass),
        }
    }
}

/// The answer to a question that is about the position, if the target's liberties are known and not too many. The table
/// remembers attacker's nodes of this reading.
fn read_by<L: Look>(
    board: &mut Trial<L>,
    question: &ReadingQuestion,
    known: &PointSet,
    table: &mut [Entry],
) -> Answer
    requires ready { IsToRead L.shows L.seen board.old question.now known.now }
    requires table { IsTrueTable (L.seen board.old.look) question.now.tree question.now.target question.now.colour
        table.old }
    ensures { AnswersQuestion L.shows L.seen board.old board.new question.now result }
{
    let turn = question.first_turn();
    let plies = question.plies - 1;
    let nothing = Answer { code: 0, at: None };
    let mut memory = Memory {
        reply: turn.target,
        table,
    };
    if turn.attacker_to_play {
        return best_point(board, turn, plies, nothing, known, &mut memory);
    }
    let saved = pass_saves(board, turn, plies, Allowances::all(), known, &mut memory);
    let best = better(nothing, turn.attacker_to_play, saved, Spot::Pass);
    if best.code == 3 {
        return best;
    }
    best_point(board, turn, plies, best, known, &mut memory)
}

/// The answer, read with a table. The table is made here: it is large, and a short reading should not pay for it.
#[inline(never)]
fn read_with_table<L: Look>(
    board: &mut Trial<L>,
    question: &ReadingQuestion,
    known: &PointSet,
) -> Answer
    requires { IsToRead L.shows L.seen board.old question.now known.now }
    ensures { AnswersQuestion L.shows L.seen board.old board.new question.now result }
{
    let mut table = empty_table();
    read_by(board, question, known, &mut table)
}

/// The answer, read with a smaller table, which is made here.
#[inline(never)]
fn read_with_smaller_table<L: Look>(
    board: &mut Trial<L>,
    question: &ReadingQuestion,
    known: &PointSet,
) -> Answer
    requires { IsToRead L.shows L.seen board.old question.now known.now }
    ensures { AnswersQuestion L.shows L.seen board.old board.new question.now result }
{
    let mut table = smaller_table();
    read_by(board, question, known, &mut table)
}

/// The answer, read with a table if there are plies enough, and without one if a table would cost more than it saves.
fn read_known<L: Look>(board: &mut Trial<L>, question: &ReadingQuestion, known: &PointSet) -> Answer
    requires { IsToRead L.shows L.seen board.old question.now known.now }
    ensures { AnswersQuestion L.shows L.seen board.old board.new question.now result }
{
    if question.plies < PLIES_WITH_TABLE {
        return read_by(board, question, known, &mut []);
    }
    match question.tree {
        Tree::Stated => read_with_smaller_table(board, question, known),
        Tree::Wider => read_with_table(board, question, known),
    }
}

/// The answer to a question whose target has few liberties, read on a board of its own. The board is large, and a
/// question that needs none should not pay for it.
#[inline(never)]
fn read_through<L: Look>(look: L, question: ReadingQuestion, liberties: PointSet) -> Report<L>
    requires { IsToRead L.shows L.seen (untried look) question liberties }
    ensures { AnswersQuestion L.shows L.seen (untried look) (untried result.look) question result.answer }
{
    let mut board = Trial::new(look);
    let answer = read_known(&mut board, &question, &liberties);
    let trials = board.trials();
    Report {
        answer,
        trials,
        look: board.finish(),
    }
}

/// Reads a question about a stone of the position that the view shows: the answer, how many plays were tried, and the
/// view with what was looked at. `attack` and `defend` make their question from a stone; a caller with a cache of
/// questions calls `read` with its own.
pub fn read<L: Look>(look: L, question: ReadingQuestion) -> Report<L>
    requires size { question.size ≡ (L.shows look).size }
    requires on_board { question.target < question.size * question.size }
    requires stone { cell_at (L.shows look).cells question.target ≡ stone_of question.colour }
    requires plies { 0 < question.plies }
    requires few { question.plies ≤ most_plies }
    ensures shown { L.shows result.look ≡ L.shows look }
    ensures grows { Grows (L.seen look) (L.seen result.look) }
    ensures target { IsTrue (L.seen result.look (CellIs question.target (stone_of question.colour))) }
    ensures code { result.answer.code ≤ 3 }
    ensures none { IsNone result.answer.at ↔ (result.answer.code ≡ 0) }
    ensures on_board { IfSome result.answer.at (IsOnBoard question.size) }

    // On every position that agrees with the facts seen afterwards the answer is this one; the position shown is one of
    // them.
    ensures over { (pos : BoardState) → Agrees (L.seen result.look) pos → result.answer ≡ answer_of question pos }
    ensures answer { result.answer ≡ answer_of question (L.shows look) }

    // With too many liberties for the plies or the wide plies that are left, an attack fails and no defence is needed:
    // no play is tried, and what is looked at lies in the neighbourhood of the target.
    ensures too_many { IsTrue (outlasts question.tree (is_attack question.kind) question.plies question.wide
        (liberties (L.shows look).size (L.shows look).cells question.target))
        → (result.answer ≡ unread (is_attack question.kind)) × (result.trials ≡ 0)
        × AddsIn (L.seen look) (L.seen result.look)
        (neighbourhood_of (L.shows look).size (L.shows look).cells (alone question.target)) }

    // On every position that agrees with these facts, the points looked at lie in the active area of the reading.
    ensures near { (pos : BoardState) → Agrees (L.seen result.look) pos
        → AddsNear (L.seen look) (L.seen result.look) (InActiveArea question pos) }
{
    let mut view = look;
    // The answer rests on the target's stone first of all.
    let _stone = view.cell(question.target);
    let turn = question.first_turn();
    let FirstLook { liberties, look } = first_look(view, turn, question.plies);
    if has_too_many(turn, question.plies, &liberties) {
        return Report {
            answer: unread(turn.attacker_to_play),
            trials: 0,
            look,
        };
    }
    read_through(look, question, liberties)
}

/// The question of this `kind` about the stone at `target`.
fn asked<L: Look>(look: &mut L, kind: Kind, target: Point, depths: Depths) -> ReadingQuestion
    requires on_board { target < (L.shows look.old).size * (L.shows look.old).size }
    requires stone { cell_at (L.shows look.old).cells target ≢ Cell.Empty }
    ensures shown { L.shows look.new ≡ L.shows look.old }
    ensures grows { Grows (L.seen look.old) (L.seen look.new) }
    ensures question { result ≡ asked_in depths.tree (L.shows look.old) kind target depths.plies depths.wide }
    ensures near { AddsIn (L.seen look.old) (L.seen look.new) (alone target) }
{
    ReadingQuestion {
        tree: depths.tree,
        size: look.size(),
        kind,
        target,
        colour: look.cell(target).colour(),
        plies: depths.plies,
        wide: depths.wide,
    }
}

/// Reads the question of this `kind` about the stone at `target`.
fn answered<L: Look>(look: L, kind: Kind, target: Point, depths: Depths) -> Report<L>
    requires on_board { target < (L.shows look).size * (L.shows look).size }
    requires stone { cell_at (L.shows look).cells target ≢ Cell.Empty }
    ensures shown { L.shows result.look ≡ L.shows look }
    ensures grows { Grows (L.seen look) (L.seen result.look) }
    ensures target { IsTrue (L.seen result.look (CellIs target (cell_at (L.shows look).cells target))) }
    ensures code { result.answer.code ≤ 3 }
    ensures none { IsNone result.answer.at ↔ (result.answer.code ≡ 0) }
    ensures on_board { IfSome result.answer.at (IsOnBoard (L.shows look).size) }
    ensures over { (pos : BoardState) → Agrees (L.seen result.look) pos
        → result.answer ≡ answer_of (asked_in depths.tree (L.shows look) kind target depths.plies depths.wide) pos }
    ensures too_many { IsTrue (outlasts depths.tree (is_attack kind) depths.plies depths.wide
        (liberties (L.shows look).size (L.shows look).cells target))
        → (result.answer ≡ unread (is_attack kind)) × (result.trials ≡ 0)
        × AddsIn (L.seen look) (L.seen result.look)
        (neighbourhood_of (L.shows look).size (L.shows look).cells (alone target)) }
    ensures near { (pos : BoardState) → Agrees (L.seen result.look) pos
        → AddsNear (L.seen look) (L.seen result.look)
        (InActiveArea (asked_in depths.tree (L.shows look) kind target depths.plies depths.wide) pos) }
{
    let mut view = look;
    let question = asked(&mut view, kind, target, depths);
    read(view, question)
}

/// Reads whether the string at `target` can be captured when the attacker plays first.
///
/// The code is 3 if it is captured even if the defender may ignore the ko ban once, 2 if it is captured when neither
/// side may, 1 if only when the attacker may once, and 0 otherwise. The move is the first in reading order that attains
/// the code. Takes no memory.
///
/// After GNU Go Manual, "Tactical reading", on return codes; the tree itself is this project's own.
pub fn attack<L: Look>(look: L, target: Point, depths: Depths) -> Report<L>
    requires on_board { target < (L.shows look).size * (L.shows look).size }
    requires stone { cell_at (L.shows look).cells target ≢ Cell.Empty }
    ensures shown { L.shows result.look ≡ L.shows look }
    ensures grows { Grows (L.seen look) (L.seen result.look) }
    ensures target { IsTrue (L.seen result.look (CellIs target (cell_at (L.shows look).cells target))) }
    ensures code { result.answer.code ≤ 3 }
    ensures none { IsNone result.answer.at ↔ (result.answer.code ≡ 0) }
    ensures on_board { IfSome result.answer.at (IsOnBoard (L.shows look).size) }

    // On every position that agrees with the facts seen afterwards the answer is this one; the position shown is one of
    // them.
    ensures over { (pos : BoardState) → Agrees (L.seen result.look) pos
        → result.answer
        ≡ answer_of (asked_in depths.tree (L.shows look) Kind.Attack target depths.plies depths.wide) pos }
    ensures answer { result.answer
        ≡ answer_of (asked_in depths.tree (L.shows look) Kind.Attack target depths.plies depths.wide) (L.shows look) }

    // With too many liberties for the plies or the wide plies that are left, the attack fails: no play is tried, and
    // what is looked at lies in the neighbourhood of the target.
    ensures too_many { IsTrue (outlasts depths.tree true depths.plies depths.wide
        (liberties (L.shows look).size (L.shows look).cells target))
        → (result.answer ≡ record { code = 0; at = None }) × (result.trials ≡ 0)
        × AddsIn (L.seen look) (L.seen result.look)
        (neighbourhood_of (L.shows look).size (L.shows look).cells (alone target)) }

    // On every position that agrees with these facts, the points looked at lie in the active area of the reading.
    ensures near { (pos : BoardState) → Agrees (L.seen result.look) pos
        → AddsNear (L.seen look) (L.seen result.look)
        (InActiveArea (asked_in depths.tree (L.shows look) Kind.Attack target depths.plies depths.wide) pos) }
{
    answered(look, Kind::Attack, target, depths)
}

/// Reads whether the string at `target` can be saved when the defender plays first.
///
/// The code is 3 if it is saved even if the attacker may ignore the ko ban once, 2 if it is saved when neither side
/// may, 1 if only when the defender may once, and 0 otherwise. The move is the pass if no stone need be added, else the
/// first in reading order that attains the code. Takes no memory.
///
/// After GNU Go Manual, "Tactical reading", on return codes; the tree itself is this project's own.
pub fn defend<L: Look>(look: L, target: Point, depths: Depths) -> Report<L>
    requires on_board { target < (L.shows look).size * (L.shows look).size }
    requires stone { cell_at (L.shows look).cells target ≢ Cell.Empty }
    ensures shown { L.shows result.look ≡ L.shows look }
    ensures grows { Grows (L.seen look) (L.seen result.look) }
    ensures target { IsTrue (L.seen result.look (CellIs target (cell_at (L.shows look).cells target))) }
    ensures code { result.answer.code ≤ 3 }
    ensures none { IsNone result.answer.at ↔ (result.answer.code ≡ 0) }
    ensures on_board { IfSome result.answer.at (IsOnBoard (L.shows look).size) }

    // On every position that agrees with the facts seen afterwards the answer is this one; the position shown is one of
    // them.
    ensures over { (pos : BoardState) → Agrees (L.seen result.look) pos
        → result.answer
        ≡ answer_of (asked_in depths.tree (L.shows look) Kind.Defend target depths.plies depths.wide) pos }
    ensures answer { result.answer
        ≡ answer_of (asked_in depths.tree (L.shows look) Kind.Defend target depths.plies depths.wide) (L.shows look) }

    // With too many liberties for the plies or the wide plies that are left, no defence is needed: no play is tried,
    // and what is looked at lies in the neighbourhood of the target.
    ensures too_many { IsTrue (outlasts depths.tree false depths.plies depths.wide
        (liberties (L.shows look).size (L.shows look).cells target))
        → (result.answer ≡ record { code = 3; at = Some Spot.Pass }) × (result.trials ≡ 0)
        × AddsIn (L.seen look) (L.seen result.look)
        (neighbourhood_of (L.shows look).size (L.shows look).cells (alone target)) }

    // On every position that agrees with these facts, the points looked at lie in the active area of the reading.
    ensures near { (pos : BoardState) → Agrees (L.seen result.look) pos
        → AddsNear (L.seen look) (L.seen result.look)
        (InActiveArea (asked_in depths.tree (L.shows look) Kind.Defend target depths.plies depths.wide) pos) }
{
    answered(look, Kind::Defend, target, depths)
}
