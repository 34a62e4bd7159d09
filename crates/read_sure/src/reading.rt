//! The sure answers to questions about a string.

ghost use Rattle.std.specs.Prelude.{◌≡◌, ◌≢◌, ℕ, ◌+◌, ◌-◌, ◌*◌, ◌<◌, ◌≤◌, ◌↔◌, IsNone, IfSome, IsTrue, length};
ghost use Rattle.go_rules.specs.Position.{BoardState, stone_of};
ghost use Rattle.go_rules.specs.Strings.{cell_at};
ghost use Rattle.go_base.specs.Facts.{Agrees, Grows};
ghost use Rattle.trial_board.specs.Trials.{KeepsTrial, most_moves};
ghost use Rattle.read_rules.specs.Ranges.{most_plies};
ghost use Rattle.read_rules.specs.GoodMoves.{IsOnBoard};
ghost use Rattle.read_rules.specs.Answer.{is_about, first_node, asked_in};
ghost use Rattle.read_tree.specs.Walk.{IsPointOf, OnEachAgreeing};
ghost use Rattle.sure_rules.specs.SureAnswer.{sure_move, sure_answer_of};

use crate::tree::sure_move;
use go_base::{Cell, Look, Point};
use read_proof::codes::first_node;
use read_rules::{Answer, Depths, Kind, ReadingQuestion, Spot};
use read_tree::Report;
use trial_board::Trial;

/// The first move that succeeds under the allowances of a code.
fn move_under<L: Look>(board: &mut Trial<L>, question: &ReadingQuestion, code: u8) -> Option<Spot>
    requires room { length board.old.moves + question.now.plies ≤ most_moves }
    requires plies { 0 < question.now.plies }
    requires target { IsPointOf L.shows board.old question.now.target }
    ensures stays { KeepsTrial L.shows L.seen board.old board.new }
    ensures over { OnEachAgreeing L.seen board.old board.new (λ here.
        result ≡ sure_move (question.now.plies - 1) (first_node question.now code) here) }
    ensures on_board { IfSome result (IsOnBoard (L.shows board.old.look).size) }
{
    sure_move(board, first_node(question, code), question.plies - 1)
}

/// The sure answer to a question. A question that attains a code attains the codes below it, so without code 1 it has
/// none.
fn answer_on<L: Look>(board: &mut Trial<L>, question: &ReadingQuestion) -> Answer
    requires room { length board.old.moves + question.now.plies ≤ most_moves }
    requires plies { 0 < question.now.plies }
    requires target { IsPointOf L.shows board.old question.now.target }
    ensures stays { KeepsTrial L.shows L.seen board.old board.new }
    ensures code { result.code ≤ 3 }
    ensures none { IsNone result.at ↔ (result.code ≡ 0) }
    ensures on_board { IfSome result.at (IsOnBoard (L.shows board.old.look).size) }
    ensures over { OnEachAgreeing L.seen board.old board.new (λ here. IsTrue (is_about question.now here)
        → result ≡ sure_answer_of question.now here) }
{
    let Some(first) = move_under(board, question, 1) else {
        return Answer { code: 0, at: None };
    };
    if let Some(spot) = move_under(board, question, 3) {
        return Answer {
            code: 3,
            at: Some(spot),
        };
    }
    if let Some(spot) = move_under(board, question, 2) {
        return Answer {
            code: 2,
            at: Some(spot),
        };
    }
    Answer {
        code: 1,
        at: Some(first),
    }
}

/// Reads a question about a stone of the position that the view shows.
fn read<L: Look>(look: L, question: ReadingQuestion) -> Report<L>
    requires size { question.size ≡ (L.shows look).size }
    requires on_board { question.target < question.size * question.size }
    requires stone { cell_at (L.shows look).cells question.target ≡ stone_of question.colour }
    requires plies { 0 < question.plies }
    requires few { question.plies ≤ most_plies }
    ensures shown { L.shows result.look ≡ L.shows look }
    ensures grows { Grows (L.seen look) (L.seen result.look) }
    ensures code { result.answer.code ≤ 3 }
    ensures none { IsNone result.answer.at ↔ (result.answer.code ≡ 0) }
    ensures on_board { IfSome result.answer.at (IsOnBoard question.size) }
    ensures over { (pos : BoardState) → Agrees (L.seen result.look) pos
        → result.answer ≡ sure_answer_of question pos }
{
    let mut view = look;
    // The answer rests on the target's stone first of all.
    let _stone = view.cell(question.target);
    let mut board = Trial::new(view);
    let answer = answer_on(&mut board, &question);
    let trials = board.trials();
    Report {
        answer,
        trials,
        look: board.finish(),
    }
}

/// The question of this `kind` about the stone at `target`.
fn asked<L: Look>(look: &mut L, kind: Kind, target: Point, depths: Depths) -> ReadingQuestion
    requires on_board { target < (L.shows look.old).size * (L.shows look.old).size }
    requires stone { cell_at (L.shows look.old).cells target ≢ Cell.Empty }
    ensures shown { L.shows look.new ≡ L.shows look.old }
    ensures grows { Grows (L.seen look.old) (L.seen look.new) }
    ensures question { result ≡ asked_in depths.tree (L.shows look.old) kind target depths.plies depths.wide }
{
    ReadingQuestion {
        tree: depths.tree,
        size: look.size(),
        kind,
        target,
        colour: look.cell(target).colour(),
        plies: depths.plies,
        wide: depths.wide,
    }
}

/// Reads the question of this `kind` about the stone at `target`.
fn answered<L: Look>(look: L, kind: Kind, target: Point, depths: Depths) -> Report<L>
    requires on_board { target < (L.shows look).size * (L.shows look).size }
    requires stone { cell_at (L.shows look).cells target ≢ Cell.Empty }
    ensures shown { L.shows result.look ≡ L.shows look }
    ensures grows { Grows (L.seen look) (L.seen result.look) }
    ensures code { result.answer.code ≤ 3 }
    ensures none { IsNone result.answer.at ↔ (result.answer.code ≡ 0) }
    ensures on_board { IfSome result.answer.at (IsOnBoard (L.shows look).size) }
    ensures over { (pos : BoardState) → Agrees (L.seen result.look) pos
        → result.answer
        ≡ sure_answer_of (asked_in depths.tree (L.shows look) kind target depths.plies depths.wide) pos }
{
    let mut view = look;
    let question = asked(&mut view, kind, target, depths);
    read(view, question)
}

/// Reads whether the string at `target` is surely captured when the attacker plays first: whatever the defender plays
/// within the plies, at whatever point of the board.
///
/// The code is 3 if it is captured even if the defender may ignore the ko ban once, 2 if it is captured when neither
/// side may, 1 if only when the attacker may once, and 0 if no capture is sure. The move is the first in reading order
/// that attains the code. If the code is above 0, `read_tree::attack` has at least this code too. It takes no memory,
/// but much longer than `read_tree::attack`: every reply is tried.
pub fn sure_attack<L: Look>(look: L, target: Point, depths: Depths) -> Report<L>
    requires on_board { target < (L.shows look).size * (L.shows look).size }
    requires stone { cell_at (L.shows look).cells target ≢ Cell.Empty }
    ensures shown { L.shows result.look ≡ L.shows look }
    ensures grows { Grows (L.seen look) (L.seen result.look) }
    ensures code { result.answer.code ≤ 3 }
    ensures none { IsNone result.answer.at ↔ (result.answer.code ≡ 0) }
    ensures on_board { IfSome result.answer.at (IsOnBoard (L.shows look).size) }

    // On every position that agrees with the facts seen afterwards the answer is this one; the position shown is one of
    // them.
    ensures over { (pos : BoardState) → Agrees (L.seen result.look) pos
        → result.answer
        ≡ sure_answer_of (asked_in depths.tree (L.shows look) Kind.Attack target depths.plies depths.wide) pos }
    ensures answer { result.answer
        ≡ sure_answer_of (asked_in depths.tree (L.shows look) Kind.Attack target depths.plies depths.wide)
        (L.shows look) }
{
    answered(look, Kind::Attack, target, depths)
}

/// Reads whether the string at `target` is surely not to be saved when the defender plays first.
///
/// The code is 0 if the string is captured whatever the defender plays, even if he may ignore the ko ban once. Else the
/// capture is not sure, and the code is 3 if it is not sure even if the attacker may ignore the ko ban once, 2 if
/// neither side may, and 1 if the defender may once. The move is the first after which the capture is not sure: the
/// pass if the capture is not sure after it, else the first such play in reading order. It takes no memory, but much
/// longer than `read_tree::defend`.
pub fn sure_defend<L: Look>(look: L, target: Point, depths: Depths) -> Report<L>
    requires on_board { target < (L.shows look).size * (L.shows look).size }
    requires stone { cell_at (L.shows look).cells target ≢ Cell.Empty }
    ensures shown { L.shows result.look ≡ L.shows look }
    ensures grows { Grows (L.seen look) (L.seen result.look) }
    ensures code { result.answer.code ≤ 3 }
    ensures none { IsNone result.answer.at ↔ (result.answer.code ≡ 0) }
    ensures on_board { IfSome result.answer.at (IsOnBoard (L.shows look).size) }

    // On every position that agrees with the facts seen afterwards the answer is this one; the position shown is one of
    // them.
    ensures over { (pos : BoardState) → Agrees (L.seen result.look) pos
        → result.answer
        ≡ sure_answer_of (asked_in depths.tree (L.shows look) Kind.Defend target depths.plies depths.wide) pos }
    ensures answer { result.answer
        ≡ sure_answer_of (asked_in depths.tree (L.shows look) Kind.Defend target depths.plies depths.wide)
        (L.shows look) }
{
    answered(look, Kind::Defend, target, depths)
}
