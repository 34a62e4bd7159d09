//! The sure answers to questions about a string, by zones.

ghost use Rattle.std.specs.Prelude.{◌≡◌, ◌≢◌, ◌↔◌, ℕ, ◌-◌, ◌*◌, ◌<◌, ◌≤◌, true, false, IsNone, IfSome};
ghost use Rattle.std.specs.FinSet as set;
ghost use Rattle.go_rules.specs.Strings.{cell_at};
ghost use Rattle.read_rules.specs.Answer.{is_about, first_node, asked_in};
ghost use Rattle.read_rules.specs.GoodMoves.{IsOnBoard};
ghost use Rattle.sure_rules.specs.Nodes.{is_attackers};
ghost use Rattle.sure_rules.specs.SureTree.{is_tried, surely_wins};
ghost use Rattle.sure_rules.specs.SureAnswer.{surely_succeeds, first_sure, sure_move, sure_answer_of};

use crate::seen::candidates_shown;
use crate::tree::zone_of;
use go_base::{Cell, Point, PointSet, Position};
use read_proof::children::{child_of, passed};
use read_proof::codes::{first_node, question_on};
use read_rules::{Answer, Depths, Kind, Node, ReadingQuestion, Spot};
use sure_proof::replies_shown;

/// Whether the target is surely captured at the node, with `plies` plies left.
fn surely_wins(position: &Position, node: Node, plies: u8) -> bool
    requires target { node.turn.target < position.now.size * position.now.size }
    ensures { result ≡ surely_wins plies node position.now }
{
    let _ = position.size();
    zone_of(position, node, plies).is_some()
}

/// Whether the mover's play at `p` can be made and succeeds: with `plies` plies left after it the target is surely
/// captured if the attacker played, and is not if the defender did.
fn succeeds(position: &Position, node: Node, p: Point, plies: u8) -> bool
    requires target { node.turn.target < position.now.size * position.now.size }
    requires on_board { p < position.now.size * position.now.size }
    ensures { result ≡ surely_succeeds plies node position.now p }
{
    match child_of(position, node, p) {
        Some(child) => surely_wins(&child.1, child.0, plies) == node.turn.attacker_to_play,
        None => false,
    }
}

/// The first point in reading order, of those that the mover may try, whose play succeeds with `plies` plies left after
/// it. Only the points of `points` are read: the mover may try each of them, and no other point that he may try
/// succeeds.
fn first_of(position: &Position, node: Node, points: &PointSet, plies: u8) -> Option<Point>
    requires target { node.turn.target < position.now.size * position.now.size }
    requires tried { (p : ℕ) → set.contains points.now p ≡ true → is_tried node position.now p ≡ true }
    requires others { (p : ℕ) → is_tried node position.now p ≡ true → set.contains points.now p ≡ false
        → surely_succeeds plies node position.now p ≡ false }
    ensures first { result ≡ first_sure plies node position.now }
    ensures on_board { IfSome result (λ p. p < position.now.size * position.now.size) }
{
    let mut from = 0;
    'plays: while let Some(p) = points.first_from(from) {
        if succeeds(position, node, p, plies) {
            return Some(p);
        }
        from = p + 1;
    }
    None
}

/// The attacker's first move that succeeds with `plies` plies left after it; `None` if there is none, or if the target
/// has too many liberties for him.
fn attackers_move(position: &Position, node: Node, plies: u8) -> Option<Spot>
    requires target { node.turn.target < position.now.size * position.now.size }
    requires turn { is_attackers node ≡ true }
    ensures first { result ≡ sure_move plies node position.now }
    ensures on_board { IfSome result (IsOnBoard position.now.size) }
{
    let _ = position.size();
    let shown = candidates_shown(position, node)?;
    match first_of(position, node, &shown.points, plies) {
        Some(p) => Some(Spot::At(p)),
        None => None,
    }
}

/// The defender's first move that succeeds with `plies` plies left after it: the pass before all points. If the pass
/// fails, only the replies that its zone asks for are read, since every other reply fails as the pass does.
fn defenders_move(position: &Position, node: Node, plies: u8) -> Option<Spot>
    requires target { node.turn.target < position.now.size * position.now.size }
    requires turn { is_attackers node ≡ false }
    ensures first { result ≡ sure_move plies node position.now }
    ensures on_board { IfSome result (IsOnBoard position.now.size) }
{
    let _ = position.size();
    let (next, new) = passed(position, node);
    let Some(zone) = zone_of(&new, next, plies) else {
        return Some(Spot::Pass);
    };
    let replies = replies_shown(position, node, &zone);
    match first_of(position, node, &replies.points, plies) {
        Some(p) => Some(Spot::At(p)),
        None => None,
    }
}

/// The first move that succeeds under the ko allowances of `code`.
fn move_under(position: &Position, question: &ReadingQuestion, code: u8) -> Option<Spot>
    requires target { question.now.target < position.now.size * position.now.size }
    requires plies { 0 < question.now.plies }
    ensures first { result ≡ sure_move (question.now.plies - 1) (first_node question.now code) position.now }
    ensures on_board { IfSome result (IsOnBoard position.now.size) }
{
    let node = first_node(question, code);
    if node.turn.attacker_to_play {
        attackers_move(position, node, question.plies - 1)
    } else {
        defenders_move(position, node, question.plies - 1)
    }
}

/// The sure answer to a question. Code 3 is read first, since most answers have it. A question that attains a code
/// attains each lower one, so a question that does not attain code 1 has code 0.
fn answer_on(position: &Position, question: &ReadingQuestion) -> Answer
    requires target { question.now.target < position.now.size * position.now.size }
    requires plies { 0 < question.now.plies }
    requires about { is_about question.now position.now ≡ true }
    ensures code { result.code ≤ 3 }
    ensures none { IsNone result.at ↔ (result.code ≡ 0) }
    ensures on_board { IfSome result.at (IsOnBoard position.now.size) }
    ensures answer { result ≡ sure_answer_of question.now position.now }
{
    if let Some(spot) = move_under(position, question, 3) {
        return Answer {
            code: 3,
            at: Some(spot),
        };
    }
    let Some(first) = move_under(position, question, 1) else {
        return Answer { code: 0, at: None };
    };
    if let Some(spot) = move_under(position, question, 2) {
        return Answer {
            code: 2,
            at: Some(spot),
        };
    }
    Answer {
        code: 1,
        at: Some(first),
    }
}

/// The sure answer to the question of this kind about the stone at `target`.
fn answered(position: &Position, kind: Kind, target: Point, depths: Depths) -> Answer
    requires on_board { target < position.now.size * position.now.size }
    requires stone { cell_at position.now.cells target ≢ Cell.Empty }
    ensures code { result.code ≤ 3 }
    ensures none { IsNone result.at ↔ (result.code ≡ 0) }
    ensures on_board { IfSome result.at (IsOnBoard position.now.size) }
    ensures answer { result
        ≡ sure_answer_of (asked_in depths.tree position.now kind target depths.plies depths.wide) position.now }
{
    let question = question_on(position, kind, target, depths);
    answer_on(position, &question)
}

/// Reads by zones whether the string at `target` is surely captured when the attacker plays first: whatever the
/// defender plays within the plies, at any point of the board.
///
/// The answer is that of `read_sure::sure_attack`, and is found much sooner: the code is 3 if the string is captured
/// even if the defender may ignore the ko ban once, 2 if neither side may, 1 if the attacker may once, and 0 if no
/// capture is sure, and the move is the first in reading order that attains it. The answer is about this position
/// alone, and comes without the facts on which it rests.
pub fn sure_attack(position: &Position, target: Point, depths: Depths) -> Answer
    requires on_board { target < position.now.size * position.now.size }
    requires stone { cell_at position.now.cells target ≢ Cell.Empty }
    ensures code { result.code ≤ 3 }
    ensures none { IsNone result.at ↔ (result.code ≡ 0) }
    ensures on_board { IfSome result.at (IsOnBoard position.now.size) }
    ensures answer { result
        ≡ sure_answer_of (asked_in depths.tree position.now Kind.Attack target depths.plies depths.wide) position.now }
{
    answered(position, Kind::Attack, target, depths)
}

/// Reads by zones whether the string at `target` is surely captured even when the defender plays first.
///
/// The answer is that of `read_sure::sure_defend`, and is found much sooner: the code is 0 if the string is captured
/// whatever the defender plays, even if he may ignore the ko ban once. Else the capture is not sure, and the code is 3
/// if it is not sure even if the attacker may ignore the ko ban once, 2 if neither side may, and 1 if the defender may
/// once. The move is the first after which the capture is not sure: the pass if it is such a move, else the first in
/// reading order. The answer is about this position alone, and comes without the facts on which it rests.
pub fn sure_defend(position: &Position, target: Point, depths: Depths) -> Answer
    requires on_board { target < position.now.size * position.now.size }
    requires stone { cell_at position.now.cells target ≢ Cell.Empty }
    ensures code { result.code ≤ 3 }
    ensures none { IsNone result.at ↔ (result.code ≡ 0) }
    ensures on_board { IfSome result.at (IsOnBoard position.now.size) }
    ensures answer { result
        ≡ sure_answer_of (asked_in depths.tree position.now Kind.Defend target depths.plies depths.wide) position.now }
{
    answered(position, Kind::Defend, target, depths)
}
