//! All moves by which a question has its sure code.

ghost use Rattle.std.specs.Prelude.{◌≡◌, ℕ, ◌-◌, ◌*◌, ◌<◌, ◌&&◌};
ghost use Rattle.std.specs.FinSet as set;
ghost use Rattle.go_rules.specs.Board.{largest_points};
ghost use Rattle.read_rules.specs.Answer.{first_node};
ghost use Rattle.read_rules.specs.Candidates.{is_candidate};
ghost use Rattle.sure_rules.specs.SureTree.{is_tried, surely_wins};
ghost use Rattle.sure_rules.specs.SureAnswer.{surely_succeeds, pass_holds};
ghost use Rattle.problem_verdicts.specs.SureQuestions.{is_seen, is_in, surely_attains_at, surely_attains_by_pass};

use crate::moves::Moves;
use crate::scope::Scope;
use go_base::{Point, PointSet, Position, Watch};
use read_moves::candidates;
use read_proof::children::{child_of, passed};
use read_proof::codes::first_node;
use read_rules::{Node, ReadingQuestion};
use read_zones::zone_of;
use trial_board::Trial;

/// Whether the target is surely captured at the node, with `plies` plies left.
fn surely_wins(position: &Position, node: Node, plies: u8) -> bool
    requires target { node.turn.target < position.now.size * position.now.size }
    ensures { result ≡ surely_wins plies node position.now }
{
    let _ = position.size();
    zone_of(position, node, plies).is_some()
}

/// Whether the mover can play at `p`, and this play succeeds: with `plies` plies left after it, an attacker's play
/// leaves the target surely captured, and a defender's play leaves it not surely captured.
fn succeeds(position: &Position, node: Node, p: Point, plies: u8) -> bool
    requires target { node.turn.target < position.now.size * position.now.size }
    requires on_board { p < position.now.size * position.now.size }
    ensures { result ≡ surely_succeeds plies node position.now p }
{
    match child_of(position, node, p) {
        Some(child) => surely_wins(&child.1, child.0, plies) == node.turn.attacker_to_play,
        None => false,
    }
}

/// Whether it is the defender's turn, and the target is not surely captured after the pass, with `plies` plies left.
fn pass_holds(position: &Position, node: Node, plies: u8) -> bool
    requires target { node.turn.target < position.now.size * position.now.size }
    ensures { result ≡ pass_holds plies node position.now }
{
    if node.turn.attacker_to_play {
        return false;
    }
    let (next, new) = passed(position, node);
    !surely_wins(&new, next, plies)
}

/// The candidates at a node.
fn candidates_on(position: &Position, node: Node) -> PointSet
    requires target { node.turn.target < position.now.size * position.now.size }
    ensures { (p : ℕ) → set.contains result p ≡ is_candidate node.turn position.now p }
{
    let mut board = Trial::new(Watch::new(position));
    let points = candidates(&mut board, node.turn);
    let _look = board.finish();
    points
}

/// The points that the sure tree tries at a node; `None` stands for every point of the board.
fn tried_points(position: &Position, node: Node) -> Option<PointSet>
    requires target { node.turn.target < position.now.size * position.now.size }
    ensures { (p : ℕ) → p < position.now.size * position.now.size → is_in result p ≡ is_tried node position.now p }
{
    if node.turn.attacker_to_play {
        return Some(candidates_on(position, node));
    }
    None
}

/// The points of `scope` at a node; `None` stands for every point of the board.
fn seen_points(position: &Position, node: Node, scope: Scope) -> Option<PointSet>
    requires target { node.turn.target < position.now.size * position.now.size }
    ensures { (p : ℕ) → p < position.now.size * position.now.size
        → is_in result p ≡ is_seen scope node position.now p }
{
    match scope {
        Scope::Tried => tried_points(position, node),
        Scope::Anywhere => None,
    }
}

/// Whether `p` is one of `points`; `None` stands for every point.
fn is_in(points: &Option<PointSet>, p: Point) -> bool
    requires { p < largest_points }
    ensures { result ≡ is_in points.now p }
{
    match points {
        Some(points) => points.has(p),
        None => true,
    }
}

/// Whether `p` is one of `points`, and a play there succeeds with `plies` plies left after it.
fn is_success(
    position: &Position,
    node: Node,
    points: &Option<PointSet>,
    p: Point,
    plies: u8,
) -> bool
    requires target { node.turn.target < position.now.size * position.now.size }
    requires on_board { p < position.now.size * position.now.size }
    ensures { result ≡ (is_in points.now p && surely_succeeds plies node position.now p) }
{
    let _ = position.size().points();
    is_in(points, p) && succeeds(position, node, p, plies)
}

/// The points of `scope` at which a play succeeds with `plies` plies left after it.
fn successes(position: &Position, node: Node, scope: Scope, plies: u8) -> PointSet
    requires target { node.turn.target < position.now.size * position.now.size }
    ensures { (p : ℕ) → set.contains result p
        ≡ (is_seen scope node position.now p && surely_succeeds plies node position.now p) }
{
    let points = seen_points(position, node, scope);
    let mut found = PointSet::new();
    'points: for p in 0..position.size().points() {
        if is_success(position, node, &points, p, plies) {
            found.add(p);
        }
    }
    found
}

/// The moves of `scope` that attain the sure `code` of the question.
pub(crate) fn sure_moves(
    position: &Position,
    question: &ReadingQuestion,
    code: u8,
    scope: Scope,
) -> Moves
    requires target { question.now.target < position.now.size * position.now.size }
    requires plies { 0 < question.now.plies }
    ensures passes { result.pass ≡ surely_attains_by_pass question.now position.now code }
    ensures plays { (p : ℕ) → set.contains result.points p
        ≡ (is_seen scope (first_node question.now code) position.now p
        && surely_attains_at question.now position.now code p) }
{
    if code == 0 {
        return Moves::none();
    }
    let node = first_node(question, code);
    let plies = question.plies - 1;
    Moves {
        pass: pass_holds(position, node, plies),
        points: successes(position, node, scope, plies),
    }
}
