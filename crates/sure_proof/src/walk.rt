//! The walk over a proof: it reads the text from the left, one word for each node, and gathers the points on which the
//! proof rests.

ghost use Rattle.std.specs.Prelude.{◌≡◌, ◌*◌, ◌<◌, ◌||◌, None, Some, MatchOption};
ghost use Rattle.go_rules.specs.Board.{largest_points};
ghost use Rattle.vertices.specs.Words.{kept};
ghost use Rattle.read_rules.specs.GameTree.{child_of, taking_back};
ghost use Rattle.read_proof.specs.Tokens.{words_in};
ghost use Rattle.read_proof.specs.Proves.{child_after};
ghost use Rattle.sure_rules.specs.Nodes.{is_gone, is_taken_for_good, has_too_many};
ghost use Rattle.sure_proof.specs.SureProofs.{by_capture, by_back, by_child, by_move, at_reply, at_replies};
ghost use Rattle.sure_proof.specs.SureProofs.{with_move, by_replies, by_turn, proves_surely, proved_by, points_in};

use crate::candidate::candidate_rests_on;
use crate::guard::{Guarded, guard_zone};
use crate::loss::loss_rests_on;
use crate::play::play_rests_on;
use crate::words::{behind_end, behind_vertex, is_vertex};
use go_base::{Point, PointSet, Position};
use read_proof::children::{child_after, child_of, passed};
use read_proof::taking_back::{is_captured, taking_back};
use read_rules::{Node, Spot};
use vertices::{next_word, spells, target_named};

/// Whether the target has so many liberties that the attacker may not play at it.
#[tactic(auto, unfolding(read_rules::specs::GameTree::has_many_liberties))]
fn has_too_many(pos: &Position, node: Node) -> bool
    requires { node.turn.target < pos.now.size * pos.now.size }
    ensures { result ≡ has_too_many node pos.now }
{
    node.turn.has_many(pos.liberties(node.turn.target))
}

/// Whether the attacker may not play: the target is gone, or has too many liberties.
fn is_barred(pos: &Position, node: Node) -> bool
    requires { node.turn.target < pos.now.size * pos.now.size }
    ensures { result ≡ (is_gone node pos.now || has_too_many node pos.now) }
{
    let many = has_too_many(pos, node);
    is_captured(pos, node) || many
}

/// Whether the target is taken, and the defender cannot take back at once.
fn is_taken_for_good(pos: &Position, node: Node) -> bool
    requires { node.turn.target < pos.now.size * pos.now.size }
    ensures { result ≡ is_taken_for_good node pos.now }
{
    is_captured(pos, node) && taking_back(pos, node).is_none()
}

/// Answers `text`, which follows a `.`, if the target is taken and cannot be taken back. `zone` becomes the points that
/// show this.
fn capture_proved<'a>(
    pos: &Position,
    node: Node,
    text: &'a [u8],
    zone: &mut PointSet,
) -> Option<&'a [u8]>
    requires target { node.turn.target < pos.now.size * pos.now.size }
    ensures { MatchOption result (by_capture node pos.now (words_in text.now) ≡ None)
        (λ left. by_capture node pos.now (words_in text.now) ≡ Some (proved_by (words_in left.now) zone.new)) }
{
    let _ = pos.size().points();
    if !is_taken_for_good(pos, node) {
        return None;
    }
    *zone = loss_rests_on(pos, node);
    Some(text)
}

/// The text behind a proof of the node after the attacker's play at `p`, with `plies` plies left there. `zone` becomes
/// the points on which the play and this proof rest.
#[cycle(proof)]
fn play_proved<'a>(
    pos: &Position,
    node: Node,
    plies: u8,
    p: Point,
    text: &'a [u8],
    zone: &mut PointSet,
) -> Option<&'a [u8]>
    requires target { node.turn.target < pos.now.size * pos.now.size }
    requires on_board { p < pos.now.size * pos.now.size }
    requires small { p < largest_points }
    ensures { MatchOption result (by_child (proves_surely plies) node pos.now p (child_after node pos.now (Spot.At p)) (words_in text.now) ≡ None)
        (λ left. by_child (proves_surely plies) node pos.now p (child_after node pos.now (Spot.At p)) (words_in text.now) ≡ Some (proved_by (words_in left.now) zone.new)) }
{
    let (next, new) = child_after(pos, node, Spot::At(p))?;
    let left = proved(&new, next, plies, text, zone)?;
    let mut points = candidate_rests_on(pos, node.turn, p);
    points.join(&play_rests_on(pos, node.mover(), zone, p));
    points.join(zone);
    *zone = points;
    Some(left)
}

/// The text behind a proof of the node after the attacker's move `at`, with `plies` plies left there; `None` if `at` is
/// no play on the board.
#[cycle(proof)]
fn move_proved<'a>(
    pos: &Position,
    node: Node,
    plies: u8,
    at: Option<Option<Point>>,
    text: &'a [u8],
    zone: &mut PointSet,
) -> Option<&'a [u8]>
    requires target { node.turn.target < pos.now.size * pos.now.size }
    ensures { MatchOption result (by_move (proves_surely plies) node pos.now at (words_in text.now) ≡ None)
        (λ left. by_move (proves_surely plies) node pos.now at (words_in text.now) ≡ Some (proved_by (words_in left.now) zone.new)) }
{
    let spot = at?;
    let p = spot?;
    if p >= pos.size().points() {
        return None;
    }
    play_proved(pos, node, plies, p, text, zone)
}

/// Adds to `zone` the points on which the mover's play at `p` rests, if what follows rests on `zone`.
fn add_play(pos: &Position, node: Node, p: Point, zone: &mut PointSet)
    requires on_board { p < pos.now.size * pos.now.size }
    requires small { p < largest_points }
    ensures { zone.new ≡ with_move node pos.now p zone.old }
{
    let points = play_rests_on(pos, node.mover(), zone, p);
    zone.join(&points);
}

/// The text behind the reply at `p`, with `plies` plies left after it: if it can be made, its vertex and the proof of
/// the node after it stand in the text, else nothing does. The points on which the reply rests are added to `zone`.
#[cycle(proof)]
fn reply_proved<'a>(
    pos: &Position,
    node: Node,
    plies: u8,
    p: Point,
    text: &'a [u8],
    zone: &mut PointSet,
) -> Option<&'a [u8]>
    requires target { node.turn.target < pos.now.size * pos.now.size }
    requires on_board { p < pos.now.size * pos.now.size }
    requires small { p < largest_points }
    ensures { MatchOption result (at_reply (proves_surely plies) node pos.now p (child_of node pos.now p) (proved_by (words_in text.now) zone.old) ≡ None)
        (λ left. at_reply (proves_surely plies) node pos.now p (child_of node pos.now p) (proved_by (words_in text.now) zone.old) ≡ Some (proved_by (words_in left.now) zone.new)) }
{
    match child_of(pos, node, p) {
        Some(child) => {
            let left = behind_vertex(text, pos.size(), p)?;
            let mut inner = PointSet::new();
            let rest = proved(&child.1, child.0, plies, left, &mut inner)?;
            zone.join(&inner);
            add_play(pos, node, p, zone);
            Some(rest)
        }
        None => {
            add_play(pos, node, p, zone);
            Some(text)
        }
    }
}

/// The text behind the replies at the points of `asked`, one after another, with `plies` plies left after each. The
/// points on which these replies rest are added to `zone`.
#[cycle(proof)]
fn replies_proved<'a>(
    pos: &Position,
    node: Node,
    plies: u8,
    asked: &PointSet,
    text: &'a [u8],
    zone: &mut PointSet,
) -> Option<&'a [u8]>
    requires target { node.turn.target < pos.now.size * pos.now.size }
    ensures { MatchOption result (at_replies (proves_surely plies) node pos.now (points_in pos.now.size asked.now) (proved_by (words_in text.now) zone.old) ≡ None)
        (λ left. at_replies (proves_surely plies) node pos.now (points_in pos.now.size asked.now) (proved_by (words_in text.now) zone.old) ≡ Some (proved_by (words_in left.now) zone.new)) }
{
    let mut left = text;
    let mut from = 0;
    'replies: while let Some(p) = asked.first_from(from) {
        if p >= pos.size().points() {
            return Some(left);
        }
        left = reply_proved(pos, node, plies, p, left, zone)?;
        from = p + 1;
    }
    Some(left)
}

/// The text behind the proof of the node after the defender's pass, with `plies` plies left there, the replies that its
/// zone asks for, and the `;` that ends them. `zone` becomes the points on which all this rests.
#[cycle(proof)]
fn defence_proved<'a>(
    pos: &Position,
    node: Node,
    plies: u8,
    text: &'a [u8],
    zone: &mut PointSet,
) -> Option<&'a [u8]>
    requires target { node.turn.target < pos.now.size * pos.now.size }
    ensures { MatchOption result (by_replies (proves_surely plies) node pos.now (words_in text.now) ≡ None)
        (λ left. by_replies (proves_surely plies) node pos.now (words_in text.now) ≡ Some (proved_by (words_in left.now) zone.new)) }
{
    let (next, new) = passed(pos, node);
    let left = proved(&new, next, plies, text, zone)?;
    let enemy = node.mover().other();
    let Guarded { asked, guard } = guard_zone(pos, enemy, zone);
    zone.join(&guard);
    let more = replies_proved(pos, node, plies, &asked, left, zone)?;
    let rest = behind_end(more)?;
    Some(rest)
}

/// The text behind a proof of the node after the defender's play that takes back, with `plies` plies left there, if he
/// can take back and `word` is the vertex of the target's point. `zone` becomes the points on which this play and the
/// proof rest.
#[cycle(proof)]
fn back_proved<'a>(
    pos: &Position,
    node: Node,
    plies: u8,
    word: &[u8],
    text: &'a [u8],
    zone: &mut PointSet,
) -> Option<&'a [u8]>
    requires target { node.turn.target < pos.now.size * pos.now.size }
    ensures { MatchOption result (by_back (proves_surely plies) node pos.now (kept word.now) (taking_back node pos.now) (words_in text.now) ≡ None)
        (λ left. by_back (proves_surely plies) node pos.now (kept word.now) (taking_back node pos.now) (words_in text.now) ≡ Some (proved_by (words_in left.now) zone.new)) }
{
    let _ = pos.size().points();
    let (next, new) = taking_back(pos, node)?;
    if !is_vertex(word, pos.size(), node.turn.target) {
        return None;
    }
    let mut points = loss_rests_on(pos, node);
    let left = proved(&new, next, plies, text, zone)?;
    points.join(zone);
    *zone = points;
    Some(left)
}

/// The text behind a proof whose first word is `word`, with `plies` plies left after the move. At the attacker's turn
/// the word is a vertex; at the defender's turn it is `*`, or the vertex of the target's point if he takes back.
#[cycle(proof)]
fn turn_proved<'a>(
    pos: &Position,
    node: Node,
    plies: u8,
    word: &[u8],
    text: &'a [u8],
    zone: &mut PointSet,
) -> Option<&'a [u8]>
    requires target { node.turn.target < pos.now.size * pos.now.size }
    ensures { MatchOption result (by_turn (proves_surely plies) node pos.now (kept word.now) (words_in text.now) ≡ None)
        (λ left. by_turn (proves_surely plies) node pos.now (kept word.now) (words_in text.now) ≡ Some (proved_by (words_in left.now) zone.new)) }
{
    if node.turn.attacker_to_play {
        if is_barred(pos, node) {
            return None;
        }
        return move_proved(pos, node, plies, target_named(word, pos.size()), text, zone);
    }
    if spells(word, b"*") {
        return defence_proved(pos, node, plies, text, zone);
    }
    back_proved(pos, node, plies, word, text, zone)
}

/// The text behind the proof with which `text` begins: a proof that the target is surely captured at the node with
/// `plies` plies left. `None` if it does not begin with one. `zone` becomes the points on which the proof rests.
#[cycle(proof)]
pub(crate) fn proved<'a>(
    pos: &Position,
    node: Node,
    plies: u8,
    text: &'a [u8],
    zone: &mut PointSet,
) -> Option<&'a [u8]>
    requires target { node.turn.target < pos.now.size * pos.now.size }
    ensures { MatchOption result (proves_surely plies node pos.now (words_in text.now) ≡ None)
        (λ left. proves_surely plies node pos.now (words_in text.now) ≡ Some (proved_by (words_in left.now) zone.new)) }
{
    let (word, rest) = next_word(text)?;
    if spells(word, b".") {
        return capture_proved(pos, node, rest, zone);
    }
    if plies == 0 {
        return None;
    }
    turn_proved(pos, node, plies - 1, word, rest, zone)
}
