//! The walk down a sure capture: it writes one word for each node.

ghost use Rattle.std.specs.Prelude.{◌*◌, ◌<◌};

use crate::refusal::SureProofError;
use crate::text::{behind, put_vertex, put_word};
use go_base::sides::neighbour;
use go_base::{Bytes, Point, PointSet, Position, Size};
use read_proof::children::{child_after, child_of, passed};
use read_proof::taking_back::{is_captured, taking_back};
use read_rules::{Node, Spot};
use read_zones::zone_of;
use sure_proof::replies_asked;

/// Whether the attacker's play at `p` is one of his candidates, and surely captures with `plies` plies left after it.
fn captures(pos: &Position, node: Node, p: Point, plies: u8) -> bool
    requires { node.turn.target < pos.now.size * pos.now.size }
{
    match child_after(pos, node, Spot::At(p)) {
        Some((next, new)) => zone_of(&new, next, plies).is_some(),
        None => false,
    }
}

/// The first of `points`, in reading order, at which the attacker's play surely captures with `plies` plies left after
/// it.
fn capture_among(pos: &Position, node: Node, points: &PointSet, plies: u8) -> Option<Point>
    requires { node.turn.target < pos.now.size * pos.now.size }
{
    let mut from = 0;
    'plays: while let Some(p) = points.first_from(from) {
        if captures(pos, node, p, plies) {
            return Some(p);
        }
        from = p + 1;
    }
    None
}

/// The first point of the board, in reading order, that is not in `points` and at which the attacker's play surely
/// captures with `plies` plies left after it.
fn capture_outside(pos: &Position, node: Node, points: &PointSet, plies: u8) -> Option<Point>
    requires { node.turn.target < pos.now.size * pos.now.size }
{
    for p in 0..pos.size().points() {
        if !points.has(p) && captures(pos, node, p, plies) {
            return Some(p);
        }
    }
    None
}

/// Whether some neighbour of `p` is in `points`.
fn is_beside(size: Size, points: &PointSet, p: Point) -> bool
    requires { p < size * size }
{
    for side in 0..4 {
        match neighbour(size, p, side) {
            Some(q) => {
                if points.has(q) {
                    return true;
                }
            }
            None => {}
        }
    }
    false
}

/// The points of `points` and their neighbours.
fn with_neighbours(size: Size, points: &PointSet) -> PointSet {
    let mut wider = PointSet::new();
    for p in 0..size.points() {
        if points.has(p) || is_beside(size, points, p) {
            wider.add(p);
        }
    }
    wider
}

/// A point at which the attacker's play surely captures. The liberties of the target are tried first, and then the
/// points next to them: few points show that these are candidates, and so the proof asks for few replies.
fn nearest_capture(pos: &Position, node: Node, plies: u8) -> Option<Point>
    requires { node.turn.target < pos.now.size * pos.now.size }
{
    let liberties = pos.liberty_points(node.turn.target);
    if let Some(p) = capture_among(pos, node, &liberties, plies) {
        return Some(p);
    }
    let near = with_neighbours(pos.size(), &liberties);
    match capture_among(pos, node, &near.difference(&liberties), plies) {
        Some(p) => Some(p),
        None => capture_outside(pos, node, &near, plies),
    }
}

/// Writes the vertex of `p`, and the proof of the child to which the mover's play there leads; nothing if the play
/// cannot be made.
#[cycle(write)]
fn write_play(
    pos: &Position,
    node: Node,
    p: Point,
    plies: u8,
    out: &mut Bytes,
) -> Result<(), SureProofError>
    requires { node.turn.target < pos.now.size * pos.now.size }
{
    if p >= pos.size().points() {
        return Err(SureProofError::NotFound);
    }
    match child_of(pos, node, p) {
        Some((next, new)) => {
            put_vertex(out, pos.size(), p)?;
            write_node(&new, next, plies, out)
        }
        None => Ok(()),
    }
}

/// Writes the replies at the points of `asked`, each with the proof of its child.
#[cycle(write)]
fn write_replies(
    pos: &Position,
    node: Node,
    asked: &PointSet,
    plies: u8,
    out: &mut Bytes,
) -> Result<(), SureProofError>
    requires { node.turn.target < pos.now.size * pos.now.size }
{
    let mut from = 0;
    'replies: while let Some(p) = asked.first_from(from) {
        write_play(pos, node, p, plies, out)?;
        from = p + 1;
    }
    Ok(())
}

/// Writes the proof of a node at the defender's turn, with `plies` plies left after his move.
#[cycle(write)]
fn write_defence(
    pos: &Position,
    node: Node,
    plies: u8,
    out: &mut Bytes,
) -> Result<(), SureProofError>
    requires { node.turn.target < pos.now.size * pos.now.size }
{
    put_word(out, b"*")?;
    let start = out.as_slice().len();
    let (next, new) = passed(pos, node);
    write_node(&new, next, plies, out)?;
    match replies_asked(pos, node, plies, behind(out.as_slice(), start)) {
        Some(asked) => write_replies(pos, node, &asked, plies, out)?,
        None => return Err(SureProofError::NotFound),
    }
    put_word(out, b";")
}

/// Writes the proof of a node at the attacker's turn, with `plies` plies left after his move.
#[cycle(write)]
fn write_attack(
    pos: &Position,
    node: Node,
    plies: u8,
    out: &mut Bytes,
) -> Result<(), SureProofError>
    requires { node.turn.target < pos.now.size * pos.now.size }
{
    match nearest_capture(pos, node, plies) {
        Some(p) => write_play(pos, node, p, plies, out),
        None => Err(SureProofError::NotFound),
    }
}

/// Writes the proof of a node at which the target is taken: `.`, or, if the defender can take it back, the vertex of
/// that play and the proof of its child.
#[cycle(write)]
fn write_taken(pos: &Position, node: Node, plies: u8, out: &mut Bytes) -> Result<(), SureProofError>
    requires { node.turn.target < pos.now.size * pos.now.size }
{
    match taking_back(pos, node) {
        Some((next, new)) => {
            if plies == 0 {
                return Err(SureProofError::NotFound);
            }
            put_vertex(out, pos.size(), node.turn.target)?;
            write_node(&new, next, plies - 1, out)
        }
        None => put_word(out, b"."),
    }
}

/// Writes the proof of a node at which the target is surely captured, with `plies` plies left.
#[cycle(write)]
fn write_node(pos: &Position, node: Node, plies: u8, out: &mut Bytes) -> Result<(), SureProofError>
    requires { node.turn.target < pos.now.size * pos.now.size }
{
    if is_captured(pos, node) {
        return write_taken(pos, node, plies, out);
    }
    if plies == 0 {
        return Err(SureProofError::NotFound);
    }
    if node.turn.attacker_to_play {
        write_attack(pos, node, plies - 1, out)
    } else {
        write_defence(pos, node, plies - 1, out)
    }
}

/// Writes the proof of the first node, at which the target is surely captured. If the attacker is to play, the proof
/// begins with the first point in reading order at which his play surely captures.
pub(crate) fn write_first(
    pos: &Position,
    node: Node,
    plies: u8,
    out: &mut Bytes,
) -> Result<(), SureProofError>
    requires { node.turn.target < pos.now.size * pos.now.size }
{
    if plies == 0 || !node.turn.attacker_to_play {
        return write_node(pos, node, plies, out);
    }
    match capture_outside(pos, node, &PointSet::new(), plies - 1) {
        Some(p) => write_play(pos, node, p, plies - 1, out),
        None => Err(SureProofError::NotFound),
    }
}
