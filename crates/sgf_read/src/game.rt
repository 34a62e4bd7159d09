//! The position of a game record.

ghost use Rattle.std.specs.Prelude.{◌≡◌, ◌≤◌, length, false};
ghost use Rattle.sgf_rules.specs.Tokens.{said};
ghost use Rattle.sgf_rules.specs.MainLine.{nodes_in};
ghost use Rattle.sgf_rules.specs.Game.{size_among, size_of_nodes, after_use, after_uses, after_node, after_nodes};
ghost use Rattle.sgf_rules.specs.Game.{after_move, game_of};
ghost use Rattle.sgf_rules.specs.Points.{move_of as move_in};
ghost use Rattle.sgf_read.specs.Errors.{told};
ghost use Rattle.sgf_read.specs.Reads.{tokens_from, uses_at, Leads};

use crate::error::SgfError;
use crate::points::{move_of, size_of};
use crate::setup::{is_all_readable, set_up};
use crate::tree::{begins_with_tree, next_node, tree_start};
use crate::uses::next_use;
use go_base::{Position, Size};
use go_rules::Colour;
use sgf_rules::{FaultKind, Meaning};

/// The size of a board without SZ.
const USUAL_SIZE: u8 = 19;

/// The size that the first SZ value of the node at the index `node` says, and 19 if the node has none; `None` if that
/// value says no size.
fn size_at(text: &[u8], node: usize) -> Option<Size>
    requires { node ≤ length text.now }
    ensures { result ≡ size_among (uses_at text.now node) }
{
    let mut at = node;
    let mut meaning = None;
    'uses: while let Some(u) = next_use(text, at, meaning) {
        if let Meaning::Size = u.meaning {
            return size_of(&text[u.from..u.to]);
        }
        at = u.next;
        meaning = Some(u.meaning);
    }
    Size::new(USUAL_SIZE)
}

/// The size of the board of a record whose tree begins at the index `start`.
#[tactic(auto, using(crate::proofs::GameSteps::size_at_first))]
pub(crate) fn record_size(text: &[u8], start: usize) -> Option<Size>
    requires { start ≤ length text.now }
    ensures { result ≡ size_of_nodes (nodes_in (tokens_from text.now start)) }
{
    match next_node(text, start) {
        Some(node) => size_at(text, node),
        None => Size::new(USUAL_SIZE),
    }
}

/// Makes the move that `value` says, if it says one.
fn play_move(pos: &mut Position, c: Colour, value: &[u8]) -> Result<(), FaultKind>
    ensures { Leads result pos.new (after_move pos.old c (move_in pos.old.size (said false value.now))) }
{
    match move_of(pos.size(), value) {
        Some(Some(p)) => match pos.play(c, p) {
            Ok(next) => *pos = next,
            Err(_) => return Err(FaultKind::IllegalPlay),
        },
        Some(None) => *pos = pos.pass(),
        None => {}
    }
    Ok(())
}

/// Makes the move that `value` says, if `meaning` is a play and the value says a move.
fn play_by(pos: &mut Position, meaning: Meaning, value: &[u8]) -> Result<(), FaultKind>
    ensures { Leads result pos.new (after_use pos.old (meaning, said false value.now)) }
{
    match meaning {
        Meaning::Play(c) => play_move(pos, c, value),
        _ => Ok(()),
    }
}

/// Makes the moves of the node whose properties begin at the index `node`.
fn play_all(text: &[u8], node: usize, pos: &mut Position) -> Result<(), FaultKind>
    requires { node ≤ length text.now }
    ensures { Leads result pos.new (after_uses pos.old (uses_at text.now node)) }
{
    let mut at = node;
    let mut meaning = None;
    'uses: while let Some(u) = next_use(text, at, meaning) {
        play_by(pos, u.meaning, &text[u.from..u.to])?;
        at = u.next;
        meaning = Some(u.meaning);
    }
    Ok(())
}

/// Applies the node whose properties begin at the index `node`: first its setup, and then its moves.
pub(crate) fn play_node(text: &[u8], node: usize, pos: &mut Position) -> Result<(), FaultKind>
    requires { node ≤ length text.now }
    ensures { Leads result pos.new (after_node pos.old (uses_at text.now node)) }
{
    if next_use(text, node, None).is_none() {
        return Ok(());
    }
    if !is_all_readable(text, node, pos.size()) {
        return Err(FaultKind::BadValue);
    }
    set_up(text, node, pos)?;
    play_all(text, node, pos)
}

/// The position after the nodes that stand from the index `start` on and before the first `)`.
fn play_nodes(text: &[u8], start: usize, pos: Position) -> Result<Position, FaultKind>
    requires { start ≤ length text.now }
    ensures { result ≡ after_nodes pos (nodes_in (tokens_from text.now start)) }
{
    let mut now = pos;
    let mut at = start;
    'nodes: while let Some(node) = next_node(text, at) {
        play_node(text, node, &mut now)?;
        at = node;
    }
    Ok(now)
}

/// The position at the end of the record's main line, or its first fault. Takes no memory.
pub fn read_game(text: &[u8]) -> Result<Position, FaultKind>
    ensures { result ≡ game_of text.now }
{
    let start = tree_start(text);
    if !begins_with_tree(text, start) {
        return Err(FaultKind::Grammar);
    }
    match record_size(text, start) {
        Some(size) => play_nodes(text, start, Position::new(size)),
        None => Err(FaultKind::BadSize),
    }
}

/// The position at the end of the record's main line, or the number of its first fault. Takes no memory.
pub fn read(text: &[u8]) -> Result<Position, SgfError>
    ensures { result ≡ told (game_of text.now) }
{
    match read_game(text) {
        Ok(pos) => Ok(pos),
        Err(kind) => Err(SgfError {
            kind: kind.number(),
        }),
    }
}
