//! The walk over a proof: it reads the text from the left, a word at a node, and goes to the node's children as that
//! word says.

ghost use Rattle.std.specs.Prelude.{◌≡◌, ◌*◌, ◌<◌, None, Some, MatchOption};
ghost use Rattle.std.specs.Option.{option_to_list};
ghost use Rattle.read_rules.specs.GameTree.{child_of};
ghost use Rattle.read_proof.specs.Tokens.{words_in};
ghost use Rattle.read_proof.specs.Proves.{proves, at_child, child_behind, at_each, pass_children, play_children};

use crate::candidates::candidates;
use crate::children::{child_of, passed};
use crate::settled::{each_may_prove, is_settled, move_may_prove};
use crate::taking_back::child_behind;
use crate::token::{Token, token_said};
use go_base::{Point, Position};
use read_rules::{Node, Spot};
use vertices::next_word;

/// The text behind a proof of the claim at the child behind a move, with `plies` plies left there. `None` if there is
/// no such child, or if `text` does not begin with a proof.
#[cycle(proof)]
fn move_proved<'a>(
    pos: &Position,
    node: Node,
    plies: u8,
    won: bool,
    spot: Spot,
    text: &'a [u8],
) -> Option<&'a [u8]>
    requires { node.turn.target < pos.now.size * pos.now.size }
    ensures { MatchOption result
        (at_child (proves plies won) (child_behind node pos.now spot) (words_in text.now) ≡ None)
        (λ left. at_child (proves plies won) (child_behind node pos.now spot) (words_in text.now)
        ≡ Some (words_in left.now)) }
{
    let (next, new) = child_behind(pos, node, spot)?;
    proved(&new, next, plies, won, text)
}

/// The text behind a proof of the claim at the child after the defender's pass, with `plies` plies left there. At the
/// attacker's turn there is no pass, and `text` is answered.
#[cycle(proof)]
fn pass_proved<'a>(
    pos: &Position,
    node: Node,
    plies: u8,
    won: bool,
    text: &'a [u8],
) -> Option<&'a [u8]>
    requires { node.turn.target < pos.now.size * pos.now.size }
    ensures { MatchOption result (at_each (proves plies won) (pass_children node pos.now) (words_in text.now) ≡ None)
        (λ left. at_each (proves plies won) (pass_children node pos.now) (words_in text.now)
        ≡ Some (words_in left.now)) }
{
    if node.turn.attacker_to_play {
        return Some(text);
    }
    let (next, new) = passed(pos, node);
    proved(&new, next, plies, won, text)
}

/// The text behind a proof of the claim at the child after the play at `p`; all of `text` if `p` cannot be played.
#[cycle(proof)]
fn play_proved<'a>(
    pos: &Position,
    node: Node,
    plies: u8,
    won: bool,
    p: Point,
    text: &'a [u8],
) -> Option<&'a [u8]>
    requires target { node.turn.target < pos.now.size * pos.now.size }
    requires on_board { p < pos.now.size * pos.now.size }
    ensures { MatchOption result
        (at_each (proves plies won) (option_to_list (child_of node pos.now p)) (words_in text.now) ≡ None)
        (λ left. at_each (proves plies won) (option_to_list (child_of node pos.now p)) (words_in text.now)
        ≡ Some (words_in left.now)) }
{
    match child_of(pos, node, p) {
        Some((next, new)) => proved(&new, next, plies, won, text),
        None => Some(text),
    }
}

/// The text behind the proofs of the claim at the children after the candidates that can be played, in reading order.
#[cycle(proof)]
fn plays_proved<'a>(
    pos: &Position,
    node: Node,
    plies: u8,
    won: bool,
    text: &'a [u8],
) -> Option<&'a [u8]>
    requires { node.turn.target < pos.now.size * pos.now.size }
    ensures { MatchOption result (at_each (proves plies won) (play_children node pos.now) (words_in text.now) ≡ None)
        (λ left. at_each (proves plies won) (play_children node pos.now) (words_in text.now)
        ≡ Some (words_in left.now)) }
{
    let candidates = candidates(pos, node.turn);
    let mut left = text;
    let mut from = 0;
    'plays: while let Some(p) = candidates.first_from(from) {
        left = play_proved(pos, node, plies, won, p, left)?;
        from = p + 1;
    }
    Some(left)
}

/// The text behind the proof with which `text` begins: a proof of the claim at the node with `plies` plies left, that
/// the attacker wins there or that he does not. `None` if `text` does not begin with such a proof.
#[cycle(proof)]
pub(crate) fn proved<'a>(
    pos: &Position,
    node: Node,
    plies: u8,
    won: bool,
    text: &'a [u8],
) -> Option<&'a [u8]>
    requires { node.turn.target < pos.now.size * pos.now.size }
    ensures { MatchOption result (proves plies won node pos.now (words_in text.now) ≡ None)
        (λ left. proves plies won node pos.now (words_in text.now) ≡ Some (words_in left.now)) }
{
    let (word, rest) = next_word(text)?;
    match token_said(word, pos.size())? {
        Token::Settled => {
            if !is_settled(pos, node, plies, won) {
                return None;
            }
            Some(rest)
        }
        Token::Move(spot) => {
            if plies == 0 || !move_may_prove(pos, node, won) {
                return None;
            }
            move_proved(pos, node, plies - 1, won, spot, rest)
        }
        Token::Each => {
            if plies == 0 || !each_may_prove(pos, node, won) {
                return None;
            }
            let left = pass_proved(pos, node, plies - 1, won, rest)?;
            plays_proved(pos, node, plies - 1, won, left)
        }
    }
}
