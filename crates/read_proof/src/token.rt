//! The words of a proof.

ghost use Rattle.std.specs.Prelude.{◌≡◌};
ghost use Rattle.vertices.specs.Words.{kept};
ghost use Rattle.read_proof.specs.Tokens.{token_of};

use go_base::Size;
use read_rules::Spot;
use vertices::{spells, target_named};

/// What a word of a proof says.
#[derive(Clone, Copy, Debug, PartialEq, Eq)]
pub enum Token {
    /// `.`: the claim is settled at the node.
    Settled,
    /// A vertex or `PASS`: the move leads to a child with the claim.
    Move(Spot),
    /// `*`: each child has the claim.
    Each,
}

/// What a word says in a proof on a board of this size, or `None` if it is no word of a proof.
#[tactic(auto, unfolding(crate::specs::Tokens::token_of))]
pub(crate) fn token_said(word: &[u8], size: Size) -> Option<Token>
    ensures { result ≡ token_of size (kept word.now) }
{
    if spells(word, b".") {
        return Some(Token::Settled);
    }
    if spells(word, b"*") {
        return Some(Token::Each);
    }
    match target_named(word, size)? {
        Some(p) => Some(Token::Move(Spot::At(p))),
        None => Some(Token::Move(Spot::Pass)),
    }
}
