//! The words of a proof.

ghost use Rattle.std.specs.Prelude.{◌≡◌, None, Some, MatchOption, codes};
ghost use Rattle.vertices.specs.Words.{kept};
ghost use Rattle.vertices.specs.Vertices.{target_of as target_named};
ghost use Rattle.read_proof.specs.Tokens.{words_in};
ghost use Rattle.sure_proof.specs.SureProofs.{is_to, behind_word, behind_vertex};

use go_base::{Point, Size};
use vertices::{next_word, spells, target_named};

/// The text behind the first word, if that word is `;`.
pub(crate) fn behind_end(text: &[u8]) -> Option<&[u8]>
    ensures { MatchOption result (behind_word (codes ";") (words_in text.now) ≡ None)
        (λ left. behind_word (codes ";") (words_in text.now) ≡ Some (words_in left.now)) }
{
    let (word, rest) = next_word(text)?;
    if !spells(word, b";") {
        return None;
    }
    Some(rest)
}

/// Whether the word is the vertex of `p`.
pub(crate) fn is_vertex(word: &[u8], size: Size, p: Point) -> bool
    ensures { result ≡ is_to (target_named size (kept word.now)) p }
{
    match target_named(word, size) {
        Some(Some(q)) => q == p,
        Some(None) | None => false,
    }
}

/// The text behind the first word, if that word is the vertex of `p`.
pub(crate) fn behind_vertex(text: &[u8], size: Size, p: Point) -> Option<&[u8]>
    ensures { MatchOption result (behind_vertex size p (words_in text.now) ≡ None)
        (λ left. behind_vertex size p (words_in text.now) ≡ Some (words_in left.now)) }
{
    let (word, rest) = next_word(text)?;
    if !is_vertex(word, size, p) {
        return None;
    }
    Some(rest)
}
