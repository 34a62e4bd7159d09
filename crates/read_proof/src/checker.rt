//! The checker: it reads a letter and a proof for each code from 3 down to the code that is claimed, or to 1.

ghost use Rattle.std.specs.Prelude.{◌≡◌, ◌≢◌, ◌*◌, ◌<◌, ◌≤◌, ◌↔◌, None, Some, IsTrue, MatchOption};
ghost use Rattle.std.specs.Str.{bytes_eq};
ghost use Rattle.vertices.specs.Words.{kept};
ghost use Rattle.go_rules.specs.Strings.{cell_at};
ghost use Rattle.read_rules.specs.Answer.{answer_of, asked_in};
ghost use Rattle.read_proof.specs.Tokens.{words_in};
ghost use Rattle.read_proof.specs.ProofOf.{codes_down_to, claim_under, letter_of, proves_under, proves_all, IsProofOf};

use crate::codes::{claim_under, first_node, question_on};
use crate::walk::proved;
use go_base::{Cell, Point, Position};
use read_rules::{Depths, Kind, ReadingQuestion};
use vertices::{next_word, spells};

/// Whether the word is the letter of the claim.
fn is_letter(word: &[u8], won: bool) -> bool
    ensures { result ≡ bytes_eq (kept word.now) (letter_of won) }
{
    if won {
        spells(word, b"W")
    } else {
        spells(word, b"N")
    }
}

/// Reads, at the front of `text`, the letter and the proof of what a proof of `code` claims under the allowances of
/// `more`. Answers the text behind them, or `None` if `text` does not begin with them.
fn proved_under<'a>(
    pos: &Position,
    question: &ReadingQuestion,
    code: u8,
    more: u8,
    text: &'a [u8],
) -> Option<&'a [u8]>
    requires { question.now.target < pos.now.size * pos.now.size }
    ensures { MatchOption result
        (proves_under question.now pos.now (claim_under question.now code more) more (words_in text.now) ≡ None)
        (λ left. proves_under question.now pos.now (claim_under question.now code more) more (words_in text.now)
        ≡ Some (words_in left.now)) }
{
    let won = claim_under(question, code, more);
    let (word, rest) = next_word(text)?;
    if !is_letter(word, won) {
        return None;
    }
    proved(pos, first_node(question, more), question.plies, won, rest)
}

/// Reads the proofs of what a proof of `code` claims under the codes from 3 down to `code`, or to 1. Answers the text
/// behind them, or `None` if `text` does not begin with them.
fn all_proved<'a>(
    pos: &Position,
    question: &ReadingQuestion,
    code: u8,
    text: &'a [u8],
) -> Option<&'a [u8]>
    requires { question.now.target < pos.now.size * pos.now.size }
    ensures { MatchOption result
        (proves_all question.now pos.now code (codes_down_to code) (words_in text.now) ≡ None)
        (λ left. proves_all question.now pos.now code (codes_down_to code) (words_in text.now)
        ≡ Some (words_in left.now)) }
{
    let left = proved_under(pos, question, code, 3, text)?;
    if code == 3 {
        return Some(left);
    }
    let left = proved_under(pos, question, code, 2, left)?;
    if code == 2 {
        return Some(left);
    }
    proved_under(pos, question, code, 1, left)
}

/// Whether the text is a proof that an attack on the string at `target`, or its defence, has this code with these
/// depths.
///
/// The text has a letter and a proof for each code from 3 down to this one, or to 1 if it is 0: `W` claims that the
/// attacker wins under that code's ko allowances, and `N` that he does not. Blanks separate its words as in a protocol
/// line, and no word follows the last proof. If the answer is true, `code` is that of the game tree. Takes no memory.
pub fn check(pos: &Position, of: Kind, target: Point, depths: Depths, code: u8, text: &[u8]) -> bool
    requires on_board { target < pos.now.size * pos.now.size }
    requires stone { cell_at pos.now.cells target ≢ Cell.Empty }
    requires code { code ≤ 3 }
    ensures proof { IsTrue result
        ↔ IsProofOf (asked_in depths.tree pos.now of target depths.plies depths.wide) pos.now code text.now }
    ensures sound { IsTrue result
        → (answer_of (asked_in depths.tree pos.now of target depths.plies depths.wide) pos.now).code ≡ code }
{
    let question = question_on(pos, of, target, depths);
    match all_proved(pos, &question, code, text) {
        Some(left) => next_word(left).is_none(),
        None => false,
    }
}
