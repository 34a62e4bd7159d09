//! The words of a line, read in place. A word is returned with the bytes that are dropped still in it, and the calls on
//! words pass over these bytes.

ghost use Rattle.std.specs.Prelude.{◌≡◌, ℕ, List, ◌<◌, ◌≤◌, ◌==◌, ◌∷◌, [], false, MatchOption, length, drop, map};
ghost use Rattle.std.specs.Prelude.{slice_index};
ghost use Rattle.std.specs.List.{before_first, position_or_len};
ghost use Rattle.std.specs.Str.{bytes_eq, str_to_ascii_lowercase};
ghost use Rattle.vertices.specs.Words.{kept, plain, words_of, hash};
ghost use Rattle.vertices.specs.RawWords.{is_skipped, is_parting, cased};

use crate::bytes::{is_kept, is_separator, is_skipped};

/// How many bytes stand before the first `#` of a line; all of them if there is none.
fn comment_start(line: &[u8]) -> usize
    ensures first { result ≡ position_or_len (λ b. b == hash) line.now }
    ensures bound { result ≤ length line.now }
{
    for (i, b) in line.iter().enumerate() {
        if *b == b'#' {
            return i;
        }
    }
    line.len()
}

/// What stands before the first `#` of a line; the whole line if there is none.
pub fn before_comment(line: &[u8]) -> &[u8]
    ensures { result.now ≡ before_first (λ b. b == hash) line.now }
{
    &line[..comment_start(line)]
}

/// How many bytes of `text` stand before its first word.
fn skipped(text: &[u8]) -> usize
    ensures bound { result ≤ length text.now }
    ensures words { words_of (plain (drop result text.now)) ≡ words_of (plain text.now) }
    ensures word { result < length text.now → is_skipped (slice_index text.now result) ≡ false }
{
    for (i, b) in text.iter().enumerate() {
        if !is_skipped(*b) {
            return i;
        }
    }
    text.len()
}

/// How many bytes of `text` stand before the first byte that separates words.
fn word_len(text: &[u8]) -> usize
    ensures first { result ≡ position_or_len is_parting text.now }
    ensures bound { result ≤ length text.now }
{
    for (i, b) in text.iter().enumerate() {
        if is_separator(*b) {
            return i;
        }
    }
    text.len()
}

/// The first word of a text without a comment, and what follows it; `None` if the text has no word.
pub fn next_word(text: &[u8]) -> Option<(&[u8], &[u8])>
    ensures { MatchOption result (words_of (plain text.now) ≡ [])
        (λ found. words_of (plain text.now) ≡ kept found.0.now ∷ words_of (plain found.1.now)) }
{
    let rest = &text[skipped(text)..];
    if rest.is_empty() {
        return None;
    }
    let len = word_len(rest);
    Some((&rest[..len], &rest[len..]))
}

/// What follows the byte `b` in `name`, if `name` begins with it; else `None`.
fn behind(name: &[u8], b: u8) -> Option<&[u8]>
    ensures { MatchOption result ((bs : List ℕ) → bytes_eq (b ∷ bs) name.now ≡ false)
        (λ left. name.now ≡ b ∷ left.now) }
{
    match name.split_first() {
        Some((first, left)) if *first == b => Some(left),
        _ => None,
    }
}

/// Whether `word` is `name`. If `either_case` is set, `word` may be in either case, and `name` is in lower case.
fn spells_in(word: &[u8], name: &[u8], either_case: bool) -> bool
    ensures { result ≡ bytes_eq (map (cased either_case) (kept word.now)) name.now }
{
    let mut left = name;
    for b in word {
        if !is_kept(*b) {
            continue;
        }
        let b = if either_case {
            b.to_ascii_lowercase()
        } else {
            *b
        };
        match behind(left, b) {
            Some(rest) => left = rest,
            None => return false,
        }
    }
    left.is_empty()
}

/// Whether `word` is `name`.
pub fn spells(word: &[u8], name: &[u8]) -> bool
    ensures { result ≡ bytes_eq (kept word.now) name.now }
{
    spells_in(word, name, false)
}

/// Whether `word` is `name` in either case. `name` is in lower case.
pub fn spells_in_either_case(word: &[u8], name: &[u8]) -> bool
    ensures { result ≡ bytes_eq (str_to_ascii_lowercase (kept word.now)) name.now }
{
    spells_in(word, name, true)
}

/// The first byte of `word` that is kept, and what follows it; `None` if no byte is kept.
pub fn first_byte(word: &[u8]) -> Option<(u8, &[u8])>
    ensures { MatchOption result (kept word.now ≡ []) (λ found. kept word.now ≡ found.0 ∷ kept found.1.now) }
{
    for (i, b) in word.iter().enumerate() {
        if is_kept(*b) {
            return Some((*b, &word[i + 1..]));
        }
    }
    None
}

/// How many bytes of `word` are kept.
pub fn byte_count(word: &[u8]) -> usize
    ensures { result ≡ length (kept word.now) }
{
    word.iter().filter(|b| is_kept(**b)).count()
}
