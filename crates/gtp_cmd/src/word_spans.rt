//! Where the words of a line stand.

ghost use Rattle.std.specs.Prelude.{◌≡◌, ◌≤◌, ◌<◌, ◌∷◌, [], not, false, MatchOption, IfSome, length, drop, slice_index};
ghost use Rattle.gtp_cmd.specs.Words.{is_kept};
ghost use Rattle.vertices.specs.RawWords.{is_parting, is_skipped};
ghost use Rattle.gtp_cmd.specs.Rooms.{longest_line};
ghost use Rattle.gtp_cmd.specs.Spans.{spans_at, span_between, end_with, first_span, whole_span};

use crate::spans::Span;
use vertices::is_kept;

/// Whether a byte separates words.
fn is_parting(b: u8) -> bool
    ensures { result ≡ is_parting b }
{
    b == b' ' || b == b'\t'
}

/// Whether no word can begin with this byte: it is dropped, or it separates words.
fn is_skipped(b: u8) -> bool
    ensures { result ≡ is_skipped b }
{
    !is_kept(b) || is_parting(b)
}

/// The place of the first byte of a word at or after `place`, or the end of the text if no word follows.
fn word_start(text: &[u8], place: usize) -> usize
    requires { place ≤ length text.now }
    ensures order { place ≤ result }
    ensures bound { result ≤ length text.now }
    ensures spans { spans_at text.now place ≡ spans_at text.now result }
    ensures word { result < length text.now → is_skipped (slice_index text.now result) ≡ false }
{
    for i in place..text.len() {
        if !is_skipped(text[i]) {
            return i;
        }
    }
    text.len()
}

/// The end of a word after one more byte `b` at `place`: just behind `b` if `b` is kept, and else still `end`.
fn end_after(b: u8, place: usize, end: usize) -> usize
    requires { place ≤ longest_line }
    ensures { result ≡ end_with (is_kept b) place end }
{
    if is_kept(b) { place + 1 } else { end }
}

/// The place just after the last byte of the word that begins at `start`.
fn word_end(text: &[u8], start: usize) -> usize
    requires inside { start < length text.now }
    requires word { is_skipped (slice_index text.now start) ≡ false }
    requires short { length text.now ≤ longest_line }
    ensures order { start < result }
    ensures bound { result ≤ length text.now }
    ensures spans { spans_at text.now start ≡ span_between start result ∷ spans_at text.now result }
{
    let mut end = start + 1;
    for i in start + 1..text.len() {
        if is_parting(text[i]) {
            return end;
        }
        end = end_after(text[i], i, end);
    }
    end
}

/// The span of the first word from `place` on.
fn next_span(text: &[u8], place: usize) -> Option<Span>
    requires inside { place ≤ length text.now }
    requires short { length text.now ≤ longest_line }
    ensures spans { MatchOption result (spans_at text.now place ≡ [])
        (λ span. spans_at text.now place ≡ span ∷ spans_at text.now span.to) }
    ensures bound { IfSome result (λ span. span.to ≤ length text.now) }
{
    let start = word_start(text, place);
    if start == text.len() {
        return None;
    }
    let end = word_end(text, start);
    Some(Span {
        from: start as u32,
        to: end as u32,
    })
}

/// The place just after the first word from `place` on, or the end of the text if there is no word.
pub fn behind_word(text: &[u8], place: usize) -> usize
    requires inside { place ≤ length text.now }
    requires short { length text.now ≤ longest_line }
    ensures bound { result ≤ length text.now }
    ensures spans { spans_at text.now result ≡ drop 1 (spans_at text.now place) }
{
    match next_span(text, place) {
        Some(span) => span.to as usize,
        None => text.len(),
    }
}

/// The span of the second word from `place` on.
pub fn second_span(text: &[u8], place: usize) -> Option<Span>
    requires inside { place ≤ length text.now }
    requires short { length text.now ≤ longest_line }
    ensures { result ≡ first_span (drop 1 (spans_at text.now place)) }
{
    next_span(text, behind_word(text, place))
}

/// The end of some words after one more byte `b` at `place`: just behind `b` if `b` belongs to a word, and else still
/// `end`.
fn word_end_after(b: u8, place: usize, end: usize) -> usize
    requires { place ≤ longest_line }
    ensures { result ≡ end_with (not (is_skipped b)) place end }
{
    if is_skipped(b) { end } else { place + 1 }
}

/// The place just after the last byte of the text that belongs to a word; a word begins at `start`.
fn words_end(text: &[u8], start: usize) -> usize
    requires inside { start < length text.now }
    requires word { is_skipped (slice_index text.now start) ≡ false }
    requires short { length text.now ≤ longest_line }
    ensures bound { result ≤ length text.now }
    ensures spans { whole_span (spans_at text.now start) ≡ span_between start result }
{
    let mut end = start + 1;
    for i in start + 1..text.len() {
        end = word_end_after(text[i], i, end);
    }
    end
}

/// The span of all words from `place` on.
fn all_span(text: &[u8], place: usize) -> Span
    requires inside { place ≤ length text.now }
    requires short { length text.now ≤ longest_line }
    ensures { result ≡ whole_span (spans_at text.now place) }
{
    let start = word_start(text, place);
    if start == text.len() {
        return Span { from: 0, to: 0 };
    }
    let end = words_end(text, start);
    Span {
        from: start as u32,
        to: end as u32,
    }
}

/// The place just after the first two words from `place` on, or the end of the text if there are fewer.
fn behind_two(text: &[u8], place: usize) -> usize
    requires inside { place ≤ length text.now }
    requires short { length text.now ≤ longest_line }
    ensures bound { result ≤ length text.now }
    ensures spans { spans_at text.now result ≡ drop 2 (spans_at text.now place) }
{
    behind_word(text, behind_word(text, place))
}

/// The span of all words after the first four from `place` on.
pub fn tokens_span(text: &[u8], place: usize) -> Span
    requires inside { place ≤ length text.now }
    requires short { length text.now ≤ longest_line }
    ensures { result ≡ whole_span (drop 3 (drop 1 (spans_at text.now place))) }
{
    all_span(text, behind_two(text, behind_two(text, place)))
}
