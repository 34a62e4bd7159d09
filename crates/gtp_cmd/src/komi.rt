//! The komi, which is kept as text.

ghost use Rattle.std.specs.Prelude.{◌≡◌, ◌<◌, ◌≤◌, ◌==◌, ◌↔◌, [], ◌∷◌, ◌++◌, codes, length, IsTrue, MatchOption};
ghost use Rattle.std.specs.List.{list_all, position_or_len, after_first};
ghost use Rattle.std.specs.Char.{is_ascii_digit};
ghost use Rattle.gtp_cmd.specs.Words.{kept, is_number};
ghost use Rattle.gtp_cmd.specs.Komi.{point, komi_room, without_sign, is_decimal, is_komi, komi_of};

use std::marker::Model;
use vertices::is_kept;

/// How many bytes a komi may have.
const MAX_KOMI: usize = 32;

/// The text of a komi, at most 32 bytes. The text is kept as it was given, and gopat does not compute with it.
#[derive(Clone, Copy, Debug, PartialEq, Eq)]
pub struct KomiText {
    /// The bytes of the text, and zeros behind them.
    bytes: [u8; MAX_KOMI],
    /// How many bytes the text has.
    len: usize,
}

impl Model for KomiText {
    ghost use Rattle.std.specs.Prelude.{List, ℕ};

    ghost Value = { List ℕ };

    ghost use Rattle.gtp_cmd.specs.KomiTexts.{text_kept, IsKomiText, kept_of, kept_of-text_kept};

    ghost view = { text_kept };

    ghost invariant = { IsKomiText };

    ghost inverse = { kept_of };

    ghost inverse_ok = { kept_of-text_kept };
}

impl KomiText {
    /// The komi `0.0`.
    pub fn zero() -> KomiText
        ensures { result ≡ codes "0.0" }
    {
        let mut text = KomiText::empty();
        text.push(b'0');
        text.push(b'.');
        text.push(b'0');
        text
    }

    /// The bytes of the text.
    pub fn as_slice(&self) -> &[u8]
        ensures text { result.now ≡ self.now }
        ensures short { length result.now ≤ komi_room }
    {
        &self.bytes[..self.len]
    }

    /// The komi that a word writes, if it has the form of a komi: perhaps a sign, digits, perhaps a point and digits.
    pub fn named(word: &[u8]) -> Option<KomiText>
        ensures { result ≡ komi_of (kept word.now) }
    {
        let text = KomiText::copied(word)?;
        if is_komi(text.as_slice()) {
            Some(text)
        } else {
            None
        }
    }

    /// The text without any byte.
    fn empty() -> KomiText
        ensures { result ≡ [] }
    {
        KomiText {
            bytes: [0; MAX_KOMI],
            len: 0,
        }
    }

    /// Whether the text has 32 bytes, so that there is no room for another.
    fn is_full(&self) -> bool
        ensures full { IsTrue result ↔ (length self.now ≡ komi_room) }
        ensures short { length self.now ≤ komi_room }
    {
        self.len == MAX_KOMI
    }

    /// Appends a byte to the text.
    fn push(&mut self, b: u8)
        requires { length self.old < komi_room }
        ensures { self.new ≡ self.old ++ b ∷ [] }
    {
        let _ = &self.len;
        self.bytes[self.len] = b;
        self.len += 1;
    }

    /// The kept bytes of a word, or `None` if there are more than 32.
    fn copied(word: &[u8]) -> Option<KomiText>
        ensures { MatchOption result (komi_room < length (kept word.now)) (λ text. text ≡ kept word.now) }
    {
        let mut text = KomiText::empty();
        for b in word {
            if !is_kept(*b) {
                continue;
            }
            if text.is_full() {
                return None;
            }
            text.push(*b);
        }
        Some(text)
    }
}

/// Whether each byte of a text is a digit.
fn all_digits(text: &[u8]) -> bool
    ensures { result ≡ list_all is_ascii_digit text.now }
{
    text.iter().all(|b| b.is_ascii_digit())
}

/// Whether a text has at least one byte and only digits.
fn is_digits(text: &[u8]) -> bool
    ensures { result ≡ is_number text.now }
{
    !text.is_empty() && all_digits(text)
}

/// The text without a sign at its front.
fn without_sign(text: &[u8]) -> &[u8]
    ensures { result.now ≡ without_sign text.now }
{
    match text.split_first() {
        Some((first, rest)) => {
            if *first == b'+' || *first == b'-' {
                rest
            } else {
                text
            }
        }
        None => text,
    }
}

/// How many bytes stand before the first point, or how many bytes there are if there is no point.
fn point_place(text: &[u8]) -> usize
    ensures first { result ≡ position_or_len (λ b. b == point) text.now }
    ensures bound { result ≤ length text.now }
{
    for (i, b) in text.iter().enumerate() {
        if *b == b'.' {
            return i;
        }
    }
    text.len()
}

/// The bytes after the first point, or none if there is no point.
fn behind_point(text: &[u8]) -> &[u8]
    ensures { result.now ≡ after_first (λ b. b == point) text.now }
{
    let place = point_place(text);
    if place < text.len() {
        &text[place + 1..]
    } else {
        &[]
    }
}

/// Whether a text is digits, or digits, a point and digits.
fn is_decimal(text: &[u8]) -> bool
    ensures { result ≡ is_decimal text.now }
{
    let place = point_place(text);
    is_digits(text) || is_digits(&text[..place]) && is_digits(behind_point(text))
}

/// Whether a text has the form of a komi.
fn is_komi(text: &[u8]) -> bool
    ensures { result ≡ is_komi text.now }
{
    text.len() <= MAX_KOMI && is_decimal(without_sign(text))
}
