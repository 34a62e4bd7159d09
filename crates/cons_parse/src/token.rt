//! The tokens of an expression.

ghost use Rattle.std.specs.Prelude.{◌≡◌, ◌≤◌, ◌<◌, ◌+◌, ◌==◌, ◌&&◌, ◌||◌, nat_lt, ℕ, length, IfSome};
ghost use Rattle.std.specs.Prelude.{true, slice_index};
ghost use Rattle.std.specs.List.{prefix_len};
ghost use Rattle.cons_parse.specs.Tokens.{is_letter as letter, is_digit as digit, is_name_byte as name_byte};
ghost use Rattle.cons_parse.specs.Tokens.{value_of as value, name_of as name_in};
ghost use Rattle.cons_parse.specs.Tokens.{two_at as two, one_at as one, first_sign, first_token};
ghost use Rattle.cons_parse.specs.Tokens.{tokens_of as all_tokens};
ghost use Rattle.cons_parse.specs.Answers.{Gives};

use crate::error::ConsError;
use crate::function_names::function_named;
use db_lex::is_blank;
use pat_types::{Function, Op};
use std::alloc::Global;

/// The most digits that a number may have.
const MOST_DIGITS: usize = 6;

/// A name: one letter, the name of a function, or any other name.
#[derive(Clone, Copy, Debug, PartialEq, Eq)]
pub enum Name {
    /// One letter, which may be an argument.
    Letter(u8),
    /// The name of a function.
    Known(Function),
    /// Any other name.
    Unknown,
}

/// A token. `-` is the operator `Sub` even if it is a sign before its operand.
#[derive(Clone, Copy, Debug, PartialEq, Eq)]
pub enum Token {
    /// A number of at most six digits.
    Number(u32),
    /// A name.
    Called(Name),
    /// A binary operator, or the sign `-`.
    Operator(Op),
    /// `!`.
    Bang,
    /// `(`.
    Open,
    /// `)`.
    Close,
    /// `,`.
    Comma,
    /// `*`, the point of the pattern's move.
    Asterisk,
    /// `?`, a pass.
    Question,
}

/// Whether a byte is an ASCII letter.
fn is_letter(b: u8) -> bool
    ensures { result ≡ letter b }
{
    (65 <= b && b <= 90) || (97 <= b && b <= 122)
}

/// Whether a byte is a digit.
fn is_digit(b: u8) -> bool
    ensures { result ≡ digit b }
{
    48 <= b && b <= 57
}

/// Whether a byte may stand in a name.
fn is_name_byte(b: u8) -> bool
    ensures { result ≡ name_byte b }
{
    is_letter(b) || is_digit(b) || b == b'_'
}

/// How many digits stand at the front of `bytes`.
fn digits_len(bytes: &[u8]) -> usize
    ensures value { result ≡ prefix_len digit bytes.now }
    ensures within { result ≤ length bytes.now }
{
    for (i, b) in bytes.iter().enumerate() {
        if !is_digit(*b) {
            return i;
        }
    }
    bytes.len()
}

/// How many letters, digits and `_` stand at the front of `bytes`.
fn name_len(bytes: &[u8]) -> usize
    ensures value { result ≡ prefix_len name_byte bytes.now }
    ensures within { result ≤ length bytes.now }
{
    for (i, b) in bytes.iter().enumerate() {
        if !is_name_byte(*b) {
            return i;
        }
    }
    bytes.len()
}

/// Whether a number of one digit and `more` further digits is too long.
fn are_too_many(more: usize) -> bool
    ensures { result ≡ nat_lt 5 more }
{
    more >= MOST_DIGITS
}

/// The number that at most `MOST_DIGITS` digits write.
fn value_of(digits: &[u8]) -> u32
    requires few { length digits.now ≤ MOST_DIGITS }
    requires digits { (i : ℕ) → i < length digits.now → digit (slice_index digits.now i) ≡ true }
    ensures { result ≡ value digits.now }
{
    let mut n: u32 = 0;
    for d in digits {
        n = n * 10 + (*d - 48) as u32;
    }
    n
}

/// The name that `bytes` spell.
fn name_of(bytes: &[u8]) -> Name
    ensures { result ≡ name_in bytes.now }
{
    match bytes {
        [letter] => Name::Letter(*letter),
        _ => match function_named(bytes) {
            Some(function) => Name::Known(function),
            None => Name::Unknown,
        },
    }
}

/// The token that the two bytes `b` and `c` spell, if there is one.
fn two_at(b: u8, c: u8) -> Option<Token>
    ensures { result ≡ two b c }
{
    if b == b'|' && c == b'|' {
        Some(Token::Operator(Op::Or))
    } else if b == b'&' && c == b'&' {
        Some(Token::Operator(Op::And))
    } else if b == b'=' && c == b'=' {
        Some(Token::Operator(Op::Eq))
    } else if b == b'!' && c == b'=' {
        Some(Token::Operator(Op::Ne))
    } else if b == b'<' && c == b'=' {
        Some(Token::Operator(Op::Le))
    } else if b == b'>' && c == b'=' {
        Some(Token::Operator(Op::Ge))
    } else {
        None
    }
}

/// The token that the byte `b` alone spells, if there is one.
fn one_at(b: u8) -> Option<Token>
    ensures { result ≡ one b }
{
    match b {
        b'<' => Some(Token::Operator(Op::Lt)),
        b'>' => Some(Token::Operator(Op::Gt)),
        b'+' => Some(Token::Operator(Op::Add)),
        b'-' => Some(Token::Operator(Op::Sub)),
        b'!' => Some(Token::Bang),
        b'(' => Some(Token::Open),
        b')' => Some(Token::Close),
        b',' => Some(Token::Comma),
        b'*' => Some(Token::Asterisk),
        b'?' => Some(Token::Question),
        _ => None,
    }
}

/// The longest sign at the front of `bytes`, and how many bytes it has after its first.
fn sign_at(bytes: &[u8]) -> Option<(Token, usize)>
    requires { 0 < length bytes.now }
    ensures value { result ≡ first_sign bytes.now }
    ensures within { IfSome result (λ t. t.1 < length bytes.now) }
{
    if bytes.len() > 1 {
        if let Some(token) = two_at(bytes[0], bytes[1]) {
            return Some((token, 1));
        }
    }
    match one_at(bytes[0]) {
        Some(token) => Some((token, 0)),
        None => None,
    }
}

/// The longest token at the front of `bytes`, and how many bytes it has after its first; `None` if no token begins
/// there.
fn token_at(bytes: &[u8]) -> Option<(Token, usize)>
    requires { 0 < length bytes.now }
    ensures value { result ≡ first_token bytes.now }
    ensures within { IfSome result (λ t. t.1 < length bytes.now) }
{
    if is_digit(bytes[0]) {
        let more = digits_len(&bytes[1..]);
        if are_too_many(more) {
            return None;
        }
        Some((Token::Number(value_of(&bytes[..more + 1])), more))
    } else if is_letter(bytes[0]) {
        let more = name_len(&bytes[1..]);
        Some((Token::Called(name_of(&bytes[..more + 1])), more))
    } else {
        sign_at(bytes)
    }
}

/// The tokens of `text`; `Syntax` if it is not made of tokens and blanks.
pub fn tokens_of(alloc: Global, text: &[u8]) -> Result<Vec<Token>, ConsError>
    ensures { Gives (λ v. v.items) result (all_tokens text.now) }
{
    let mut tokens = Vec::new(alloc);
    let mut at = 0;
    while at < text.len() {
        if is_blank(text[at]) {
            at += 1;
            continue;
        }
        match token_at(&text[at..]) {
            Some((token, more)) => {
                tokens.push(token)?;
                at += 1 + more;
            }
            None => return Err(ConsError::Syntax),
        }
    }
    Ok(tokens)
}
