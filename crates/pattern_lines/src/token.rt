//! The words of an expression, each with its place.

use crate::place::Place;
use crate::written::{Role, Written};
use db_lex::is_blank;
use pat_types::NoMemory;
use std::alloc::Global;

/// The kind of a word of an expression.
#[derive(Clone, Copy, PartialEq, Eq)]
pub enum Sort {
    /// A number.
    Number,
    /// A name, or an argument's letter.
    Name,
    /// An operator that can only stand between two operands.
    Operator,
    /// `-`, which may also stand before an operand.
    Minus,
    /// `!`.
    Not,
    /// `(`.
    Open,
    /// `)`.
    Close,
    /// `,`.
    Comma,
    /// `*` or `?`.
    Sign,
    /// A byte that no expression has.
    Bad,
}

/// A word of an expression.
#[derive(Clone, Copy)]
pub struct Token<'a> {
    /// The kind of the word.
    pub sort: Sort,
    /// The bytes of the word.
    pub bytes: &'a [u8],
    /// The place where the word begins.
    pub place: Place<'a>,
}

/// The number of bytes at the front that pass `test`.
fn front_len<F: Fn(u8) -> bool>(bytes: &[u8], test: F) -> usize
    requires { F.IsAlwaysCallable test }
{
    bytes
        .iter()
        .position(|byte| !test(*byte))
        .unwrap_or(bytes.len())
}

/// The kind of the word at the front of `bytes`, and its length. There has to be a byte.
fn front_word(bytes: &[u8]) -> (Sort, usize) {
    match bytes {
        [b'0'..=b'9', ..] => (Sort::Number, front_len(bytes, |byte| byte.is_ascii_digit())),
        [first, ..] if first.is_ascii_alphabetic() => (
            Sort::Name,
            front_len(bytes, |byte| byte.is_ascii_alphanumeric() || byte == b'_'),
        ),
        [b'|', b'|', ..] | [b'&', b'&', ..] | [b'=' | b'!' | b'<' | b'>', b'=', ..] => {
            (Sort::Operator, 2)
        }
        [b'<' | b'>' | b'+', ..] => (Sort::Operator, 1),
        [b'-', ..] => (Sort::Minus, 1),
        [b'!', ..] => (Sort::Not, 1),
        [b'(', ..] => (Sort::Open, 1),
        [b')', ..] => (Sort::Close, 1),
        [b',', ..] => (Sort::Comma, 1),
        [b'*' | b'?', ..] => (Sort::Sign, 1),
        _ => (Sort::Bad, 1),
    }
}

/// Appends the words of an expression line to `all`.
fn push_line<'a>(all: &mut Vec<Token<'a>>, line: Written<'a>) -> Result<(), NoMemory> {
    let mut ends = 1;
    for at in 1..line.bytes.len() {
        let rest = &line.bytes[at..];
        if at < ends || is_blank(line.bytes[at]) {
            continue;
        }
        let (sort, len) = front_word(rest);
        all.push(Token {
            sort,
            bytes: rest.get(..len).unwrap_or(rest),
            place: line.place(at),
        })?;
        ends = at.saturating_add(len);
    }
    Ok(())
}

/// The words of the expression of an entry with these `lines`, in order. Takes memory.
pub fn tokens<'a>(alloc: Global, lines: &[Written<'a>]) -> Result<Vec<Token<'a>>, NoMemory> {
    let mut all = Vec::new(alloc);
    for line in lines {
        if line.role == Role::Expression {
            push_line(&mut all, *line)?;
        }
    }
    Ok(all)
}
