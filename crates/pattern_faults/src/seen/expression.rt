//! Faults of an expression.

use super::constraint::is_label;
use super::{Seen, places_of, seen_at};
use crate::cause::Cause;
use cons_parse::{ConsError, parse};
use pat_types::NoMemory;
use pattern_lines::{Role, Sort, Token, Written, is_letter, tokens};
use std::alloc::Global;

/// The most digits that a number may have.
const MOST_DIGITS: usize = 6;

/// Lists of arguments, each with one more than the list above. No function takes more than the last list has.
const ARGUMENTS: [&[u8]; 12] = [
    b"()",
    b"(*)",
    b"(*,*)",
    b"(*,*,*)",
    b"(*,*,*,*)",
    b"(*,*,*,*,*)",
    b"(*,*,*,*,*,*)",
    b"(*,*,*,*,*,*,*)",
    b"(*,*,*,*,*,*,*,*)",
    b"(*,*,*,*,*,*,*,*,*)",
    b"(*,*,*,*,*,*,*,*,*,*)",
    b"(*,*,*,*,*,*,*,*,*,*,*)",
];

/// What an expression, read from the left, needs next.
#[derive(Clone, Copy, PartialEq, Eq)]
enum Wanted {
    /// A number, a call, a sign or a parenthesis.
    Operand,
    /// An operator, a closing parenthesis or the end.
    Operator,
    /// The opening parenthesis behind the name of a function.
    Arguments,
    /// The first argument, or the end of the arguments.
    FirstArgument,
    /// An argument.
    Argument,
    /// A comma or the end of the arguments.
    Comma,
}

/// A cause that is seen at a word.
fn at_word<'a>(word: &Token<'a>, cause: Cause<'a>) -> Seen<'a> {
    Seen {
        place: word.place,
        cause,
    }
}

/// The operator that may be meant by the bytes at the front, and how many bytes it replaces.
fn operator_meant(bytes: &[u8]) -> Option<(usize, &'static [u8])> {
    match bytes {
        [b'=', b'>', ..] => Some((2, b">=".as_slice())),
        [b'=', b'<', ..] => Some((2, b"<=".as_slice())),
        [b'=', ..] => Some((1, b"==".as_slice())),
        [b'&', ..] => Some((1, b"&&".as_slice())),
        [b'|', ..] => Some((1, b"||".as_slice())),
        _ => None,
    }
}

/// The cause of a word that may not stand in an expression.
fn bad_word<'a>(word: &Token<'a>) -> Cause<'a> {
    let from = word.place.column.saturating_sub(1);
    let rest = word.place.text.get(from..).unwrap_or(word.bytes);
    match operator_meant(rest) {
        Some((len, meant)) => Cause::NoSuchOperator {
            bytes: rest.get(..len).unwrap_or(rest),
            meant,
        },
        None => Cause::ExpressionByte(word.bytes.first().copied().unwrap_or(0)),
    }
}

/// What is wanted behind `word`, or the cause why `word` may not stand in a place that needs `wanted`.
fn next<'a>(wanted: Wanted, word: &Token<'a>, open: usize) -> Result<Wanted, Cause<'a>> {
    match (wanted, word.sort) {
        (_, Sort::Bad) => Err(bad_word(word)),
        (_, Sort::Number) if word.bytes.len() > MOST_DIGITS => Err(Cause::LongNumber),
        (Wanted::Operand, Sort::Number) => Ok(Wanted::Operator),
        (Wanted::Operand, Sort::Name) => Ok(Wanted::Arguments),
        (Wanted::Operand, Sort::Not | Sort::Minus | Sort::Open) => Ok(Wanted::Operand),
        (Wanted::Operand, _) => Err(Cause::NoOperand(word.bytes)),
        (Wanted::Operator, Sort::Operator | Sort::Minus) => Ok(Wanted::Operand),
        (Wanted::Operator, Sort::Close) if open == 0 => Err(Cause::Unopened),
        (Wanted::Operator, Sort::Close) => Ok(Wanted::Operator),
        (Wanted::Operator, _) => Err(Cause::NoOperator(word.bytes)),
        (Wanted::Arguments, Sort::Open) => Ok(Wanted::FirstArgument),
        (Wanted::Arguments, _) => Err(Cause::NoArguments(word.bytes)),
        (Wanted::FirstArgument, Sort::Close) => Ok(Wanted::Operator),
        (Wanted::FirstArgument | Wanted::Argument, Sort::Sign) => Ok(Wanted::Comma),
        (Wanted::FirstArgument | Wanted::Argument, Sort::Name) if word.bytes.len() == 1 => {
            Ok(Wanted::Comma)
        }
        (Wanted::FirstArgument | Wanted::Argument, _) => Err(Cause::NoArgument(word.bytes)),
        (Wanted::Comma, Sort::Comma) => Ok(Wanted::Argument),
        (Wanted::Comma, Sort::Close) => Ok(Wanted::Operator),
        (Wanted::Comma, _) => Err(Cause::NoComma(word.bytes)),
    }
}

/// The cause of an expression that ends while something else is `wanted` or parentheses are `open`.
fn at_end<'a>(wanted: Wanted, open: usize, last: &Token<'a>) -> Option<Seen<'a>> {
    let cause = match wanted {
        Wanted::Operand => Cause::EndsEarly,
        Wanted::Operator if open == 0 => return None,
        Wanted::Arguments => Cause::NoArguments(last.bytes),
        _ => Cause::Unclosed,
    };
    Some(at_word(last, cause))
}

/// The first word that breaks the grammar, or the fault at the end of the expression.
fn unspelled<'a>(words: &[Token<'a>]) -> Option<Seen<'a>> {
    let mut wanted = Wanted::Operand;
    let mut open: usize = 0;
    let mut before = *words.first()?;
    for word in words {
        let after = match next(wanted, word, open) {
            Ok(after) => after,
            Err(Cause::NoArguments(_)) => {
                return Some(at_word(&before, Cause::NoArguments(before.bytes)));
            }
            Err(cause) => return Some(at_word(word, cause)),
        };
        match (wanted, word.sort) {
            (Wanted::Operand, Sort::Open) => open = open.saturating_add(1),
            (Wanted::Operator, Sort::Close) => open = open.saturating_sub(1),
            _ => {}
        }
        before = *word;
        wanted = after;
    }
    at_end(wanted, open, &before)
}

/// Whether the word at index `at` is the name of a call.
fn is_called(words: &[Token<'_>], at: usize) -> bool {
    match (words.get(at), words.get(at.saturating_add(1))) {
        (Some(word), Some(next)) => word.sort == Sort::Name && next.sort == Sort::Open,
        _ => false,
    }
}

/// The index of the parenthesis that ends the arguments of the call with its name at index `name`.
fn end_of_arguments(words: &[Token<'_>], name: usize) -> usize {
    for (at, word) in words.iter().enumerate() {
        if at > name.saturating_add(1) && word.sort == Sort::Close {
            return at;
        }
    }
    words.len()
}

/// Whether a function called `name` takes these `arguments`.
fn takes(alloc: Global, name: &[u8], arguments: &[u8]) -> Result<bool, NoMemory> {
    let mut text = Vec::new(alloc);
    text.extend_from_slice(name)?;
    text.extend_from_slice(arguments)?;
    match parse(alloc, text.as_slice(), &[]) {
        Ok(_) => Ok(true),
        Err(ConsError::NoMemory) => Err(NoMemory),
        Err(_) => Ok(false),
    }
}

/// The least and the greatest number of arguments that a function called `name` takes; `None` if there is no such
/// function.
fn arity(alloc: Global, name: &[u8]) -> Result<Option<(usize, usize)>, NoMemory> {
    let mut found: Option<(usize, usize)> = None;
    for (count, arguments) in ARGUMENTS.iter().enumerate() {
        if takes(alloc, name, arguments)? {
            let (least, _) = found.unwrap_or((count, count));
            found = Some((least, count));
        }
    }
    Ok(found)
}

/// The cause of a faulty call. `given` are its arguments with the commas between them.
fn miscalled<'a>(
    alloc: Global,
    name: &Token<'a>,
    given: &[Token<'a>],
    wrong: ConsError,
) -> Result<Option<Seen<'a>>, NoMemory> {
    let count = given.len().saturating_add(1) / 2;
    let cause = match (arity(alloc, name.bytes)?, wrong) {
        (None, ConsError::UnknownFunction) => Cause::Function(name.bytes),
        (Some((least, most)), ConsError::Arity) if count < least || most < count => Cause::Arity {
            name: name.bytes,
            arguments: count,
            least,
            most,
        },
        (Some(_), ConsError::Arity) => return Ok(stray_pass(name, given)),
        _ => return Ok(None),
    };
    Ok(Some(at_word(name, cause)))
}

/// The first pass among the arguments of a call that does not take a pass there.
fn stray_pass<'a>(name: &Token<'a>, given: &[Token<'a>]) -> Option<Seen<'a>> {
    let moves = name.bytes.starts_with(b"oplay_".as_slice())
        || name.bytes.starts_with(b"xplay_".as_slice());
    let last = given.len().saturating_sub(1);
    for (at, word) in given.iter().enumerate() {
        if word.bytes == b"?".as_slice() && (!moves || at == last) {
            return Some(at_word(word, Cause::Pass(name.bytes)));
        }
    }
    None
}

/// Whether one of the lines of the constraint diagram has this label.
fn has_label(constraint: &[Written<'_>], label: u8) -> bool {
    for line in constraint {
        if is_label(label) && line.word().contains(&label) {
            return true;
        }
    }
    false
}

/// The cause of a letter that is not a label.
fn no_label<'a>(letter: u8) -> Cause<'a> {
    if is_letter(letter) {
        Cause::StoneLabel(letter)
    } else {
        Cause::Label(letter)
    }
}

/// The first of these arguments that is a letter, but not a label.
fn unlabelled<'a>(constraint: &[Written<'a>], given: &[Token<'a>]) -> Option<Seen<'a>> {
    for word in given {
        if word.sort != Sort::Name {
            continue;
        }
        let letter = word.bytes.first().copied().unwrap_or(0);
        if !has_label(constraint, letter) {
            return Some(at_word(word, no_label(letter)));
        }
    }
    None
}

/// The first call with the fault `wrong`.
fn first_call<'a>(
    alloc: Global,
    words: &[Token<'a>],
    constraint: &[Written<'a>],
    wrong: ConsError,
) -> Result<Option<Seen<'a>>, NoMemory> {
    for (at, word) in words.iter().enumerate() {
        if !is_called(words, at) {
            continue;
        }
        let arguments = at.saturating_add(2)..end_of_arguments(words, at);
        let given = words.get(arguments).unwrap_or(&[]);
        let found = match wrong {
            ConsError::UnknownLabel => unlabelled(constraint, given),
            _ => miscalled(alloc, word, given, wrong)?,
        };
        if found.is_some() {
            return Ok(found);
        }
    }
    Ok(None)
}

/// The text of an expression: the text behind the `;` of each of its lines, joined by blanks. A line may have only its
/// `;`.
fn joined(alloc: Global, lines: &[Written<'_>]) -> Result<Vec<u8>, NoMemory> {
    let mut text = Vec::new(alloc);
    for (at, line) in lines.iter().enumerate() {
        if at > 0 {
            text.push(b' ')?;
        }
        text.extend_from_slice(line.bytes.get(1..).unwrap_or(&[]))?;
    }
    Ok(text)
}

/// The cause of an expression that breaks the grammar.
fn no_expression<'a>(text: &[u8], first: &Written<'a>, words: &[Token<'a>]) -> Option<Seen<'a>> {
    if text.len() > 4096 {
        return Some(seen_at(first, 0, Cause::LongExpression));
    }
    if words.is_empty() {
        return Some(seen_at(first, 0, Cause::EndsEarly));
    }
    unspelled(words)
}

/// The cause of a fault in the expression of an entry with these `lines`.
pub(crate) fn said<'a>(
    alloc: Global,
    lines: &[Written<'a>],
    kind: u8,
) -> Result<Option<Seen<'a>>, NoMemory> {
    let own = lines.get(places_of(lines, Role::Expression)).unwrap_or(&[]);
    let Some(first) = own.first() else {
        return Ok(None);
    };
    let constraint = lines.get(places_of(lines, Role::Constraint)).unwrap_or(&[]);
    let words = tokens(alloc, lines)?;
    if kind == 16 {
        return first_call(alloc, words.as_slice(), constraint, ConsError::UnknownLabel);
    }
    let text = joined(alloc, own)?;
    match parse(alloc, text.as_slice(), &[]) {
        Err(ConsError::NoMemory) => Err(NoMemory),
        Err(ConsError::Syntax) => Ok(no_expression(text.as_slice(), first, words.as_slice())),
        Err(ConsError::TooDeep) => Ok(Some(seen_at(first, 0, Cause::Deep))),
        Err(wrong) => first_call(alloc, words.as_slice(), constraint, wrong),
        Ok(_) => Ok(None),
    }
}
