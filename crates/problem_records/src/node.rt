//! The first node of a record, and its values with the names of their properties.

ghost use Rattle.std.specs.Prelude.{◌≡◌, ◌≤◌, length, IfOk, false};
ghost use Rattle.std.specs.List.{filter};
ghost use Rattle.std.specs.Str.{bytes_eq};
ghost use Rattle.sgf_rules.specs.Tokens.{is_capital, said};
ghost use Rattle.sgf_rules.specs.MainLine.{properties_in};
ghost use Rattle.sgf_read.specs.Reads.{tokens_from};
ghost use Rattle.problem_records.specs.Nodes.{first_node, named_values, comment_of, all_shown};

use go_base::{Bytes, NoMemory};
use sgf_read::{takes, token_from, tree_start, write_capitals};
use sgf_rules::TokenKind;
use std::alloc::{AllocError, Global};

/// A value of a node, with the letters of its property.
#[derive(Clone, Copy)]
pub(crate) struct NamedValue<'a> {
    /// The letters of the property.
    pub(crate) name: &'a [u8],
    /// The bytes between the brackets.
    pub(crate) value: &'a [u8],
}

/// The index at which the properties of the first node begin. If no node stands before the first `)` of the text, it is
/// the length of the text.
pub(crate) fn first_node_start(text: &[u8]) -> usize
    ensures within { result ≤ length text.now }
    ensures node { properties_in (tokens_from text.now result) ≡ first_node text.now }
{
    let mut at = tree_start(text);
    'tokens: while let Some(token) = token_from(text, at) {
        match token.kind {
            TokenKind::Semicolon => return token.next,
            TokenKind::Close => return text.len(),
            _ => at = token.next,
        }
    }
    text.len()
}

/// The values of the node whose properties begin at the index `start`.
pub(crate) fn values_at<'a>(
    alloc: Global,
    text: &'a [u8],
    start: usize,
) -> Result<Vec<NamedValue<'a>>, AllocError>
    requires { start ≤ length text.now }
    ensures { IfOk result (λ values. all_shown values.items
        ≡ named_values (properties_in (tokens_from text.now start))) }
{
    let mut values = Vec::new(alloc);
    let mut name: Option<&[u8]> = None;
    let mut at = start;
    'tokens: while let Some(token) = token_from(text, at) {
        let bytes = &text[token.from..token.to];
        match token.kind {
            TokenKind::Name => name = Some(bytes),
            TokenKind::Value => {
                if let Some(name) = name {
                    values.push(NamedValue { name, value: bytes })?;
                }
            }
            _ => return Ok(values),
        }
        at = token.next;
    }
    Ok(values)
}

/// The index behind the values of the node whose properties begin at the index `start`.
pub(crate) fn values_end(text: &[u8], start: usize) -> usize
    requires { start ≤ length text.now }
    ensures { result ≤ length text.now }
{
    let mut at = start;
    'tokens: while let Some(token) = token_from(text, at) {
        match token.kind {
            TokenKind::Name | TokenKind::Value => at = token.next,
            _ => return at,
        }
    }
    at
}

/// Whether `bytes` and `wanted` are the same bytes.
pub(crate) fn are_same(bytes: &[u8], wanted: &[u8]) -> bool
    ensures { result ≡ bytes_eq bytes.now wanted.now }
{
    bytes == wanted
}

/// Whether the capitals among `letters` are `name`, which has at most two.
pub(crate) fn is_named(letters: &[u8], name: &[u8]) -> bool
    requires { length name.now ≤ 2 }
    ensures { result ≡ bytes_eq (filter is_capital letters.now) name.now }
{
    let mut capitals = [0; 3];
    let count = write_capitals(letters, &mut capitals);
    &capitals[..count] == name
}

/// The bytes that a value says, without its backslashes.
pub(crate) fn said(alloc: Global, value: &[u8]) -> Result<Bytes, NoMemory>
    ensures { IfOk result (λ bytes. bytes ≡ said false value.now) }
{
    let mut bytes = Bytes::new(alloc);
    let mut taken = false;
    for b in value {
        taken = takes(taken, *b);
        if !taken {
            bytes.push(*b)?;
        }
    }
    Ok(bytes)
}

/// The comments among these values, each with a line feed behind it.
pub(crate) fn comment(alloc: Global, values: &[NamedValue<'_>]) -> Result<Bytes, NoMemory>
    ensures { IfOk result (λ bytes. bytes ≡ comment_of (all_shown values.now)) }
{
    let mut text = Bytes::new(alloc);
    for value in values {
        if is_named(value.name, b"C") {
            text.extend(said(alloc, value.value)?.as_slice())?;
            text.push(b'\n')?;
        }
    }
    Ok(text)
}
