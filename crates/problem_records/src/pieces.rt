//! A record in pieces: its signs, and its values with their names.

ghost use Rattle.std.specs.Prelude.{◌≤◌, length};

use crate::node::NamedValue;
use sgf_read::token_from;
use sgf_rules::TokenKind;
use std::alloc::{AllocError, Global};

/// A piece of a record.
#[derive(Clone, Copy)]
pub(crate) enum Piece<'a> {
    /// A tree begins.
    Open,
    /// A tree ends.
    Close,
    /// A node begins.
    Node,
    /// A value of a property.
    Value(NamedValue<'a>),
}

/// The pieces of a record, from the index `start` on.
pub(crate) fn pieces_from<'a>(
    alloc: Global,
    text: &'a [u8],
    start: usize,
) -> Result<Vec<Piece<'a>>, AllocError>
    requires { start ≤ length text.now }
{
    let mut pieces = Vec::new(alloc);
    let mut name: &[u8] = &[];
    let mut at = start;
    'tokens: while let Some(token) = token_from(text, at) {
        let bytes = &text[token.from..token.to];
        match token.kind {
            TokenKind::Open => pieces.push(Piece::Open)?,
            TokenKind::Close => pieces.push(Piece::Close)?,
            TokenKind::Semicolon => pieces.push(Piece::Node)?,
            TokenKind::Name => name = bytes,
            TokenKind::Value => pieces.push(Piece::Value(NamedValue { name, value: bytes }))?,
            TokenKind::Stray => return Ok(pieces),
        }
        at = token.next;
    }
    Ok(pieces)
}
