//! The lines of one part of a text, sorted by their roles.

use crate::bytes::{is_feed, is_no_blank};
use crate::part::{Part, is_pattern_line};
use crate::place::Place;
use db_lex::{trim, word_len};
use pat_types::NoMemory;
use std::alloc::Global;

/// The role of a line in an entry.
#[derive(Clone, Copy, PartialEq, Eq)]
pub enum Role {
    /// A line before the first entry.
    Front,
    /// The Pattern line.
    Head,
    /// A line of the diagram.
    Diagram,
    /// The colon line.
    Colon,
    /// A line of the constraint diagram.
    Constraint,
    /// An expression line.
    Expression,
    /// An action line.
    Action,
    /// A line in a wrong place, or a line behind such a line.
    Stray,
}

/// A line that counts: it has more than blanks, and is not a comment.
#[derive(Clone, Copy)]
pub struct Written<'a> {
    /// The role of the line.
    pub role: Role,
    /// The number of the line in the text.
    pub number: u64,
    /// The line as it stands in the text.
    pub whole: &'a [u8],
    /// The line without the blanks at its ends.
    pub bytes: &'a [u8],
}

impl<'a> Written<'a> {
    /// The front of the line up to the first blank. In a row of a diagram this is what is drawn.
    pub fn word(&self) -> &'a [u8] {
        &self.bytes[..word_len(self.bytes)]
    }

    /// The text behind the word, without blanks around it.
    pub fn behind_word(&self) -> &'a [u8] {
        trim(&self.bytes[word_len(self.bytes)..])
    }

    /// The second word of the line; on a Pattern line this is the name.
    pub fn name(&self) -> &'a [u8] {
        let rest = self.behind_word();
        &rest[..word_len(rest)]
    }

    /// The place of the byte at the index `at` of `bytes`, counted from 0. The index may lie behind the last byte.
    pub fn place(&self, at: usize) -> Place<'a> {
        let blanks = self.whole.iter().position(is_no_blank).unwrap_or(0);
        Place {
            line: self.number,
            column: blanks.saturating_add(at).saturating_add(1),
            text: self.whole,
        }
    }
}

/// The role of `line`, which begins with the byte `first` and follows a line of the role `before`.
fn role_after(before: Role, line: &[u8], first: u8) -> Role {
    if is_pattern_line(line) {
        return Role::Head;
    }
    match (before, first) {
        (Role::Front, _) => Role::Front,
        (Role::Head | Role::Diagram, b':') => Role::Colon,
        (Role::Head | Role::Diagram, b';' | b'>') => Role::Stray,
        (Role::Head | Role::Diagram, _) => Role::Diagram,
        (Role::Colon | Role::Constraint | Role::Expression, b';') => Role::Expression,
        (Role::Colon | Role::Constraint | Role::Expression | Role::Action, b'>') => Role::Action,
        (Role::Colon | Role::Constraint, b':') => Role::Stray,
        (Role::Colon | Role::Constraint, _) => Role::Constraint,
        _ => Role::Stray,
    }
}

/// The lines of a part that count, in order. Takes memory.
pub fn lines_in<'a>(alloc: Global, part: Part<'a>) -> Result<Vec<Written<'a>>, NoMemory> {
    let mut all = Vec::new(alloc);
    let mut number = part.number;
    let mut before = Role::Front;
    for whole in part.bytes.split(is_feed) {
        let bytes = trim(whole);
        if let Some(first) = bytes.first()
            && *first != b'#'
        {
            before = role_after(before, whole, *first);
            all.push(Written {
                role: before,
                number,
                whole,
                bytes,
            })?;
        }
        number = number.saturating_add(1);
    }
    Ok(all)
}

/// The name on the Pattern line of a part with these `lines`; empty if they do not begin with a Pattern line.
pub fn name_in<'a>(lines: &[Written<'a>]) -> &'a [u8] {
    match lines.first() {
        Some(line) if line.role == Role::Head => line.name(),
        _ => &[],
    }
}

/// The Pattern line of a part, if it has one. Takes no memory.
pub fn head_of<'a>(part: &Part<'a>) -> Option<Written<'a>> {
    let whole = part.bytes.split(is_feed).next()?;
    if !is_pattern_line(whole) {
        return None;
    }
    Some(Written {
        role: Role::Head,
        number: part.number,
        whole,
        bytes: trim(whole),
    })
}

/// The name of the entry of a part; empty if the part has no Pattern line. Takes no memory.
pub fn name_of<'a>(part: &Part<'a>) -> &'a [u8] {
    match head_of(part) {
        Some(head) => head.name(),
        None => &[],
    }
}
