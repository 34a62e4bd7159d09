//! Warnings about the colon line of an entry.

use crate::caution::Caution;
use crate::images;
use crate::items::{of_item, says_value};
use crate::warning::{Warning, warning_at};
use pat_types::{NoMemory, Pattern};
use pattern_lines::{Field, Written, fields};
use std::alloc::Global;

/// The class letters by which the matcher and GNU Go sort patterns.
const CLASSES: &[u8] = b"sOoXxDCcnBAbeEadIJjtTUWFNY";

/// The same letter in the other case.
fn other_case(letter: u8) -> u8 {
    if letter.is_ascii_lowercase() {
        letter.to_ascii_uppercase()
    } else {
        letter.to_ascii_lowercase()
    }
}

/// Whether a field has only letters and `-`.
fn are_classes(field: &[u8]) -> bool {
    field
        .iter()
        .all(|byte| byte.is_ascii_alphabetic() || *byte == b'-')
}

/// A warning about the first class letter of a field that tests nothing, but would in the other case.
fn of_case<'a>(entry: &'a [u8], line: &Written<'a>, field: Field<'a>) -> Option<Warning<'a>> {
    for (at, byte) in field.bytes.iter().enumerate() {
        let letter = *byte;
        let other = other_case(letter);
        if !CLASSES.contains(&letter) && CLASSES.contains(&other) {
            let caution = Caution::ClassCase { letter, other };
            return Some(warning_at(entry, line, field.at.saturating_add(at), caution));
        }
    }
    None
}

/// A warning about the class letters of a colon line. A faulty field gets no warning.
pub(crate) fn of_classes<'a>(
    alloc: Global,
    entry: &'a [u8],
    line: &Written<'a>,
) -> Result<Option<Warning<'a>>, NoMemory> {
    match fields(alloc, line.bytes)?.as_slice() {
        [_, field, ..] if are_classes(field.bytes) => Ok(of_case(entry, line, *field)),
        _ => Ok(None),
    }
}

/// Appends the warnings about the items of an accepted entry, each in a field of the colon line.
fn push_items<'a>(
    all: &mut Vec<Warning<'a>>,
    entry: &'a [u8],
    line: &Written<'a>,
    items: &[Field<'a>],
    pattern: &Pattern,
) -> Result<(), NoMemory> {
    let mut is_said = false;
    for (item, field) in pattern.items.as_slice().iter().zip(items) {
        if let Some(caution) = of_item(item, *field, is_said) {
            all.push(warning_at(entry, line, field.at, caution))?;
        }
        is_said = is_said || says_value(item);
    }
    Ok(())
}

/// Appends the warnings about the mark and the items of an accepted entry.
pub(crate) fn push_mark_and_items<'a>(
    alloc: Global,
    all: &mut Vec<Warning<'a>>,
    entry: &'a [u8],
    line: &Written<'a>,
    pattern: &Pattern,
) -> Result<(), NoMemory> {
    let fields = fields(alloc, line.bytes)?;
    if let Some(mark) = fields.first()
        && let Some(caution) = images::of_mark(pattern)
    {
        all.push(warning_at(entry, line, mark.at, caution))?;
    }
    let items = fields.as_slice().get(2..).unwrap_or(&[]);
    push_items(all, entry, line, items, pattern)
}
