//! Faults of a colon line.

use super::{Seen, seen_at};
use crate::cause::Cause;
use db_read::{DbError, read};
use go_base::Bytes;
use pat_types::NoMemory;
use pattern_lines::{Field, Written, fields};
use std::alloc::Global;

/// The text of an entry up to its items; any item may follow.
const BEFORE_ITEM: &[u8] = b"Pattern A\nO*\n:8,s,";

/// The most class letters that an entry may have.
const MOST_CLASSES: usize = 32;

/// The most items that an entry may have.
const MOST_ITEMS: usize = 16;

/// The kind of the fault of an item, or 0 if it has no fault.
fn item_kind(alloc: Global, helpers: &[Bytes], item: &[u8]) -> Result<u8, NoMemory> {
    let mut text = Vec::new(alloc);
    text.extend_from_slice(BEFORE_ITEM)?;
    text.extend_from_slice(item)?;
    match read(alloc, text.as_slice(), helpers, Vec::new(alloc)) {
        Ok(_) => Ok(0),
        Err(DbError::Fault { line: _, kind }) => Ok(kind),
        Err(DbError::NoMemory) => Err(NoMemory),
    }
}

/// The cause of a class field that is an item.
fn item_for_classes<'a>(line: &Written<'a>, mark: Field<'a>, field: Field<'a>) -> Seen<'a> {
    let cause = Cause::NoClasses {
        item: field.bytes,
        mark: mark.bytes,
    };
    seen_at(line, field.at, cause)
}

/// The cause of a class field that is not an item.
fn classes<'a>(line: &Written<'a>, field: Field<'a>) -> Option<Seen<'a>> {
    if field.bytes.len() > MOST_CLASSES {
        let cause = Cause::ManyClassLetters(field.bytes.len());
        return Some(seen_at(line, field.at, cause));
    }
    for (at, byte) in field.bytes.iter().enumerate() {
        if !byte.is_ascii_alphabetic() && *byte != b'-' {
            return Some(seen_at(line, field.at.saturating_add(at), Cause::ClassLetter(*byte)));
        }
    }
    None
}

/// The cause of the first item with a fault of this `kind`.
fn items<'a>(
    alloc: Global,
    helpers: &[Bytes],
    line: &Written<'a>,
    items: &[Field<'a>],
    kind: u8,
) -> Result<Option<Seen<'a>>, NoMemory> {
    for item in items {
        if item_kind(alloc, helpers, item.bytes)? == kind {
            let cause = match kind {
                17 => Cause::Helper(item.bytes),
                _ => Cause::Item(item.bytes),
            };
            return Ok(Some(seen_at(line, item.at, cause)));
        }
    }
    let Some(item) = items.get(MOST_ITEMS) else {
        return Ok(None);
    };
    Ok(Some(seen_at(line, item.at, Cause::ManyItems(items.len()))))
}

/// The cause of a fault of a colon line.
pub(crate) fn named<'a>(
    alloc: Global,
    helpers: &[Bytes],
    line: &Written<'a>,
    kind: u8,
) -> Result<Option<Seen<'a>>, NoMemory> {
    let fields = fields(alloc, line.bytes)?;
    match (kind, fields.as_slice()) {
        (11, [mark, ..]) => Ok(Some(seen_at(line, mark.at, Cause::Mark(mark.bytes)))),
        (12, [mark, field, ..]) if item_kind(alloc, helpers, field.bytes)? == 0 => {
            Ok(Some(item_for_classes(line, *mark, *field)))
        }
        (12, [_, field, ..]) => Ok(classes(line, *field)),
        (_, [_, _, rest @ ..]) => items(alloc, helpers, line, rest, kind),
        _ => Ok(None),
    }
}
