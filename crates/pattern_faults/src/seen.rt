//! Finds out why a line is refused, by looking at its entry again.

ghost use Rattle.std.specs.Prelude.{◌≡◌, IfOk};

mod colon;
mod constraint;
mod diagram;
mod expression;
mod head;

use crate::cause::Cause;
use crate::fault::Fault;
use go_base::Bytes;
use pat_types::NoMemory;
use pattern_lines::{Part, Place, Role, Written, is_bad, lines_in, name_in};
use std::alloc::Global;
use std::ops::Range;

/// A cause, and the place where it is seen.
#[derive(Clone, Copy)]
pub(crate) struct Seen<'a> {
    /// The place where the cause is seen.
    pub(crate) place: Place<'a>,
    /// The cause.
    pub(crate) cause: Cause<'a>,
}

/// A cause seen at the byte at index `at` of a line.
fn seen_at<'a>(line: &Written<'a>, at: usize, cause: Cause<'a>) -> Seen<'a> {
    Seen {
        place: line.place(at),
        cause,
    }
}

/// The indices of the lines with this `role` above the line `number`; these lines follow each other.
fn places_above(lines: &[Written<'_>], role: Role, number: u64) -> Range<usize> {
    let mut from: usize = 0;
    let mut to: usize = 0;
    for (at, line) in lines.iter().enumerate() {
        if line.role == role && line.number < number {
            from = if to == 0 { at } else { from };
            to = at.saturating_add(1);
        }
    }
    from..to
}

/// The indices of the lines with this `role`.
fn places_of(lines: &[Written<'_>], role: Role) -> Range<usize> {
    places_above(lines, role, u64::MAX)
}

/// The line with this `number`, if it is one of `lines`.
fn line_of<'l, 'a: 'l>(lines: &'l [Written<'a>], number: u64) -> Option<&'l Written<'a>> {
    for line in lines {
        if line.number == number {
            return Some(line);
        }
    }
    None
}

/// A fault of which only the kind is known.
fn unseen<'a>(part: Part<'a>, line: u64, kind: u8) -> Seen<'a> {
    Seen {
        place: Place {
            line,
            column: 1,
            text: part.line(line),
        },
        cause: Cause::Kind(kind),
    }
}

/// The first byte of a line that may not stand in any line, if there is one.
fn bad_byte<'a>(part: Part<'a>, line: u64) -> Option<Seen<'a>> {
    let text = part.line(line);
    let at = text.iter().position(is_bad)?;
    let byte = *text.get(at)?;
    Some(Seen {
        place: Place {
            line,
            column: at.saturating_add(1),
            text,
        },
        cause: Cause::BadByte(byte),
    })
}

/// The cause of a fault with this line and kind, if it is found.
fn look<'a>(
    alloc: Global,
    helpers: &[Bytes],
    part: Part<'a>,
    lines: &[Written<'a>],
    number: u64,
    kind: u8,
) -> Result<Option<Seen<'a>>, NoMemory> {
    match (kind, line_of(lines, number)) {
        (1, _) => Ok(bad_byte(part, number)),
        (2, Some(line)) => Ok(Some(head::stray(line))),
        (3, Some(line)) => Ok(head::name(line)),
        (4, Some(line)) => Ok(Some(seen_at(line, 0, Cause::NoRow))),
        (5..=9, Some(line)) => Ok(diagram::drawn(lines, line, kind)),
        (10, _) => Ok(diagram::endless(lines)),
        (11..=13 | 17, Some(line)) => colon::named(alloc, helpers, line, kind),
        (14, _) => Ok(constraint::repeated(lines, number)),
        (15 | 16, Some(_)) => expression::said(alloc, lines, kind),
        (18, Some(line)) => Ok(Some(seen_at(line, 0, Cause::ManyEntries))),
        _ => Ok(None),
    }
}

/// The fault with this `line` and `kind`, which `part` has, with its cause.
///
/// The line is counted from 1 in the text; the kind is that of `db_read` with `helpers` of these names. If no cause is
/// found, as for a fault that the part does not have, the cause is the kind alone. Takes memory.
pub fn explain<'a>(
    alloc: Global,
    helpers: &[Bytes],
    part: Part<'a>,
    line: u64,
    kind: u8,
) -> Result<Fault<'a>, NoMemory>
    ensures line { IfOk result (λ f. f.line ≡ line) }
    ensures kind { IfOk result (λ f. f.kind ≡ kind) }
{
    let lines = lines_in(alloc, part)?;
    let seen = look(alloc, helpers, part, lines.as_slice(), line, kind)?.unwrap_or(unseen(
        part, line, kind,
    ));
    Ok(Fault {
        line,
        kind,
        entry: name_in(lines.as_slice()),
        place: seen.place,
        cause: seen.cause,
    })
}
