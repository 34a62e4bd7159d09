//! Faults of a Pattern line, and of lines in a wrong place.

use super::{Seen, seen_at};
use crate::cause::Cause;
use pattern_lines::{Role, Written};

/// The bytes that some editors write before the first line of a text.
const BYTE_ORDER_MARK: &[u8] = b"\xef\xbb\xbf";

/// The cause of a line in a wrong place.
pub(crate) fn stray<'a>(line: &Written<'a>) -> Seen<'a> {
    let cause = match (line.role, line.bytes.first()) {
        (Role::Front, _) if line.number == 1 && line.whole.starts_with(BYTE_ORDER_MARK) => {
            Cause::ByteOrderMark
        }
        (Role::Front, _) => Cause::BeforeEntries,
        (_, Some(b':')) => Cause::SecondColonLine,
        (_, Some(b';')) => Cause::LateExpression,
        _ => Cause::AfterEntry,
    };
    seen_at(line, 0, cause)
}

/// The cause of a Pattern line with a faulty name, if its name has a fault.
pub(crate) fn name<'a>(line: &Written<'a>) -> Option<Seen<'a>> {
    let name = line.name();
    let before = line.bytes.len().saturating_sub(line.behind_word().len());
    if name.is_empty() {
        return Some(seen_at(line, line.bytes.len(), Cause::NoName));
    }
    if name.len() > 80 {
        return Some(seen_at(line, before, Cause::LongName(name.len())));
    }
    for (at, byte) in name.iter().enumerate() {
        if !byte.is_ascii_graphic() {
            return Some(seen_at(line, before.saturating_add(at), Cause::NameByte(*byte)));
        }
    }
    None
}
