//! The fields of a colon line, each with its place.

use crate::bytes::is_no_blank;
use db_lex::trim;
use pat_types::NoMemory;
use std::alloc::Global;

/// A field of a colon line.
#[derive(Clone, Copy)]
pub struct Field<'a> {
    /// The index in the line of the first byte of the field that is not a blank.
    pub at: usize,
    /// The field without the blanks at its ends.
    pub bytes: &'a [u8],
}

/// The field between the indices `from` and `to` of a line.
fn field_from(line: &[u8], from: usize, to: usize) -> Field<'_> {
    let whole = line.get(from..to).unwrap_or(&[]);
    let blanks = whole.iter().position(is_no_blank).unwrap_or(0);
    Field {
        at: from.saturating_add(blanks),
        bytes: trim(whole),
    }
}

/// The fields of a colon line, which is cut at the commas outside parentheses. There is at least one field.
pub fn fields(alloc: Global, line: &[u8]) -> Result<Vec<Field<'_>>, NoMemory> {
    let mut all = Vec::new(alloc);
    let mut from: usize = 1;
    let mut open: usize = 0;
    for (at, byte) in line.iter().enumerate() {
        match *byte {
            b'(' => open = open.saturating_add(1),
            b')' => open = open.saturating_sub(1),
            b',' if open == 0 => {
                all.push(field_from(line, from, at))?;
                from = at.saturating_add(1);
            }
            _ => {}
        }
    }
    all.push(field_from(line, from, line.len()))?;
    Ok(all)
}
