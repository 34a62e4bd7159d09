//! A text, cut at its Pattern lines.

use crate::bytes::{is_bad, is_feed};
use db_lex::{trim, word_len};
use pat_types::NoMemory;
use std::alloc::Global;

/// The lines from one Pattern line up to the next, or the lines before the first Pattern line.
#[derive(Clone, Copy)]
pub struct Part<'a> {
    /// The number in the text of the first line of this part, counted from 1.
    pub number: u64,
    /// The bytes of these lines.
    pub bytes: &'a [u8],
}

impl<'a> Part<'a> {
    /// The line with this `number` of the text; empty if the part has no such line.
    pub fn line(&self, number: u64) -> &'a [u8] {
        let mut at = self.number;
        for line in self.bytes.split(is_feed) {
            if at == number {
                return line;
            }
            at = at.saturating_add(1);
        }
        &[]
    }
}

/// Whether a line is a Pattern line. A line with a forbidden byte is not one.
pub(crate) fn is_pattern_line(line: &[u8]) -> bool {
    let bytes = trim(line);
    &bytes[..word_len(bytes)] == b"Pattern".as_slice() && !line.iter().any(is_bad)
}

/// The parts of a text in order. The first part has the lines before the first Pattern line, and may be empty; each
/// other part begins with a Pattern line.
pub fn parts(alloc: Global, text: &[u8]) -> Result<Vec<Part<'_>>, NoMemory> {
    let mut all = Vec::new(alloc);
    let mut number: u64 = 1;
    let mut begins: usize = 0;
    let mut at: usize = 0;
    let mut line_number: u64 = 1;
    for line in text.split(is_feed) {
        if is_pattern_line(line) {
            all.push(Part {
                number,
                bytes: text.get(begins..at).unwrap_or(&[]),
            })?;
            number = line_number;
            begins = at;
        }
        line_number = line_number.saturating_add(1);
        at = at.saturating_add(line.len()).saturating_add(1);
    }
    all.push(Part {
        number,
        bytes: text.get(begins..).unwrap_or(&[]),
    })?;
    Ok(all)
}
