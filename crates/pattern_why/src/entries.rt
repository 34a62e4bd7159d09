//! The entries of a pattern file.

use crate::fault::{Fault, noted};
use db_read::{DbError, read};
use go_base::Bytes;
use pat_types::Pattern;
use pattern_lines::parts;
use std::alloc::Global;
use why_report::Entry;

/// The entries of a text.
#[derive(Drop)]
pub(crate) struct Entries {
    /// The patterns of the entries, in order.
    patterns: Vec<Pattern>,
    /// The line numbers of their Pattern lines.
    lines: Vec<u64>,
}

/// The entries of the text of a file, in which the `helpers` with these names may be named.
pub(crate) fn entries_of(
    alloc: Global,
    file: &str,
    text: &[u8],
    helpers: &[Bytes],
) -> Result<Entries, Fault> {
    let patterns = match read(alloc, text, helpers, Vec::new(alloc)) {
        Ok(patterns) => patterns,
        Err(DbError::NoMemory) => return Err(Fault::NoMemory),
        Err(DbError::Fault { line, kind }) => {
            return Err(noted(format!(in alloc;
                "{file}: line {line} kind {kind}; pattern_check tells why"
            )));
        }
    };
    let mut lines = Vec::new(alloc);
    for part in parts(alloc, text)?.iter().skip(1) {
        lines.push(part.number)?;
    }
    Ok(Entries { patterns, lines })
}

/// The name and the line of a word such as `Hane@12`; the line is missing if no number follows the last `@`.
fn name_and_line(word: &str) -> (&str, Option<u64>) {
    match word.rsplit_once('@') {
        Some((name, number)) => match number.parse::<u64>() {
            Ok(line) => (name, Some(line)),
            Err(_) => (word, None),
        },
        None => (word, None),
    }
}

/// Whether a word names an entry: by its name, which may have an `@`, or by its name and its line.
fn is_named(entry: Entry<'_>, word: &str) -> bool {
    let (name, line) = name_and_line(word);
    let own = entry.pattern.name.as_slice();
    own == word.as_bytes() || (own == name.as_bytes() && line == Some(entry.line))
}

impl Entries {
    /// The patterns of all entries, in the order of the file.
    pub(crate) fn patterns(&self) -> &[Pattern] {
        self.patterns.as_slice()
    }

    /// The patterns of all entries, and the line numbers of their Pattern lines, in the order of the file.
    pub(crate) fn into_parts(self) -> (Vec<Pattern>, Vec<u64>) {
        (self.patterns, self.lines)
    }

    /// The entry at index `place` of the file, with this `pattern`.
    fn at<'a>(&self, place: usize, pattern: &'a Pattern) -> Entry<'a> {
        let line = self.lines.get(place).copied().unwrap_or(0);
        Entry { pattern, line }
    }

    /// All entries, in the order of the file.
    pub(crate) fn all<'a>(&'a self, alloc: Global) -> Result<Vec<Entry<'a>>, Fault> {
        let mut found = Vec::new(alloc);
        for (place, pattern) in self.patterns.iter().enumerate() {
            found.push(self.at(place, pattern))?;
        }
        Ok(found)
    }

    /// The entries that a word names, in the order of the file.
    pub(crate) fn named<'a>(&'a self, alloc: Global, word: &str) -> Result<Vec<Entry<'a>>, Fault> {
        let mut found = Vec::new(alloc);
        for entry in &self.all(alloc)? {
            if is_named(*entry, word) {
                found.push(*entry)?;
            }
        }
        Ok(found)
    }
}
