//! What an author may not have meant, though it is not a fault.

use crate::alone::never_alone;
use crate::caution::Caution;
use crate::colon::{of_classes, push_mark_and_items};
use crate::items::{same_end, same_front};
use crate::never::is_never_met;
use db_lex::{is_blank, trim, word_len};
use pat_types::{NoMemory, Pattern};
use pattern_lines::{
    Part, Place, Role, Sort, Token, Written, head_of, is_feed, is_letter, lines_in, name_in, tokens,
};
use std::alloc::Global;

/// A warning.
#[derive(Clone, Copy)]
pub struct Warning<'a> {
    /// The name of the entry; empty if the warning is not about an entry with a name.
    pub entry: &'a [u8],
    /// The place that the warning is about.
    pub place: Place<'a>,
    /// What may not have been meant.
    pub caution: Caution<'a>,
}

/// The word that begins an entry, in small letters.
const PATTERN: &[u8] = b"pattern";

/// A warning about the byte at index `at` of a line.
pub(crate) fn warning_at<'a>(
    entry: &'a [u8],
    line: &Written<'a>,
    at: usize,
    caution: Caution<'a>,
) -> Warning<'a> {
    Warning {
        entry,
        place: line.place(at),
        caution,
    }
}

/// A warning about the whole text, placed at this line.
fn warning_of_text<'a>(line: u64, caution: Caution<'a>) -> Warning<'a> {
    Warning {
        entry: &[],
        place: Place {
            line,
            column: 1,
            text: &[],
        },
        caution,
    }
}

/// Whether a word is `Pattern`, apart from the case or from a letter or two next to each other.
fn is_near_pattern(word: &[u8]) -> bool {
    let alike = same_front(word, PATTERN).saturating_add(same_end(word, PATTERN));
    6 <= word.len() && word.len() <= 8 && alike >= 5
}

/// A warning about a line before the first entry.
fn of_front<'a>(line: &Written<'a>) -> Option<Warning<'a>> {
    if is_near_pattern(line.word()) {
        return Some(warning_at(&[], line, 0, Caution::NearPattern(line.word())));
    }
    None
}

/// Whether all bytes are letters of a diagram, blanks, or parts of an edge.
fn are_drawn(bytes: &[u8]) -> bool {
    for byte in bytes {
        if !is_letter(*byte) && !is_blank(*byte) && !b"|+-".contains(byte) {
            return false;
        }
    }
    true
}

/// A warning about a row.
fn of_row<'a>(entry: &'a [u8], line: &Written<'a>) -> Option<Warning<'a>> {
    let rest = line.behind_word();
    if rest.is_empty() || !are_drawn(rest) {
        return None;
    }
    let at = line.bytes.len().saturating_sub(rest.len());
    Some(warning_at(entry, line, at, Caution::BehindRow(rest)))
}

/// A warning about a Pattern line with words behind the name. A remark behind `#` is allowed.
fn of_head<'a>(line: &Written<'a>) -> Option<Warning<'a>> {
    let named = line.behind_word();
    let rest = trim(&named[word_len(named)..]);
    if rest.is_empty() || rest.starts_with(b"#".as_slice()) {
        return None;
    }
    let at = line.bytes.len().saturating_sub(rest.len());
    Some(warning_at(line.name(), line, at, Caution::BehindName(rest)))
}

/// A warning about a line.
fn of_line<'a>(
    alloc: Global,
    entry: &'a [u8],
    line: &Written<'a>,
) -> Result<Option<Warning<'a>>, NoMemory> {
    match line.role {
        Role::Front => Ok(of_front(line)),
        Role::Head => Ok(of_head(line)),
        Role::Diagram | Role::Constraint => Ok(of_row(entry, line)),
        Role::Colon => of_classes(alloc, entry, line),
        _ => Ok(None),
    }
}

/// Appends the warnings about the lines of a part.
fn push_lines<'a>(
    alloc: Global,
    all: &mut Vec<Warning<'a>>,
    part: Part<'a>,
) -> Result<(), NoMemory> {
    let lines = lines_in(alloc, part)?;
    let name = name_in(lines.as_slice());
    for line in &lines {
        if let Some(warning) = of_line(alloc, name, line)? {
            all.push(warning)?;
        }
    }
    Ok(())
}

/// The first place of a label in a constraint diagram.
fn label_place<'a>(lines: &[Written<'a>], label: u8) -> Option<Place<'a>> {
    for line in lines {
        if line.role != Role::Constraint {
            continue;
        }
        for (at, byte) in line.word().iter().enumerate() {
            if *byte == label {
                return Some(line.place(at));
            }
        }
    }
    None
}

/// Whether one of the words of an expression is `label`.
fn is_named(words: &[Token<'_>], label: u8) -> bool {
    for word in words {
        if word.sort == Sort::Name && word.bytes == [label].as_slice() {
            return true;
        }
    }
    false
}

/// Appends a warning for each label of an entry that its expression, which has these `words`, does not name.
fn push_labels<'a>(
    all: &mut Vec<Warning<'a>>,
    lines: &[Written<'a>],
    words: &[Token<'a>],
    pattern: &Pattern,
) -> Result<(), NoMemory> {
    for label in pattern.labels.as_slice() {
        if !is_named(words, label.letter)
            && let Some(place) = label_place(lines, label.letter)
        {
            all.push(Warning {
                entry: name_in(lines),
                place,
                caution: Caution::UnusedLabel(label.letter),
            })?;
        }
    }
    Ok(())
}

/// Appends a warning if the expression of an entry, which has these `words`, is 0 whenever the diagram fits.
fn push_never_met<'a>(
    all: &mut Vec<Warning<'a>>,
    entry: &'a [u8],
    words: &[Token<'a>],
    pattern: &Pattern,
) -> Result<(), NoMemory> {
    if let Some(word) = words.first()
        && is_never_met(pattern)
    {
        all.push(Warning {
            entry,
            place: word.place,
            caution: Caution::NeverMet,
        })?;
    }
    Ok(())
}

/// Appends the warnings about an accepted entry.
fn push_entry<'a>(
    alloc: Global,
    all: &mut Vec<Warning<'a>>,
    part: Part<'a>,
    pattern: &Pattern,
) -> Result<(), NoMemory> {
    let lines = lines_in(alloc, part)?;
    let words = tokens(alloc, lines.as_slice())?;
    let name = name_in(lines.as_slice());
    for line in &lines {
        if line.role == Role::Colon {
            push_mark_and_items(alloc, all, name, line, pattern)?;
        }
    }
    push_labels(all, lines.as_slice(), words.as_slice(), pattern)?;
    push_never_met(all, name, words.as_slice(), pattern)
}

/// The line of the first of these Pattern lines with this `name`.
fn line_of_name(heads: &[Written<'_>], name: &[u8]) -> Option<u64> {
    for head in heads {
        if head.name() == name {
            return Some(head.number);
        }
    }
    None
}

/// Appends a warning for each entry with the name of an earlier entry.
fn push_names<'a>(
    alloc: Global,
    all: &mut Vec<Warning<'a>>,
    parts: &[Part<'a>],
) -> Result<(), NoMemory> {
    let mut above = Vec::new(alloc);
    for part in parts {
        let Some(head) = head_of(part) else {
            continue;
        };
        let name = head.name();
        if let Some(line) = line_of_name(above.as_slice(), name) {
            all.push(warning_at(name, &head, 0, Caution::SameName { line }))?;
        } else if !name.is_empty() {
            above.push(head)?;
        }
    }
    Ok(())
}

/// The first other entry that always matches when the entry at index `at` does. If two entries match at the same
/// points, only the later one gets a warning.
fn other_of(patterns: &[Pattern], at: usize) -> Option<usize> {
    let pattern = patterns.get(at)?;
    for (place, other) in patterns.iter().enumerate() {
        if place != at
            && never_alone(pattern, other)
            && (place < at || !never_alone(other, pattern))
        {
            return Some(place);
        }
    }
    None
}

/// Appends a warning for each entry that never matches alone.
fn push_never_alone<'a>(
    all: &mut Vec<Warning<'a>>,
    entries: &[Part<'a>],
    patterns: &[Pattern],
) -> Result<(), NoMemory> {
    for (at, part) in entries.iter().enumerate() {
        let Some(place) = other_of(patterns, at) else {
            continue;
        };
        if let (Some(head), Some(other)) = (head_of(part), entries.get(place)) {
            let caution = Caution::NeverAlone { line: other.number };
            all.push(warning_at(head.name(), &head, 0, caution))?;
        }
    }
    Ok(())
}

/// Appends a warning about the first line that does not end as the first line of the text does.
fn push_ends<'a>(all: &mut Vec<Warning<'a>>, text: &'a [u8]) -> Result<(), NoMemory> {
    let mut first = None;
    let mut number: u64 = 1;
    for line in text.split_inclusive(is_feed) {
        let has_return = line.ends_with(b"\r\n".as_slice());
        let is_first = *first.get_or_insert(has_return) == has_return;
        if !is_first && line.ends_with(b"\n".as_slice()) {
            all.push(warning_of_text(number, Caution::LineEnds))?;
            return Ok(());
        }
        number = number.saturating_add(1);
    }
    Ok(())
}

/// All warnings about a text, in the order of their lines. `parts` are the parts of the text; `entries` are those
/// without a fault, and `patterns` their patterns.
///
/// `entries` and `patterns` stand in the order of the text, one pattern for each entry. Takes memory.
pub fn warnings<'a>(
    alloc: Global,
    text: &'a [u8],
    parts: &[Part<'a>],
    entries: &[Part<'a>],
    patterns: &[Pattern],
) -> Result<Vec<Warning<'a>>, NoMemory> {
    let mut all = Vec::new(alloc);
    for part in parts {
        push_lines(alloc, &mut all, *part)?;
    }
    for (part, pattern) in entries.iter().zip(patterns.iter()) {
        push_entry(alloc, &mut all, *part, pattern)?;
    }
    push_names(alloc, &mut all, parts)?;
    push_never_alone(&mut all, entries, patterns)?;
    push_ends(&mut all, text)?;
    if parts.len() < 2 {
        all.push(warning_of_text(1, Caution::NoEntry))?;
    }
    all.sort_by_key(|warning| warning.place.line)?;
    Ok(all)
}
