//! Faults of a diagram.

use super::{Seen, places_above, seen_at};
use crate::cause::Cause;
use pattern_lines::{Role, Written, is_letter};

/// The most bytes of a line of a diagram, and the most lines.
const MOST: usize = 25;

/// Whether a word seems to be an edge line.
fn is_edge(word: &[u8]) -> bool {
    word.contains(&b'-')
}

/// How often `wanted` stands in a word.
fn count_of(word: &[u8], wanted: u8) -> usize {
    let mut count: usize = 0;
    for byte in word {
        if *byte == wanted {
            count = count.saturating_add(1);
        }
    }
    count
}

/// The number of points of a word, without the edges at its sides.
fn points(word: &[u8]) -> usize {
    let sides = count_of(word, b'|').saturating_add(count_of(word, b'+'));
    word.len().saturating_sub(sides)
}

/// The number of stars in these lines.
fn stars(lines: &[Written<'_>]) -> usize {
    let mut count: usize = 0;
    for line in lines {
        count = count.saturating_add(count_of(line.word(), b'*'));
    }
    count
}

/// The first byte of a word that may not stand in a row, with its index. The word is not an edge line.
fn first_wrong(word: &[u8]) -> Option<(usize, u8)> {
    let last = word.len().saturating_sub(1);
    for (at, byte) in word.iter().enumerate() {
        let is_side = *byte == b'|' && (at == 0 || at == last);
        if !is_letter(*byte) && !is_side {
            return Some((at, *byte));
        }
    }
    None
}

/// The cause of a byte that may not stand in a row. A letter below a star may be a label.
fn wrong_byte<'a>(above: &[Written<'a>], byte: u8) -> Cause<'a> {
    if byte == b'|' || byte == b'+' || byte == b'-' {
        return Cause::EdgeWithin(byte);
    }
    if byte.is_ascii_alphabetic() && stars(above) > 0 {
        return Cause::LabelInDiagram(byte);
    }
    Cause::Letter(byte)
}

/// The cause of a line that is neither an edge line nor a row.
fn no_line<'a>(above: &[Written<'a>], line: &Written<'a>) -> Seen<'a> {
    let word = line.word();
    match first_wrong(word) {
        Some((at, byte)) if !matches!(word, [b'-' | b'+', ..]) => {
            seen_at(line, at, wrong_byte(above, byte))
        }
        _ => seen_at(line, 0, Cause::NoLine),
    }
}

/// The cause of an edge in a wrong place.
fn edge_place<'a>(above: &[Written<'a>], line: &Written<'a>) -> Seen<'a> {
    let mut has_row = false;
    let mut ends = false;
    for other in above {
        ends = is_edge(other.word());
        has_row = has_row || !ends;
    }
    let cause = if has_row && ends {
        Cause::BelowEdge
    } else if !has_row && is_edge(line.word()) {
        Cause::EdgeBetween
    } else {
        Cause::Sides
    };
    seen_at(line, 0, cause)
}

/// The cause of a line that makes the diagram too large.
fn too_large<'a>(line: &Written<'a>) -> Seen<'a> {
    let bytes = line.word().len();
    if bytes > MOST {
        seen_at(line, MOST, Cause::LongLine(bytes))
    } else {
        seen_at(line, 0, Cause::ManyLines)
    }
}

/// The cause of a line that is not as wide as the first line.
fn width<'a>(above: &[Written<'a>], line: &Written<'a>) -> Seen<'a> {
    let first = match above.first() {
        Some(first) => points(first.word()),
        None => 0,
    };
    let points = points(line.word());
    seen_at(line, 0, Cause::Width { points, first })
}

/// The cause of a fault of the diagram at one of its lines, or at the colon line below it.
pub(crate) fn drawn<'a>(lines: &[Written<'a>], line: &Written<'a>, kind: u8) -> Option<Seen<'a>> {
    let above = lines
        .get(places_above(lines, Role::Diagram, line.number))
        .unwrap_or(&[]);
    match kind {
        5 => Some(width(above, line)),
        6 => Some(no_line(above, line)),
        7 => Some(seen_at(line, 0, Cause::Stars(stars(above)))),
        8 => Some(edge_place(above, line)),
        9 => Some(too_large(line)),
        _ => None,
    }
}

/// The cause of an entry without a colon line. It is seen at the last line of the diagram.
pub(crate) fn endless<'a>(lines: &[Written<'a>]) -> Option<Seen<'a>> {
    let mut last = None;
    for line in lines {
        if line.role == Role::Head || line.role == Role::Diagram {
            last = Some(seen_at(line, 0, Cause::NoColonLine));
        }
    }
    last
}
