//! Faults of a constraint diagram.

use super::{Seen, line_of, places_above, places_of, seen_at};
use crate::cause::Cause;
use pattern_lines::{Role, Written, is_letter};

/// Whether a byte may be a label.
pub(crate) fn is_label(byte: u8) -> bool {
    byte.is_ascii_alphabetic() && !is_letter(byte)
}

/// Whether a line seems to be an expression.
fn is_said(line: &[u8]) -> bool {
    for byte in line {
        if b"(&=<>!".contains(byte) {
            return true;
        }
    }
    false
}

/// Whether `word` has this label at a byte where its line of the diagram, `drawn`, has another letter.
fn has_label(label: u8, word: &[u8], drawn: &[u8]) -> bool {
    for (byte, letter) in word.iter().zip(drawn) {
        if *byte == label && *letter != label {
            return true;
        }
    }
    false
}

/// Whether one of `lines` has this label at a byte where its line of the diagram has another letter.
fn is_above(label: u8, lines: &[Written<'_>], diagram: &[Written<'_>]) -> bool {
    for (line, drawn) in lines.iter().zip(diagram) {
        if has_label(label, line.word(), drawn.word()) {
            return true;
        }
    }
    false
}

/// The cause of a byte that differs from the `letter` of the diagram; `None` if it is a label in its place.
fn of_byte<'a>(byte: u8, letter: u8, is_used: bool) -> Option<Cause<'a>> {
    if !is_label(byte) {
        return Some(Cause::NoLabel {
            byte,
            diagram: letter,
        });
    }
    if !is_letter(letter) {
        return Some(Cause::LabelOnEdge(byte));
    }
    if is_used {
        return Some(Cause::LabelAgain(byte));
    }
    None
}

/// The first faulty byte of a line below the lines `above`, and its cause.
fn first_wrong<'a>(
    above: &[Written<'a>],
    diagram: &[Written<'a>],
    line: &Written<'a>,
    drawn: &Written<'a>,
) -> Option<Seen<'a>> {
    let word = line.word();
    for (at, (byte, letter)) in word.iter().zip(drawn.word()).enumerate() {
        let before = word.get(..at).unwrap_or(word);
        let is_used = has_label(*byte, before, drawn.word()) || is_above(*byte, above, diagram);
        if *byte != *letter
            && let Some(cause) = of_byte(*byte, *letter, is_used)
        {
            return Some(seen_at(line, at, cause));
        }
    }
    None
}

/// The cause of a faulty line of the constraint diagram below the lines `above`.
fn of_line<'a>(
    above: &[Written<'a>],
    diagram: &[Written<'a>],
    line: &Written<'a>,
) -> Option<Seen<'a>> {
    let Some(drawn) = diagram.get(above.len()) else {
        let cause = if is_said(line.bytes) {
            Cause::NoSemicolon
        } else {
            Cause::ConstraintEnds(diagram.len())
        };
        return Some(seen_at(line, 0, cause));
    };
    if line.word().len() == drawn.word().len() {
        return first_wrong(above, diagram, line, drawn);
    }
    if is_said(line.bytes) {
        return Some(seen_at(line, 0, Cause::NoSemicolon));
    }
    let cause = Cause::ConstraintWidth {
        bytes: line.word().len(),
        diagram: drawn.word().len(),
    };
    Some(seen_at(line, 0, cause))
}

/// The cause of a constraint diagram that does not repeat the diagram. `number` is that of the faulty line.
pub(crate) fn repeated<'a>(lines: &[Written<'a>], number: u64) -> Option<Seen<'a>> {
    let diagram = lines.get(places_of(lines, Role::Diagram)).unwrap_or(&[]);
    let above = lines
        .get(places_above(lines, Role::Constraint, number))
        .unwrap_or(&[]);
    let own = lines.get(places_of(lines, Role::Constraint)).unwrap_or(&[]);
    if let Some(line) = line_of(own, number) {
        return of_line(above, diagram, line);
    }
    let cause = Cause::ConstraintShort {
        lines: above.len(),
        diagram: diagram.len(),
    };
    Some(seen_at(above.last()?, 0, cause))
}
