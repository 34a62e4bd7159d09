//! Finds entries that match only if another entry matches at the same point.

use go_base::{Cell, Colour};
use pat_types::{Drawn, Letter, Mark, Pattern, drawn_in, letter_fits, mark_count};

/// The eight transformations. Each has four factors: those of the old offsets down and right in the new offset down,
/// then those in the new offset right.
pub(crate) const TURNS: [[i16; 4]; 8] = [
    [1, 0, 0, 1],
    [0, 1, -1, 0],
    [-1, 0, 0, -1],
    [0, -1, 1, 0],
    [1, 0, 0, -1],
    [0, -1, -1, 0],
    [-1, 0, 0, 1],
    [0, 1, 1, 0],
];

/// The offset of a cell from the star, turned or mirrored by a transformation.
pub(crate) fn turned(turn: &[i16; 4], down: i16, right: i16) -> (i16, i16) {
    let [down_down, right_down, down_right, right_right] = *turn;
    (
        down.wrapping_mul(down_down)
            .wrapping_add(right.wrapping_mul(right_down)),
        down.wrapping_mul(down_right)
            .wrapping_add(right.wrapping_mul(right_right)),
    )
}

/// Whether `letter` fits a cell only if `other` fits it.
fn letter_implies(letter: Letter, other: Letter) -> bool {
    for cell in [Cell::Empty, Cell::Black, Cell::White] {
        if letter_fits(letter, cell, Colour::Black) && !letter_fits(other, cell, Colour::Black) {
            return false;
        }
    }
    true
}

/// Whether `drawn` fits a cell only if `other` fits it.
fn cell_implies(drawn: Drawn, other: Drawn) -> bool {
    match (drawn, other) {
        (_, Drawn::Nothing) => true,
        (Drawn::OffBoard, Drawn::OffBoard) => true,
        (Drawn::Shows(letter), Drawn::Shows(other)) => letter_implies(letter, other),
        _ => false,
    }
}

/// Whether the diagram of `pattern` fits only if that of `other`, turned by `turn`, fits with its star at the same
/// point.
pub(crate) fn diagram_implies(pattern: &Pattern, other: &Pattern, turn: &[i16; 4]) -> bool {
    let (star_row, star_column) = (other.star.0 as i16, other.star.1 as i16);
    let (down, right) = (pattern.star.0 as i16, pattern.star.1 as i16);
    for row in -1..=other.rows as i16 {
        for column in -1..=other.cols as i16 {
            let wanted = drawn_in(other, row, column);
            if wanted == Drawn::Nothing {
                continue;
            }
            let (r, c) = turned(
                turn,
                row.wrapping_sub(star_row),
                column.wrapping_sub(star_column),
            );
            let drawn = drawn_in(pattern, r.wrapping_add(down), c.wrapping_add(right));
            if !cell_implies(drawn, wanted) {
                return false;
            }
        }
    }
    true
}

/// Whether a pattern has a class letter.
fn has_class(pattern: &Pattern, letter: u8) -> bool {
    pattern.classes.as_slice().contains(&letter)
}

/// Whether a pattern names a helper that has to be asked.
fn asks_helper(pattern: &Pattern) -> bool {
    for item in pattern.items.as_slice() {
        if item.text.is_none() && item.name.as_slice() != b"NULL".as_slice() {
            return true;
        }
    }
    false
}

/// Whether `other`, apart from its diagram, asks nothing that `pattern` does not ask too.
fn asks_no_more(other: &Pattern, pattern: &Pattern) -> bool {
    let is_safe = has_class(other, b's') || !has_class(pattern, b's');
    let is_open = !has_class(other, b'n') || has_class(pattern, b'n');
    other.constraint.is_none() && !asks_helper(other) && is_safe && is_open
}

/// How many of the first `TURNS` may turn `other` so that it is tried whenever `pattern` is tried.
fn tried_turns(pattern: &Pattern, other: &Pattern) -> usize {
    if other.mark == Mark::Eight {
        TURNS.len()
    } else if mark_count(pattern.mark) <= mark_count(other.mark) {
        1
    } else {
        0
    }
}

/// Whether `pattern` matches only if `other` matches at the same point. The answer no is not certain.
pub(crate) fn never_alone(pattern: &Pattern, other: &Pattern) -> bool {
    if !asks_no_more(other, pattern) {
        return false;
    }
    for turn in TURNS.iter().take(tried_turns(pattern, other)) {
        if diagram_implies(pattern, other, turn) {
            return true;
        }
    }
    false
}
