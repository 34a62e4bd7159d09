//! Compares the images of a diagram with those that its mark tries.

use crate::alone::{TURNS, diagram_implies, turned};
use crate::caution::Caution;
use pat_types::{Mark, Pattern, mark_count};

/// Whether a transformation leaves all labels at their points.
fn keeps_labels(pattern: &Pattern, turn: &[i16; 4]) -> bool {
    let (star_row, star_column) = (pattern.star.0 as i16, pattern.star.1 as i16);
    for label in pattern.labels.as_slice() {
        let down = (label.row as i16).wrapping_sub(star_row);
        let right = (label.col as i16).wrapping_sub(star_column);
        if turned(turn, down, right) != (down, right) {
            return false;
        }
    }
    true
}

/// For each transformation, whether it leaves the diagram as it is.
fn own_images(pattern: &Pattern) -> [bool; 8] {
    let mut own = [false; 8];
    for (is_own, turn) in own.iter_mut().zip(TURNS.iter()) {
        *is_own = diagram_implies(pattern, pattern, turn);
    }
    own
}

/// For each transformation, whether it leaves the diagram and the points of its labels as they are.
fn own_images_with_labels(pattern: &Pattern) -> [bool; 8] {
    let mut own = own_images(pattern);
    for (is_own, turn) in own.iter_mut().zip(TURNS.iter()) {
        *is_own = *is_own && keeps_labels(pattern, turn);
    }
    own
}

/// The mark with the fewest transformations that tries each image of a diagram. `own` says which transformations leave
/// the diagram as it is.
fn mark_of_images(own: &[bool; 8]) -> Mark {
    let [_, quarter, half, _, left_right, rising, top_bottom, falling] = *own;
    if !left_right && !rising && !top_bottom && !falling {
        Mark::Eight
    } else if quarter {
        Mark::Oh
    } else if half && left_right {
        Mark::Plus
    } else if half {
        Mark::Ex
    } else if left_right {
        Mark::Bar
    } else if top_bottom {
        Mark::Dash
    } else if rising {
        Mark::Slash
    } else {
        Mark::Backslash
    }
}

/// The letter for a mark on a colon line.
fn letter_of(mark: Mark) -> u8 {
    match mark {
        Mark::Eight => b'8',
        Mark::Bar => b'|',
        Mark::Dash => b'-',
        Mark::Slash => b'/',
        Mark::Backslash => b'\\',
        Mark::Plus => b'+',
        Mark::Ex => b'X',
        Mark::Oh => b'O',
    }
}

/// How often a mark finds each match, if it has `tried` transformations, and `needed` of them try each image once.
fn times(tried: u8, needed: u8) -> usize {
    match needed {
        1 => tried as usize,
        2 => (tried >> 1) as usize,
        _ => (tried >> 2) as usize,
    }
}

/// A warning about the mark of a pattern: it finds each match more than once, or does not try all images.
pub(crate) fn of_mark<'a>(pattern: &Pattern) -> Option<Caution<'a>> {
    let tried = mark_count(pattern.mark);
    let once = mark_of_images(&own_images_with_labels(pattern));
    if tried > mark_count(once) {
        return Some(Caution::OwnImage {
            times: times(tried, mark_count(once)),
            mark: letter_of(once),
        });
    }
    let all = mark_of_images(&own_images(pattern));
    if tried < mark_count(all) {
        return Some(Caution::ImagesLeftOut {
            mark: letter_of(pattern.mark),
            meant: letter_of(all),
        });
    }
    None
}
