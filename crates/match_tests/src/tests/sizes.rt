//! The longest list of patterns, a large automaton and a long text: there is enough memory for each of them.
use super::{Found, SMALLEST, matches_in, patterns_of, with_both};
use dfa_join::{JoinError, compile};
use go_base::Colour;
use std::alloc::{AllocError, Global};

/// How many patterns the longest list has.
const MANY: u16 = 4096;

/// A pattern of the longest list.
const PATTERN: &[u8] = b"Pattern P\nO*\n:O,s\n";

/// A comment, with its line feed.
const COMMENT: &[u8] = b"# a comment, of which a long text has many, and which no pattern has\n";

/// The text, repeated `times` times.
fn repeated(alloc: Global, text: &[u8], times: u16) -> Result<Vec<u8>, AllocError> {
    let mut all = Vec::new(alloc);
    for _ in 0..times {
        all.extend_from_slice(text)?;
    }
    Ok(all)
}

/// Whether `found` has one match of each pattern of the longest list, in their order, on the right of the stone.
fn is_each_pattern(found: &[Found]) -> bool {
    for number in 0..MANY {
        if found.get(usize::from(number)) != Some(&(number, 0, 41)) {
            return false;
        }
    }
    found.len() == usize::from(MANY)
}

/// Whether each pattern of the longest list matches beside a stone.
fn match_each(alloc: Global) -> Option<bool> {
    let patterns = patterns_of(alloc, &repeated(alloc, PATTERN, MANY).ok()?)?;
    let position = with_both(9, &[40], &[])?;
    let found = matches_in(alloc, &patterns, &position, Colour::Black)?;
    Some(is_each_pattern(&found))
}

#[test]
fn each_of_many_patterns_matches(rt: HostRuntime) {
    assert!(rt; match_each(rt.alloc()) == Some(true));
}

/// How many patterns a text above a megabyte has, or `None` if the text is not so long.
fn patterns_after_comments(alloc: Global) -> Option<usize> {
    let mut text = repeated(alloc, COMMENT, 20_000).ok()?;
    text.extend_from_slice(SMALLEST).ok()?;
    if text.len() <= 1 << 20 {
        return None;
    }
    Some(patterns_of(alloc, &text)?.len())
}

#[test]
fn a_text_above_a_megabyte_is_read(rt: HostRuntime) {
    assert!(rt; patterns_after_comments(rt.alloc()) == Some(1));
}

/// A square of three rows, with the move in the middle.
const SQUARE: &[u8] = b"Pattern P\n???\n?*?\n???\n:O,s\n";

/// A square of five rows, with the move in the middle.
const LARGE_SQUARE: &[u8] = b"Pattern P\n?????\n?????\n??*??\n?????\n?????\n:O,s\n";

/// Patterns of one square, each of which refuses an enemy's stone at a point of its own.
struct Squares {
    /// What the list shows.
    name: &'static str,
    /// The square, in which each point admits any stone.
    square: &'static [u8],
    /// How many patterns there are. The first refuses an enemy's stone at the first point in reading order, and so on.
    patterns: usize,
    /// How many rows the automaton may have.
    limit: u32,
    /// How many rows the automaton has, or `None` if it would have more than `limit`.
    rows: Option<u32>,
}

/// The counts of rows come from a plain program. It goes through the points of the square in the order of the spiral
/// and keeps each set of patterns that may still match: a point with a pattern of its own doubles these sets.
static SQUARES: [Squares; 5] = [
    Squares {
        name: "eight points",
        square: SQUARE,
        patterns: 8,
        limit: 512,
        rows: Some(512),
    },
    Squares {
        name: "eight points, and one row less",
        square: SQUARE,
        patterns: 8,
        limit: 511,
        rows: None,
    },
    Squares {
        name: "sixteen points",
        square: LARGE_SQUARE,
        patterns: 16,
        limit: 180_256,
        rows: Some(180_256),
    },
    Squares {
        name: "sixteen points, and one row less",
        square: LARGE_SQUARE,
        patterns: 16,
        limit: 180_255,
        rows: None,
    },
    Squares {
        name: "all points of the large square",
        square: LARGE_SQUARE,
        patterns: 24,
        limit: 200_000,
        rows: None,
    },
];

/// Adds the text of a square that refuses an enemy's stone at its point number `point`, counted from 0 in reading
/// order.
fn add_square(text: &mut Vec<u8>, square: &[u8], point: usize) -> Result<(), AllocError> {
    let mut met = 0_usize;
    for &mark in square {
        let here = mark == b'?' && met == point;
        if mark == b'?' {
            met = met.saturating_add(1);
        }
        text.push(if here { b'o' } else { mark })?;
    }
    Ok(())
}

/// The text of a list of squares.
fn text_of(alloc: Global, list: &Squares) -> Result<Vec<u8>, AllocError> {
    let mut text = Vec::new(alloc);
    for point in 0..list.patterns {
        add_square(&mut text, list.square, point)?;
    }
    Ok(text)
}

/// Whether the automaton of a list of squares has the expected rows, or is refused if they are too many.
fn has_rows(alloc: Global, list: &Squares) -> Option<bool> {
    let patterns = patterns_of(alloc, &text_of(alloc, list).ok()?)?;
    if patterns.len() > 4096 {
        return None;
    }
    match compile(alloc, &patterns, list.limit) {
        Ok(automaton) => Some(Some(automaton.rows()) == list.rows),
        Err(JoinError::TooManyStates { .. }) => Some(list.rows.is_none()),
        Err(JoinError::NoMemory) => None,
    }
}

#[test]
fn automata_of_squares_have_many_rows(rt: HostRuntime) {
    for list in &SQUARES {
        assert!(rt; has_rows(rt.alloc(), list) == Some(true), "{}", list.name);
    }
}
