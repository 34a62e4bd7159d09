//! How many tries of a pattern end at each part, on positions drawn by hand on a board of 9. The counts stand in the
//! order of the parts: diagram, move, stone, class `n`, constraint, helpers, and matches.
use crate::tests::{new_helpers, patterns_of, with_more};
use go_base::{Colour, Point, Position, Size};
use pattern_coverage::{Diagrams, ends_on};
use read_rules::Depths;
use std::alloc::Global;

/// The longest list that has an automaton.
const MOST_PATTERNS: usize = 4096;

/// A row: what it shows, a pattern, the black and the white stones, and how many of its tries end at each part.
type Row = (
    &'static str,
    &'static [u8],
    &'static [Point],
    &'static [Point],
    [u64; 7],
);

/// A row for each part, and for each count of transformations.
static ROWS: [Row; 8] = [
    (
        "a stone has four neighbours, and each comes by two of eight transformations",
        b"Pattern P\nO*\n:8,s",
        &[40],
        &[],
        [640, 0, 0, 0, 0, 0, 8],
    ),
    (
        "with mark O only the diagram as drawn is tried",
        b"Pattern P\nO*\n:O,s",
        &[40],
        &[],
        [80, 0, 0, 0, 0, 0, 1],
    ),
    (
        "the move is suicide in the corner",
        b"Pattern P\n*X\nX?\n:O,s",
        &[],
        &[1, 9],
        [80, 1, 0, 0, 0, 0, 0],
    ),
    (
        "the stone that is played can be captured",
        b"Pattern P\n?X?\nX*X\n:|",
        &[],
        &[47, 49, 39],
        [323, 0, 1, 0, 0, 0, 0],
    ),
    (
        "class n: the enemy may not play in the corner",
        b"Pattern P\n*O\n:O,ns",
        &[73, 63],
        &[],
        [80, 0, 0, 1, 0, 0, 0],
    ),
    (
        "the constraint is 0",
        b"Pattern P\nO*\n:O,s\nA*\n;lib(A)>3",
        &[36],
        &[],
        [80, 0, 0, 0, 1, 0, 0],
    ),
    (
        "the helper says no in the middle of the board",
        b"Pattern P\nO*\n:8,s,near_edge",
        &[40],
        &[],
        [640, 0, 0, 0, 0, 8, 0],
    ),
    (
        "the first of two entries is told",
        b"Pattern P\nO*\n:O,s\n\nPattern Q\n*O\n:O,s",
        &[36],
        &[],
        [80, 0, 0, 0, 0, 0, 1],
    ),
];

/// The counts of the first pattern of `row`, for Black. Readings go three plies deep, two of them wide.
fn ends_in(alloc: Global, row: &Row) -> Option<[u64; 7]> {
    let (_, text, black, white, _) = row;
    let position = with_more(Position::new(Size::new(9)?), Colour::Black, black)?;
    let position = with_more(position, Colour::White, white)?;
    let patterns = patterns_of(alloc, text)?;
    if patterns.len() > MOST_PATTERNS {
        return None;
    }
    let list = patterns.as_slice();
    let mut helpers = new_helpers(alloc).ok()?;
    let depths = Depths::new(3, 2)?;
    match Diagrams::new(alloc, list, 10_000) {
        Ok(diagrams) => {
            let ends = ends_on(
                alloc,
                list,
                &diagrams,
                &position,
                Colour::Black,
                depths,
                &mut helpers,
            );
            Some(ends.ok()?.first()?.counts)
        }
        Err(_) => None,
    }
}

#[test]
fn each_try_is_counted_at_the_part_that_fails_first(rt: HostRuntime) {
    for row in &ROWS {
        let ends = ends_in(rt.alloc(), row);
        assert!(rt; ends == Some(row.4), "{}", row.0);
    }
}
