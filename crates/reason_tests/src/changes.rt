//! The matches that go and come when one text of patterns replaces another, over games on a board of 9.
use crate::tests::{new_helpers, patterns_of, with_more};
use go_base::{Colour, Point, Position, Size};
use match_engine::Readings;
use pattern_changes::{Change, Matcher, Way, changes_over};
use read_rules::Depths;
use std::alloc::Global;

/// The longest list that has an automaton.
const MOST_PATTERNS: usize = 4096;

/// An expected change: after how many moves, for which friend, whether the match went or came, the pattern's place in
/// its list, the transformation and the point.
type Want = (u64, Colour, Way, u16, u8, Point);

/// A row: what it shows, the old and the new text, the plays of a game, and what changes for both colours.
type Row = (
    &'static str,
    &'static [u8],
    &'static [u8],
    &'static [(Colour, Point)],
    &'static [Want],
);

/// Changes of texts, and which matches of the two texts are the same.
static ROWS: [Row; 11] = [
    (
        "a mended constraint: the match comes on the position behind the last move",
        b"Pattern P\nO*\n:O,s\nA*\n;lib(A)==1",
        b"Pattern P\nO*\n:O,s\nA*\n;lib(A)==4",
        &[(Colour::Black, 40)],
        &[(1, Colour::Black, Way::Came, 0, 0, 41)],
    ),
    (
        "an entry that is left out takes its matches along, those before the first move too",
        b"Pattern Corner\n+-\n|*\n:O,s\n\nPattern P\nO*\n:O,s",
        b"Pattern P\nO*\n:O,s",
        &[(Colour::Black, 40)],
        &[
            (0, Colour::Black, Way::Went, 0, 0, 0),
            (0, Colour::White, Way::Went, 0, 0, 0),
            (1, Colour::Black, Way::Went, 0, 0, 0),
            (1, Colour::White, Way::Went, 0, 0, 0),
        ],
    ),
    (
        "the order of entries changes nothing",
        b"Pattern P\nO*\n:O,s\n\nPattern Q\nX*\n:O,s",
        b"Pattern Q\nX*\n:O,s\n\nPattern P\nO*\n:O,s",
        &[(Colour::Black, 40)],
        &[],
    ),
    (
        "another name is another entry; what goes stands before what comes",
        b"Pattern P\nO*\n:O,s",
        b"Pattern Q\nO*\n:O,s",
        &[(Colour::Black, 40)],
        &[
            (1, Colour::Black, Way::Went, 0, 0, 41),
            (1, Colour::Black, Way::Came, 0, 0, 41),
        ],
    ),
    (
        "a capital is another name",
        b"Pattern Pa\nO*\n:O,s",
        b"Pattern PA\nO*\n:O,s",
        &[(Colour::White, 40)],
        &[
            (1, Colour::White, Way::Went, 0, 0, 41),
            (1, Colour::White, Way::Came, 0, 0, 41),
        ],
    ),
    (
        "two entries of one name are one: what either has had is no change",
        b"Pattern P\nO*\n:O,s\n\nPattern P\n*O\n:O,s\n\nPattern P\nO*\n:O,s",
        b"Pattern P\n*O\n:O,s\n\nPattern P\nO*\n:O,s",
        &[(Colour::Black, 40)],
        &[],
    ),
    (
        "each of two entries of one name that match at a point is told",
        b"Pattern Q\nX*\n:O,s",
        b"Pattern Q\nX*\n:O,s\n\nPattern P\nO*\n:O,s\n\nPattern P\nO*\n:O,s",
        &[(Colour::Black, 40)],
        &[
            (1, Colour::Black, Way::Came, 1, 0, 41),
            (1, Colour::Black, Way::Came, 2, 0, 41),
        ],
    ),
    (
        "another transformation at the same point is another match",
        b"Pattern P\nO*\n:8,s",
        b"Pattern P\nO*\n:O,s",
        &[(Colour::Black, 40)],
        &[
            (1, Colour::Black, Way::Went, 0, 1, 49),
            (1, Colour::Black, Way::Went, 0, 2, 39),
            (1, Colour::Black, Way::Went, 0, 3, 31),
            (1, Colour::Black, Way::Went, 0, 4, 39),
            (1, Colour::Black, Way::Went, 0, 5, 31),
            (1, Colour::Black, Way::Went, 0, 6, 41),
            (1, Colour::Black, Way::Went, 0, 7, 49),
        ],
    ),
    (
        "another point is another match, under the same transformation by the same name",
        b"Pattern P\nO*\n:O,s",
        b"Pattern P\n*O\n:O,s",
        &[(Colour::White, 40)],
        &[
            (1, Colour::White, Way::Went, 0, 0, 41),
            (1, Colour::White, Way::Came, 0, 0, 39),
        ],
    ),
    (
        "a helper that is asked no more",
        b"Pattern P\nO*\n:O,s,near_edge",
        b"Pattern P\nO*\n:O,s",
        &[(Colour::Black, 40)],
        &[(1, Colour::Black, Way::Came, 0, 0, 41)],
    ),
    (
        "a letter of the diagram: each position of the game is compared",
        b"Pattern P\nO*\n:O,s",
        b"Pattern P\nO*X\n:O,s",
        &[(Colour::Black, 40), (Colour::White, 42)],
        &[
            (1, Colour::Black, Way::Went, 0, 0, 41),
            (2, Colour::White, Way::Went, 0, 0, 43),
        ],
    ),
];

/// The positions of a game, the empty board first.
fn positions_of(alloc: Global, plays: &[(Colour, Point)]) -> Option<Vec<Position>> {
    let mut positions = Vec::new(alloc);
    let mut position = Position::new(Size::new(9)?);
    positions.push(position).ok()?;
    for (colour, at) in plays {
        position = with_more(position, *colour, &[*at])?;
        positions.push(position).ok()?;
    }
    Some(positions)
}

/// The patterns of `text`, ready to be searched for.
fn matcher_of(alloc: Global, text: &[u8]) -> Option<Matcher> {
    let patterns = patterns_of(alloc, text)?;
    if patterns.len() > MOST_PATTERNS {
        return None;
    }
    match Matcher::new(alloc, patterns, 10_000) {
        Ok(matcher) => Some(matcher),
        Err(_) => None,
    }
}

/// The changes in `row`. Readings go three plies deep, two of them wide.
fn changes_in(alloc: Global, row: &Row) -> Option<Vec<Change>> {
    let (_, old, new, plays, _) = row;
    let old = matcher_of(alloc, old)?;
    let new = matcher_of(alloc, new)?;
    let positions = positions_of(alloc, plays)?;
    let mut readings = Readings::new(alloc, Depths::new(3, 2)?, 64).ok()?;
    let mut helpers = new_helpers(alloc).ok()?;
    changes_over(
        alloc,
        &old,
        &new,
        positions.as_slice(),
        &[Colour::Black, Colour::White],
        &mut readings,
        &mut helpers,
    )
    .ok()
}

/// Whether `change` is the expected one, `want`.
fn is_wanted(change: &Change, want: &Want) -> bool {
    let found = change.found;
    let (moves, friend, way, pattern, transform, at) = *want;
    change.moves == moves
        && change.friend == friend
        && change.way == way
        && found.pattern == pattern
        && found.transform.get() == transform
        && found.at == at
}

/// Whether `changes` are the expected ones, in their order.
fn are_wanted(changes: &[Change], wanted: &[Want]) -> bool {
    changes.len() == wanted.len()
        && changes
            .iter()
            .zip(wanted)
            .all(|(change, want)| is_wanted(change, want))
}

#[test]
fn matches_go_and_come_by_name_transformation_and_point(rt: HostRuntime) {
    for row in &ROWS {
        let changes = changes_in(rt.alloc(), row);
        let is_so = changes.map(|changes| are_wanted(changes.as_slice(), row.4));
        assert!(rt; is_so == Some(true), "{}", row.0);
    }
}
