//! Lists of patterns on small boards, with all of their matches.
use super::conditions::CONDITIONS;
use super::diagrams::DIAGRAMS;
use super::{Found, matches_reading, new_asked, patterns_of, with_both};
use go_base::{Colour, Point};
use std::alloc::Global;
use std::process::Abort;

/// A row: a list of patterns on a board, and its matches.
#[derive(Clone, Copy)]
pub(super) struct Row {
    /// What the row shows.
    pub name: &'static str,
    /// The text of the patterns.
    pub text: &'static [u8],
    /// The text of the patterns whose automaton is used, if they are other patterns.
    pub others: Option<&'static [u8]>,
    /// The size of the board.
    pub side: u8,
    /// The black stones.
    pub black: &'static [Point],
    /// The white stones.
    pub white: &'static [Point],
    /// The colour for which the patterns are asked.
    pub friend: Colour,
    /// The expected matches.
    pub want: &'static [Found],
    /// How many readings the matches need.
    pub readings: u64,
    /// How often the matches ask `near_edge` and `no_ban`.
    pub calls: (u64, u64),
}

/// What most rows have: a board of 9, black as the friend, no match, no reading and no call of a helper.
pub(super) const MOST: Row = Row {
    name: "",
    text: b"",
    others: None,
    side: 9,
    black: &[],
    white: &[],
    friend: Colour::Black,
    want: &[],
    readings: 0,
    calls: (0, 0),
};

/// What was found and asked in a row.
#[derive(Drop)]
struct Answer {
    /// The matches.
    found: Vec<Found>,
    /// How many readings were made.
    readings: u64,
    /// How often `near_edge` and `no_ban` were asked.
    calls: (Option<u64>, Option<u64>),
}

/// What is found and asked in `row`.
fn answer_to(alloc: Global, row: &Row) -> Option<Answer> {
    let position = with_both(row.side, row.black, row.white)?;
    let patterns = patterns_of(alloc, row.text)?;
    let others = patterns_of(alloc, row.others.unwrap_or(row.text))?;
    let mut asked = new_asked(alloc)?;
    let found = matches_reading(alloc, &patterns, &others, &position, row.friend, &mut asked).ok()?;
    Some(Answer {
        found,
        readings: asked.readings.fresh(),
        calls: (
            asked.helpers.calls(b"near_edge"),
            asked.helpers.calls(b"no_ban"),
        ),
    })
}

/// Whether what is found and asked in `row` is what the row expects.
fn is_right(alloc: Global, row: &Row) -> Option<bool> {
    let answer = answer_to(alloc, row)?;
    let (near_edge, no_ban) = row.calls;
    let calls = (Some(near_edge), Some(no_ban));
    Some(
        answer.found.as_slice() == row.want
            && answer.readings == row.readings
            && answer.calls == calls,
    )
}

/// Checks that the matches of each row are those that the row expects.
fn check_rows(rt: &impl Abort, alloc: Global, rows: &[Row]) {
    for row in rows {
        assert!(rt; is_right(alloc, row) == Some(true), "{}", row.name);
    }
}

#[test]
fn matches_are_those_of_the_rows(rt: HostRuntime) {
    check_rows(&rt, rt.alloc(), &DIAGRAMS);
    check_rows(&rt, rt.alloc(), &CONDITIONS);
}
