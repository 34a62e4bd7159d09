//! Automata of small lists.
use super::{
    AT_THE_EDGE, FROM_THE_LEFT, IN_THE_CORNER, OVER_THE_BOTTOM, SMALLEST, UNDER_THE_TOP,
    patterns_of,
};
use dfa_core::Automaton;
use dfa_join::{JoinError, compile};
use std::alloc::Global;

/// A row: a list of patterns and its automaton.
struct List {
    /// What the row shows.
    name: &'static str,
    /// The text of the patterns.
    text: &'static [u8],
    /// How many rows the automaton may have.
    limit: u32,
    /// How many rows the automaton has, or `None` if it would have more than `limit`.
    rows: Option<u32>,
    /// The numbers that the automaton's rows accept, one row after the other.
    numbers: &'static [u16],
}

/// Small lists and how many states they have.
static LISTS: [List; 16] = [
    List {
        name: "the smallest pattern at its count",
        text: SMALLEST,
        limit: 7,
        rows: Some(7),
        numbers: &[0],
    },
    List {
        name: "the smallest pattern above it",
        text: SMALLEST,
        limit: 6,
        rows: None,
        numbers: &[],
    },
    List {
        name: "a pattern of sixteen letters at its count",
        text: AT_THE_EDGE,
        limit: 18,
        rows: Some(18),
        numbers: &[0],
    },
    List {
        name: "and above it",
        text: AT_THE_EDGE,
        limit: 17,
        rows: None,
        numbers: &[],
    },
    List {
        name: "a corner has one letter more",
        text: IN_THE_CORNER,
        limit: 19,
        rows: Some(19),
        numbers: &[0],
    },
    List {
        name: "and its count is exact",
        text: IN_THE_CORNER,
        limit: 18,
        rows: None,
        numbers: &[],
    },
    List {
        name: "an edge above has five letters",
        text: UNDER_THE_TOP,
        limit: 99,
        rows: Some(7),
        numbers: &[0],
    },
    List {
        name: "an edge below has seven",
        text: OVER_THE_BOTTOM,
        limit: 99,
        rows: Some(9),
        numbers: &[0],
    },
    List {
        name: "an edge at the left has nine",
        text: FROM_THE_LEFT,
        limit: 99,
        rows: Some(11),
        numbers: &[0],
    },
    List {
        name: "two patterns at their count",
        text: b"Pattern P\nO*\n:8,s\nPattern Q\nX*\n:8,s",
        limit: 12,
        rows: Some(12),
        numbers: &[0, 1],
    },
    List {
        name: "two patterns above it",
        text: b"Pattern P\nO*\n:8,s\nPattern Q\nX*\n:8,s",
        limit: 11,
        rows: None,
        numbers: &[],
    },
    List {
        name: "the empty list has the sink alone",
        text: b"",
        limit: 1,
        rows: Some(1),
        numbers: &[],
    },
    List {
        name: "and the sink counts",
        text: b"",
        limit: 0,
        rows: None,
        numbers: &[],
    },
    List {
        name: "the smallest pattern far below the limit",
        text: SMALLEST,
        limit: 99,
        rows: Some(7),
        numbers: &[0],
    },
    List {
        name: "the same entry given twice",
        text: b"Pattern P\nO*\n:8,s\nPattern P\nO*\n:8,s",
        limit: 99,
        rows: Some(7),
        numbers: &[0, 1],
    },
    List {
        name: "the empty list far below the limit",
        text: b"",
        limit: 99,
        rows: Some(1),
        numbers: &[],
    },
];

/// Whether the ranges of the rows follow one another, up to the last number.
fn ranges_follow(automaton: &Automaton) -> bool {
    let mut end = 0;
    for row in 0..automaton.rows() {
        let (from, to) = automaton.range(row);
        if from != end {
            return false;
        }
        end = to;
    }
    end == automaton.numbers().len()
}

/// Whether the automaton has the rows and the numbers that `list` expects.
fn is_told(list: &List, automaton: &Automaton) -> bool {
    Some(automaton.rows()) == list.rows
        && automaton.numbers() == list.numbers
        && ranges_follow(automaton)
}

/// Whether the list has the automaton that it expects, or is refused if it expects none.
fn is_right(alloc: Global, list: &List) -> Option<bool> {
    let patterns = patterns_of(alloc, list.text)?;
    if patterns.len() > 4096 {
        return None;
    }
    match compile(alloc, &patterns, list.limit) {
        Ok(automaton) => Some(is_told(list, &automaton)),
        Err(JoinError::TooManyStates { limit }) => Some(limit == list.limit && list.rows.is_none()),
        Err(JoinError::NoMemory) => None,
    }
}

#[test]
fn automata_of_small_lists(rt: HostRuntime) {
    for list in &LISTS {
        assert!(rt; is_right(rt.alloc(), list) == Some(true), "{}", list.name);
    }
}
