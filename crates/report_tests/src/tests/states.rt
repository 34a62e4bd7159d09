//! The states that an entry adds, compared with the list without it.

use db_read::read;
use dfa_core::Automaton;
use dfa_join::compile;
use pat_types::Pattern;
use pattern_states::{States, added_by_each, states_of};
use std::alloc::{AllocError, Global};

/// Entries: some have the same diagram, some have fronts in common, and they differ in length.
static ENTRIES: [&[u8]; 7] = [
    b"Pattern A\nOX*\n:8,s\n",
    b"Pattern B\nOX\n.*\n:8,s\n",
    b"Pattern C\nOX*\n:8,s\n",
    b"Pattern D\nXO?\n.*o\n?O?\n:8,s\n",
    b"Pattern E\n?O?\nx*x\n---\n:|,s\n",
    b"Pattern F\n*\n:8,s\n",
    b"Pattern G\nO.?\n.*o\n?O?\n:8,s\n",
];

/// The text of all entries except the one at the index `left_out`.
fn text_without(alloc: Global, left_out: usize) -> Result<Vec<u8>, AllocError> {
    let mut text = Vec::new(alloc);
    for (index, entry) in ENTRIES.iter().enumerate() {
        if index != left_out {
            text.extend_from_slice(entry)?;
        }
    }
    Ok(text)
}

/// The patterns of all entries except the one at the index `left_out`.
fn patterns_without(alloc: Global, left_out: usize) -> Option<Vec<Pattern>> {
    let text = text_without(alloc, left_out).ok()?;
    read(alloc, text.as_slice(), &[], Vec::new(alloc)).ok()
}

/// The automaton of `patterns`.
fn automaton_of(alloc: Global, patterns: &[Pattern]) -> Option<Automaton> {
    if patterns.len() > 4096 {
        return None;
    }
    compile(alloc, patterns, 1000).ok()
}

/// How many states all entries have except the one at the index `left_out`.
fn states_without(alloc: Global, left_out: usize) -> Option<u32> {
    let patterns = patterns_without(alloc, left_out)?;
    let automaton = automaton_of(alloc, patterns.as_slice())?;
    Some(automaton.rows())
}

/// How many states each of the entries adds.
fn added(alloc: Global) -> Option<Vec<u32>> {
    let patterns = patterns_without(alloc, ENTRIES.len())?;
    let automaton = automaton_of(alloc, patterns.as_slice())?;
    added_by_each(alloc, &automaton, patterns.len()).ok()
}

/// How many states the entries have without the one at `index`, plus `states`, which it adds.
fn sum_of(alloc: Global, index: usize, states: u32) -> Option<u32> {
    states_without(alloc, index)?.checked_add(states)
}

#[test]
fn an_entry_adds_what_the_list_without_it_lacks(rt: HostRuntime) {
    let all = states_without(rt.alloc(), ENTRIES.len()).expect(&rt, "the entries are read");
    let added = added(rt.alloc()).expect(&rt, "there is memory");
    assert!(rt; added.len() == ENTRIES.len(), "each entry has a number");
    for (index, states) in added.iter().enumerate() {
        assert!(rt;
            sum_of(rt.alloc(), index, *states) == Some(all),
            "entry {index}"
        );
    }
}

/// Writes how many states a list has, and how many states each pattern adds, for those that add most.
fn write_states(told: &mut String, states: &States) -> Result<(), AllocError> {
    match states {
        States::TooManyPatterns => told.push_str("too many patterns"),
        States::More => told.push_str("more"),
        States::Counted { all, most } => {
            write!(told, "{all}:")?;
            for added in most {
                write!(told, " {} adds {}", added.pattern, added.states)?;
            }
            Ok(())
        }
    }
}

/// Whether `want` is the report on the states of a text's entries, up to `limit` states.
fn is_told(alloc: Global, text: &[u8], limit: u32, want: &str) -> Option<bool> {
    let patterns = read(alloc, text, &[], Vec::new(alloc)).ok()?;
    let states = states_of(alloc, patterns.as_slice(), limit).ok()?;
    let mut told = String::new(alloc);
    write_states(&mut told, &states).ok()?;
    Some(told.as_str() == want)
}

/// Texts with limits and the reports on the states of their entries.
static LISTS: [(&str, &[u8], u32, &str); 4] = [
    (
        "a star has a state before it, one behind it, and the sink",
        b"Pattern A\n*\n:O\n",
        3,
        "3: 0 adds 2",
    ),
    (
        "the limit is what the list has",
        b"Pattern A\n*\n:O\n",
        2,
        "more",
    ),
    (
        "the cell at the right of a stone is the fifth that is looked at",
        b"Pattern A\n*\n:O\nPattern B\nX*\n:O\n",
        1000,
        "8: 1 adds 5 0 adds 1",
    ),
    (
        "of entries that add as much the first ten are told",
        b"Pattern A\n*\n:O\nPattern A\n*\n:O\nPattern A\n*\n:O\nPattern A\n*\n:O\nPattern A\n*\n:O\nPattern A\n*\n:O\n\
          Pattern A\n*\n:O\nPattern A\n*\n:O\nPattern A\n*\n:O\nPattern A\n*\n:O\nPattern A\n*\n:O\n",
        1000,
        "3: 0 adds 0 1 adds 0 2 adds 0 3 adds 0 4 adds 0 5 adds 0 6 adds 0 7 adds 0 8 adds 0 9 adds 0",
    ),
];

#[test]
fn the_entries_that_add_most_are_told_first(rt: HostRuntime) {
    for &(what, text, limit, want) in &LISTS {
        assert!(rt;
            is_told(rt.alloc(), text, limit, want) == Some(true),
            "{what}"
        );
    }
}
