//! The states of a list of patterns, and the patterns that add most states.

ghost use Rattle.std.specs.Prelude.{◌≤◌, length};

use crate::added::added_by_each;
use dfa_join::{JoinError, compile};
use pat_types::{NoMemory, Pattern};
use std::alloc::Global;

/// The longest list of patterns that has an automaton.
const MOST_PATTERNS: usize = 4096;

/// How many patterns an answer names at most.
const NAMED: usize = 10;

/// A pattern of a list, and how many states it adds.
#[derive(Clone, Copy)]
pub struct Added {
    /// How many states fewer the list has without the pattern.
    pub states: u32,
    /// The index of the pattern in the list, counted from 0.
    pub pattern: usize,
}

/// How many states a list of patterns has, or why they are not counted.
#[derive(Drop)]
pub enum States {
    /// The list has more than 4096 patterns, for which there is no automaton.
    TooManyPatterns,
    /// The list has more states than the limit of the call.
    More,
    /// The list has this many states, and these patterns add most.
    Counted {
        /// How many states the list has.
        all: u32,
        /// At most ten of the patterns, those that add most states first.
        most: Vec<Added>,
    },
}

/// The ten patterns that add most states, those that add most first. Of patterns that add as many the first in the list
/// come first.
fn most_of(alloc: Global, added: &[u32]) -> Result<Vec<Added>, NoMemory> {
    let mut most = Vec::new(alloc);
    for (pattern, states) in added.iter().enumerate() {
        most.push(Added {
            states: *states,
            pattern,
        })?;
    }
    most.sort_by_key(|other| u32::MAX.saturating_sub(other.states))?;
    most.truncate(NAMED);
    Ok(most)
}

/// How many states the automaton of `patterns` has, up to `limit`, and the ten patterns that add most.
///
/// A list that is too long is reported first, then more states than the limit. Takes memory, and answers `NoMemory` if
/// there is none.
pub fn states_of(alloc: Global, patterns: &[Pattern], limit: u32) -> Result<States, NoMemory> {
    if patterns.len() > MOST_PATTERNS {
        return Ok(States::TooManyPatterns);
    }
    match compile(alloc, patterns, limit) {
        Ok(automaton) => {
            let added = added_by_each(alloc, &automaton, patterns.len())?;
            Ok(States::Counted {
                all: automaton.rows(),
                most: most_of(alloc, added.as_slice())?,
            })
        }
        Err(JoinError::TooManyStates { limit: _ }) => Ok(States::More),
        Err(JoinError::NoMemory) => Err(NoMemory),
    }
}
