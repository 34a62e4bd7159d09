//! The rows after openings, which are the first nine letters of words, found by the openings' numbers.
//!
//! The number of a word has its letters as digits, the first one highest. The table of all words grows by one letter at
//! a time: the four words that extend a word stand together, in the place of that word.
ghost use Rattle.std.specs.Prelude.{◌≡◌, ◌≢◌, ◌*◌, ◌<◌, length, IfOk};
ghost use Rattle.dfa_shortcuts.specs.Shortcuts.{IsOfRow};
ghost use Rattle.dfa_shortcuts.specs.Openings.{unknown, entry_behind, AreLonger, KnownHaveRows, AreOpenings};

use crate::entries::is_accepting;
use dfa_core::{Automaton, row_in};
use go_base::NoMemory;
use std::alloc::Global;

/// How many letters an opening has: the anchor's, and those of the ring around it.
pub const OPENING_LETTERS: u8 = 9;

/// Stands for an entry that is not known: a row that accepts something lies on the way.
pub const UNKNOWN: u32 = u32::MAX;

/// The least number of rows with which an automaton gets a table of openings.
const LEAST_ROWS: u32 = 4096;

/// The entry after one more letter, whose number is `letter`; `UNKNOWN` if `entry` is, or if the new row accepts
/// something.
fn behind(entries: &[u32], entry: u32, letter: usize) -> u32
    requires row { entry ≢ unknown → IsOfRow entries.now entry }
    requires letter { letter < 4 }
    ensures { result ≡ entry_behind entries.now entry letter }
{
    if entry == UNKNOWN {
        return UNKNOWN;
    }
    let next = entries[4 * row_in(entry) as usize + letter];
    if is_accepting(next) { UNKNOWN } else { next }
}

/// For each entry of `shorter`, the entries after each letter more. Takes memory.
fn longer(alloc: Global, entries: &[u32], shorter: &[u32]) -> Result<Vec<u32>, NoMemory>
    requires { KnownHaveRows entries.now shorter.now }
    ensures { IfOk result (λ longer. AreLonger entries.now shorter.now (4 * length shorter.now) longer.items) }
{
    let mut longer = Vec::with_capacity(alloc, 4 * shorter.len())?;
    'words: for entry in shorter {
        'letters: for letter in 0..4 {
            longer.push(behind(entries, *entry, letter))?;
        }
    }
    Ok(longer)
}

/// The entries after all openings, at the indices of their numbers; empty for a small automaton. Takes memory.
pub fn openings_of(alloc: Global, automaton: &Automaton) -> Result<Vec<u32>, NoMemory>
    ensures { IfOk result (λ openings. AreOpenings automaton.now openings.items) }
{
    let mut openings = Vec::new(alloc);
    if automaton.rows() < LEAST_ROWS {
        return Ok(openings);
    }
    let entries = automaton.entries();
    openings.extend_from_slice(&entries[..4])?;
    'letters: for _ in 1..OPENING_LETTERS {
        openings = longer(alloc, entries, openings.as_slice())?;
    }
    Ok(openings)
}
