//! Shortcuts through an automaton: rows to which several letters lead, found in one look.
//!
//! After many rows no pattern looks at the next letter: all four letters lead to the same row. A shortcut passes over
//! such letters. An opening is the first nine letters of a word, the anchor's and those of the ring around it; the row
//! after it is found by the opening's number. No shortcut leads over a row that accepts something.
#![tactic(auto)]

ghost use Rattle.std.specs.Prelude.{◌≡◌, ◌≢◌, ◌≤◌, ◌+◌, ◌*◌, length, slice_index_or, IfOk, IfSome, IfNone};
ghost use Rattle.dfa_core.specs.Words.{letter_number};
ghost use Rattle.dfa_shortcuts.specs.Shortcuts.{AreShortcuts};
ghost use Rattle.dfa_shortcuts.specs.Openings.{AreOpenings, unknown};

mod entries;
mod openings;
mod passing;

pub use crate::entries::{is_accepting, is_dead};
pub use crate::openings::OPENING_LETTERS;
use crate::openings::{UNKNOWN, openings_of};
use crate::passing::lengthen_all;
use dfa_core::{Automaton, Seen};
use go_base::NoMemory;
use std::alloc::Global;

/// The shortcuts of an automaton.
#[derive(Drop)]
pub struct Shortcuts {
    /// For each row and letter, in the order of the automaton's entries: the entry of the row that the letter leads to,
    /// after the letters that are passed over.
    pub entries: Vec<u32>,
    /// For each row and letter: how many letters are passed over after the letter that is read.
    pub passed: Vec<u8>,
    /// The entry of the row after each opening, at the index of the opening's number. Empty for a small automaton.
    pub openings: Vec<u32>,
}

impl Shortcuts {
    /// The shortcuts of an automaton. Takes memory: five bytes for each letter of each row, and a megabyte for the
    /// openings of an automaton that is not small.
    pub fn of(alloc: Global, automaton: &Automaton) -> Result<Shortcuts, NoMemory>
        ensures shortcuts { IfOk result (λ s. AreShortcuts automaton.now s.entries.items s.passed.items) }
        ensures openings { IfOk result (λ s. AreOpenings automaton.now s.openings.items) }
    {
        let _ = automaton.rows();
        let from = automaton.entries();
        let mut entries = Vec::with_capacity(alloc, from.len())?;
        entries.extend_from_slice(from)?;
        let mut passed = Vec::new(alloc);
        passed.resize(from.len(), 0)?;
        lengthen_all(from, &mut entries, &mut passed);
        Ok(Shortcuts {
            entries,
            passed,
            openings: openings_of(alloc, automaton)?,
        })
    }

    /// The entry of the row after the opening with the number `number`, or `None` if it is not known.
    #[inline(always)]
    pub fn opening(&self, number: u32) -> Option<u32>
        ensures known { IfSome result (λ entry. (entry ≢ unknown)
            × (entry ≡ slice_index_or self.now.openings.items number unknown)) }
        ensures none { IfNone result (slice_index_or self.now.openings.items number unknown ≡ unknown) }
    {
        match self.openings.get(number as usize) {
            Some(entry) if *entry != UNKNOWN => Some(*entry),
            _ => None,
        }
    }
}

/// The shortcut from `row` by `letter`: the entry of the row after this letter and the letters that are passed over,
/// and how many are passed over. `entries` and `passed` are the fields of the shortcuts; a loop that is given them as
/// slices keeps them in registers.
#[inline(always)]
pub fn shortcut(entries: &[u32], passed: &[u8], row: u32, letter: Seen) -> (u32, u8)
    requires entries { 4 * row + 4 ≤ length entries.now }
    requires passed { 4 * row + 4 ≤ length passed.now }
    ensures entry { result.0 ≡ slice_index_or entries.now (4 * row + letter_number letter) 0 }
    ensures passed { result.1 ≡ slice_index_or passed.now (4 * row + letter_number letter) 0 }
{
    let place = 4 * row as usize + letter as usize;
    (entries[place], passed[place])
}
