//! Letters that are passed over, because all letters lead to the same row.
ghost use Rattle.std.specs.Prelude.{◌≡◌, ◌+◌, ◌*◌, ◌<◌, ◌≤◌, true, List, length, slice_index_or};
ghost use Rattle.dfa_core.specs.Automata.{Row};
ghost use Rattle.dfa_core.specs.Entries.{AreEntries};
ghost use Rattle.dfa_shortcuts.specs.Shortcuts.{IsOfRow, HaveRows, AreShortcuts, has_one_target, is_passed};

use crate::entries::{is_accepting, is_dead};
use dfa_core::{RowKind, row_in};

/// Whether all letters lead from `row` to the same row.
fn leads_one_way(entries: &[u32], row: u32) -> bool
    requires { 4 * row + 4 ≤ length entries.now }
    ensures { result ≡ has_one_target entries.now row }
{
    let first = 4 * row as usize;
    let entry = entries[first];
    entries[first + 1] == entry && entries[first + 2] == entry && entries[first + 3] == entry
}

/// Whether the row of `entry` is passed over: it accepts nothing, it is not dead, and all letters lead to the same row.
fn is_passed_over(entries: &[u32], entry: u32) -> bool
    requires { IsOfRow entries.now entry }
    ensures { result ≡ is_passed entries.now entry }
{
    !is_accepting(entry) && !is_dead(entry) && leads_one_way(entries, row_in(entry))
}

/// An entry, and whether its row is passed over.
#[derive(Clone, Copy)]
struct Asked {
    /// The entry.
    entry: u32,
    /// Whether the row of `entry` is passed over.
    over: bool,
}

/// An entry of a dead row, which is not passed over.
const DEAD: u32 = RowKind::Dead as u32;

/// Whether the row of `entry` is passed over. If `last` is the answer for this entry, the row is not looked at again.
fn ask(from: &[u32], entry: u32, last: Asked) -> Asked
    requires row { IsOfRow from.now entry }
    requires last { last.over ≡ is_passed from.now last.entry }
    ensures entry { result.entry ≡ entry }
    ensures over { result.over ≡ is_passed from.now entry }
{
    if entry == last.entry {
        return Asked {
            entry,
            over: last.over,
        };
    }
    Asked {
        entry,
        over: is_passed_over(from, entry),
    }
}

/// Makes the shortcut at `place` longer. Its letter leads to a row that is passed over, so it now leads to where the
/// shortcut from that row leads, unless that one already passes over as many letters as a byte can count.
fn lengthen(from: &[u32], entries: &mut [u32], passed: &mut [u8], place: usize)
    requires rows { HaveRows from.now }
    requires place { place < length from.now }
    requires over { is_passed from.now (slice_index_or from.now place 0) ≡ true }
    requires entries { length entries.old ≡ length from.now }
    requires passed { length passed.old ≡ length from.now }
    ensures entries { length entries.new ≡ length from.now }
    ensures passed { length passed.new ≡ length from.now }
    ensures shortcuts { (automaton : List Row) → AreEntries automaton from.now
        → AreShortcuts automaton entries.old passed.old → AreShortcuts automaton entries.new passed.new }
{
    let first = 4 * row_in(from[place]) as usize;
    let letters = passed[first];
    if letters == u8::MAX {
        return;
    }
    entries[place] = entries[first];
    passed[place] = letters + 1;
}

/// Makes all shortcuts longer, from the last to the first: most letters lead to a later row, whose shortcuts are then
/// final. Several letters of a row mostly lead to the same row, which is then looked at once.
pub fn lengthen_all(from: &[u32], entries: &mut [u32], passed: &mut [u8])
    requires rows { HaveRows from.now }
    requires entries { length entries.old ≡ length from.now }
    requires passed { length passed.old ≡ length from.now }
    ensures entries { length entries.new ≡ length from.now }
    ensures passed { length passed.new ≡ length from.now }
    ensures shortcuts { (automaton : List Row) → AreEntries automaton from.now
        → AreShortcuts automaton entries.old passed.old → AreShortcuts automaton entries.new passed.new }
{
    let mut asked = Asked {
        entry: DEAD,
        over: false,
    };
    let mut place = from.len();
    'places: while place > 0 {
        place -= 1;
        asked = ask(from, from[place], asked);
        if asked.over {
            lengthen(from, entries, passed, place);
        }
    }
}
