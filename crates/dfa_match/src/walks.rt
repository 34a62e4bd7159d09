//! The walks of an automaton from all anchors: how they begin, how they go on, and which hits they find.
ghost use Rattle.std.specs.Prelude.{◌≡◌, ℕ, ◌+◌, ◌*◌, ◌%◌, ◌<◌, ◌≤◌, ◌++◌, false, List, length, map, filter, take, All};
ghost use Rattle.std.specs.Prelude.{IfOk, OnOk};
ghost use Rattle.dfa_core.specs.Entries.{row_of};
ghost use Rattle.dfa_shortcuts.specs.Shortcuts.{is_accepting_entry, AreShortcuts};
ghost use Rattle.dfa_match.specs.Hits.{hits_at};
ghost use Rattle.dfa_match.specs.Rings.{ring_of};
ghost use Rattle.dfa_match.specs.Steps.{last_corner, step_count, AreSteps};
ghost use Rattle.dfa_match.specs.Walks.{first_walks_of, after_anchor, after_opening, after_letters, goes_on};
ghost use Rattle.dfa_match.specs.Walks.{anchor_of, given_at, hits_of, IsStanding};

use crate::cursor::{Cursor, anchor_at};
use crate::padded_board::PaddedBoard;
use crate::rings::{Ring, opening_number};
use crate::{Hit, add};
use dfa_core::{Automaton, RowKind, entry_at, row_in};
use dfa_shortcuts::{OPENING_LETTERS, Shortcuts, is_accepting, is_dead, shortcut};
use go_base::{NoMemory, Size, Transform};
use spiral::OFFSETS;
use std::alloc::Global;

/// A walk from one anchor.
#[derive(Clone, Copy)]
pub struct Walk {
    /// The entry of the row where the walk stands: the row and its kind.
    pub entry: u32,
    /// How many letters it has read or passed over.
    pub letters: u16,
    /// The index at which the square of all offsets around the anchor begins on the padded board.
    pub corner: u16,
}

impl Walk {
    /// Whether the walk goes on: its row is not dead, and there are letters left.
    #[inline(always)]
    fn goes_on(self) -> bool
        ensures { result ≡ goes_on self }
    {
        !is_dead(self.entry) && self.letters < OFFSETS
    }

    /// Copies `other` into this walk field by field, which is faster than to put a whole walk together first.
    #[inline(always)]
    fn set(&mut self, other: Walk)
        ensures { self.new ≡ other }
    {
        self.entry = other.entry;
        self.letters = other.letters;
        self.corner = other.corner;
    }
}

/// The walks from all points of a board of this size, before the first letter. Takes memory.
pub fn first_walks(alloc: Global, automaton: &Automaton, size: Size) -> Result<Vec<Walk>, NoMemory>
    ensures value { IfOk result (λ walks. walks.items ≡ first_walks_of automaton.now size) }
    ensures standing { IfOk result (λ walks. All (IsStanding automaton.now) walks.items) }
{
    let _ = size.get();
    let _ = automaton.rows();
    let mut walks = Vec::with_capacity(alloc, size.points() as usize)?;
    let mut at = Cursor::first();
    let entry = automaton.kind(0) as u32;
    'points: for anchor in 0..size.points() {
        walks.push(Walk {
            entry,
            letters: 0,
            corner: at.corner,
        })?;
        at = at.next(size);
    }
    Ok(walks)
}

/// The walk after the letter of its anchor.
fn behind_anchor(automaton: &Automaton, padded: &PaddedBoard, walk: Walk) -> Walk
    requires standing { IsStanding automaton.now walk }
    ensures { result ≡ after_anchor automaton.now padded.now.letters walk }
{
    let _ = automaton.rows();
    let letter = padded.anchor(walk.corner);
    Walk {
        entry: entry_at(automaton.entries(), row_in(walk.entry), letter),
        letters: 1,
        ..walk
    }
}

/// The walks after the letters of their anchors, without those that have ended. They are the same under each
/// transformation. Takes memory.
pub fn second_walks(
    alloc: Global,
    automaton: &Automaton,
    padded: &PaddedBoard,
    first: &[Walk],
) -> Result<Vec<Walk>, NoMemory>
    requires { All (IsStanding automaton.now) first.now }
    ensures { IfOk result (λ walks. walks.items
        ≡ filter goes_on (map (after_anchor automaton.now padded.now.letters) first.now)) }
{
    let mut walks = Vec::with_capacity(alloc, first.len())?;
    'walks: for walk in first {
        let next = behind_anchor(automaton, padded, *walk);
        if next.goes_on() {
            walks.push(next)?;
        }
    }
    Ok(walks)
}

/// The walk after its opening under the transformation `t`, or the walk unchanged if the row there is not known.
#[inline(always)]
fn behind_opening(
    shortcuts: &Shortcuts,
    padded: &PaddedBoard,
    ring: Ring,
    t: Transform,
    walk: Walk,
) -> Walk
    requires corner { walk.corner ≤ last_corner }
    requires ring { ring ≡ ring_of padded.now.letters walk }
    ensures { (steps : List ℕ) → AreSteps t steps
        → result ≡ after_opening shortcuts.now.openings.items steps padded.now.letters walk }
{
    match shortcuts.opening(opening_number(padded.anchor(walk.corner), ring, t)) {
        Some(entry) => Walk {
            entry,
            letters: OPENING_LETTERS as u16,
            ..walk
        },
        None => walk,
    }
}

/// Takes each walk past its opening under the transformation `t`, moves the walks that go on to the front, and answers
/// how many go on. `rings` are the rings around the anchors of the walks.
#[inline(never)]
fn open_all(
    shortcuts: &Shortcuts,
    padded: &PaddedBoard,
    t: Transform,
    rings: &[Ring],
    walks: &mut [Walk],
) -> usize
    requires corners { All (λ w. w.corner ≤ last_corner) walks.old }
    requires rings { rings.now ≡ map (ring_of padded.now.letters) walks.old }
    ensures left { (steps : List ℕ) → AreSteps t steps → take result walks.new ≡ filter goes_on
        (map (after_opening shortcuts.now.openings.items steps padded.now.letters) walks.old) }
    ensures few { result ≤ length walks.new }
{
    let mut left = 0;
    'walks: for index in 0..walks.len() {
        let next = behind_opening(shortcuts, padded, rings[index], t, walks[index]);
        walks[left].set(next);
        left += next.goes_on() as usize;
    }
    left
}

/// The walks after their openings under the transformation `t`, without those that have ended. `rings` are the rings
/// around the anchors of `second`. Takes memory.
pub fn opened_walks(
    alloc: Global,
    shortcuts: &Shortcuts,
    padded: &PaddedBoard,
    t: Transform,
    second: &[Walk],
    rings: &[Ring],
) -> Result<Vec<Walk>, NoMemory>
    requires corners { All (λ w. w.corner ≤ last_corner) second.now }
    requires rings { rings.now ≡ map (ring_of padded.now.letters) second.now }
    ensures { (steps : List ℕ) → AreSteps t steps → IfOk result (λ walks. walks.items ≡ filter goes_on
        (map (after_opening shortcuts.now.openings.items steps padded.now.letters) second.now)) }
{
    let mut walks = Vec::new(alloc);
    walks.extend_from_slice(second)?;
    let left = open_all(shortcuts, padded, t, rings, &mut walks);
    walks.truncate(left);
    Ok(walks)
}

/// Adds the hits of the row where `walk` stands, unless the walk has left the spiral. It is kept out of the loop over
/// the walks: accepting rows are rare, and the loop needs the registers.
#[inline(never)]
fn give_accepted(
    automaton: &Automaton,
    size: Size,
    t: Transform,
    walk: &Walk,
    out: &mut Vec<Hit>,
) -> Result<(), NoMemory>
    requires { IsStanding automaton.now walk.now }
    ensures { OnOk result (out.new.items
        ≡ out.old.items ++ hits_at t (anchor_of size walk.now) (given_at automaton.now walk.now)) }
{
    if walk.letters > OFFSETS {
        return Ok(());
    }
    let anchor = anchor_at(walk.corner, size);
    add(out, automaton.accepts(row_in(walk.entry)), t, anchor)
}

/// Adds the hits of the row where `walk` stands.
#[inline(always)]
fn give_out(
    automaton: &Automaton,
    size: Size,
    t: Transform,
    walk: &Walk,
    out: &mut Vec<Hit>,
) -> Result<(), NoMemory>
    requires { IsStanding automaton.now walk.now }
    ensures { OnOk result (out.new.items
        ≡ out.old.items ++ hits_at t (anchor_of size walk.now) (given_at automaton.now walk.now)) }
{
    if is_accepting(walk.entry) {
        give_accepted(automaton, size, t, walk, out)
    } else {
        Ok(())
    }
}

/// Adds the hits of the rows where `walks` stand.
pub fn give_all(
    automaton: &Automaton,
    size: Size,
    t: Transform,
    walks: &[Walk],
    out: &mut Vec<Hit>,
) -> Result<(), NoMemory>
    requires { All (IsStanding automaton.now) walks.now }
    ensures { OnOk result (out.new.items ≡ out.old.items ++ hits_of automaton.now size t walks.now) }
{
    'walks: for walk in walks {
        give_out(automaton, size, t, walk, out)?;
    }
    Ok(())
}

/// Adds the hits of the start row, where `walks` stand before their first letter. For most automata there are none.
pub fn give_start(
    automaton: &Automaton,
    size: Size,
    t: Transform,
    walks: &[Walk],
    out: &mut Vec<Hit>,
) -> Result<(), NoMemory>
    requires standing { All (IsStanding automaton.now) walks.now }
    requires start { All (λ w. row_of w.entry ≡ 0) walks.now }
    ensures { OnOk result (out.new.items ≡ out.old.items ++ hits_of automaton.now size t walks.now) }
{
    let _ = automaton.rows();
    match automaton.kind(0) {
        RowKind::Accepting => give_all(automaton, size, t, walks, out),
        RowKind::Plain | RowKind::Dead => Ok(()),
    }
}

/// Reads a letter on each walk, and answers a number that is even only if no walk came to a row that accepts something.
/// It is a function of its own, so that its loop has all registers, and it does not branch on a walk: what it reads is
/// far away in memory, and a branch that is predicted wrongly would wait for it.
#[inline(never)]
fn read_on(
    entries: &[u32],
    passed: &[u8],
    padded: &PaddedBoard,
    steps: &[u16],
    walks: &mut [Walk],
) -> u32
    requires entries { All (λ w. 4 * row_of w.entry + 4 ≤ length entries.now) walks.old }
    requires passed { All (λ w. 4 * row_of w.entry + 4 ≤ length passed.now) walks.old }
    requires corners { All (λ w. w.corner ≤ last_corner) walks.old }
    requires letters { All (λ w. w.letters < step_count) walks.old }
    requires steps { (t : ℕ) × AreSteps t steps.now }
    ensures value { walks.new ≡ map (after_letters entries.now passed.now steps.now padded.now.letters) walks.old }
    ensures few { (n : ℕ) → All (λ w. w.letters < n) walks.old → All (λ w. w.letters < n + 256) walks.new }
    ensures silent { result % 2 ≡ 0 → All (λ w. is_accepting_entry w.entry ≡ false) walks.new }
{
    let mut met = 0;
    'walks: for walk in walks.iter_mut() {
        let letter = padded.letter(walk.corner, steps[walk.letters as usize]);
        let (entry, more) = shortcut(entries, passed, row_in(walk.entry), letter);
        walk.entry = entry;
        walk.letters += 1 + more as u16;
        met |= entry;
    }
    met
}

/// Reads a letter on each walk, and adds the hits of the rows that the walks come to. A walk that has ended reads on
/// too, until it is dropped, but finds no hit.
pub fn read_letters(
    automaton: &Automaton,
    shortcuts: &Shortcuts,
    padded: &PaddedBoard,
    steps: &[u16],
    t: Transform,
    walks: &mut Vec<Walk>,
    out: &mut Vec<Hit>,
) -> Result<(), NoMemory>
    requires shortcuts { AreShortcuts automaton.now shortcuts.now.entries.items shortcuts.now.passed.items }
    requires steps { AreSteps t steps.now }
    requires standing { All (IsStanding automaton.now) walks.old.items }
    requires letters { All (λ w. w.letters < step_count) walks.old.items }
    ensures walks { walks.new.items ≡ map (after_letters shortcuts.now.entries.items shortcuts.now.passed.items
        steps.now padded.now.letters) walks.old.items }
    ensures few { (n : ℕ) → All (λ w. w.letters < n) walks.old.items → All (λ w. w.letters < n + 256) walks.new.items }
    ensures hits { OnOk result (out.new.items ≡ out.old.items ++ hits_of automaton.now padded.now.size t
        (map (after_letters shortcuts.now.entries.items shortcuts.now.passed.items steps.now padded.now.letters)
        walks.old.items)) }
{
    let _ = automaton.rows();
    let met = read_on(&shortcuts.entries, &shortcuts.passed, padded, steps, walks);
    if met % 2 != 0 {
        return give_all(automaton, padded.size, t, walks, out);
    }
    Ok(())
}

/// Moves the walks that go on to the front, and answers how many there are.
///
/// Each walk is written behind those that go on, whether it goes on itself or not; a walk that has ended is overwritten
/// by the next one. So there is no branch on a walk that could be predicted wrongly.
#[inline(never)]
fn move_to_front(walks: &mut [Walk]) -> usize
    ensures left { take result walks.new ≡ filter goes_on walks.old }
    ensures few { result ≤ length walks.new }
{
    let mut left = 0;
    'walks: for index in 0..walks.len() {
        let Walk {
            entry,
            letters,
            corner,
        } = walks[index];
        let walk = Walk {
            entry,
            letters,
            corner,
        };
        walks[left].set(walk);
        left += walk.goes_on() as usize;
    }
    left
}

/// Drops the walks that have ended.
pub fn drop_ended(walks: &mut Vec<Walk>)
    ensures { walks.new.items ≡ filter goes_on walks.old.items }
{
    let left = move_to_front(walks);
    walks.truncate(left);
}
