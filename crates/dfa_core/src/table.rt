//! The flat table of an automaton: five vectors for all rows. It grows row by row, and then it is closed.
ghost use Rattle.std.specs.Prelude.{◌≡◌, ◌+◌, ◌*◌, ◌<◌, ◌≤◌, ◌++◌, ◌∷◌, [], length, take, slice_index_or, map};
ghost use Rattle.std.specs.Prelude.{All, IfOk, OnOk, OnErr, vec_capacity};
ghost use Rattle.std.specs.Vec.{vec_len};
ghost use Rattle.dfa_core.specs.Automata.{Row, row_at, step_at, IsAutomaton, HaveFourTargets};
ghost use Rattle.dfa_core.specs.Words.{letter_number};
ghost use Rattle.dfa_core.specs.Tables.{part_of, numbers_of};
ghost use Rattle.dfa_core.specs.RowKinds.{kind_at, most_rows};
ghost use Rattle.dfa_core.specs.Entries.{entry_in, AreEntries};

use crate::automaton::Seen;
use crate::entry::{entry_of, row_in};
use crate::kind::{RowKind, kind_of};
use go_base::NoMemory;
use std::alloc::Global;
use std::marker::Model;

/// The most rows that a table may have. An entry is four times its row plus the number of the row's kind, in 32 bits.
const MOST_ROWS: usize = 1_073_741_824;

/// A table of rows, seen as the rows. It grows row by row.
#[derive(Drop)]
pub struct Table {
    /// The rows that Friend, Enemy, Empty and Off lead to: four for each row.
    targets: Vec<u32>,
    /// The index at which the numbers of each row begin; the last element is the index past all numbers.
    starts: Vec<usize>,
    /// The numbers of all rows, one row after the other.
    numbers: Vec<u16>,
    /// The depth of each row.
    depths: Vec<u16>,
    /// The kind of each row.
    kinds: Vec<RowKind>,
}

impl Model for Table {
    ghost use Rattle.std.specs.Prelude.{List};
    ghost use Rattle.dfa_core.specs.Automata.{Row};
    ghost use Rattle.dfa_core.specs.Tables.{rows_in};
    ghost use Rattle.dfa_core.specs.RowKinds.{HasKinds};

    ghost Value = { List Row };

    ghost view = { λ t. rows_in (record {
      targets = t.targets.items;
      starts = t.starts.items;
      numbers = t.numbers.items;
      depths = t.depths.items;
    }) };

    ghost invariant = { λ t. HasKinds (record {
      targets = t.targets.items;
      starts = t.starts.items;
      numbers = t.numbers.items;
      depths = t.depths.items;
    }) t.kinds.items };
}

/// The index of the target of `letter` among the four targets of a row.
fn column(letter: Seen) -> usize
    ensures value { result ≡ letter_number letter }
    ensures bound { result < 4 }
{
    letter as usize
}

/// The entry of the row that `letter` leads to from `row`. `entries` are those of an automaton.
pub fn entry_at(entries: &[u32], row: u32, letter: Seen) -> u32
    requires { 4 * row + 4 ≤ length entries.now }
    ensures { result ≡ slice_index_or entries.now (4 * row + letter_number letter) 0 }
{
    entries[4 * row as usize + column(letter)]
}

/// The elements of `numbers` whose index is at least `from` and below `to`.
fn between(numbers: &[u16], from: usize, to: usize) -> &[u16]
    requires order { from ≤ to }
    requires within { to ≤ length numbers.now }
    ensures { result.now ≡ part_of numbers.now from to }
{
    &numbers[from..to]
}

/// Makes room in the five vectors of a table for one row with `more` numbers. Their elements stay as they are.
fn make_room(
    targets: &mut Vec<u32>,
    starts: &mut Vec<usize>,
    numbers: &mut Vec<u16>,
    depths: &mut Vec<u16>,
    kinds: &mut Vec<RowKind>,
    more: usize,
) -> Result<(), NoMemory>
    ensures targets { targets.new.items ≡ targets.old.items }
    ensures starts { starts.new.items ≡ starts.old.items }
    ensures numbers { numbers.new.items ≡ numbers.old.items }
    ensures depths { depths.new.items ≡ depths.old.items }
    ensures kinds { kinds.new.items ≡ kinds.old.items }
    ensures room_for_targets { OnOk result (vec_len targets.new + 4 ≤ vec_capacity targets.new) }
    ensures room_for_start { OnOk result (vec_len starts.new < vec_capacity starts.new) }
    ensures room_for_numbers { OnOk result (vec_len numbers.new + more ≤ vec_capacity numbers.new) }
    ensures room_for_depth { OnOk result (vec_len depths.new < vec_capacity depths.new) }
    ensures room_for_kind { OnOk result (vec_len kinds.new < vec_capacity kinds.new) }
{
    targets.reserve(4)?;
    starts.reserve(1)?;
    numbers.reserve(more)?;
    depths.reserve(1)?;
    kinds.reserve(1)?;
    Ok(())
}

/// Appends the four targets of a row. There must be room for them.
fn append_targets(targets: &mut Vec<u32>, of_row: [u32; 4])
    requires { vec_len targets.old + 4 ≤ vec_capacity targets.old }
    ensures { targets.new.items ≡ targets.old.items ++ of_row }
{
    targets.extend_from_slice(&of_row).unwrap();
}

/// Appends `more` to `numbers`, which must have room for them. Most rows have no numbers.
fn append(numbers: &mut Vec<u16>, more: &[u16])
    requires { vec_len numbers.old + length more.now ≤ vec_capacity numbers.old }
    ensures items { numbers.new.items ≡ numbers.old.items ++ more.now }
    ensures len { vec_len numbers.new ≡ vec_len numbers.old + length more.now }
    ensures capacity { vec_capacity numbers.old ≤ vec_capacity numbers.new }
{
    if more.is_empty() {
        return;
    }
    numbers.extend_from_slice(more).unwrap();
}

impl Table {
    /// A table without rows, with room for `rows` rows. Takes memory.
    pub fn with_room(alloc: Global, rows: u32) -> Result<Table, NoMemory>
        ensures { IfOk result (λ t. t ≡ []) }
    {
        let rows = rows as usize;
        let mut starts = Vec::with_capacity(alloc, rows + 1)?;
        starts.push(0)?;
        let targets = Vec::with_capacity(alloc, 4 * rows)?;
        let depths = Vec::with_capacity(alloc, rows)?;
        let kinds = Vec::with_capacity(alloc, rows)?;
        Ok(Table {
            targets,
            starts,
            numbers: Vec::new(alloc),
            depths,
            kinds,
        })
    }

    /// Adds a row that accepts the numbers of `first` and then those of `second`. Takes memory. If there is none, or if
    /// the table already has 2^30 rows, it answers `NoMemory` and adds no row.
    pub fn add_row(
        &mut self,
        targets_of_row: [u32; 4],
        first: &[u16],
        second: &[u16],
        depth: u16,
    ) -> Result<(), NoMemory>
        ensures added { OnOk result (self.new ≡ self.old ++ (record {
          targets = targets_of_row;
          numbers = first.now ++ second.now;
          depth = depth;
        }) ∷ []) }
        ensures same { OnErr result (self.new ≡ self.old) }
    {
        let Table {
            targets,
            starts,
            numbers,
            depths,
            kinds,
        } = self;
        if depths.len() >= MOST_ROWS {
            return Err(NoMemory);
        }
        let kind = kind_of(depths.len(), targets_of_row, first, second);
        let more = first.len() + second.len();
        make_room(targets, starts, numbers, depths, kinds, more)?;
        append_targets(targets, targets_of_row);
        append(numbers, first);
        append(numbers, second);
        starts.push_reserved(numbers.len());
        depths.push_reserved(depth);
        kinds.push_reserved(kind);
        Ok(())
    }

    /// How many rows the table has.
    pub fn rows(&self) -> usize
        ensures { result ≡ length self.now }
    {
        self.depths.len()
    }

    /// The closed table that has the same rows.
    pub fn closed(self) -> ClosedTable
        requires { IsAutomaton self }
        ensures { result ≡ self }
    {
        let Table {
            mut targets,
            starts,
            numbers,
            depths,
            kinds,
        } = self;
        write_kinds(&mut targets, &kinds);
        ClosedTable {
            entries: targets,
            starts,
            numbers,
            depths,
            kinds,
        }
    }
}

/// Replaces each row number in `targets` by the entry of that row. `kinds` has the kinds of all rows.
fn write_kinds(targets: &mut [u32], kinds: &[RowKind])
    requires few { length kinds.now ≤ most_rows }
    requires rows { All (λ row. row < length kinds.now) targets.old }
    ensures { targets.new ≡ map (entry_in kinds.now) targets.old }
{
    'targets: for target in targets.iter_mut() {
        let row = *target;
        *target = entry_of(kinds[row as usize], row);
    }
}

/// A table to which no more rows are added, seen as its rows. It keeps each target as an entry, with the target's kind.
#[derive(Drop)]
pub struct ClosedTable {
    /// The entries of the rows that Friend, Enemy, Empty and Off lead to: four for each row.
    entries: Vec<u32>,
    /// The index at which the numbers of each row begin; the last element is the index past all numbers.
    starts: Vec<usize>,
    /// The numbers of all rows, one row after the other.
    numbers: Vec<u16>,
    /// The depth of each row.
    depths: Vec<u16>,
    /// The kind of each row.
    kinds: Vec<RowKind>,
}

impl Model for ClosedTable {
    ghost use Rattle.std.specs.Prelude.{List, map};
    ghost use Rattle.dfa_core.specs.Automata.{Row};
    ghost use Rattle.dfa_core.specs.Tables.{rows_in};
    ghost use Rattle.dfa_core.specs.Entries.{row_of, HasEntries};

    ghost Value = { List Row };

    ghost view = { λ t. rows_in (record {
      targets = map row_of t.entries.items;
      starts = t.starts.items;
      numbers = t.numbers.items;
      depths = t.depths.items;
    }) };

    ghost invariant = { λ t. HasEntries (record {
      targets = map row_of t.entries.items;
      starts = t.starts.items;
      numbers = t.numbers.items;
      depths = t.depths.items;
    }) t.entries.items t.kinds.items };
}

impl ClosedTable {
    /// How many rows the table has. Each row has a target for each letter.
    pub fn rows(&self) -> usize
        ensures value { result ≡ length self.now }
        ensures four { HaveFourTargets self.now }
    {
        self.depths.len()
    }

    /// The row that `letter` leads to from `row`.
    pub fn target(&self, row: u32, letter: Seen) -> u32
        requires { row < length self.now }
        ensures { result ≡ step_at self.now row letter }
    {
        row_in(self.entries[4 * row as usize + column(letter)])
    }

    /// The entries of the rows that the letters lead to, four for each row.
    pub fn entries(&self) -> &[u32]
        requires { IsAutomaton self.now }
        ensures { AreEntries self.now result.now }
    {
        self.entries.as_slice()
    }

    /// The depth of `row`, as `add_row` was given it.
    pub fn depth(&self, row: u32) -> u16
        requires { row < length self.now }
        ensures { result ≡ (row_at self.now row).depth }
    {
        self.depths[row as usize]
    }

    /// The kind of `row`.
    pub fn kind(&self, row: u32) -> RowKind
        requires { row < length self.now }
        ensures { result ≡ kind_at self.now row }
    {
        self.kinds[row as usize]
    }

    /// The numbers of all rows, one row after the other.
    pub fn numbers(&self) -> &[u16]
        ensures { result.now ≡ numbers_of self.now }
    {
        self.numbers.as_slice()
    }

    /// The index of the first number of `row` in `numbers`, and the index past its last number.
    pub fn range(&self, row: u32) -> (usize, usize)
        requires { row < length self.now }
        ensures from { result.0 ≡ length (numbers_of (take row self.now)) }
        ensures to { result.1 ≡ length (numbers_of (take (row + 1) self.now)) }
    {
        (self.starts[row as usize], self.starts[row as usize + 1])
    }

    /// The numbers that `row` accepts.
    pub fn accepts(&self, row: u32) -> &[u16]
        requires { row < length self.now }
        ensures { result.now ≡ (row_at self.now row).numbers }
    {
        let (from, to) = self.range(row);
        between(self.numbers(), from, to)
    }
}
