//! The numbers of pairs of rows, found by the pair.
ghost use Rattle.std.specs.Prelude.{◌≡◌, ◌≢◌, ℕ, ◌<◌, length, slice_set, Some, None, IfOk, IfErr, OnOk, OnErr};
ghost use Rattle.dfa_join.specs.Pairs.{Pair};
ghost use Rattle.dfa_join.specs.Index.{no_number, has_place, number_at, indexed_number};

use crate::error::JoinError;
use crate::row_pair::RowPair;
use dfa_core::{Automaton, RowKind};
use indexmap::IndexMap;
use std::alloc::{AllocError, Global};

/// Stands in the list for a pair that has no number.
const NO_NUMBER: u32 = u32::MAX;

/// The first dead row of `automaton`, or the count of its rows if it has no dead row.
fn dead_row(automaton: &Automaton) -> u32 {
    for row in 0..automaton.rows() {
        if automaton.kind(row) == RowKind::Dead {
            return row;
        }
    }
    automaton.rows()
}

/// The numbers of the pairs of each row of one automaton with the dead row of the other.
#[derive(Drop)]
pub struct Side {
    /// The dead row of the other automaton.
    dead: u32,
    /// For each row of this automaton, the number of its pair with the other's dead row, or `NO_NUMBER`.
    numbers: Vec<u32>,
}

impl Side {
    /// A side for an automaton with `rows` rows, in which no pair has a number. Takes memory.
    fn new(alloc: Global, rows: u32, dead: u32) -> Result<Side, AllocError>
        ensures { IfOk result (λ side. (row : ℕ) → number_at side.numbers.items row ≡ None) }
    {
        let mut numbers = Vec::new(alloc);
        numbers.resize(rows as usize, NO_NUMBER)?;
        Ok(Side { dead, numbers })
    }

    /// Whether this side has a place for the pair of `row` with the row `other` of the other automaton.
    #[inline(always)]
    fn has_place(&self, row: u32, other: u32) -> bool
        ensures { result ≡ has_place self.now row other }
    {
        other == self.dead && (row as usize) < self.numbers.len()
    }

    /// The number of the pair of `row`, or `None` if the pair has no number.
    #[inline(always)]
    fn number(&self, row: u32) -> Option<u32>
        requires { row < length self.now.numbers.items }
        ensures { result ≡ number_at self.now.numbers.items row }
    {
        let number = self.numbers[row as usize];
        if number == NO_NUMBER {
            return None;
        }
        Some(number)
    }

    /// Gives the pair of `row` the number `number`.
    #[inline(always)]
    fn put(&mut self, row: u32, number: u32)
        requires { row < length self.old.numbers.items }
        ensures dead { self.new.dead ≡ self.old.dead }
        ensures numbers { self.new.numbers.items ≡ slice_set self.old.numbers.items row number }
    {
        self.numbers[row as usize] = number;
    }
}

/// The numbers of pairs of rows. Many pairs have a dead row: their numbers stand in a list, at the index of the other
/// row. Only the numbers of the remaining pairs are looked up in a map.
#[derive(Drop)]
pub struct Index {
    /// The numbers of the pairs of rows of the first automaton with the dead row of the second.
    left: Side,
    /// The numbers of the pairs of rows of the second automaton with the dead row of the first.
    right: Side,
    /// The numbers of all other pairs.
    others: IndexMap<RowPair, u32>,
}

impl Index {
    /// The index for rows of `a` and `b` in which no pair has a number. Takes memory.
    pub fn new(alloc: Global, a: &Automaton, b: &Automaton) -> Result<Index, JoinError>
        ensures none { IfOk result (λ index. (pair : Pair) → indexed_number index pair ≡ None) }
        ensures no_limit { IfErr result (λ e. e ≡ JoinError.NoMemory) }
    {
        let room = a.rows().min(b.rows());
        Ok(Index {
            left: Side::new(alloc, a.rows(), dead_row(b))?,
            right: Side::new(alloc, b.rows(), dead_row(a))?,
            others: IndexMap::with_capacity(alloc, room as usize)?,
        })
    }

    /// The number of `pair`, or `None` if it has no number.
    #[inline(always)]
    pub fn number(&self, pair: (u32, u32)) -> Option<u32>
        ensures { result ≡ indexed_number self.now pair }
    {
        if self.left.has_place(pair.0, pair.1) {
            return self.left.number(pair.0);
        }
        if self.right.has_place(pair.1, pair.0) {
            return self.right.number(pair.1);
        }
        match self.others.get(&RowPair::new(pair)) {
            Some(number) => Some(*number),
            None => None,
        }
    }

    /// Gives `pair` the number `number`. If there is no memory, no number changes.
    pub fn put(&mut self, pair: (u32, u32), number: u32) -> Result<(), JoinError>
        requires { number ≢ no_number }
        ensures here { OnOk result (indexed_number self.new pair ≡ Some number) }
        ensures elsewhere { OnOk result ((q : Pair) → q ≢ pair
            → indexed_number self.new q ≡ indexed_number self.old q) }
        ensures unchanged { OnErr result ((q : Pair) → indexed_number self.new q ≡ indexed_number self.old q) }
        ensures no_limit { IfErr result (λ e. e ≡ JoinError.NoMemory) }
    {
        if self.left.has_place(pair.0, pair.1) {
            self.left.put(pair.0, number);
            return Ok(());
        }
        if self.right.has_place(pair.1, pair.0) {
            self.right.put(pair.1, number);
            return Ok(());
        }
        match self.others.insert(RowPair::new(pair), number) {
            Ok(_) => Ok(()),
            Err(_) => Err(JoinError::NoMemory),
        }
    }
}
