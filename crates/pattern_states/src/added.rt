//! How many states a list of patterns loses without each of its patterns.
//!
//! A state of a list is a depth and the patterns that are still live there; if none is live, it is the sink. So a list
//! without a pattern lacks exactly these states: those that differ by this pattern alone from another state of the same
//! depth, and those in which no other pattern is live.

ghost use Rattle.std.specs.Prelude.{◌<◌, length};

use dfa_core::{Automaton, RowKind, Seen};
use pat_types::NoMemory;
use std::alloc::Global;

/// The rows of one depth, the last row first, with the numbers of the patterns that are live at each row.
#[derive(Drop)]
struct Layer {
    /// The number of the last row of the layer.
    last: u32,
    /// The live patterns of each row, in ascending order.
    live: Vec<Vec<u16>>,
}

impl Layer {
    /// A layer that has no row yet. Its last row will be `last`.
    fn up_to(alloc: Global, last: u32) -> Layer {
        Layer {
            last,
            live: Vec::new(alloc),
        }
    }

    /// The patterns that are live at `row`; none, if the row is not in the layer.
    fn live_at(&self, row: u32) -> &[u16] {
        let Some(at) = self.last.checked_sub(row) else {
            return &[];
        };
        match self.live.get(at as usize) {
            Some(live) => live.as_slice(),
            None => &[],
        }
    }
}

/// The `numbers` in ascending order, each once.
fn each_once(alloc: Global, mut numbers: Vec<u16>) -> Result<Vec<u16>, NoMemory> {
    numbers.sort_unstable();
    let mut all: Vec<u16> = Vec::new(alloc);
    for number in &numbers {
        if all.last() != Some(number) {
            all.push(*number)?;
        }
    }
    Ok(all)
}

/// The patterns that are live at `row`: those that it accepts, and those that are live at a row that it leads to.
fn live_at(
    alloc: Global,
    automaton: &Automaton,
    row: u32,
    below: &Layer,
) -> Result<Vec<u16>, NoMemory>
    requires { row < length automaton.now }
{
    let mut numbers = Vec::new(alloc);
    numbers.extend_from_slice(automaton.accepts(row))?;
    for letter in [Seen::Friend, Seen::Enemy, Seen::Empty, Seen::Off] {
        let target = automaton.step(row, letter);
        numbers.extend_from_slice(below.live_at(target))?;
    }
    each_once(alloc, numbers)
}

/// A code for the pattern `number`. Two small sets of patterns are unlikely to have the same sum of codes.
fn code_of(number: u16) -> u64 {
    let mut code = (u64::from(number))
        .wrapping_add(1)
        .wrapping_mul(0x9e37_79b9_7f4a_7c15);
    code = (code ^ (code >> 30)).wrapping_mul(0xbf58_476d_1ce4_e5b9);
    code = (code ^ (code >> 27)).wrapping_mul(0x94d0_49bb_1331_11eb);
    code ^ (code >> 31)
}

/// The sum of the codes of the patterns in `live`.
fn sum_of(live: &[u16]) -> u64 {
    let mut sum: u64 = 0;
    for number in live {
        sum = sum.wrapping_add(code_of(*number));
    }
    sum
}

/// Whether `live` has the patterns in `fewer` and the pattern `number`, and no others.
fn differ_by(live: &[u16], fewer: &[u16], number: u16) -> bool {
    let mut others = live.iter().filter(|other| **other != number);
    live.len() == fewer.len().saturating_add(1) && others.eq(fewer.iter())
}

/// For each pattern, adds to `added` how many rows of the layer the list without the pattern lacks.
fn count_layer(alloc: Global, layer: &Layer, added: &mut [u32]) -> Result<(), NoMemory> {
    let mut sums = Vec::new(alloc);
    for (at, live) in layer.live.iter().enumerate() {
        sums.push((sum_of(live.as_slice()), at))?;
    }
    sums.sort_unstable();
    for live in &layer.live {
        let sum = sum_of(live.as_slice());
        for number in live {
            if is_lacking(layer, sums.as_slice(), live.as_slice(), sum, *number)
                && let Some(count) = added.get_mut(*number as usize)
            {
                *count = count.saturating_add(1);
            }
        }
    }
    Ok(())
}

/// Whether the list without the pattern `number` lacks the row of the layer with the patterns `live`. `sum` is the sum
/// of their codes, and `sums` has the sums of all rows in ascending order.
fn is_lacking(layer: &Layer, sums: &[(u64, usize)], live: &[u16], sum: u64, number: u16) -> bool {
    if live.len() == 1 {
        return true;
    }
    let wanted = sum.wrapping_sub(code_of(number));
    let from = sums.partition_point(|other| other.0 < wanted);
    for other in sums.iter().skip(from) {
        if other.0 != wanted {
            return false;
        }
        if let Some(fewer) = layer.live.get(other.1)
            && differ_by(live, fewer.as_slice(), number)
        {
            return true;
        }
    }
    false
}

/// For each of the first `patterns` patterns of a list, how many states fewer the list has without it.
///
/// `automaton` is the one that `dfa_join::compile` makes of a list with this many patterns. The count of a pattern
/// stands at its index in the list. Takes memory, and answers `NoMemory` if there is none.
pub fn added_by_each(
    alloc: Global,
    automaton: &Automaton,
    patterns: usize,
) -> Result<Vec<u32>, NoMemory> {
    let mut added = Vec::new(alloc);
    for _ in 0..patterns {
        added.push(0)?;
    }
    let rows = automaton.rows();
    let mut depth: u16 = 0;
    let mut below = Layer::up_to(alloc, 0);
    let mut here = Layer::up_to(alloc, rows.saturating_sub(1));
    for row in (0..rows).rev() {
        let is_sink = automaton.kind(row) == RowKind::Dead;
        if !is_sink && automaton.depth(row) != depth {
            count_layer(alloc, &here, added.as_mut_slice())?;
            below = here;
            here = Layer::up_to(alloc, row);
            depth = automaton.depth(row);
        }
        let live = live_at(alloc, automaton, row, &below)?;
        here.live.push(live)?;
    }
    count_layer(alloc, &here, added.as_mut_slice())?;
    Ok(added)
}
