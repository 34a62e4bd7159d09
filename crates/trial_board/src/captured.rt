//! The points of the stones that trial moves took, kept one after another in one row for all moves.

ghost use Rattle.std.specs.Prelude.{◌≡◌, ℕ, ◌+◌, ◌<◌, ◌≤◌, IsTrue, length, replicate, slice_index_or};
ghost use Rattle.std.specs.FinSet as set;
ghost use Rattle.go_rules.specs.Board.{largest_points};
ghost use Rattle.trial_board.specs.Captured.{most_captured, points_in};

use crate::moves::MAX_TRIAL_MOVES;
use go_base::points::PointSet;
use go_base::size::{MAX_POINTS, Point};

/// How many stones the standing moves can have taken: the stones of a full board, and one for each move.
pub const MAX_CAPTURED: usize = MAX_POINTS + MAX_TRIAL_MOVES;

/// A row with no point in use.
pub fn nothing_captured() -> [Point; MAX_CAPTURED]
    ensures { result ≡ replicate most_captured 0 }
{
    [0; MAX_CAPTURED]
}

/// Writes the points into `row`, one after another from the place `first` on.
fn note_each(row: &mut [Point; MAX_CAPTURED], first: u16, points: &PointSet)
    requires row_whole { length row.old ≡ most_captured }
    requires small { (q : ℕ) → IsTrue (set.contains points.now q) → q < largest_points }
    requires room { first + set.len points.now ≤ most_captured }
    ensures row_whole { length row.new ≡ most_captured }
    ensures noted { points_in row.new first (set.len points.now) ≡ points.now }
    ensures before { (i : ℕ) → i < first → slice_index_or row.new i 0 ≡ slice_index_or row.old i 0 }
{
    let mut count = 0;
    let mut next = 0;
    while let Some(q) = points.first_from(next) {
        row[(first + count) as usize] = q;
        count += 1;
        next = q + 1;
    }
}

/// Writes the points into `row`, one after another from the place `first` on. Most moves take no stone, so this case is
/// tested first.
pub fn note(row: &mut [Point; MAX_CAPTURED], first: u16, points: &PointSet)
    requires row_whole { length row.old ≡ most_captured }
    requires small { (q : ℕ) → IsTrue (set.contains points.now q) → q < largest_points }
    requires room { first + set.len points.now ≤ most_captured }
    ensures row_whole { length row.new ≡ most_captured }
    ensures noted { points_in row.new first (set.len points.now) ≡ points.now }
    ensures before { (i : ℕ) → i < first → slice_index_or row.new i 0 ≡ slice_index_or row.old i 0 }
{
    if points.count() != 0 {
        note_each(row, first, points);
    }
}

/// The `n` points in `row` from the place `first` on.
pub fn points_in(row: &[Point; MAX_CAPTURED], first: u16, n: u16) -> PointSet
    requires within { first + n ≤ length row.now }
    requires small { (q : ℕ) → IsTrue (set.contains (points_in row.now first n) q) → q < largest_points }
    ensures { result ≡ points_in row.now first n }
{
    let mut points = PointSet::new();
    for i in 0..n {
        points.add(row[(first + i) as usize]);
    }
    points
}
