//! The tries that end at the move: the diagram fits, but the move is not legal.
ghost use Rattle.std.specs.Prelude.{◌≡◌, ℕ, ◌*◌, ◌<◌, ◌≤◌, length, filter, count_by, All, IfOk};
ghost use Rattle.std.specs.List.{range_with_len};
ghost use Rattle.go_rules.specs.Board.{largest_points};
ghost use Rattle.match_rules.specs.Fits.{fits};
ghost use Rattle.pat_types.specs.Marks.{count_of};
ghost use Rattle.pattern_coverage.specs.Ends.{is_blocked as is_blocked_there, tries_among};

use go_base::{Cell, Colour, NoMemory, Point, Position, Transform};
use match_misfit::first_misfit;
use pat_types::{Pattern, mark_count};
use std::alloc::Global;

/// Whether the point `at` is empty, and the friend may not play there.
fn is_blocked(position: &Position, friend: Colour, at: Point) -> bool
    requires { at < position.now.size * position.now.size }
    ensures { result ≡ is_blocked_there position.now friend at }
{
    position.cell(at) == Cell::Empty && position.play(friend, at).is_err()
}

/// The empty points where the friend may not play, in reading order.
pub(crate) fn blocked_points(
    alloc: Global,
    position: &Position,
    friend: Colour,
) -> Result<Vec<Point>, NoMemory>
    ensures { IfOk result (λ points. points.items
        ≡ filter (is_blocked_there position.now friend) (range_with_len 0 (position.now.size * position.now.size))) }
{
    let mut points = Vec::new(alloc);
    'points: for at in 0..position.size().points() {
        if is_blocked(position, friend, at) {
            points.push(at)?;
        }
    }
    Ok(points)
}

/// The number of `points` at which the diagram of `p` fits under the transformation `t`.
fn fits_under(
    p: &Pattern,
    position: &Position,
    friend: Colour,
    t: Transform,
    points: &[Point],
) -> u64
    requires { All (λ m. m < position.now.size * position.now.size) points.now }
    ensures { result ≡ count_by (fits p.now position.now friend t) points.now }
{
    let mut count = 0;
    'points: for at in points {
        if first_misfit(p, position, friend, t, *at).is_none() {
            count += 1;
        }
    }
    count
}

/// The number of tries of `p` at these `points` in which its diagram fits.
pub(crate) fn fits_among(p: &Pattern, position: &Position, friend: Colour, points: &[Point]) -> u64
    requires on_board { All (λ m. m < position.now.size * position.now.size) points.now }
    requires few { length points.now ≤ largest_points }
    ensures { result ≡ count_by (λ try. fits p.now position.now friend try.0 try.1)
        (tries_among (count_of p.now.mark) points.now) }
{
    let mut count = 0;
    'transforms: for number in 0..mark_count(p.mark) {
        if let Some(t) = Transform::new(number) {
            count += fits_under(p, position, friend, t, points);
        }
    }
    count
}
