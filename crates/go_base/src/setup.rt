//! Positions that are set up from their stones.

ghost use Rattle.std.specs.Prelude.{◌≡◌, ℕ, ◌*◌, ◌<◌, ◌≤◌, IsTrue, length, take, drop};
ghost use Rattle.std.specs.FinSet as set;
ghost use Rattle.go_rules.specs.Board.{largest_size, largest_points};
ghost use Rattle.go_base.specs.Bits.{marked};
ghost use Rattle.go_base.specs.Flats.{KeepsRest};
ghost use Rattle.go_base.specs.Positions.{padding};
ghost use Rattle.go_base.specs.Setups.{is_dead_at as dead_at, has_dead_string as some_dead, cell_among, cells_with};
ghost use Rattle.go_base.specs.Setups.{have_common_point, setup_of, AreAlive};

use crate::bits::PointBits;
use crate::flood::{Found, flood};
use crate::points::PointSet;
use crate::position::Position;
use crate::size::{Point, Size};
use crate::view::Flat;
use go_rules::Cell;

/// What stands at `p` if `black` and `white` are the points of the stones.
fn cell_of(black: &PointSet, white: &PointSet, p: Point) -> Cell
    requires { p < largest_points }
    ensures { result ≡ cell_among black.now white.now p }
{
    if black.has(p) {
        Cell::Black
    } else if white.has(p) {
        Cell::White
    } else {
        Cell::Empty
    }
}

/// Whether some point is in both sets. The points of `black` are on the board.
fn has_common_point(size: Size, black: &PointSet, white: &PointSet) -> bool
    requires { (p : ℕ) → IsTrue (set.contains black.now p) → p < size * size }
    ensures { result ≡ have_common_point size black.now white.now }
{
    black.intersection(white).count() != 0
}

/// A board with the stones of `black` and `white` and no others.
fn board_with(size: Size, black: &PointSet, white: &PointSet) -> Flat
    ensures size { result.size ≡ size }
    ensures whole { length result.cells ≡ largest_points }
    ensures cells { take (size * size) result.cells ≡ cells_with size black.now white.now }
    ensures padded { drop (size * size) result.cells ≡ padding size }
{
    let mut board = Position::new(size).board();
    for p in 0..size.points() {
        board.cells[p as usize] = cell_of(black, white, p);
    }
    board
}

/// Whether a stone stands at `p` whose string has no liberty. If its string has a liberty, the stones of the string are
/// noted in `alive`, and a stone that is noted there is not searched again.
fn is_dead_at(board: &mut Flat, p: Point, alive: &mut PointBits) -> bool
    requires on_board { p < board.old.size * board.old.size }
    requires whole { (length board.old.cells ≡ largest_points) × (board.old.size ≤ largest_size) }
    requires alive { AreAlive board.old.size (take (board.old.size * board.old.size) board.old.cells)
        (marked alive.old) }
    ensures keeps { KeepsRest board.old board.new }
    ensures same { take (board.new.size * board.new.size) board.new.cells
        ≡ take (board.old.size * board.old.size) board.old.cells }
    ensures value { result ≡ dead_at board.old.size (take (board.old.size * board.old.size) board.old.cells) p }
    ensures alive { AreAlive board.old.size (take (board.old.size * board.old.size) board.old.cells)
        (marked alive.new) }
{
    let _ = board.size.points();
    if alive.has(p) {
        return false;
    }
    if board.cells[p as usize] == Cell::Empty {
        return false;
    }
    let Found {
        stones,
        liberties,
        enemies: _,
    } = flood(board, p);
    if liberties.count() == 0 {
        return true;
    }
    stones.mark_in(alive);
    false
}

/// Whether some string has no liberty. No string is searched twice.
fn has_dead_string(board: &mut Flat) -> bool
    requires { (length board.old.cells ≡ largest_points) × (board.old.size ≤ largest_size) }
    ensures keeps { KeepsRest board.old board.new }
    ensures same { take (board.new.size * board.new.size) board.new.cells
        ≡ take (board.old.size * board.old.size) board.old.cells }
    ensures value { result ≡ some_dead board.old.size (take (board.old.size * board.old.size) board.old.cells) }
{
    let mut alive = PointBits::new();
    for p in 0..board.size.points() {
        if is_dead_at(board, p, &mut alive) {
            return true;
        }
    }
    false
}

impl Position {
    /// The position with the stones of `black` and `white` and no ban; `None` exactly if a point is in both sets or
    /// some string has no liberty.
    pub fn setup(size: Size, black: &PointSet, white: &PointSet) -> Option<Position>
        requires black { (p : ℕ) → IsTrue (set.contains black.now p) → p < size * size }
        requires white { (p : ℕ) → IsTrue (set.contains white.now p) → p < size * size }
        ensures { result ≡ setup_of size black.now white.now }
    {
        let _ = size.get();
        if has_common_point(size, black, white) {
            return None;
        }
        let mut board = board_with(size, black, white);
        if has_dead_string(&mut board) {
            return None;
        }
        Some(Position::of(&board, None))
    }
}
