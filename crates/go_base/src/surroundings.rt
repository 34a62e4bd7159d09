//! What stands around a string, on a board that is read cell by cell: its liberties, and the last liberties of the
//! enemy strings next to it.

ghost use Rattle.std.specs.Prelude.{◌≡◌, ℕ, ◌*◌, ◌<◌};
ghost use Rattle.std.specs.FinSet as set;
ghost use Rattle.go_rules.specs.Board.{largest_points};
ghost use Rattle.go_rules.specs.Neighbourhood.{neighbourhood_of};
ghost use Rattle.go_rules.specs.Position.{BoardState};
ghost use Rattle.go_rules.specs.Strings.{liberty_points};
ghost use Rattle.go_base.specs.Bits.{marked};
ghost use Rattle.go_base.specs.Surroundings.{is_last_liberty_of_enemy, AddsLast, KnowsLast};
ghost use Rattle.go_base.specs.Views.{Looks, anywhere, alone};

use crate::bits::PointBits;
use crate::enemies::NotAsked;
use crate::flood::{nothing_found, search_into};
use crate::points::PointSet;
use crate::size::{MAX_POINTS, Point};
use crate::view::View;

/// How many liberties a string in atari has.
const IN_ATARI: u16 = 1;

/// What stands around a string.
#[derive(Drop)]
pub struct Surroundings {
    /// The liberties of the string.
    pub liberties: PointSet,
    /// The points that are the only liberty of an enemy string next to the string.
    pub last_liberties: PointSet,
}

/// Adds the liberty of the string of `q` to `last`, if the string has only one, unless the string was seen before. The
/// search stops once the string has shown two liberties.
fn add_last_liberty<V: View>(board: &mut V, q: Point, seen: &mut PointBits, last: &mut PointSet)
    requires on_board { q < V.rows board.old * V.rows board.old }
    requires small { q < largest_points }
    ensures looks { Looks V.cells V.asks board.old board.new anywhere }
    ensures near { (pos : BoardState) → V.agrees board.new pos
        → V.asks board.old board.new (neighbourhood_of (V.rows board.old) (V.cells board.old pos) (alone q)) }
    ensures adds { (pos : BoardState) → V.agrees board.new pos
        → KnowsLast (V.rows board.old) (V.cells board.old pos) (marked seen.old) last.old
        → AddsLast (V.rows board.old) (V.cells board.old pos) q last.old last.new }
    ensures knows { (pos : BoardState) → V.agrees board.new pos
        → KnowsLast (V.rows board.old) (V.cells board.old pos) (marked seen.old) last.old
        → KnowsLast (V.rows board.old) (V.cells board.old pos) (marked seen.new) last.new }
{
    if seen.has(q) {
        return;
    }
    let mut found = nothing_found();
    search_into(board, q, IN_ATARI, &mut found, &mut NotAsked);
    found.stones.mark_in(seen);
    if found.liberties.count() == IN_ATARI {
        last.join(&found.liberties);
    }
}

/// The liberties of the string of `p` and the last liberties of the enemy strings next to it. Both sets are empty if
/// `p` is empty. Each enemy string in atari is searched once.
pub fn surroundings_of<V: View>(board: &mut V, p: Point) -> Surroundings
    requires { p < V.rows board.old * V.rows board.old }
    ensures looks { Looks V.cells V.asks board.old board.new anywhere }
    ensures near { (pos : BoardState) → V.agrees board.new pos
        → V.asks board.old board.new (neighbourhood_of (V.rows board.old) (V.cells board.old pos)
        (neighbourhood_of (V.rows board.old) (V.cells board.old pos) (alone p))) }
    ensures liberties { (pos : BoardState) → V.agrees board.new pos
        → result.liberties ≡ liberty_points (V.rows board.old) (V.cells board.old pos) p }
    ensures last_liberties { (pos : BoardState) → V.agrees board.new pos → (l : ℕ)
        → set.contains result.last_liberties l ≡ is_last_liberty_of_enemy (V.rows board.old)
        (V.cells board.old pos) p l }
{
    let mut found = nothing_found();
    let mut enemies = PointSet::new();
    search_into(board, p, MAX_POINTS as u16, &mut found, &mut enemies);
    let mut seen = PointBits::new();
    let mut last_liberties = PointSet::new();
    let mut next = 0;
    while let Some(q) = enemies.first_from(next) {
        add_last_liberty(board, q, &mut seen, &mut last_liberties);
        next = q + 1;
    }
    Surroundings {
        liberties: found.liberties,
        last_liberties,
    }
}
