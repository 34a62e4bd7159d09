//! Whether a string has a liberty, on a board that is read cell by cell. The sides of one stone are looked at before
//! its string is searched.

ghost use Rattle.std.specs.Prelude.{◌≡◌, ℕ, ◌*◌, ◌<◌, IfSome, IsTrue};
ghost use Rattle.std.specs.FinSet as set;
ghost use Rattle.go_rules.specs.declared.Cell.{Cell};
ghost use Rattle.go_rules.specs.Strings.{cell_at, is_stone, same_cell};
ghost use Rattle.go_rules.specs.Neighbourhood.{neighbourhood_of};
ghost use Rattle.go_rules.specs.Position.{BoardState};
ghost use Rattle.go_base.specs.Views.{Looks, anywhere, around, alone};
ghost use Rattle.go_base.specs.WithoutLiberty.{has_empty_neighbour, stones_without_liberty};

use crate::flood::search;
use crate::points::PointSet;
use crate::sides::Spot;
use crate::size::Point;
use crate::view::View;
use go_rules::Cell;

/// Whether `p` is empty.
#[inline(always)]
fn is_empty_at<V: View>(board: &mut V, p: Point) -> bool
    requires { p < V.rows board.old * V.rows board.old }
    ensures looks { Looks V.cells V.asks board.old board.new (alone p) }
    ensures over { (pos : BoardState) → V.agrees board.new pos
        → result ≡ same_cell (cell_at (V.cells board.old pos) p) Cell.Empty }
{
    board.at(p) == Cell::Empty
}

/// Whether a neighbour of `p` is empty. Once an empty neighbour is seen, no other is looked at.
fn has_empty_side<V: View>(board: &mut V, p: Point) -> bool
    requires { p < V.rows board.old * V.rows board.old }
    ensures looks { Looks V.cells V.asks board.old board.new (around (V.rows board.old) p) }
    ensures over { (pos : BoardState) → V.agrees board.new pos
        → result ≡ has_empty_neighbour (V.rows board.old) (V.cells board.old pos) p }
{
    let spot = Spot::new(board.size(), p);
    for side in 0..4 {
        if let Some(r) = spot.neighbour(side) {
            if is_empty_at(board, r) {
                return true;
            }
        }
    }
    false
}

/// The stones of the string of the stone at `p`, if a search finds no liberty of it; else `None`. It is a function of
/// its own, so that room for what a search finds is made only if a search is begun.
fn searched_without_liberty<V: View>(board: &mut V, p: Point) -> Option<PointSet>
    requires { p < V.rows board.old * V.rows board.old }
    ensures looks { Looks V.cells V.asks board.old board.new anywhere }
    ensures over { (pos : BoardState) → V.agrees board.new pos → IsTrue (is_stone (cell_at (V.cells board.old pos) p))
        → result ≡ stones_without_liberty (V.rows board.old) (V.cells board.old pos) p }
    ensures on_board { IfSome result (λ stones. (q : ℕ) → IsTrue (set.contains stones q)
        → q < V.rows board.old * V.rows board.old) }
    ensures near { (pos : BoardState) → V.agrees board.new pos
        → V.asks board.old board.new (neighbourhood_of (V.rows board.old) (V.cells board.old pos) (alone p)) }
{
    let found = search(board, p, 0);
    if found.liberties.count() != 0 {
        return None;
    }
    Some(found.stones)
}

/// The stones of the string of the stone at `p`, if it has no liberty; else `None`. It looks at the stones and their
/// neighbours, and no further once it has seen a liberty. It takes no memory.
#[inline(always)]
pub(crate) fn string_without_liberty<V: View>(board: &mut V, p: Point) -> Option<PointSet>
    requires { p < V.rows board.old * V.rows board.old }
    ensures looks { Looks V.cells V.asks board.old board.new anywhere }
    ensures over { (pos : BoardState) → V.agrees board.new pos → IsTrue (is_stone (cell_at (V.cells board.old pos) p))
        → result ≡ stones_without_liberty (V.rows board.old) (V.cells board.old pos) p }
    ensures on_board { IfSome result (λ stones. (q : ℕ) → IsTrue (set.contains stones q)
        → q < V.rows board.old * V.rows board.old) }
    ensures near { (pos : BoardState) → V.agrees board.new pos
        → V.asks board.old board.new (neighbourhood_of (V.rows board.old) (V.cells board.old pos) (alone p)) }
{
    if has_empty_side(board, p) {
        return None;
    }
    searched_without_liberty(board, p)
}
