//! Plays on a board that is read cell by cell: what a play takes, which ban it leaves, and how it is taken back.

ghost use Rattle.std.specs.Prelude.{◌≡◌, ◌≢◌, ◌⊎◌, ℕ, ◌+◌, ◌*◌, ◌%◌, ◌<◌, ◌==◌, ◌||◌, ◌&&◌, IsTrue, List, map};
ghost use Rattle.std.specs.Prelude.{slice_set, IfOk, if◌then◌else◌};
ghost use Rattle.std.specs.List.{range_with_len};
ghost use Rattle.std.specs.FinSet as set;
ghost use Rattle.go_rules.specs.declared.Cell.{Cell};
ghost use Rattle.go_rules.specs.Board.{largest_points};
ghost use Rattle.go_rules.specs.Strings.{cell_at, is_stone, same_cell, string_at, liberties};
ghost use Rattle.go_rules.specs.Neighbourhood.{neighbourhood_of};
ghost use Rattle.go_rules.specs.Position.{BoardState, IsPosition, other, stone_of, board_of};
ghost use Rattle.go_rules.specs.Play.{is_taken, taken_at, ban_after, played_on, play_free};
ghost use Rattle.go_base.specs.Takes.{TakenBeside, HasWholeStrings, Takes, near_taken};
ghost use Rattle.go_base.specs.TakenBack.{before_play, cells_before, ban_or_refusal};
ghost use Rattle.go_base.specs.Views.{Looks, anywhere, nowhere, alone};

use crate::flood::search;
use crate::points::PointSet;
use crate::sides::Spot;
use crate::size::Point;
use crate::view::View;
use crate::without_liberty::string_without_liberty;
use go_rules::{Cell, Colour, Illegal};

/// Adds the stones of the string of `q` to `taken`, if they are enemies of `c` and have no liberty. A string that is in
/// `taken` already is not searched again.
fn take<V: View>(board: &mut V, c: Colour, q: Point, taken: &mut PointSet)
    requires on_board { q < V.rows board.old * V.rows board.old }
    requires small { q < largest_points }
    ensures looks { Looks V.cells V.asks board.old board.new anywhere }
    ensures over { (pos : BoardState) → V.agrees board.new pos
        → HasWholeStrings (V.rows board.old) (V.cells board.old pos) taken.old
        → taken.new ≡ (if is_taken (V.rows board.old) (V.cells board.old pos) c q then set.union taken.old
        (string_at (V.rows board.old) (V.cells board.old pos) q) else taken.old) }
    ensures on_board { (r : ℕ) → IsTrue (set.contains taken.new r)
        → IsTrue (set.contains taken.old r) ⊎ (r < V.rows board.old * V.rows board.old) }
    ensures near { (pos : BoardState) → V.agrees board.new pos
        → V.asks board.old board.new (λ r. alone q r
        || (same_cell (cell_at (V.cells board.old pos) q) (stone_of (other c))
        && neighbourhood_of (V.rows board.old) (V.cells board.old pos) (alone q) r)) }
{
    if board.at(q) != c.other().cell() {
        return;
    }
    if taken.has(q) {
        return;
    }
    if let Some(stones) = string_without_liberty(board, q) {
        taken.join(&stones);
    }
}

/// Adds the string next to the point of `spot` on one side to `taken`, if it is an enemy of `c` without a liberty.
#[inline(always)]
fn take_side<V: View>(board: &mut V, c: Colour, spot: &Spot, side: u8, taken: &mut PointSet)
    requires on_board { spot.now.point < V.rows board.old * V.rows board.old }
    requires rows { spot.now.size ≡ V.rows board.old }
    requires column { spot.now.column ≡ spot.now.point % spot.now.size }
    requires side { side < 4 }
    ensures looks { Looks V.cells V.asks board.old board.new anywhere }
    ensures over { (pos : BoardState) → V.agrees board.new pos
        → Takes (V.rows board.old) (V.cells board.old pos) c spot.now.point side taken.old
        → Takes (V.rows board.old) (V.cells board.old pos) c spot.now.point (side + 1) taken.new }
    ensures on_board { (r : ℕ) → IsTrue (set.contains taken.new r)
        → IsTrue (set.contains taken.old r) ⊎ (r < V.rows board.old * V.rows board.old) }
    ensures near { (pos : BoardState) → V.agrees board.new pos
        → V.asks board.old board.new (near_taken (V.rows board.old) (V.cells board.old pos) c spot.now.point) }
{
    if let Some(q) = spot.neighbour(side) {
        take(board, c, q, taken);
    }
}

/// The points of the enemy strings that have no liberty, after a stone of `c` was put at `p`.
fn captured<V: View>(board: &mut V, c: Colour, p: Point) -> PointSet
    requires { p < V.rows board.old * V.rows board.old }
    ensures looks { Looks V.cells V.asks board.old board.new anywhere }
    ensures over { (pos : BoardState) → V.agrees board.new pos
        → TakenBeside (V.rows board.old) (V.cells board.old pos) c p
        → result ≡ taken_at (V.rows board.old) (V.cells board.old pos) c }
    ensures on_board { (r : ℕ) → IsTrue (set.contains result r) → r < V.rows board.old * V.rows board.old }
    ensures near { (pos : BoardState) → V.agrees board.new pos
        → V.asks board.old board.new (near_taken (V.rows board.old) (V.cells board.old pos) c p) }
{
    let spot = Spot::new(board.size(), p);
    let mut taken = PointSet::new();
    take_side(board, c, &spot, 0, &mut taken);
    take_side(board, c, &spot, 1, &mut taken);
    take_side(board, c, &spot, 2, &mut taken);
    take_side(board, c, &spot, 3, &mut taken);
    taken
}

/// Puts `cell` on each point of `points`.
pub fn put_all<V: View>(board: &mut V, points: &PointSet, cell: Cell)
    requires { (r : ℕ) → IsTrue (set.contains points.now r) → r < V.rows board.old * V.rows board.old }
    ensures asks { V.asks board.old board.new nowhere }
    ensures over { (pos : BoardState) → V.agrees board.new pos
        → V.cells board.new pos ≡ map (λ q. if set.contains points.now q then cell else cell_at
        (V.cells board.old pos) q) (range_with_len 0 (V.rows board.old * V.rows board.old)) }
{
    let mut next = 0;
    while let Some(q) = points.first_from(next) {
        board.put(q, cell);
        next = q + 1;
    }
}

/// Whether the string of the stone at `p`, which took the stones of `taken`, has no liberty. A stone that took another
/// has a liberty where the taken stone stood, so its string is not searched.
fn is_suicide<V: View>(board: &mut V, p: Point, taken: &PointSet) -> bool
    requires { p < V.rows board.old * V.rows board.old }
    ensures looks { Looks V.cells V.asks board.old board.new anywhere }
    ensures over { (pos : BoardState) → V.agrees board.new pos → IsTrue (is_stone (cell_at (V.cells board.old pos) p))
        → (taken.now ≢ set.empty → liberties (V.rows board.old) (V.cells board.old pos) p ≢ 0)
        → result ≡ (liberties (V.rows board.old) (V.cells board.old pos) p == 0) }
    ensures near { (pos : BoardState) → V.agrees board.new pos
        → V.asks board.old board.new (neighbourhood_of (V.rows board.old) (V.cells board.old pos) (alone p)) }
{
    if taken.count() != 0 {
        return false;
    }
    string_without_liberty(board, p).is_some()
}

/// The ban after `c` put a stone at `p` that took the stones of `taken`: if one stone was taken, and the stone at `p`
/// is alone and has one liberty, the other colour may not play where the taken stone stood. The string of `p` is
/// searched only if one stone was taken, and no further once a second liberty is seen.
pub fn ban_of<V: View>(
    board: &mut V,
    c: Colour,
    p: Point,
    taken: &PointSet,
) -> Option<(Point, Colour)>
    requires { p < V.rows board.old * V.rows board.old }
    ensures looks { Looks V.cells V.asks board.old board.new anywhere }
    ensures over { (pos : BoardState) → V.agrees board.new pos → (put : List Cell)
        → taken.now ≡ taken_at (V.rows board.old) put c
        → result ≡ ban_after (V.rows board.old) put (V.cells board.old pos) c p }
    ensures near { (pos : BoardState) → V.agrees board.new pos
        → V.asks board.old board.new (neighbourhood_of (V.rows board.old) (V.cells board.old pos) (alone p)) }
{
    if taken.count() != 1 {
        return None;
    }
    let own = search(board, p, 1);
    if !are_one(own.stones.count(), own.liberties.count()) {
        return None;
    }
    match taken.first_from(0) {
        Some(q) => Some((q, c.other())),
        None => None,
    }
}

/// Whether both numbers are 1.
fn are_one(a: u16, b: u16) -> bool
    ensures { result ≡ ((a == 1) && (b == 1)) }
{
    a == 1 && b == 1
}

/// What a play took, and the ban that it leaves.
#[derive(Drop)]
pub struct Played {
    /// The points of the stones that were taken.
    pub taken: PointSet,
    /// The play that the ko ban forbids now: a point, and the colour that may not play there.
    pub ban: Option<(Point, Colour)>,
}

/// Plays `c` at `p` with no regard to a ban. The answer is what the play took and the new ban, or the refusal:
/// `Occupied` or `Suicide`, and never `Ko`. After a refusal the board is as it was before. It takes no memory.
pub fn play_on<V: View>(board: &mut V, c: Colour, p: Point) -> Result<Played, Illegal>
    requires { p < V.rows board.old * V.rows board.old }
    ensures asks { V.asks board.old board.new anywhere }
    ensures over { (pos : BoardState) → V.agrees board.new pos
        → IsPosition (board_of (V.rows board.old) (V.cells board.old pos))
        → play_free (board_of (V.rows board.old) (V.cells board.old pos)) c p
        ≡ played_on (V.rows board.old) (V.cells board.new pos) (ban_or_refusal result) }
    ensures undone { (pos : BoardState) → V.agrees board.new pos
        → IsPosition (board_of (V.rows board.old) (V.cells board.old pos))
        → cells_before (V.rows board.old) c p result (V.cells board.new pos) ≡ V.cells board.old pos }
    ensures taken { (pos : BoardState) → V.agrees board.new pos
        → IsPosition (board_of (V.rows board.old) (V.cells board.old pos))
        → IfOk result (λ played. played.taken
        ≡ taken_at (V.rows board.old) (slice_set (V.cells board.old pos) p (stone_of c)) c) }
    ensures taken_on_board { IfOk result (λ played. (q : ℕ) → IsTrue (set.contains played.taken q)
        → q < V.rows board.old * V.rows board.old) }
    ensures near { (pos : BoardState) → V.agrees board.new pos
        → V.asks board.old board.new (neighbourhood_of (V.rows board.old) (V.cells board.old pos)
        (neighbourhood_of (V.rows board.old) (V.cells board.old pos) (alone p))) }
{
    if board.at(p) != Cell::Empty {
        return Err(Illegal::Occupied);
    }
    board.put(p, c.cell());
    let taken = captured(board, c, p);
    put_all(board, &taken, Cell::Empty);
    if is_suicide(board, p, &taken) {
        board.put(p, Cell::Empty);
        return Err(Illegal::Suicide);
    }
    let ban = ban_of(board, c, p, &taken);
    Ok(Played { taken, ban })
}

/// Takes back a play of `c` at `p` that took the stones of `taken`: they stand again, and `p` is empty. It takes no
/// memory.
pub fn take_back<V: View>(board: &mut V, c: Colour, p: Point, taken: &PointSet)
    requires on_board { p < V.rows board.old * V.rows board.old }
    requires taken_on_board { (q : ℕ) → IsTrue (set.contains taken.now q) → q < V.rows board.old * V.rows board.old }
    ensures asks { V.asks board.old board.new nowhere }
    ensures over { (pos : BoardState) → V.agrees board.new pos
        → V.cells board.new pos ≡ before_play (V.rows board.old) c p taken.now (V.cells board.old pos) }
{
    put_all(board, taken, c.other().cell());
    board.put(p, Cell::Empty);
}
