//! Strings, their liberties and the enemy stones next to them, found by one search over a board that is read cell by
//! cell. A search may have a bound on liberties, and stops once it sees more.

ghost use Rattle.std.specs.Prelude.{◌≡◌, ◌≢◌, ◌⊎◌, ℕ, ◌+◌, ◌*◌, ◌%◌, ◌<◌, ◌≤◌, IsTrue, true, IfSome, IfNone};
ghost use Rattle.std.specs.Prelude.{if◌then◌else◌};
ghost use Rattle.std.specs.FinSet as set;
ghost use Rattle.go_rules.specs.declared.Cell.{Cell};
ghost use Rattle.go_rules.specs.Board.{largest_points};
ghost use Rattle.go_rules.specs.Strings.{cell_at, string_at, liberty_points};
ghost use Rattle.go_rules.specs.Neighbourhood.{neighbourhood_of};
ghost use Rattle.go_rules.specs.Position.{BoardState};
ghost use Rattle.go_base.specs.Floods.{Visits, SpreadsUnder, Finds, Searches, FindsEnemies, enemy_points, with_enemies};
ghost use Rattle.go_base.specs.declared.flood.Found.{Found};
ghost use Rattle.go_base.specs.Views.{Looks, anywhere, around, alone};

use crate::enemies::{Enemies, NotAsked};
use crate::points::PointSet;
use crate::sides::Spot;
use crate::size::{MAX_POINTS, Point};
use crate::view::View;
use go_rules::Cell;

/// What a search finds of a string if it does not ask for enemy stones.
#[derive(Drop)]
pub struct Searched {
    /// The stones of the string.
    pub stones: PointSet,
    /// The liberties of the string: the empty neighbours of its stones.
    pub liberties: PointSet,
}

/// What a search without a bound finds of a string.
#[derive(Drop)]
pub struct Found {
    /// The stones of the string.
    pub stones: PointSet,
    /// The liberties of the string: the empty neighbours of its stones.
    pub liberties: PointSet,
    /// The enemy stones next to the string.
    pub enemies: PointSet,
}

/// What a search has found at its beginning: nothing.
#[inline(always)]
pub(crate) fn nothing_found() -> Searched
    ensures stones { result.stones ≡ set.empty }
    ensures liberties { result.liberties ≡ set.empty }
{
    Searched {
        stones: PointSet::new(),
        liberties: PointSet::new(),
    }
}

/// Puts a stone at `r` among the stones and lets it wait for its visit, unless it was found before.
#[inline(always)]
fn add_stone(r: Point, stones: &mut PointSet, waiting: &mut PointSet)
    requires small { r < largest_points }
    requires waits { set.contains waiting.old r ≡ true → set.contains stones.old r ≡ true }
    ensures stones { stones.new ≡ set.insert stones.old r }
    ensures waiting { waiting.new ≡ (if set.contains stones.old r then waiting.old else set.insert waiting.old r) }
{
    if !stones.has(r) {
        stones.add_new(r);
        waiting.add_new(r);
    }
}

/// Looks at `r`, a neighbour of a stone like `own`: a stone like `own` is a stone of the string, an empty point a
/// liberty, and any other stone an enemy. A stone that is new waits for its visit.
#[inline(always)]
fn visit<V: View, E: Enemies>(
    board: &mut V,
    own: Cell,
    r: Point,
    found: &mut Searched,
    enemies: &mut E,
    waiting: &mut PointSet,
)
    requires on_board { r < V.rows board.old * V.rows board.old }
    requires small { r < largest_points }
    requires stone { own ≢ Cell.Empty }
    requires waits { (q : ℕ) → set.contains waiting.old q ≡ true → set.contains found.old.stones q ≡ true }
    ensures looks { Looks V.cells V.asks board.old board.new (alone r) }
    ensures over { (pos : BoardState) → V.agrees board.new pos
        → Visits E.asked own (cell_at (V.cells board.old pos) r) r (with_enemies found.old (E.met enemies.old))
        (with_enemies found.new (E.met enemies.new)) }
    ensures finds { Finds (V.rows board.old) found.old.stones found.new.stones waiting.old waiting.new }
    ensures enemies_alone { (q : ℕ) → set.contains (E.met enemies.new) q ≡ true
        → (set.contains (E.met enemies.old) q ≡ true) ⊎ (q ≡ r) }
{
    let cell = board.at(r);
    if cell == own {
        add_stone(r, &mut found.stones, waiting);
    } else if cell == Cell::Empty {
        found.liberties.add(r);
    } else {
        enemies.meet(r);
    }
}

/// Visits the neighbour on one side of `spot`, a stone like `own`, if there is a neighbour and no more liberties than
/// `most` were seen.
#[inline(always)]
fn visit_side<V: View, E: Enemies>(
    board: &mut V,
    own: Cell,
    spot: &Spot,
    side: u8,
    most: u16,
    found: &mut Searched,
    enemies: &mut E,
    waiting: &mut PointSet,
)
    requires on_board { spot.now.point < V.rows board.old * V.rows board.old }
    requires rows { spot.now.size ≡ V.rows board.old }
    requires column { spot.now.column ≡ spot.now.point % spot.now.size }
    requires side { side < 4 }
    requires stone { own ≢ Cell.Empty }
    requires waits { (r : ℕ) → set.contains waiting.old r ≡ true → set.contains found.old.stones r ≡ true }
    ensures looks { Looks V.cells V.asks board.old board.new (around (V.rows board.old) spot.now.point) }
    ensures over { (pos : BoardState) → V.agrees board.new pos
        → cell_at (V.cells board.old pos) spot.now.point ≡ own → (old : Found)
        → SpreadsUnder E.asked (V.rows board.old) (V.cells board.old pos) own spot.now.point side most old
        (with_enemies found.old (E.met enemies.old))
        → SpreadsUnder E.asked (V.rows board.old) (V.cells board.old pos) own spot.now.point (side + 1) most old
        (with_enemies found.new (E.met enemies.new)) }
    ensures finds { Finds (V.rows board.old) found.old.stones found.new.stones waiting.old waiting.new }
    ensures enemies_on_board { (r : ℕ) → set.contains (E.met enemies.new) r ≡ true
        → (set.contains (E.met enemies.old) r ≡ true) ⊎ (r < V.rows board.old * V.rows board.old) }
{
    if found.liberties.count() > most {
        return;
    }
    if let Some(r) = spot.neighbour(side) {
        visit(board, own, r, found, enemies, waiting);
    }
}

/// Visits the neighbours of `q`, a stone like `own`, until more liberties than `most` are seen.
#[inline(always)]
fn spread<V: View, E: Enemies>(
    board: &mut V,
    own: Cell,
    q: Point,
    most: u16,
    found: &mut Searched,
    enemies: &mut E,
    waiting: &mut PointSet,
)
    requires on_board { q < V.rows board.old * V.rows board.old }
    requires stone { own ≢ Cell.Empty }
    requires waits { (r : ℕ) → set.contains waiting.old r ≡ true → set.contains found.old.stones r ≡ true }
    ensures looks { Looks V.cells V.asks board.old board.new (around (V.rows board.old) q) }
    ensures over { (pos : BoardState) → V.agrees board.new pos → cell_at (V.cells board.old pos) q ≡ own
        → SpreadsUnder E.asked (V.rows board.old) (V.cells board.old pos) own q 4 most
        (with_enemies found.old (E.met enemies.old)) (with_enemies found.new (E.met enemies.new)) }
    ensures finds { Finds (V.rows board.old) found.old.stones found.new.stones waiting.old waiting.new }
    ensures enemies_on_board { (r : ℕ) → set.contains (E.met enemies.new) r ≡ true
        → (set.contains (E.met enemies.old) r ≡ true) ⊎ (r < V.rows board.old * V.rows board.old) }
{
    let spot = Spot::new(board.size(), q);
    visit_side(board, own, &spot, 0, most, found, enemies, waiting);
    visit_side(board, own, &spot, 1, most, found, enemies, waiting);
    visit_side(board, own, &spot, 2, most, found, enemies, waiting);
    visit_side(board, own, &spot, 3, most, found, enemies, waiting);
}

/// The next stone to visit, which waits no longer; `None` if no stone waits, or more liberties than `most` were seen.
#[inline(always)]
fn next_stone(waiting: &mut PointSet, seen: u16, most: u16) -> Option<Point>
    ensures some { IfSome result (λ q. (q < largest_points) × IsTrue (set.contains waiting.old q)
        × (waiting.new ≡ set.remove waiting.old q) × (seen ≤ most)) }
    ensures none { IfNone result (seen ≤ most → waiting.old ≡ set.empty) }
{
    if seen > most {
        return None;
    }
    waiting.take_first()
}

/// Searches as `search` does, and writes what it finds into `found` and `enemies`, which are empty before. Enemy stones
/// are kept only if `enemies` asks for them.
pub(crate) fn search_into<V: View, E: Enemies>(
    board: &mut V,
    p: Point,
    most: u16,
    found: &mut Searched,
    enemies: &mut E,
)
    requires on_board { p < V.rows board.old * V.rows board.old }
    requires stones { found.old.stones ≡ set.empty }
    requires liberties { found.old.liberties ≡ set.empty }
    requires enemies { E.met enemies.old ≡ set.empty }
    ensures looks { Looks V.cells V.asks board.old board.new anywhere }
    ensures over { (pos : BoardState) → V.agrees board.new pos
        → Searches (V.rows board.old) (V.cells board.old pos) p most found.new }
    ensures enemies { (pos : BoardState) → V.agrees board.new pos → IsTrue E.asked
        → FindsEnemies (V.rows board.old) (V.cells board.old pos) p most found.new (E.met enemies.new) }
    ensures few { set.len found.new.liberties ≤ largest_points }
    ensures stones_on_board { (q : ℕ) → IsTrue (set.contains found.new.stones q)
        → q < V.rows board.old * V.rows board.old }
    ensures enemies_on_board { (q : ℕ) → IsTrue (set.contains (E.met enemies.new) q)
        → q < V.rows board.old * V.rows board.old }
    ensures near { (pos : BoardState) → V.agrees board.new pos
        → V.asks board.old board.new (neighbourhood_of (V.rows board.old) (V.cells board.old pos) (alone p)) }
{
    let mut waiting = PointSet::new();
    let _ = board.size().points();
    let own = board.at(p);
    if own == Cell::Empty {
        return;
    }
    add_stone(p, &mut found.stones, &mut waiting);
    while let Some(q) = next_stone(&mut waiting, found.liberties.count(), most) {
        spread(board, own, q, most, found, enemies, &mut waiting);
    }
}

/// The string of `p` and its liberties, if it has at most `most` liberties; else some of its stones and more liberties
/// than `most`. It visits each stone once, the least waiting stone first, looks at nothing but the stones and their
/// neighbours, and stops once it has seen more liberties than `most`. Both sets are empty if `p` is empty.
#[inline(always)]
pub fn search<V: View>(board: &mut V, p: Point, most: u16) -> Searched
    requires { p < V.rows board.old * V.rows board.old }
    ensures looks { Looks V.cells V.asks board.old board.new anywhere }
    ensures over { (pos : BoardState) → V.agrees board.new pos
        → Searches (V.rows board.old) (V.cells board.old pos) p most result }
    ensures few { set.len result.liberties ≤ largest_points }
    ensures stones_on_board { (q : ℕ) → IsTrue (set.contains result.stones q)
        → q < V.rows board.old * V.rows board.old }
    ensures near { (pos : BoardState) → V.agrees board.new pos
        → V.asks board.old board.new (neighbourhood_of (V.rows board.old) (V.cells board.old pos) (alone p)) }
{
    let mut found = nothing_found();
    search_into(board, p, most, &mut found, &mut NotAsked);
    found
}

/// The string of `p`, its liberties and the enemy stones next to it. All three sets are empty if `p` is empty.
pub fn flood<V: View>(board: &mut V, p: Point) -> Found
    requires { p < V.rows board.old * V.rows board.old }
    ensures looks { Looks V.cells V.asks board.old board.new anywhere }
    ensures stones { (pos : BoardState) → V.agrees board.new pos
        → result.stones ≡ string_at (V.rows board.old) (V.cells board.old pos) p }
    ensures liberties { (pos : BoardState) → V.agrees board.new pos
        → result.liberties ≡ liberty_points (V.rows board.old) (V.cells board.old pos) p }
    ensures enemies { (pos : BoardState) → V.agrees board.new pos
        → result.enemies ≡ enemy_points (V.rows board.old) (V.cells board.old pos) p }
    ensures stones_on_board { (q : ℕ) → IsTrue (set.contains result.stones q)
        → q < V.rows board.old * V.rows board.old }
    ensures enemies_on_board { (q : ℕ) → IsTrue (set.contains result.enemies q)
        → q < V.rows board.old * V.rows board.old }
    ensures near { (pos : BoardState) → V.agrees board.new pos
        → V.asks board.old board.new (neighbourhood_of (V.rows board.old) (V.cells board.old pos) (alone p)) }
{
    let mut found = nothing_found();
    let mut enemies = PointSet::new();
    search_into(board, p, MAX_POINTS as u16, &mut found, &mut enemies);
    let Searched { stones, liberties } = found;
    Found {
        stones,
        liberties,
        enemies,
    }
}

/// The stones of the string of `p`; none if `p` is empty.
pub(crate) fn string_of<V: View>(board: &mut V, p: Point) -> PointSet
    requires { p < V.rows board.old * V.rows board.old }
    ensures looks { Looks V.cells V.asks board.old board.new anywhere }
    ensures over { (pos : BoardState) → V.agrees board.new pos
        → result ≡ string_at (V.rows board.old) (V.cells board.old pos) p }
    ensures near { (pos : BoardState) → V.agrees board.new pos
        → V.asks board.old board.new (neighbourhood_of (V.rows board.old) (V.cells board.old pos) (alone p)) }
{
    let found = search(board, p, MAX_POINTS as u16);
    found.stones
}

/// The liberties of the string of `p`; none if `p` is empty.
pub fn liberties_of<V: View>(board: &mut V, p: Point) -> PointSet
    requires { p < V.rows board.old * V.rows board.old }
    ensures looks { Looks V.cells V.asks board.old board.new anywhere }
    ensures over { (pos : BoardState) → V.agrees board.new pos
        → result ≡ liberty_points (V.rows board.old) (V.cells board.old pos) p }
    ensures near { (pos : BoardState) → V.agrees board.new pos
        → V.asks board.old board.new (neighbourhood_of (V.rows board.old) (V.cells board.old pos) (alone p)) }
{
    let found = search(board, p, MAX_POINTS as u16);
    found.liberties
}
