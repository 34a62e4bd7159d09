//! The replies that the zone of the defender's pass asks for, and the points that guard the zone against every other
//! reply.

ghost use Rattle.std.specs.Prelude.{◌≡◌, ◌&&◌, ℕ, ◌+◌, ◌*◌, ◌<◌, ◌≤◌, not, true, false};
ghost use Rattle.std.specs.FinSet as set;
ghost use Rattle.go_rules.specs.Board.{largest_points};
ghost use Rattle.go_rules.specs.Position.{stone_of};
ghost use Rattle.go_rules.specs.Strings.{cell_at, same_cell};
ghost use Rattle.sure_proof.specs.Rests.{two_within, last_of, guard_of, asked_of};
ghost use Rattle.sure_proof.specs.Gathered.{IsGathered};

use crate::candidate::are_both;
use crate::shown::{shown_by, string_of, two_within};
use go_base::{Cell, Colour, Point, PointSet, Position};

/// The replies that a zone asks for, and the points that guard the zone against every other reply.
#[derive(Drop)]
pub(crate) struct Guarded {
    /// The empty points of the zone, and the only liberty of each string in atari that has a stone in the zone.
    pub(crate) asked: PointSet,
    /// The points that show, of each string with a stone in the zone, whether it is in atari.
    pub(crate) guard: PointSet,
}

/// What the points of a zone that were visited so far ask for, and what guards them.
#[derive(Drop)]
struct Gathered {
    /// The replies that they ask for.
    asked: PointSet,
    /// The points that guard them.
    guard: PointSet,
    /// The stones of the strings that were searched. Each string is searched once.
    searched: PointSet,
}

/// The liberties, if there are fewer than two; else none. Of two, the liberties in `zone` come before the others.
fn last_of(zone: &PointSet, liberties: &PointSet) -> PointSet
    ensures { result ≡ last_of liberties.now (two_within zone.now liberties.now) }
{
    match two_within(zone, liberties) {
        Some(_) => PointSet::new(),
        None => liberties.copied(),
    }
}

/// A set of one point.
pub(crate) fn one_point(p: Point) -> PointSet
    requires { p < largest_points }
    ensures { result ≡ set.insert set.empty p }
{
    let mut points = PointSet::new();
    points.add(p);
    points
}

/// Adds what the string of `q`, a stone of `c` in the zone, asks for, and what guards it.
fn add_string(pos: &Position, c: Colour, zone: &PointSet, q: Point, so_far: &mut Gathered)
    requires on_board { q < pos.now.size * pos.now.size }
    requires stone { cell_at pos.now.cells q ≡ stone_of c }
    requires member { set.contains zone.now q ≡ true }
    ensures { (from : ℕ) → IsGathered pos.now.size pos.now.cells c zone.now from
        so_far.old.asked so_far.old.guard so_far.old.searched
        → ((r : ℕ) → from ≤ r → r < q → set.contains zone.now r ≡ false)
        → IsGathered pos.now.size pos.now.cells c zone.now (q + 1)
        so_far.new.asked so_far.new.guard so_far.new.searched }
{
    let found = string_of(pos, q);
    so_far.asked.join(&last_of(zone, &found.liberties));
    so_far.searched.join(&found.stones);
    so_far.guard.join(&shown_by(zone, found));
}

/// Whether `q` holds a stone of `c` whose string was not searched yet.
fn is_fresh(pos: &Position, c: Colour, searched: &PointSet, q: Point) -> bool
    requires on_board { q < pos.now.size * pos.now.size }
    requires small { q < largest_points }
    ensures { result ≡ (same_cell (cell_at pos.now.cells q) (stone_of c) && not (set.contains searched.now q)) }
{
    let own = pos.cell(q) == c.cell();
    are_both(own, !searched.has(q))
}

/// Adds what the point `q` of the zone asks for, and what guards it. A point beyond the board has neither.
fn visit(pos: &Position, c: Colour, zone: &PointSet, q: Point, so_far: &mut Gathered)
    requires small { q < largest_points }
    requires member { set.contains zone.now q ≡ true }
    ensures { (from : ℕ) → IsGathered pos.now.size pos.now.cells c zone.now from
        so_far.old.asked so_far.old.guard so_far.old.searched
        → ((r : ℕ) → from ≤ r → r < q → set.contains zone.now r ≡ false)
        → IsGathered pos.now.size pos.now.cells c zone.now (q + 1)
        so_far.new.asked so_far.new.guard so_far.new.searched }
{
    if q >= pos.size().points() {
        return;
    }
    if pos.cell(q) == Cell::Empty {
        so_far.asked.add(q);
        return;
    }
    if is_fresh(pos, c, &so_far.searched, q) {
        add_string(pos, c, zone, q, so_far);
    }
}

/// The replies that the zone asks for, and the points that guard it. The replies are the empty points of the zone, and
/// the only liberty of each string of `c` in atari that has a stone in the zone. The points show, of each string of `c`
/// with a stone in the zone, whether it is in atari.
pub(crate) fn guard_zone(pos: &Position, c: Colour, zone: &PointSet) -> Guarded
    ensures asked { result.asked ≡ asked_of pos.now.size pos.now.cells c zone.now }
    ensures guard { result.guard ≡ guard_of pos.now.size pos.now.cells c zone.now }
{
    let _ = pos.size().points();
    let mut so_far = Gathered {
        asked: PointSet::new(),
        guard: PointSet::new(),
        searched: PointSet::new(),
    };
    let mut from = 0;
    'points: while let Some(q) = zone.first_from(from) {
        visit(pos, c, zone, q, &mut so_far);
        from = q + 1;
    }
    Guarded {
        asked: so_far.asked,
        guard: so_far.guard,
    }
}
