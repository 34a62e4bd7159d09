//! The points that show whether a string is in atari.

ghost use Rattle.std.specs.Prelude.{◌≡◌, ◌*◌, ◌<◌, IfSome};
ghost use Rattle.go_rules.specs.Board.{largest_points};
ghost use Rattle.go_rules.specs.Strings.{string_at, liberty_points};
ghost use Rattle.go_base.specs.Floods.{enemy_points};
ghost use Rattle.sure_proof.specs.Rests.{first_within, two_within, close_to, shown_by, shows_atari};

use go_base::flood::{Found, flood};
use go_base::{Point, PointSet, Position};

/// The first point of `points` that is in `zone`; if none is, the first point of `points`.
fn first_within(zone: &PointSet, points: &PointSet) -> Option<Point>
    ensures value { result ≡ first_within zone.now points.now }
    ensures small { IfSome result (λ p. p < largest_points) }
{
    match points.intersection(zone).first_from(0) {
        Some(p) => Some(p),
        None => points.first_from(0),
    }
}

/// Two points of `points`, if there are two. Points that are in `zone` are taken before the others.
pub(crate) fn two_within(zone: &PointSet, points: &PointSet) -> Option<(Point, Point)>
    ensures value { result ≡ two_within zone.now points.now }
    ensures small { IfSome result (λ two. (two.0 < largest_points) × (two.1 < largest_points)) }
{
    let first = first_within(zone, points)?;
    let second = first_within(zone, &points.without(first))?;
    Some((first, second))
}

/// The string of `p`, its liberties and the enemy stones next to it.
pub(crate) fn string_of(pos: &Position, p: Point) -> Found
    requires { p < pos.now.size * pos.now.size }
    ensures stones { result.stones ≡ string_at pos.now.size pos.now.cells p }
    ensures liberties { result.liberties ≡ liberty_points pos.now.size pos.now.cells p }
    ensures enemies { result.enemies ≡ enemy_points pos.now.size pos.now.cells p }
{
    flood(&mut pos.board(), p)
}

/// The string of `q` and all its neighbours.
#[tactic(auto, unfolding(crate::specs::Rests::close_to))]
pub(crate) fn close_to(pos: &Position, q: Point) -> PointSet
    requires { q < pos.now.size * pos.now.size }
    ensures { result ≡ close_to pos.now.size pos.now.cells q }
{
    let Found {
        mut stones,
        liberties,
        enemies,
    } = string_of(pos, q);
    stones.join(&liberties);
    stones.join(&enemies);
    stones
}

/// The stones of the string `found` and two of its liberties, those in `zone` before the others; if it has fewer than
/// two, the stones and all their neighbours.
pub(crate) fn shown_by(zone: &PointSet, found: Found) -> PointSet
    ensures { result ≡ shown_by found.stones found.liberties found.enemies (two_within zone.now found.liberties) }
{
    let Found {
        mut stones,
        liberties,
        enemies,
    } = found;
    match two_within(zone, &liberties) {
        Some((first, second)) => {
            stones.add(first);
            stones.add(second);
        }
        None => {
            stones.join(&liberties);
            stones.join(&enemies);
        }
    }
    stones
}

/// The points that show whether the string of `q` is in atari: `q`, and its string with two of its liberties, those in
/// `zone` before the others, or with all its neighbours if it has fewer than two liberties.
pub(crate) fn shows_atari(pos: &Position, zone: &PointSet, q: Point) -> PointSet
    requires on_board { q < pos.now.size * pos.now.size }
    requires small { q < largest_points }
    ensures { result ≡ shows_atari pos.now.size pos.now.cells zone.now q }
{
    let mut shown = shown_by(zone, string_of(pos, q));
    shown.add(q);
    shown
}
