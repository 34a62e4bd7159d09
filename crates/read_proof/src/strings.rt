//! Strings and what stands around them, found on a position.

ghost use Rattle.std.specs.Prelude.{◌≡◌, ℕ, ◌*◌, ◌<◌, ◌&&◌, ◌||◌, IsTrue, nat_le};
ghost use Rattle.std.specs.FinSet as set;
ghost use Rattle.go_rules.specs.Below.{any_below};
ghost use Rattle.go_rules.specs.Strings.{is_liberty, liberty_points, string_at};
ghost use Rattle.go_base.specs.Floods.{enemy_points};
ghost use Rattle.go_base.specs.Surroundings.{is_only_liberty};
ghost use Rattle.wider_rules.specs.Strings.{is_few_liberty, is_few_enemy};

use go_base::flood::{Found, flood};
use go_base::{Point, PointSet, Position};

/// How many liberties a string in atari has.
const IN_ATARI: u16 = 1;

/// Whether the number of liberties is at least `least` and at most `most`.
fn are_between(least: u16, most: u16, liberties: u16) -> bool
    ensures { result ≡ (nat_le least liberties && nat_le liberties most) }
{
    least <= liberties && liberties <= most
}

/// What stands around strings.
#[derive(Drop)]
pub(crate) struct Around {
    /// The liberties of the strings.
    pub liberties: PointSet,
    /// The enemy stones next to the strings.
    pub enemies: PointSet,
}

/// The string of `p`, its liberties and the enemy stones next to it.
pub(crate) fn string_of(pos: &Position, p: Point) -> Found
    requires { p < pos.now.size * pos.now.size }
    ensures stones { result.stones ≡ string_at pos.now.size pos.now.cells p }
    ensures liberties { result.liberties ≡ liberty_points pos.now.size pos.now.cells p }
    ensures enemies { result.enemies ≡ enemy_points pos.now.size pos.now.cells p }
{
    flood(&mut pos.board(), p)
}

/// Answers the stones of the string of `q`, and adds what stands around it to `found` if it has from `least` to `most`
/// liberties.
fn add_string(pos: &Position, least: u16, most: u16, q: Point, found: &mut Around) -> PointSet
    requires { q < pos.now.size * pos.now.size }
    ensures stones { result ≡ string_at pos.now.size pos.now.cells q }
    ensures liberties { (p : ℕ) → set.contains found.new.liberties p ≡ (set.contains found.old.liberties p
        || is_few_liberty least most pos.now.size pos.now.cells q p) }
    ensures enemies { (r : ℕ) → set.contains found.new.enemies r ≡ (set.contains found.old.enemies r
        || is_few_enemy least most pos.now.size pos.now.cells q r) }
{
    let Found {
        stones,
        liberties,
        enemies,
    } = string_of(pos, q);
    if are_between(least, most, liberties.count()) {
        found.liberties.join(&liberties);
        found.enemies.join(&enemies);
    }
    stones
}

/// What stands around the strings of `points` that have from `least` to `most` liberties. Each string is found once:
/// its stones are taken off the points that are left.
pub(crate) fn around_strings(pos: &Position, least: u16, most: u16, points: &PointSet) -> Around
    requires { (q : ℕ) → IsTrue (set.contains points.now q) → q < pos.now.size * pos.now.size }
    ensures liberties { (p : ℕ) → set.contains result.liberties p ≡ any_below (pos.now.size * pos.now.size)
        (λ q. set.contains points.now q && is_few_liberty least most pos.now.size pos.now.cells q p) }
    ensures enemies { (r : ℕ) → set.contains result.enemies r ≡ any_below (pos.now.size * pos.now.size)
        (λ q. set.contains points.now q && is_few_enemy least most pos.now.size pos.now.cells q r) }
{
    let mut found = Around {
        liberties: PointSet::new(),
        enemies: PointSet::new(),
    };
    let mut rest = points.copied();
    let mut next = 0;
    while let Some(q) = rest.first_from(next) {
        let stones = add_string(pos, least, most, q, &mut found);
        rest = rest.difference(&stones);
        next = q + 1;
    }
    found
}

/// The points that are the only liberty of the string of a point of `points`.
pub(crate) fn last_liberties(pos: &Position, points: &PointSet) -> PointSet
    requires { (q : ℕ) → IsTrue (set.contains points.now q) → q < pos.now.size * pos.now.size }
    ensures { (p : ℕ) → set.contains result p ≡ any_below (pos.now.size * pos.now.size)
        (λ r. set.contains points.now r && is_only_liberty pos.now.size pos.now.cells r p) }
{
    around_strings(pos, IN_ATARI, IN_ATARI, points).liberties
}

/// The liberties of the strings of `points`.
pub(crate) fn all_liberties(pos: &Position, points: &PointSet) -> PointSet
    requires { (q : ℕ) → IsTrue (set.contains points.now q) → q < pos.now.size * pos.now.size }
    ensures { (p : ℕ) → set.contains result p ≡ any_below (pos.now.size * pos.now.size)
        (λ q. set.contains points.now q && is_liberty pos.now.size pos.now.cells q p) }
{
    around_strings(pos, 0, pos.size().points(), points).liberties
}
