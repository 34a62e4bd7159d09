//! What stands around strings whose number of liberties is in a given range. Each string is searched once.

ghost use Rattle.std.specs.Prelude.{◌≡◌, ℕ, ◌*◌, ◌<◌, ◌&&◌, ◌||◌, IsTrue, nat_le};
ghost use Rattle.std.specs.FinSet as set;
ghost use Rattle.go_rules.specs.Below.{any_below};
ghost use Rattle.go_rules.specs.Position.{BoardState};
ghost use Rattle.go_rules.specs.Strings.{string_at};
ghost use Rattle.go_rules.specs.Neighbourhood.{neighbourhood_of};
ghost use Rattle.go_base.specs.Facts.{Agrees, AddsIn};
ghost use Rattle.go_base.specs.Views.{alone};
ghost use Rattle.trial_board.specs.Trials.{KeepsTrial, after};
ghost use Rattle.wider_rules.specs.Strings.{is_few_liberty, is_few_enemy};

use go_base::Look;
use go_base::flood::Found;
use go_base::points::PointSet;
use go_base::size::Point;
use trial_board::Trial;

/// The liberties of some strings, and the enemy stones next to them.
#[derive(Drop)]
pub(crate) struct Around {
    /// The liberties of the strings.
    pub liberties: PointSet,
    /// The enemy stones next to the strings.
    pub enemies: PointSet,
}

/// Whether `n` is at least `least` and at most `most`.
fn lies_between(least: u16, most: u16, n: u16) -> bool
    ensures { result ≡ (nat_le least n && nat_le n most) }
{
    least <= n && n <= most
}

/// Adds what stands around the string of `q` to `found` if it has at least `least` and at most `most` liberties.
/// Returns the stones of the string in any case.
fn add_string<L: Look>(
    board: &mut Trial<L>,
    least: u16,
    most: u16,
    q: Point,
    found: &mut Around,
) -> PointSet
    requires { q < (L.shows board.old.look).size * (L.shows board.old.look).size }
    ensures stays { KeepsTrial L.shows L.seen board.old board.new }
    ensures stones { (pos : BoardState) → Agrees (L.seen board.new.look) pos
        → result ≡ string_at pos.size (after pos board.old.moves).cells q }
    ensures liberties { (pos : BoardState) → Agrees (L.seen board.new.look) pos → (p : ℕ)
        → set.contains found.new.liberties p
        ≡ (set.contains found.old.liberties p || is_few_liberty least most pos.size
        (after pos board.old.moves).cells q p) }
    ensures enemies { (pos : BoardState) → Agrees (L.seen board.new.look) pos → (r : ℕ)
        → set.contains found.new.enemies r
        ≡ (set.contains found.old.enemies r || is_few_enemy least most pos.size (after pos board.old.moves).cells q r) }
    ensures near { (pos : BoardState) → Agrees (L.seen board.new.look) pos
        → AddsIn (L.seen board.old.look) (L.seen board.new.look)
        (neighbourhood_of pos.size (after pos board.old.moves).cells (alone q)) }
{
    let Found {
        stones,
        liberties,
        enemies,
    } = board.string(q);
    if lies_between(least, most, liberties.count()) {
        found.liberties.join(&liberties);
        found.enemies.join(&enemies);
    }
    stones
}

/// The liberties of the strings at `points` that have at least `least` and at most `most` liberties, and the enemy
/// stones next to these strings. Each string is searched once: its stones are removed from the points that are left to
/// look at.
pub(crate) fn around_strings<L: Look>(
    board: &mut Trial<L>,
    least: u16,
    most: u16,
    points: &PointSet,
) -> Around
    requires { (q : ℕ) → IsTrue (set.contains points.now q)
        → q < (L.shows board.old.look).size * (L.shows board.old.look).size }
    ensures stays { KeepsTrial L.shows L.seen board.old board.new }
    ensures liberties { (pos : BoardState) → Agrees (L.seen board.new.look) pos → (p : ℕ)
        → set.contains result.liberties p ≡ any_below (pos.size * pos.size)
        (λ q. set.contains points.now q
        && is_few_liberty least most pos.size (after pos board.old.moves).cells q p) }
    ensures enemies { (pos : BoardState) → Agrees (L.seen board.new.look) pos → (r : ℕ)
        → set.contains result.enemies r ≡ any_below (pos.size * pos.size)
        (λ q. set.contains points.now q
        && is_few_enemy least most pos.size (after pos board.old.moves).cells q r) }
    ensures near { (pos : BoardState) → Agrees (L.seen board.new.look) pos
        → AddsIn (L.seen board.old.look) (L.seen board.new.look)
        (neighbourhood_of pos.size (after pos board.old.moves).cells (set.contains points.now)) }
{
    let mut found = Around {
        liberties: PointSet::new(),
        enemies: PointSet::new(),
    };
    let mut rest = points.copied();
    let mut next = 0;
    while let Some(q) = rest.first_from(next) {
        let stones = add_string(board, least, most, q, &mut found);
        rest = rest.difference(&stones);
        next = q + 1;
    }
    found
}
