//! Where a search puts the enemy stones that it meets. Most searches are for a string and its liberties alone, and keep
//! no enemy stones.

ghost use Rattle.std.specs.Prelude.{◌≡◌, ◌<◌, if◌then◌else◌};
ghost use Rattle.std.specs.FinSet as set;
ghost use Rattle.go_rules.specs.Board.{largest_points};

use crate::points::PointSet;
use crate::size::Point;

/// Where a search puts the enemy stones that it meets.
pub(crate) trait Enemies {
    ghost use Rattle.std.specs.Prelude.{Bool};
    ghost use Rattle.std.specs.Ordering.{nat_cmp};
    ghost use Rattle.std.specs.FinSet as set;

    /// Whether enemy stones are asked for.
    ghost asked: { Bool };

    /// The enemy stones that were kept so far.
    ghost met: { Self → set.FinSet nat_cmp };

    /// Keeps the enemy stone at `r`, if enemy stones are asked for.
    fn meet(&mut self, r: Point)
        requires { r < largest_points }
        ensures { met self.new ≡ (if asked then set.insert (met self.old) r else met self.old) };
}

/// Enemy stones are not asked for, and none is kept.
#[derive(Clone, Copy, Drop)]
pub(crate) struct NotAsked;

impl Enemies for NotAsked {
    ghost use Rattle.std.specs.Prelude.{false};
    ghost use Rattle.std.specs.FinSet as set;

    ghost asked = { false };

    ghost met = { λ _. set.empty };

    #[inline(always)]
    fn meet(&mut self, _: Point) {}
}

impl Enemies for PointSet {
    ghost use Rattle.std.specs.Prelude.{true};

    ghost asked = { true };

    ghost met = { λ enemies. enemies };

    #[inline(always)]
    fn meet(&mut self, r: Point) {
        self.add(r);
    }
}
