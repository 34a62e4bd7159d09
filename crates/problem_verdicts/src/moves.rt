//! Moves of one side: the pass, and points at which it plays.

ghost use Rattle.std.specs.Prelude.{◌≡◌, ◌||◌, ◌<◌, ℕ, false, IfSome, is_none};
ghost use Rattle.std.specs.FinSet as set;
ghost use Rattle.go_rules.specs.Board.{largest_points};
ghost use Rattle.problem_verdicts.specs.MoveSets.{are_among, count_of, is_some_of};

use go_base::{Point, PointSet};

/// Moves of one side.
#[derive(Debug, Drop)]
pub struct Moves {
    /// The pass is one of the moves.
    pub pass: bool,
    /// The points at which a play is one of the moves.
    pub points: PointSet,
}

/// Whether each point of `few` is one of `many`.
fn is_subset(few: &PointSet, many: &PointSet) -> bool
    ensures { result ≡ set.is_subset few.now many.now }
{
    few.difference(many).count() == 0
}

impl Moves {
    /// No move.
    pub fn none() -> Moves
        ensures { (result.pass ≡ false) × (result.points ≡ set.empty) }
    {
        Moves {
            pass: false,
            points: PointSet::new(),
        }
    }

    /// Adds a move: the play at the point `at`, or the pass if `at` is `None`.
    pub fn add(&mut self, at: Option<Point>)
        requires { IfSome at (λ p. p < largest_points) }
        ensures pass { self.new.pass ≡ (self.old.pass || is_none at) }
        ensures points { (p : ℕ) → set.contains self.new.points p
            ≡ (set.contains self.old.points p || is_some_of at p) }
    {
        match at {
            Some(p) => self.points.add(p),
            None => self.pass = true,
        }
    }

    /// Whether each of these moves is one of `many`.
    pub fn are_among(&self, many: &Moves) -> bool
        ensures { result ≡ are_among self.now many.now }
    {
        (!self.pass || many.pass) && is_subset(&self.points, &many.points)
    }

    /// The number of these moves.
    pub fn count(&self) -> u16
        ensures { result ≡ count_of self.now }
    {
        self.points.count() + u16::from(self.pass)
    }
}
