//! The problem of a record: what it asks, and what its author expects.

ghost use Rattle.std.specs.Prelude.{◌≢◌, ◌*◌, ◌<◌};
ghost use Rattle.go_rules.specs.declared.Cell.TheVariants.{Empty};
ghost use Rattle.go_rules.specs.Strings.{cell_at};

use go_base::{Point, Position};
use problem_verdicts::{Depths, Expected, Kind};

/// The problem of a record: what it asks, and what its author expects.
#[derive(Drop)]
pub struct Problem {
    /// The position after the first node.
    pub position: Position,
    /// Whether the target is to be captured or saved.
    pub kind: Kind,
    /// A point of the target.
    pub target: Point,
    /// The depths of the question.
    pub depths: Depths,
    /// What the author expects.
    pub expected: Expected,
    ghost on_board: { target < position.size * position.size },
    ghost stone: { cell_at position.cells target ≢ Empty },
}
