//! A try of a pattern at a point under a transformation.
ghost use Rattle.std.specs.Prelude.{◌≡◌, ◌*◌, ◌<◌};
ghost use Rattle.helpers.specs.HelperStates.{says_yes};
ghost use Rattle.helpers.specs.Slots.{states_of};
ghost use Rattle.match_reasons.specs.Reasons.{first_reason as first_that_fails};

use go_base::{Colour, Point, Position, Transform};
use helpers::Helpers;
use match_reasons::{Reason, first_reason};
use pat_types::Pattern;
use read_rules::Depths;

/// The position on which patterns are tried, and the depths.
#[derive(Clone, Copy)]
pub struct Setting<'a> {
    /// The position before the move.
    pub position: &'a Position,
    /// The depths of readings.
    pub depths: Depths,
}

/// An entry of a pattern file.
#[derive(Clone, Copy)]
pub struct Entry<'a> {
    /// The pattern of the entry.
    pub pattern: &'a Pattern,
    /// The line number of its Pattern line, counted from 1.
    pub line: u64,
}

/// A try of an entry for a colour, at a point under a transformation, with the reason why it is no match.
#[derive(Clone, Copy)]
pub struct Try<'a> {
    /// The entry.
    pub entry: Entry<'a>,
    /// The friend, who plays the move.
    pub colour: Colour,
    /// The transformation of the diagram.
    pub transform: Transform,
    /// The point of the star.
    pub at: Point,
    /// The first part of a match that fails; `None` for a match.
    pub reason: Option<Reason>,
}

/// Tries an entry for a colour, at a point under a transformation.
pub fn tried<'a>(
    entry: Entry<'a>,
    setting: Setting<'_>,
    colour: Colour,
    transform: Transform,
    at: Point,
    helpers: &mut Helpers,
) -> Try<'a>
    requires { at < setting.position.now.size * setting.position.now.size }
    ensures { result.reason ≡ first_that_fails setting.entry.depths (says_yes (states_of state helpers.old))
        entry.entry.pattern.now setting.entry.position.now colour transform at }
{
    let reason = first_reason(
        entry.pattern,
        setting.position,
        colour,
        transform,
        at,
        setting.depths,
        helpers,
    );
    Try {
        entry,
        colour,
        transform,
        at,
        reason,
    }
}

/// The number of parts of a match that hold before the first that fails, in this order: the diagram, the move, the
/// stone's safety, class `n`, the constraint, the helpers. It is 6 for a match.
pub fn parts_held(reason: Option<Reason>) -> u8 {
    match reason {
        Some(Reason::Misfit(_)) => 0,
        Some(Reason::Illegal(_)) => 1,
        Some(Reason::Unsafe(_)) => 2,
        Some(Reason::EnemyIllegal(_)) => 3,
        Some(Reason::EnemyUnsafe(_)) => 3,
        Some(Reason::Constraint) => 4,
        Some(Reason::Helper(_)) => 5,
        None => 6,
    }
}
