//! The ends of the tries in which the diagram fits and the move is legal.
ghost use Rattle.std.specs.Prelude.{◌≡◌, ◌*◌, ◌<◌, length, map, Contains, IfOk, OnOk, slice_get};
ghost use Rattle.helpers.specs.HelperStates.{says_yes};
ghost use Rattle.helpers.specs.Slots.{states_of};
ghost use Rattle.match_rules.specs.declared.found.Match.{Match as MatchSeen};
ghost use Rattle.match_engine.specs.AutomatonMatches.{IsFoundThere};
ghost use Rattle.pattern_coverage.specs.Ends.{part_of as part_with, end_at};

use go_base::{Colour, NoMemory, Position};
use helpers::Helpers;
use match_engine::Match;
use match_reasons::{Reason, first_reason};
use pat_types::Pattern;
use read_rules::Depths;
use std::alloc::Global;

/// The end of a try.
#[derive(Clone, Copy)]
pub struct End {
    /// The index of the pattern in the list.
    pub pattern: u16,
    /// The number of the part at which the try ends.
    pub part: u8,
}

/// The number of the part at which a try with this reason ends.
fn part_of(reason: Option<Reason>) -> u8
    ensures { result ≡ part_with reason }
{
    match reason {
        Some(Reason::Misfit(_)) => 0,
        Some(Reason::Illegal(_)) => 1,
        Some(Reason::Unsafe(_)) => 2,
        Some(Reason::EnemyIllegal(_)) => 3,
        Some(Reason::EnemyUnsafe(_)) => 3,
        Some(Reason::Constraint) => 4,
        Some(Reason::Helper(_)) => 5,
        None => 6,
    }
}

/// The end of the try at the place of the match `z`.
fn end_of(
    patterns: &[Pattern],
    position: &Position,
    friend: Colour,
    depths: Depths,
    helpers: &mut Helpers,
    z: Match,
) -> End
    requires pattern { z.pattern < length patterns.now }
    requires on_board { z.at < position.now.size * position.now.size }
    ensures value { result
        ≡ end_at depths (says_yes (states_of state helpers.old)) patterns.now position.now friend z }
    ensures advice { says_yes (states_of state helpers.new) ≡ says_yes (states_of state helpers.old) }
{
    let p = &patterns[z.pattern as usize];
    let reason = first_reason(p, position, friend, z.transform, z.at, depths, helpers);
    End {
        pattern: z.pattern,
        part: part_of(reason),
    }
}

/// The ends of the tries at the places of the matches `found`, in their order.
pub(crate) fn ends_of(
    alloc: Global,
    patterns: &[Pattern],
    position: &Position,
    friend: Colour,
    depths: Depths,
    helpers: &mut Helpers,
    found: &[Match],
) -> Result<Vec<End>, NoMemory>
    requires { (z : MatchSeen) → Contains found.now z → IsFoundThere patterns.now position.now z }
    ensures ends { IfOk result (λ ends. ends.items
        ≡ map (end_at depths (says_yes (states_of state helpers.old)) patterns.now position.now friend) found.now) }
    ensures advice { OnOk result (says_yes (states_of state helpers.new) ≡ says_yes (states_of state helpers.old)) }
{
    let mut ends = Vec::with_capacity(alloc, found.len())?;
    'tries: for z in found {
        ends.push(end_of(patterns, position, friend, depths, helpers, *z))?;
    }
    Ok(ends)
}
