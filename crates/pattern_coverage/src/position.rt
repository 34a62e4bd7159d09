//! The ends of all tries on a position.
ghost use Rattle.std.specs.Prelude.{◌≡◌, ℕ, ◌*◌, ◌≤◌, length, filter, IfOk, OnOk, Some, slice_get};
ghost use Rattle.std.specs.List.{range_with_len};
ghost use Rattle.pat_types.specs.Marks.{count_of};
ghost use Rattle.helpers.specs.HelperStates.{says_yes};
ghost use Rattle.helpers.specs.Slots.{states_of};
ghost use Rattle.match_rules.specs.Conditions.{Advice};
ghost use Rattle.read_rules.specs.declared.depths.Depths.{Depths as DepthsSeen};
ghost use Rattle.pat_types.specs.declared.pattern.Pattern.{Pattern as PatternSeen};
ghost use Rattle.pattern_coverage.specs.Bare.{AreDiagramsOf};
ghost use Rattle.pattern_coverage.specs.declared.counts.PartCounts.{PartCounts as PartCountsSeen};
ghost use Rattle.pattern_coverage.specs.Ends.{AreEnds, AreLaterCounts, AreAllEnds, is_blocked};

use crate::bare::Diagrams;
use crate::blocked::{blocked_points, fits_among};
use crate::counts::PartCounts;
use crate::ends::ends_of;
use crate::tally::tally;
use go_base::{Colour, NoMemory, Point, Position};
use helpers::Helpers;
use match_engine::{Readings, matches};
use pat_types::{Pattern, mark_count};
use read_rules::Depths;
use std::alloc::Global;

/// The number of readings that are cached for bare patterns; these need none.
const KEPT_READINGS: u32 = 8;

/// The number of tries of a pattern on a position.
fn tries_of(p: &Pattern, position: &Position) -> u64
    ensures { result ≡ count_of p.now.mark * (position.now.size * position.now.size) }
{
    mark_count(p.mark) as u64 * position.size().points() as u64
}

/// The ends of a pattern's tries: `later` counts those after a legal move, and `blocked` are the empty points where the
/// friend may not play.
fn ends_of_one(
    p: &Pattern,
    later: &PartCounts,
    position: &Position,
    friend: Colour,
    blocked: &[Point],
) -> PartCounts
    requires blocked { blocked.now
        ≡ filter (is_blocked position.now friend) (range_with_len 0 (position.now.size * position.now.size)) }
    ensures { (d : DepthsSeen) (advice : Advice) → AreLaterCounts d advice p.now position.now friend later.now
        → AreEnds d advice p.now position.now friend result }
{
    let _ = position.size().points();
    let illegal = fits_among(p, position, friend, blocked);
    let stone = later.at(2);
    let enemy = later.at(3);
    let constraint = later.at(4);
    let helper = later.at(5);
    let matched = later.at(6);
    let others = illegal
        .saturating_add(stone)
        .saturating_add(enemy)
        .saturating_add(constraint)
        .saturating_add(helper)
        .saturating_add(matched);
    let diagram = tries_of(p, position).saturating_sub(others);
    PartCounts {
        counts: [diagram, illegal, stone, enemy, constraint, helper, matched],
    }
}

/// The ends of the tries of each pattern, in the order of the list; `later` counts those after a legal move.
fn ends_of_all(
    alloc: Global,
    patterns: &[Pattern],
    later: &[PartCounts],
    position: &Position,
    friend: Colour,
    blocked: &[Point],
) -> Result<Vec<PartCounts>, NoMemory>
    requires same { length later.now ≡ length patterns.now }
    requires blocked { blocked.now
        ≡ filter (is_blocked position.now friend) (range_with_len 0 (position.now.size * position.now.size)) }
    ensures { IfOk result (λ counts. (d : DepthsSeen) (advice : Advice)
        → ((place : ℕ) (p : PatternSeen) (c : PartCountsSeen) → slice_get patterns.now place ≡ Some p
        → slice_get later.now place ≡ Some c → AreLaterCounts d advice p position.now friend c)
        → AreAllEnds d advice patterns.now position.now friend counts.items) }
{
    let mut counts = Vec::with_capacity(alloc, patterns.len())?;
    'patterns: for (place, p) in patterns.iter().enumerate() {
        let one = later[place];
        counts.push(ends_of_one(p, &one, position, friend, blocked))?;
    }
    Ok(counts)
}

/// For each pattern of a list, in order, the number of tries that end at each part on a position for a friend.
///
/// Each reading is made anew at `depths`. The helpers are asked about each try that reaches their part; afterwards they
/// answer as before. Takes memory.
pub fn ends_on(
    alloc: Global,
    patterns: &[Pattern],
    diagrams: &Diagrams,
    position: &Position,
    friend: Colour,
    depths: Depths,
    helpers: &mut Helpers,
) -> Result<Vec<PartCounts>, NoMemory>
    requires few { length patterns.now ≤ 4096 }
    requires diagrams { AreDiagramsOf patterns.now diagrams.now }
    ensures ends { IfOk result (λ counts. AreAllEnds depths (says_yes (states_of state helpers.old)) patterns.now
        position.now friend counts.items) }
    ensures advice { OnOk result (says_yes (states_of state helpers.new) ≡ says_yes (states_of state helpers.old)) }
{
    let mut readings = Readings::new(alloc, depths, KEPT_READINGS)?;
    let found = matches(
        alloc,
        diagrams.bare.as_slice(),
        &diagrams.scanner,
        position,
        friend,
        &mut readings,
        helpers,
    )?;
    let ends = ends_of(
        alloc,
        patterns,
        position,
        friend,
        depths,
        helpers,
        found.as_slice(),
    )?;
    let later = tally(alloc, patterns.len(), ends.as_slice())?;
    let blocked = blocked_points(alloc, position, friend)?;
    ends_of_all(
        alloc,
        patterns,
        later.as_slice(),
        position,
        friend,
        blocked.as_slice(),
    )
}
