//! The choice among matches.

ghost use Rattle.std.specs.Prelude.{◌≡◌, ◌<◌, ◌↔◌, [], length, Contains, IsNone};
ghost use Rattle.match_rules.specs.declared.found.Match.{Match};
ghost use Rattle.move_choice.specs.Choice.{worth_at, comes_before, is_preferred, choice_of};

use crate::worth::worth_of;
use match_rules::Match;
use pat_types::Pattern;

/// The worth of the match `found`: the worth of its pattern.
fn worth_at(patterns: &[Pattern], found: &Match) -> u32
    requires { found.now.pattern < length patterns.now }
    ensures { result ≡ worth_at patterns.now found.now }
{
    worth_of(&patterns[usize::from(found.pattern)])
}

/// Whether `y` comes before `z`: by the pattern's number, then by the transformation, then by the point.
fn comes_before(y: &Match, z: &Match) -> bool
    ensures { result ≡ comes_before y.now z.now }
{
    y.pattern < z.pattern
        || y.pattern == z.pattern
            && (y.transform.get() < z.transform.get()
                || y.transform.get() == z.transform.get() && y.at < z.at)
}

/// Whether `y` is preferred to `z`: it is worth more, or it is worth as much and comes before `z`.
fn is_preferred(patterns: &[Pattern], y: &Match, z: &Match) -> bool
    requires y { y.now.pattern < length patterns.now }
    requires z { z.now.pattern < length patterns.now }
    ensures { result ≡ is_preferred (worth_at patterns.now) y.now z.now }
{
    let worth = worth_at(patterns, y);
    let other = worth_at(patterns, z);
    other < worth || worth == other && comes_before(y, z)
}

/// The match that is chosen: of the matches of the greatest worth, the first in the order of matches (by the pattern's
/// number, then by the transformation, then by the point), at whatever place of `found` it stands. The worth of a match
/// is that of its pattern; `patterns` is the list that the matches number. `None` exactly if `found` is empty. It takes
/// no memory.
pub fn choose(patterns: &[Pattern], found: &[Match]) -> Option<Match>
    requires { (z : Match) → Contains found.now z → z.pattern < length patterns.now }
    ensures choice { result ≡ choice_of patterns.now found.now }
    ensures none { IsNone result ↔ (found.now ≡ []) }
{
    let (first, rest) = found.split_first()?;
    let mut choice = *first;
    for z in rest {
        if is_preferred(patterns, z, &choice) {
            choice = *z;
        }
    }
    Some(choice)
}
