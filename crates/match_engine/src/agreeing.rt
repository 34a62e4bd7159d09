//! Whether the helpers that a pattern names say yes to a match. Helpers are asked last of all.
ghost use Rattle.std.specs.Prelude.{◌≡◌, filter, Contains, slice_get};
ghost use Rattle.helpers.specs.HelperStates.{says_yes};
ghost use Rattle.helpers.specs.Slots.{states_of};
ghost use Rattle.match_rules.specs.declared.found.Match.{Match as MatchSeen};
ghost use Rattle.match_engine.specs.AutomatonMatches.{is_agreed_at, IsFoundThere};
ghost use Rattle.match_engine.specs.HelperCalls.{after_matches};

use crate::finder::{keep, pattern_with};
use go_base::{Colour, Position};
use helpers::{Helpers, all_agree};
use match_rules::Match;
use pat_types::Pattern;

/// Keeps the matches in `found` to which every helper that their pattern names says yes, in their order. Takes no
/// memory.
pub(crate) fn keep_agreed(
    patterns: &[Pattern],
    position: &Position,
    friend: Colour,
    helpers: &mut Helpers,
    found: &mut Vec<Match>,
)
    requires there { (z : MatchSeen) → Contains found.old.items z → IsFoundThere patterns.now position.now z }
    ensures kept { found.new.items ≡ filter (λ z.
        is_agreed_at (says_yes (states_of state helpers.old)) position.now friend
        (slice_get patterns.now z.pattern) z) found.old.items }
    ensures calls { states_of state helpers.new
        ≡ after_matches (states_of state helpers.old) patterns.now found.old.items position.now friend }
{
    let mut kept = 0;
    'matches: for next in 0..found.len() {
        let z = found[next];
        let p = pattern_with(patterns, z.pattern);
        let agreed = all_agree(helpers, p.items.as_slice(), position, z.at, friend);
        kept = keep(found, kept, z, agreed);
    }
    found.truncate(kept);
}
