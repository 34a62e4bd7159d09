//! The first part of the definition of a match that fails.
ghost use Rattle.std.specs.Prelude.{◌≡◌, ◌↔◌, ◌*◌, ◌<◌, IsNone, IsTrue, is_some, if◌then◌else◌};
ghost use Rattle.helpers.specs.Agreement.{asks_of, raised};
ghost use Rattle.helpers.specs.Fields.{helper_names};
ghost use Rattle.helpers.specs.HelperStates.{says_yes};
ghost use Rattle.helpers.specs.Slots.{states_of};
ghost use Rattle.match_rules.specs.Match.{is_match};
ghost use Rattle.match_reasons.specs.FreshReadings.{fresh_codes};
ghost use Rattle.match_reasons.specs.Reasons.{reason_before_helpers, first_reason as first_that_fails};

use crate::conditions::{constraint_reason, enemy_reason, helper_reason, move_reason};
use go_base::{Colour, Illegal, Point, Position, Transform};
use helpers::Helpers;
use match_misfit::{Misfit, first_misfit};
use pat_types::Pattern;
use read_rules::{Answer, Depths};

/// The first part of the definition of a match that fails.
#[derive(Clone, Copy, Debug, PartialEq, Eq)]
pub enum Reason {
    /// A cell of the diagram does not fit. An edge that is drawn is a cell too.
    Misfit(Misfit),
    /// The friend may not play at the star's point.
    Illegal(Illegal),
    /// The stone that is played can be captured, by this attack, and the pattern lacks class `s`.
    Unsafe(Answer),
    /// The pattern has class `n`, and the enemy may not play at the star's point.
    EnemyIllegal(Illegal),
    /// The pattern has class `n`, and the enemy's stone at the star's point could be captured, by this attack.
    EnemyUnsafe(Answer),
    /// The value of the constraint is 0.
    Constraint,
    /// The helper that this field names says no; fields are counted from 0.
    Helper(usize),
}

/// The first part of the definition of a match that fails, if one before the helpers fails.
#[tactic(auto, unfolding(crate::specs::Reasons::reason_before_helpers))]
fn before_helpers(
    p: &Pattern,
    position: &Position,
    friend: Colour,
    t: Transform,
    at: Point,
    depths: Depths,
) -> Option<Reason>
    requires { at < position.now.size * position.now.size }
    ensures { result ≡ reason_before_helpers depths p.now position.now friend t at }
{
    if let Some(misfit) = first_misfit(p, position, friend, t, at) {
        return Some(Reason::Misfit(misfit));
    }
    if let Some(reason) = move_reason(p, position, friend, at, depths) {
        return Some(reason);
    }
    if let Some(reason) = enemy_reason(p, position, friend, at, depths) {
        return Some(reason);
    }
    constraint_reason(p, position, friend, t, at, depths)
}

/// Why the pattern `p` does not match with its star at `at` under the transformation `t`: the first part of the
/// definition that fails, or `None` if it matches there.
///
/// Each reading is fresh, at `depths`. The helpers are asked only if all else holds, each as for a match. Takes no
/// memory.
#[tactic(auto, unfolding(crate::specs::Reasons::first_reason))]
pub fn first_reason(
    p: &Pattern,
    position: &Position,
    friend: Colour,
    t: Transform,
    at: Point,
    depths: Depths,
    helpers: &mut Helpers,
) -> Option<Reason>
    requires { at < position.now.size * position.now.size }
    ensures first { result
        ≡ first_that_fails depths (says_yes (states_of state helpers.old)) p.now position.now friend t at }
    ensures none { IsNone result ↔ IsTrue
        (is_match (fresh_codes depths) (says_yes (states_of state helpers.old)) p.now position.now friend t at) }
    // The helpers were asked as for a match, if nothing before them fails.
    ensures calls { states_of state helpers.new
        ≡ (if is_some (reason_before_helpers depths p.now position.now friend t at) then states_of state helpers.old
        else raised (asks_of (states_of state helpers.old) (helper_names p.now.items) position.now at friend)
        (states_of state helpers.old)) }
{
    match before_helpers(p, position, friend, t, at, depths) {
        Some(reason) => Some(reason),
        None => helper_reason(p, position, friend, at, helpers),
    }
}
