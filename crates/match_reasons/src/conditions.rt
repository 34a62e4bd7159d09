//! The conditions of a match beside its diagram, one by one: each gives the reason if it fails.
ghost use Rattle.std.specs.Prelude.{◌≡◌, ◌*◌, ◌<◌};
ghost use Rattle.helpers.specs.Agreement.{asks_of, raised};
ghost use Rattle.helpers.specs.Fields.{helper_names};
ghost use Rattle.helpers.specs.HelperStates.{says_yes};
ghost use Rattle.helpers.specs.Slots.{states_of};
ghost use Rattle.match_rules.specs.Conditions.{has_class};
ghost use Rattle.match_reasons.specs.Reasons.{move_reason as reason_of_move, enemy_reason as reason_of_enemy};
ghost use Rattle.match_reasons.specs.Reasons.{constraint_reason as reason_of_constraint};
ghost use Rattle.match_reasons.specs.Reasons.{helper_reason as reason_of_helpers};

use crate::constraint::is_constraint_true;
use crate::fresh::capture;
use crate::reason::Reason;
use go_base::{Colour, Point, Position, Transform};
use helpers::{Helpers, first_refusal};
use pat_types::Pattern;
use read_rules::Depths;

/// The class letter of a move whose stone need not be safe.
const UNSAFE_CLASS: u8 = b's';

/// The class letter of a move that the enemy could make safely too.
const ENEMY_CLASS: u8 = b'n';

/// Whether the pattern `p` has the class letter `letter`.
fn has_class(p: &Pattern, letter: u8) -> bool
    ensures { result ≡ has_class p.now letter }
{
    p.classes.as_slice().contains(&letter)
}

/// The reason against the friend's move, if there is one: it is not legal, or its stone can be captured and `p` lacks
/// class `s`.
#[tactic(auto, unfolding(crate::specs::Reasons::move_reason))]
pub(crate) fn move_reason(
    p: &Pattern,
    position: &Position,
    friend: Colour,
    at: Point,
    depths: Depths,
) -> Option<Reason>
    requires { at < position.now.size * position.now.size }
    ensures { result ≡ reason_of_move depths p.now position.now friend at }
{
    let next = match position.play(friend, at) {
        Ok(next) => next,
        Err(why) => return Some(Reason::Illegal(why)),
    };
    if has_class(p, UNSAFE_CLASS) {
        return None;
    }
    match capture(&next, at, depths) {
        Some(attack) => Some(Reason::Unsafe(attack)),
        None => None,
    }
}

/// The reason of class `n`, if `p` has it: the enemy's play at the same point is not legal, or its stone can be
/// captured.
#[tactic(auto, unfolding(crate::specs::Reasons::enemy_reason))]
pub(crate) fn enemy_reason(
    p: &Pattern,
    position: &Position,
    friend: Colour,
    at: Point,
    depths: Depths,
) -> Option<Reason>
    requires { at < position.now.size * position.now.size }
    ensures { result ≡ reason_of_enemy depths p.now position.now friend at }
{
    if !has_class(p, ENEMY_CLASS) {
        return None;
    }
    let next = match position.play(friend.other(), at) {
        Ok(next) => next,
        Err(why) => return Some(Reason::EnemyIllegal(why)),
    };
    match capture(&next, at, depths) {
        Some(attack) => Some(Reason::EnemyUnsafe(attack)),
        None => None,
    }
}

/// The reason of the constraint, if `p` has one: its value is 0.
pub(crate) fn constraint_reason(
    p: &Pattern,
    position: &Position,
    friend: Colour,
    t: Transform,
    at: Point,
    depths: Depths,
) -> Option<Reason>
    requires { at < position.now.size * position.now.size }
    ensures { result ≡ reason_of_constraint depths p.now position.now friend t at }
{
    if is_constraint_true(p, position, friend, t, at, depths) {
        None
    } else {
        Some(Reason::Constraint)
    }
}

/// The reason of the helpers: the first field whose helper says no. Each helper is asked as for a match.
pub(crate) fn helper_reason(
    p: &Pattern,
    position: &Position,
    friend: Colour,
    at: Point,
    helpers: &mut Helpers,
) -> Option<Reason>
    requires { at < position.now.size * position.now.size }
    ensures reason { result ≡ reason_of_helpers (says_yes (states_of state helpers.old)) p.now position.now friend at }
    ensures calls { states_of state helpers.new
        ≡ raised (asks_of (states_of state helpers.old) (helper_names p.now.items) position.now at friend)
        (states_of state helpers.old) }
{
    match first_refusal(helpers, p.items.as_slice(), position, at, friend) {
        Some(field) => Some(Reason::Helper(field)),
        None => None,
    }
}
