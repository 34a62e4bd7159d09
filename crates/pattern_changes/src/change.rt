//! The matches that went and those that came.
ghost use Rattle.std.specs.Prelude.{◌≡◌, ℕ, ◌++◌, map, IfOk, OnOk, slice_get};
ghost use Rattle.std.specs.List.{list_any};
ghost use Rattle.helpers.specs.HelperStates.{says_yes};
ghost use Rattle.helpers.specs.Slots.{states_of};
ghost use Rattle.match_engine.specs.Readings.{codes_of};
ghost use Rattle.pattern_changes.specs.Changes.{have_same_name as same_name_there, is_same_match as is_same};
ghost use Rattle.pattern_changes.specs.Changes.{lacking as those_lacking, change_of as change_by};
ghost use Rattle.pattern_changes.specs.Changes.{changes_for as changes_there, changes_at as changes_after};
ghost use Rattle.pattern_changes.specs.Changes.{changes_over as changes_of_game};

use crate::matcher::Matcher;
use go_base::{Colour, NoMemory, Position};
use helpers::Helpers;
use match_engine::{Match, Readings};
use pat_types::Pattern;
use std::alloc::Global;

/// Whether a match went or came.
#[derive(Clone, Copy, Debug, PartialEq, Eq)]
pub enum Way {
    /// The old patterns have the match, and the new ones do not.
    Went,
    /// The new patterns have the match, and the old ones do not.
    Came,
}

/// A match that went or came on a position of a game.
#[derive(Clone, Copy, Debug, PartialEq, Eq)]
pub struct Change {
    /// The number of moves before the position.
    pub moves: u64,
    /// The friend, who plays the move of the pattern.
    pub friend: Colour,
    /// Whether the match went or came.
    pub way: Way,
    /// The match. Its pattern is in the old list if the match went, and in the new list if it came.
    pub found: Match,
}

/// Whether the lists have patterns at the indices `z` and `y`, and these have the same name.
fn have_same_name(patterns: &[Pattern], z: u16, others: &[Pattern], y: u16) -> bool
    ensures { result ≡ same_name_there (slice_get patterns.now z) (slice_get others.now y) }
{
    match (patterns.get(z as usize), others.get(y as usize)) {
        (Some(p), Some(q)) => p.name.as_slice() == q.name.as_slice(),
        _ => false,
    }
}

/// Whether `y`, a match of `others`, is the same match as `z`: point, transformation and pattern name are equal.
fn is_same_match(patterns: &[Pattern], others: &[Pattern], z: Match, y: Match) -> bool
    ensures { result ≡ is_same patterns.now others.now z y }
{
    y.at == z.at
        && y.transform.get() == z.transform.get()
        && have_same_name(patterns, z.pattern, others, y.pattern)
}

/// Whether one of `theirs`, the matches of `others`, is the same match as `z`.
fn has_same_match(patterns: &[Pattern], others: &[Pattern], z: Match, theirs: &[Match]) -> bool
    ensures { result ≡ list_any (is_same patterns.now others.now z) theirs.now }
{
    theirs
        .iter()
        .any(|y| is_same_match(patterns, others, z, *y))
}

/// The matches `found` of the patterns that are not among `theirs`, the matches of `others`, in their order.
#[tactic(auto, unfolding(crate::specs::Changes::lacking))]
fn lacking(
    alloc: Global,
    patterns: &[Pattern],
    found: &[Match],
    others: &[Pattern],
    theirs: &[Match],
) -> Result<Vec<Match>, NoMemory>
    ensures { IfOk result (λ zs. zs.items ≡ those_lacking patterns.now found.now others.now theirs.now) }
{
    let mut lacked = Vec::new(alloc);
    'matches: for z in found {
        if !has_same_match(patterns, others, *z, theirs) {
            lacked.push(*z)?;
        }
    }
    Ok(lacked)
}

/// Appends these matches to the changes, as matches that went or came.
fn put(
    changes: &mut Vec<Change>,
    moves: u64,
    friend: Colour,
    way: Way,
    found: &[Match],
) -> Result<(), NoMemory>
    ensures { OnOk result (changes.new.items ≡ changes.old.items ++ map (change_by moves friend way) found.now) }
{
    'matches: for z in found {
        changes.push(Change {
            moves,
            friend,
            way,
            found: *z,
        })?;
    }
    Ok(())
}

/// Appends what changes for a friend on the position after this number of `moves`.
#[tactic(auto, unfolding(crate::specs::Changes::changes_for))]
fn put_for(
    alloc: Global,
    changes: &mut Vec<Change>,
    old: &Matcher,
    new: &Matcher,
    position: &Position,
    moves: u64,
    friend: Colour,
    readings: &mut Readings,
    helpers: &mut Helpers,
) -> Result<(), NoMemory>
    ensures changes { OnOk result (changes.new.items ≡ changes.old.items ++ changes_there (codes_of readings.old)
        (says_yes (states_of state helpers.old)) old.now new.now moves position.now friend) }
    ensures codes { OnOk result (codes_of readings.new ≡ codes_of readings.old) }
    ensures advice { OnOk result (says_yes (states_of state helpers.new) ≡ says_yes (states_of state helpers.old)) }
{
    let before = old.find(alloc, position, friend, readings, helpers)?;
    let after = new.find(alloc, position, friend, readings, helpers)?;
    let (olds, news) = (old.patterns(), new.patterns());
    let went = lacking(alloc, olds, before.as_slice(), news, after.as_slice())?;
    let came = lacking(alloc, news, after.as_slice(), olds, before.as_slice())?;
    put(changes, moves, friend, Way::Went, went.as_slice())?;
    put(changes, moves, friend, Way::Came, came.as_slice())
}

/// Appends what changes for these `friends` on the position after this number of `moves`.
#[tactic(auto, unfolding(crate::specs::Changes::changes_at))]
fn put_at(
    alloc: Global,
    changes: &mut Vec<Change>,
    old: &Matcher,
    new: &Matcher,
    position: &Position,
    moves: u64,
    friends: &[Colour],
    readings: &mut Readings,
    helpers: &mut Helpers,
) -> Result<(), NoMemory>
    ensures changes { OnOk result (changes.new.items ≡ changes.old.items ++ changes_after (codes_of readings.old)
        (says_yes (states_of state helpers.old)) old.now new.now friends.now (moves, position.now)) }
    ensures codes { OnOk result (codes_of readings.new ≡ codes_of readings.old) }
    ensures advice { OnOk result (says_yes (states_of state helpers.new) ≡ says_yes (states_of state helpers.old)) }
{
    'friends: for friend in friends {
        put_for(
            alloc, changes, old, new, position, moves, *friend, readings, helpers,
        )?;
    }
    Ok(())
}

/// What changes for these `friends` from the old patterns to the new ones, over the positions of a game: the one before
/// its first move, the one after it, and so on.
///
/// Changes are ordered by position, then by friend; for each friend the matches that went come first, then those that
/// came, each in the order of matches. The readings keep their depths. Takes memory.
#[tactic(auto, unfolding(crate::specs::Changes::changes_over))]
pub fn changes_over(
    alloc: Global,
    old: &Matcher,
    new: &Matcher,
    positions: &[Position],
    friends: &[Colour],
    readings: &mut Readings,
    helpers: &mut Helpers,
) -> Result<Vec<Change>, NoMemory>
    ensures changes { IfOk result (λ changes. changes.items ≡ changes_of_game (codes_of readings.old)
        (says_yes (states_of state helpers.old)) old.now new.now friends.now positions.now) }
    ensures codes { OnOk result (codes_of readings.new ≡ codes_of readings.old) }
    ensures advice { OnOk result (says_yes (states_of state helpers.new) ≡ says_yes (states_of state helpers.old)) }
{
    let mut changes = Vec::new(alloc);
    'positions: for (moves, position) in positions.iter().enumerate() {
        put_at(
            alloc,
            &mut changes,
            old,
            new,
            position,
            moves as u64,
            friends,
            readings,
            helpers,
        )?;
    }
    Ok(changes)
}
