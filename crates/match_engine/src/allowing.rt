//! Whether the classes and the constraint of a pattern allow a move. What needs no reading is asked first.
ghost use Rattle.std.specs.Prelude.{◌≡◌, ◌*◌, ◌<◌, true, false};
ghost use Rattle.go_rules.specs.Position.{other};
ghost use Rattle.match_rules.specs.Conditions.{has_class, is_safe, is_enemy_safe, is_allowed as is_allowed_by};
ghost use Rattle.match_rules.specs.Conditions.{unsafe_class, enemy_class};
ghost use Rattle.match_engine.specs.Readings.{Follows, codes_of};
ghost use Rattle.match_engine.specs.Remembered.{Remembers};
ghost use Rattle.match_engine.specs.Unread.{AsksNoReading};

use crate::constraint_question::is_constraint_true;
use crate::plays::Plays;
use crate::readings::Readings;
use go_base::{Colour, Point, Position};
use match_rules::Match;
use pat_types::Pattern;

/// The class letter of a move whose stone need not be safe.
const UNSAFE_CLASS: u8 = b's';

/// The class letter of a move that the enemy could make safely too.
const ENEMY_CLASS: u8 = b'n';

/// Whether the pattern `p` has the class letter `letter`.
fn has_class(p: &Pattern, letter: u8) -> bool
    ensures { result ≡ has_class p.now letter }
{
    p.classes.as_slice().contains(&letter)
}

/// Whether the friend's stone at `at` is safe after the play, or class `s` says that it need not be.
fn is_safe(
    p: &Pattern,
    position: &Position,
    friend: Colour,
    at: Point,
    readings: &mut Readings,
    plays: &mut Plays,
) -> bool
    requires on_board { at < position.now.size * position.now.size }
    requires remembers { Remembers (codes_of readings.old) position.now friend plays.old }
    ensures value { result ≡ is_safe (codes_of readings.old) p.now position.now friend at }
    ensures remembers { Remembers (codes_of readings.old) position.now friend plays.new }
    ensures follows { Follows readings.old readings.new }
    ensures unread { has_class p.now unsafe_class ≡ true → readings.new ≡ readings.old }
{
    if has_class(p, UNSAFE_CLASS) {
        return true;
    }
    plays.is_safe(readings, position, friend, at)
}

/// Whether the enemy could play at `at` and be safe, or the pattern does not ask for this with class `n`.
fn is_enemy_safe(
    p: &Pattern,
    position: &Position,
    friend: Colour,
    at: Point,
    readings: &mut Readings,
    plays: &mut Plays,
) -> bool
    requires on_board { at < position.now.size * position.now.size }
    requires remembers { Remembers (codes_of readings.old) position.now (other friend) plays.old }
    ensures value { result ≡ is_enemy_safe (codes_of readings.old) p.now position.now friend at }
    ensures remembers { Remembers (codes_of readings.old) position.now (other friend) plays.new }
    ensures follows { Follows readings.old readings.new }
    ensures unread { has_class p.now enemy_class ≡ false → readings.new ≡ readings.old }
{
    if !has_class(p, ENEMY_CLASS) {
        return true;
    }
    plays.is_safe(readings, position, friend.other(), at)
}

/// Whether the classes and the constraint of the pattern `p` allow the friend's move of the match `z`. It must be
/// legal.
pub fn is_allowed(
    p: &Pattern,
    position: &Position,
    friend: Colour,
    z: &Match,
    readings: &mut Readings,
    friend_plays: &mut Plays,
    enemy_plays: &mut Plays,
) -> bool
    requires on_board { z.now.at < position.now.size * position.now.size }
    requires friend_plays { Remembers (codes_of readings.old) position.now friend friend_plays.old }
    requires enemy_plays { Remembers (codes_of readings.old) position.now (other friend) enemy_plays.old }
    ensures value { result ≡ is_allowed_by (codes_of readings.old) p.now position.now friend z.now.transform z.now.at }
    ensures friend_plays { Remembers (codes_of readings.old) position.now friend friend_plays.new }
    ensures enemy_plays { Remembers (codes_of readings.old) position.now (other friend) enemy_plays.new }
    ensures follows { Follows readings.old readings.new }
    ensures unread { AsksNoReading p.now → readings.new ≡ readings.old }
{
    if !is_safe(p, position, friend, z.at, readings, friend_plays) {
        return false;
    }
    if !is_enemy_safe(p, position, friend, z.at, readings, enemy_plays) {
        return false;
    }
    is_constraint_true(p, position, friend, z, readings)
}
