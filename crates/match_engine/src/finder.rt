//! The matches of patterns on a position, by an automaton.
ghost use Rattle.std.specs.Prelude.{◌≡◌, ℕ, ◌+◌, ◌*◌, ◌<◌, filter, map, if◌then◌else◌, length, Some, Contains, IfOk};
ghost use Rattle.std.specs.Prelude.{All, OnOk, OnErr, slice_get, slice_set as set};
ghost use Rattle.std.specs.List.{filter_map};
ghost use Rattle.dfa_core.specs.Automata.{accepted};
ghost use Rattle.dfa_core.specs.States.{IsAutomatonOf};
ghost use Rattle.dfa_core.specs.Words.{Word};
ghost use Rattle.dfa_match.specs.declared.Hit.{Hit as HitSeen};
ghost use Rattle.go_rules.specs.Play.{is_legal as is_legal_on};
ghost use Rattle.match_rules.specs.declared.found.Match.{Match as MatchSeen};
ghost use Rattle.match_rules.specs.Match.{matches_of};
ghost use Rattle.match_rules.specs.Conditions.{all_yes};
ghost use Rattle.helpers.specs.HelperStates.{says_yes};
ghost use Rattle.helpers.specs.Slots.{states_of};
ghost use Rattle.match_engine.specs.HelperCalls.{after_matches};
ghost use Rattle.match_engine.specs.AutomatonMatches.{found_by as is_found_by, automaton_matches, is_allowed_at};
ghost use Rattle.match_engine.specs.AutomatonMatches.{IsFoundThere};
ghost use Rattle.match_engine.specs.PointAnswers.{Knows};
ghost use Rattle.match_engine.specs.Readings.{Follows, codes_of};
ghost use Rattle.match_engine.specs.Ranks.{rank_of as rank, match_with as match_with_rank};
ghost use Rattle.match_engine.specs.Unread.{NoneAsksReading};
ghost use Rattle.match_engine.specs.Found.{match_of as match_made, match_from};

use crate::agreeing::keep_agreed;
use crate::allowing::is_allowed;
use crate::legality::PointAnswers;
use crate::placing::star_place;
use crate::plays::Plays;
use crate::ranks::{matches_with, rank_of};
use crate::readings::Readings;
use dfa_match::{Hit, Scanner, scan};
use go_base::{Colour, NoMemory, Position, Watch};
use helpers::Helpers;
use match_rules::Match;
use pat_types::{Pattern, mark_count};
use std::alloc::Global;

/// The match of the pattern `p` that `hit` is, or `None` if it is none: its transformation must be one of the mark's,
/// the diagram must lie on the board, and the friend's play at the star must be legal.
fn match_of(
    p: &Pattern,
    position: &Position,
    friend: Colour,
    legal: &mut PointAnswers,
    hit: Hit,
) -> Option<Match>
    requires anchor { hit.anchor < position.now.size * position.now.size }
    requires knows { Knows (λ q. is_legal_on position.now friend q) legal.old }
    ensures value { result ≡ match_made p.now position.now friend hit }
    ensures knows { Knows (λ q. is_legal_on position.now friend q) legal.new }
{
    if hit.transform.get() >= mark_count(p.mark) {
        return None;
    }
    let at = star_place(p, hit.transform, hit.anchor, position.size())?;
    if legal.is_legal(position, friend, at) {
        Some(Match {
            pattern: hit.pattern,
            transform: hit.transform,
            at,
        })
    } else {
        None
    }
}

/// The ranks of the matches among `hits`, in the order of the hits. The friend's play at a point is tried once. Takes
/// memory.
fn ranks_among(
    alloc: Global,
    patterns: &[Pattern],
    position: &Position,
    friend: Colour,
    hits: &[Hit],
) -> Result<Vec<u64>, NoMemory>
    requires numbers { (hit : HitSeen) → Contains hits.now hit → hit.pattern < length patterns.now }
    requires anchors { (hit : HitSeen) → Contains hits.now hit → hit.anchor < position.now.size * position.now.size }
    ensures value { IfOk result (λ v. map match_with_rank v.items ≡ filter_map
        (λ hit. match_from (slice_get patterns.now hit.pattern) position.now friend hit) hits.now) }
    ensures ranks { IfOk result (λ v. All (λ n. rank (match_with_rank n) ≡ n) v.items) }
{
    let mut ranks = Vec::with_capacity(alloc, hits.len())?;
    let mut legal = PointAnswers::new();
    for hit in hits {
        let p = &patterns[hit.pattern as usize];
        if let Some(z) = match_of(p, position, friend, &mut legal, *hit) {
            ranks.push(rank_of(&z))?;
        }
    }
    Ok(ranks)
}

/// The matches that the automaton finds on a position, with a legal move, before classes, constraints and helpers are
/// asked: sorted by the pattern's place in the list, the transformation and the point.
fn found_by(
    alloc: Global,
    patterns: &[Pattern],
    scanner: &Scanner,
    position: &Position,
    friend: Colour,
) -> Result<Vec<Match>, NoMemory>
    requires numbers { (w : Word) (n : ℕ) → Contains (accepted scanner.now w) n → n < length patterns.now }
    ensures found { IfOk result (λ v. v.items ≡ is_found_by scanner.now patterns.now position.now friend) }
{
    let _ = position.size().points();
    let mut watch = Watch::new(position);
    let hits = scan(scanner, &mut watch, friend, Vec::new(alloc))?;
    let mut ranks = ranks_among(alloc, patterns, position, friend, hits.as_slice())?;
    ranks.sort_unstable();
    matches_with(alloc, &ranks)
}

/// The pattern at the place `number` of the list.
pub(crate) fn pattern_with(patterns: &[Pattern], number: u16) -> &Pattern
    requires { number < length patterns.now }
    ensures { slice_get patterns.now number ≡ Some result.now }
{
    &patterns[number as usize]
}

/// Puts `z` behind the first `kept` matches if it is `allowed`, and answers how many are kept then.
pub(crate) fn keep(found: &mut Vec<Match>, kept: usize, z: Match, allowed: bool) -> usize
    requires { kept < length found.old.items }
    ensures found { found.new.items ≡ (if allowed then set found.old.items kept z else found.old.items) }
    ensures kept { result ≡ (if allowed then kept + 1 else kept) }
{
    if allowed {
        found[kept] = z;
        return kept + 1;
    }
    kept
}

/// Keeps the matches in `found` that the classes and the constraint of their pattern allow, in their order. Takes no
/// memory.
fn keep_allowed(
    patterns: &[Pattern],
    position: &Position,
    friend: Colour,
    readings: &mut Readings,
    found: &mut Vec<Match>,
)
    requires there { (z : MatchSeen) → Contains found.old.items z → IsFoundThere patterns.now position.now z }
    ensures kept { found.new.items ≡ filter (λ z.
        is_allowed_at (codes_of readings.old) position.now friend (slice_get patterns.now z.pattern) z)
        found.old.items }
    ensures follows { Follows readings.old readings.new }
    ensures unneeded { NoneAsksReading patterns.now → readings.new ≡ readings.old }
{
    let mut friend_plays = Plays::new();
    let mut enemy_plays = Plays::new();
    let mut kept = 0;
    'matches: for next in 0..found.len() {
        let z = found[next];
        let p = pattern_with(patterns, z.pattern);
        let allowed = is_allowed(
            p,
            position,
            friend,
            &z,
            readings,
            &mut friend_plays,
            &mut enemy_plays,
        );
        kept = keep(found, kept, z, allowed);
    }
    found.truncate(kept);
}

/// The matches of all patterns for a friend, sorted by the pattern's place in the list, the transformation and the
/// point.
///
/// Diagrams are found by the automaton alone: none is compared with the board again. With the automaton of the patterns
/// the list has exactly their matches. Patterns with class `s`, without class `n` and without a constraint ask for no
/// reading. Helpers are asked last, and only about a match that has all else; a helper is asked once, if every helper
/// that the pattern names before it said yes. Takes all its memory before its first reading and its first call of a
/// helper, and answers `NoMemory` if there is none.
///
/// After GNU Go Manual, "The Pattern Code" and "The DFA pattern matcher".
pub fn matches(
    alloc: Global,
    patterns: &[Pattern],
    scanner: &Scanner,
    position: &Position,
    friend: Colour,
    readings: &mut Readings,
    helpers: &mut Helpers,
) -> Result<Vec<Match>, NoMemory>
    requires numbers { (w : Word) (n : ℕ) → Contains (accepted scanner.now w) n → n < length patterns.now }
    // For every automaton, the list has exactly the matches that this automaton finds.
    ensures automaton { IfOk result (λ v. v.items
        ≡ automaton_matches (codes_of readings.old) (says_yes (states_of state helpers.old))
        scanner.now patterns.now position.now friend) }
    // For the automaton of the patterns, the list has exactly the matches of the patterns.
    ensures patterns { IfOk result (λ v. IsAutomatonOf patterns.now scanner.now → v.items
        ≡ matches_of (codes_of readings.old) (says_yes (states_of state helpers.old)) patterns.now position.now
        friend) }
    // The helpers were asked about all that matches if they say yes, each as often as the rule of asking says.
    ensures calls { OnOk result (states_of state helpers.new ≡ after_matches (states_of state helpers.old) patterns.now
        (automaton_matches (codes_of readings.old) all_yes scanner.now patterns.now position.now friend) position.now
        friend) }
    ensures calls_of_patterns { OnOk result (IsAutomatonOf patterns.now scanner.now → states_of state helpers.new
        ≡ after_matches (states_of state helpers.old) patterns.now
        (matches_of (codes_of readings.old) all_yes patterns.now position.now friend) position.now friend) }
    // The depths of the readings are as before, and no count has fallen.
    ensures follows { OnOk result (Follows readings.old readings.new) }
    // If each pattern has class s, but not class n, and no constraint, nothing was read.
    ensures unneeded { NoneAsksReading patterns.now → readings.new ≡ readings.old }
    // If there was no memory, nothing was read, and no helper was asked.
    ensures unread { OnErr result (readings.new ≡ readings.old) }
    ensures unasked { OnErr result (helpers.new ≡ helpers.old) }
{
    let mut found = found_by(alloc, patterns, scanner, position, friend)?;
    keep_allowed(patterns, position, friend, readings, &mut found);
    keep_agreed(patterns, position, friend, helpers, &mut found);
    Ok(found)
}
