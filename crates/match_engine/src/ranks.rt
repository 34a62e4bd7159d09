//! The order of matches as one number, by which they are sorted.
ghost use Rattle.std.specs.Prelude.{◌≡◌, ◌<◌, map, IfOk};
ghost use Rattle.go_rules.specs.Transform.{transformations};
ghost use Rattle.match_engine.specs.Ranks.{rank_of as rank, match_with as match_with_rank};

use go_base::{NoMemory, Transform};
use match_rules::Match;
use std::alloc::Global;

/// How many numbers there are for a point.
const POINTS: u64 = 65_536;

/// How many numbers there are for a transformation.
const TRANSFORMS: u64 = 8;

/// How many numbers there are for a pattern.
const PATTERNS: u64 = 65_536;

/// The rank of the match `z` among all matches of patterns, by the pattern's place in the list, the transformation and
/// the point. Numbers are sorted faster than matches.
pub fn rank_of(z: &Match) -> u64
    ensures value { result ≡ rank z.now }
    ensures back { match_with_rank result ≡ z.now }
{
    (z.pattern as u64 * TRANSFORMS + z.transform.get() as u64) * POINTS + z.at as u64
}

/// The transformation with this `number`, which is below the count of transformations.
fn transform_with(number: u8) -> Transform
    requires { number < transformations }
    ensures { result ≡ number }
{
    match Transform::new(number) {
        Some(t) => t,
        None => unreachable!(),
    }
}

/// The match with this `rank`.
fn match_with(rank: u64) -> Match
    ensures { result ≡ match_with_rank rank }
{
    Match {
        pattern: (rank / POINTS / TRANSFORMS % PATTERNS) as u16,
        transform: transform_with((rank / POINTS % TRANSFORMS) as u8),
        at: (rank % POINTS) as u16,
    }
}

/// The matches with these `ranks`, in the same order. Takes memory.
pub fn matches_with(alloc: Global, ranks: &[u64]) -> Result<Vec<Match>, NoMemory>
    ensures { IfOk result (λ v. v.items ≡ map match_with_rank ranks.now) }
{
    let mut found = Vec::with_capacity(alloc, ranks.len())?;
    for rank in ranks {
        found.push(match_with(*rank))?;
    }
    Ok(found)
}
