//! The order of the cached answers, and which are dropped, shown with a question whose answer is its own number.

use go_base::{Position, Size, Watch};
use read_cache::{Cache, Question};

/// A number as a question; on each position its answer is the number itself.
#[derive(Clone, Copy, PartialEq, Eq, Hash)]
struct Number {
    n: u8,
}

impl Question for Number {
    ghost use Rattle.std.proofs.Common.{rules};

    type Answer = u8;

    ghost meaning = { λ q pos. q.n };

    ghost same = { λ p q e. Prim.search rules };
}

/// What is done with a number on the empty board of this many rows.
enum Step {
    /// The number is cached.
    Keep(u8, u8),
    /// The number is found in the cache.
    Find(u8, u8),
    /// The number is not found in the cache.
    Miss(u8, u8),
}

/// The steps in their order, each with the reason for its result.
static STEPS: [(Step, &str); 20] = [
    (Step::Keep(0, 9), "the first of eight"),
    (Step::Keep(1, 9), "the second of eight"),
    (Step::Keep(2, 9), "the third of eight"),
    (Step::Keep(3, 9), "the fourth of eight"),
    (Step::Keep(4, 9), "the fifth of eight"),
    (Step::Keep(5, 9), "the sixth of eight"),
    (Step::Keep(6, 9), "the seventh of eight"),
    (Step::Keep(7, 9), "the last of eight"),
    (Step::Find(0, 9), "the first of eight"),
    (Step::Miss(0, 13), "on another board"),
    (Step::Keep(8, 9), "the ninth question"),
    (Step::Find(0, 9), "it was used after the second"),
    (Step::Miss(1, 9), "the ninth question dropped the second"),
    (Step::Keep(0, 10), "the second of four variants"),
    (Step::Keep(0, 11), "the third of four variants"),
    (Step::Keep(0, 12), "the last of four variants"),
    (Step::Find(0, 9), "the first of four variants"),
    (Step::Keep(0, 13), "the fifth variant"),
    (Step::Find(0, 9), "it was found after the second"),
    (Step::Miss(0, 10), "the fifth variant dropped the second"),
];

/// The empty board of this many rows.
fn empty(rows: u8) -> Option<Position> {
    Some(Position::new(Size::new(rows)?))
}

/// Caches a number as the answer on the empty board of this many rows.
fn is_kept(cache: &mut Cache<Number>, n: u8, rows: u8) -> Option<bool> {
    let position = empty(rows)?;
    let facts = Watch::new(&position).facts();
    Some(cache.keep(Number { n }, facts, n).is_ok())
}

/// Whether the cache has the answer `want` to a number on the empty board of this many rows; `None` for no answer.
fn is_found(cache: &mut Cache<Number>, n: u8, rows: u8, want: Option<u8>) -> Option<bool> {
    Some(cache.find(&Number { n }, &empty(rows)?) == want)
}

/// Whether a step has the result that it says.
fn is_right(cache: &mut Cache<Number>, step: &Step) -> Option<bool> {
    match step {
        Step::Keep(n, rows) => is_kept(cache, *n, *rows),
        Step::Find(n, rows) => is_found(cache, *n, *rows, Some(*n)),
        Step::Miss(n, rows) => is_found(cache, *n, *rows, None),
    }
}

#[test]
fn last_used_questions_and_variants_stay(rt: HostRuntime) {
    let mut cache = Cache::new(rt.alloc(), 8)
        .ok()
        .expect(&rt, "there is memory");
    for (step, why) in &STEPS {
        assert!(rt; is_right(&mut cache, step) == Some(true), "{why}");
    }
}
