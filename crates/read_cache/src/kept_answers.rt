//! Cached answers to questions of any kind, with counts.

ghost use Rattle.std.specs.Prelude.{◌≡◌, ◌≤◌, IfOk, IfSome, IfNone, IsSome};
ghost use Rattle.read_cache.specs.Kept.{IsMissing, HoldsOfEach};
ghost use Rattle.read_cache.specs.Keeping.{Follows, RestsOn, WasAnswered, WasAsked, WasFresh, WasKept, first_keeping};

use crate::cache::Cache;
use crate::question::Readable;
use go_base::{NoMemory, Position};
use std::alloc::Global;
use std::marker::Model;

/// The answer to a question, and whether it was fresh.
#[derive(Clone, Copy, Debug)]
pub struct Asked<A, E> {
    /// The answer.
    pub answer: A,
    /// The effort of the fresh reading, or `None` if the answer came from the cache.
    pub effort: Option<E>,
}

/// Cached answers, with counts of the answers that were fresh and of those that could not be cached for want of memory.
///
/// Each answer is cached with the facts that it rests on, and is used again if these facts hold.
#[derive(Drop)]
pub struct KeptAnswers<Q: Readable> {
    fresh: u64,
    refused: u64,
    cache: Cache<Q>,
}

impl<Q: Readable> Model for KeptAnswers<Q> {
    ghost use Rattle.read_cache.specs.Kept.{HoldsOfEach};
    ghost use Rattle.read_cache.specs.Keeping.{Keeping};

    ghost Value = { Keeping Q Q.Answer };

    ghost view = { λ answers. record { fresh = answers.fresh; refused = answers.refused; kept = answers.cache } };

    ghost invariant = { λ answers. HoldsOfEach Q.rests answers.cache };
}

impl<Q: Readable> KeptAnswers<Q> {
    /// An empty cache for at most `capacity` questions, from 8 to 65,536, with both counts 0. Takes memory.
    pub fn new(alloc: Global, capacity: u32) -> Result<KeptAnswers<Q>, NoMemory>
        requires some { 8 ≤ capacity }
        requires few { capacity ≤ 65536 }
        ensures { IfOk result (λ answers. answers ≡ first_keeping capacity) }
    {
        Ok(KeptAnswers {
            fresh: 0,
            refused: 0,
            cache: Cache::new(alloc, capacity)?,
        })
    }

    /// Answers a question about the position. The answer comes from the cache exactly if the facts of a cached variant
    /// of the question hold on the position; else the question is read, and its answer is cached if there is memory for
    /// it.
    #[inline(always)]
    pub fn ask(&mut self, q: Q, position: &Position) -> Asked<Q::Answer, Q::Effort>
        requires { Q.is_about q position.now }
        ensures answered { WasAnswered Q.eq q Q.rests (Q.takes q position.now) position.now result.answer
            result.effort self.old self.new }
        ensures asked { WasAsked Q.eq q Q.rests position.now result.answer self.old self.new }
        ensures rests { RestsOn Q.rests q position.now result.answer }
        // Each cached variant rests on its facts.
        ensures each { HoldsOfEach Q.rests self.new.kept }
        ensures follows { Follows self.old self.new }
    {
        let _ = &self.fresh;
        match self.find(&q, position) {
            Some(answer) => Asked {
                answer,
                effort: None,
            },
            None => self.read_and_keep(q, position),
        }
    }

    /// The answer of the first cached variant of the question whose facts hold on the position. If there is none,
    /// nothing changes.
    #[inline(always)]
    pub fn find(&mut self, q: &Q, position: &Position) -> Option<Q::Answer>
        ensures kept { IfSome result (λ answer. WasKept Q.eq q.now position.now answer self.old self.new) }
        ensures missing { IfNone result (IsMissing Q.eq q.now position.now self.old.kept) }
        ensures same { IfNone result (self.new ≡ self.old) }
        ensures rests { IfSome result (RestsOn Q.rests q.now position.now) }
        ensures each { HoldsOfEach Q.rests self.new.kept }
    {
        self.cache.find(q, position)
    }

    /// Reads a question, counts the reading, and caches the answer or counts that there was no memory for it.
    ///
    /// It is kept out of its caller, so that a cached answer does not pay for its locals.
    #[inline(never)]
    fn read_and_keep(&mut self, q: Q, position: &Position) -> Asked<Q::Answer, Q::Effort>
        requires about { Q.is_about q position.now }
        requires missing { IsMissing Q.eq q position.now self.old.kept }
        ensures fresh { WasFresh Q.eq q Q.rests position.now result.answer self.old self.new }
        ensures some { IsSome result.effort }
        ensures takes { IfSome result.effort (Q.takes q position.now) }
        ensures rests { RestsOn Q.rests q position.now result.answer }
        ensures each { HoldsOfEach Q.rests self.new.kept }
    {
        let (fresh, effort) = q.read(position);
        self.fresh = self.fresh.saturating_add(1);
        if let Err(NoMemory) = self.cache.keep(q, fresh.facts, fresh.answer) {
            self.refused = self.refused.saturating_add(1);
        }
        Asked {
            answer: fresh.answer,
            effort: Some(effort),
        }
    }

    /// How many answers were fresh, as far as a `u64` counts.
    pub fn fresh(&self) -> u64
        ensures { result ≡ self.now.fresh }
    {
        self.fresh
    }

    /// How many answers could not be cached for want of memory, as far as a `u64` counts.
    pub fn refused(&self) -> u64
        ensures { result ≡ self.now.refused }
    {
        self.refused
    }
}
