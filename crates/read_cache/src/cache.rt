//! The cache: questions in order of use, the last used first, each with its variants.

ghost use Rattle.std.specs.Prelude.{◌≡◌, ◌≤◌, Some, None, IfOk, OnOk, OnErr, IfSome, IfNone};
ghost use Rattle.go_rules.specs.Position.{BoardState};
ghost use Rattle.go_base.specs.Facts.{Agrees};
ghost use Rattle.go_base.specs.AmongFacts.{told};
ghost use Rattle.read_cache.specs.Kept.{no_questions, variants_of, put_first, kept_first, IsRight, IsFound, IsMissing};
ghost use Rattle.read_cache.specs.Places.{HasAt, StandsAt, front_of};

use crate::front::{promote, value_of};
use crate::question::Question;
use crate::variants::{Variant, Variants, first_standing};
use go_base::{Facts, NoMemory, Position};
use lru::LruCache;
use std::alloc::Global;
use std::marker::Model;
use std::num::NonZeroUsize;

/// Questions with their variants, at most as many as the capacity. Seen as the list of the questions with their
/// variants, the last used first, and the capacity.
#[derive(Drop)]
pub struct Cache<Q: Question> {
    alloc: Global,
    kept: LruCache<Q, Variants<Q::Answer>>,
}

impl<Q: Question> Model for Cache<Q> {
    ghost use Rattle.std.specs.Prelude.{List, ℕ};
    ghost use Rattle.read_cache.specs.declared.variants.Variant.{Variant};
    ghost use Rattle.read_cache.specs.Kept.{IsSound};

    ghost Value = { List (Q × List (Variant Q.Answer)) × ℕ };

    ghost view = { λ c. (c.kept.entries, c.kept.cap) };

    ghost invariant = { λ c. IsSound Q.meaning c.kept.entries };
}

impl<Q: Question> Cache<Q> {
    /// An empty cache for `capacity` questions, from 8 to 65,536. Takes memory.
    pub fn new(alloc: Global, capacity: u32) -> Result<Cache<Q>, NoMemory>
        requires some { 8 ≤ capacity }
        requires few { capacity ≤ 65536 }
        ensures { IfOk result (λ cache. cache ≡ no_questions capacity) }
    {
        let capacity = NonZeroUsize::new(capacity as usize).unwrap();
        Ok(Cache {
            alloc,
            kept: LruCache::new(alloc, capacity)?,
        })
    }

    /// The answer of the first cached variant of the question whose facts hold on the position; that variant and the
    /// question then move to the front. `None` exactly if the facts of no cached variant of the question hold there,
    /// and then nothing changes. Takes no memory.
    pub fn find(&mut self, q: &Q, position: &Position) -> Option<Q::Answer>
        ensures found { IfSome result (IsFound Q.eq q.now position.now self.old self.new) }
        ensures missing { IfNone result (IsMissing Q.eq q.now position.now self.old) }
        ensures same { IfNone result (self.new ≡ self.old) }

        // The answer that is found is the question's answer on the position.
        ensures right { IfSome result (λ answer. answer ≡ Q.meaning q.now position.now) }
    {
        let (place, answer) = self.standing(q, position)?;
        self.bring(q, place);
        Some(answer)
    }

    /// The place of the first variant of the question whose facts hold on the position, and its answer.
    fn standing(&self, q: &Q, position: &Position) -> Option<(usize, Q::Answer)>
        ensures some { IfSome result (λ found. StandsAt Q.eq q.now self.now found.0 position.now found.1) }
        ensures right { IfSome result (λ found. found.1 ≡ Q.meaning q.now position.now) }
        ensures none { IfNone result (IsMissing Q.eq q.now position.now self.now) }
    {
        match value_of(&self.kept, q) {
            Some(kept) => match first_standing(kept.as_slice(), position) {
                Some(place) => Some((place, kept.as_slice()[place].answer)),
                None => None,
            },
            None => None,
        }
    }

    /// Moves the question to the front, and its variant at `place` before its other variants.
    fn bring(&mut self, q: &Q, place: usize)
        requires { HasAt Q.eq q.now self.old place }
        ensures { (at : HasAt Q.eq q.now self.old place)
            → self.new ≡ put_first Q.eq q.now (front_of Q.eq q.now self.old place at) self.old }
    {
        if place == 0 {
            promote(&mut self.kept, q);
            return;
        }
        self.bring_from_behind(q, place);
    }

    /// Moves the question to the front, and its variant at `place` before its other variants, if the variant is not the
    /// first. It is kept out of `bring`, so that a variant that is first already does not pay for its locals.
    #[inline(never)]
    fn bring_from_behind(&mut self, q: &Q, place: usize)
        requires { HasAt Q.eq q.now self.old place }
        ensures { (at : HasAt Q.eq q.now self.old place)
            → self.new ≡ put_first Q.eq q.now (front_of Q.eq q.now self.old place at) self.old }
    {
        match self.kept.get_mut(q) {
            Some(kept) => kept.bring(place),
            None => unreachable!(),
        }
    }

    /// Caches an answer of the question with the facts that it rests on, as the first of the question's variants, and
    /// moves the question to the front. A fifth variant and the last question past the capacity are dropped.
    ///
    /// `NoMemory` comes only if the question was not cached, and leaves the cache as it was.
    pub fn keep(&mut self, q: Q, facts: Facts, answer: Q::Answer) -> Result<(), NoMemory>
        requires { (pos : BoardState) → Agrees (told facts) pos → answer ≡ Q.meaning q pos }
        ensures kept { OnOk result (self.new ≡ kept_first Q.eq q (record { facts = facts; answer = answer }) self.old) }
        ensures refused { OnErr result (self.new ≡ self.old) }
        ensures not_kept { OnErr result (variants_of Q.eq q self.old ≡ None) }
    {
        let variant = Variant { facts, answer };
        match self.kept.get_mut(&q) {
            Some(kept) => {
                kept.add(variant);
                Ok(())
            }
            None => self.keep_first(q, variant),
        }
    }

    /// Caches the first variant of a question that is not cached yet.
    fn keep_first(&mut self, q: Q, variant: Variant<Q::Answer>) -> Result<(), NoMemory>
        requires right { IsRight (Q.meaning q) variant }
        requires not_kept { variants_of Q.eq q self.old ≡ None }
        ensures kept { OnOk result (self.new ≡ kept_first Q.eq q variant self.old) }
        ensures refused { OnErr result (self.new ≡ self.old) }
    {
        let variants = Variants::alone(self.alloc, variant)?;
        self.kept.put(q, variants)?;
        Ok(())
    }
}
