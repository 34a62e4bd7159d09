//! The variants of one question.

ghost use Rattle.std.specs.Prelude.{◌≡◌, ◌<◌, ◌≤◌, ◌+◌, [], ◌∷◌, ◌++◌, length, take, drop, IfOk, IfSome, IfNone};
ghost use Rattle.read_cache.specs.Variants.{IsFirstStanding, NoneStands, most_variants};
ghost use Rattle.read_cache.specs.declared.variants.Variant.{Variant as VariantSeen};

use go_base::{Facts, NoMemory, Position};
use std::alloc::Global;
use std::marker::Model;

/// How many variants of one question are cached at most.
pub const MOST_VARIANTS: usize = 4;

/// An answer, with the facts that it rests on.
#[derive(Clone, Copy, Debug)]
pub struct Variant<A> {
    /// The facts that the answer rests on.
    pub facts: Facts,
    /// The answer on each position on which the facts hold.
    pub answer: A,
}

/// The variants of a question, the last cached or found first, seen as their list. There is room for four from the
/// start, so that only the first variant takes memory.
#[derive(Drop)]
pub struct Variants<A> {
    items: Vec<Variant<A>>,
}

impl<A> Model for Variants<A> {
    ghost use Rattle.std.specs.Prelude.{◌≡◌, List, vec_capacity};
    ghost use Rattle.read_cache.specs.Variants.{most_variants};
    ghost use Rattle.read_cache.specs.declared.variants.Variant.{Variant};

    ghost Value = { List (Variant A) };

    ghost view = { λ v. v.items.items };

    ghost invariant = { λ v. vec_capacity v.items ≡ most_variants };
}

impl<A: Copy> Variants<A> {
    /// A list of one variant, with room for three more. Takes memory.
    pub(crate) fn alone(alloc: Global, variant: Variant<A>) -> Result<Variants<A>, NoMemory>
        ensures { IfOk result (λ variants. variants ≡ variant ∷ []) }
    {
        let mut items = Vec::with_capacity(alloc, MOST_VARIANTS)?;
        items.push_reserved(variant);
        Ok(Variants { items })
    }

    /// The variants, as a slice.
    pub(crate) fn as_slice(&self) -> &[Variant<A>]
        ensures { result.now ≡ self.now }
    {
        self.items.as_slice()
    }

    /// Moves the variant at `place` before the others, which keep their order. Takes no memory.
    pub(crate) fn bring(&mut self, place: usize)
        requires place { place < length self.old }
        requires few { length self.old ≤ most_variants }
        ensures { (found : VariantSeen A) → self.old ≡ take place self.old ++ found ∷ drop (place + 1) self.old
            → self.new ≡ found ∷ take place self.old ++ drop (place + 1) self.old }
    {
        let found = self.items.remove(place);
        self.put_first(found);
    }

    /// Puts a variant before the others; if there are then five, the last is dropped. Takes no memory.
    pub(crate) fn add(&mut self, variant: Variant<A>)
        ensures { self.new ≡ variant ∷ take 3 self.old }
    {
        self.items.truncate(MOST_VARIANTS - 1);
        self.put_first(variant);
    }

    /// Puts a variant before the others; there must be room for it.
    fn put_first(&mut self, variant: Variant<A>)
        requires { length self.old < most_variants }
        ensures { self.new ≡ variant ∷ self.old }
    {
        match self.items.insert(0, variant) {
            Ok(()) => {}
            Err(_) => unreachable!(),
        }
    }
}

/// The place of the first variant whose facts hold on the position.
pub(crate) fn first_standing<A: Copy>(variants: &[Variant<A>], position: &Position) -> Option<usize>
    ensures some { IfSome result (IsFirstStanding position.now variants.now) }
    ensures none { IfNone result (NoneStands position.now variants.now) }
{
    for (i, variant) in variants.iter().enumerate() {
        if variant.facts.stands(position) {
            return Some(i);
        }
    }
    None
}
