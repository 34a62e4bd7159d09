//! What may be cached: questions that have an answer on each position, and how a question is read.

ghost use Rattle.go_base.specs.Facts.{Agrees};
ghost use Rattle.go_base.specs.AmongFacts.{told};

use crate::variants::Variant;
use go_base::Position;
use std::hash::Hash;

/// A question that has an answer on each position.
pub trait Question: Copy + Eq + Hash {
    ghost use Rattle.go_rules.specs.Position.{BoardState};
    ghost use Rattle.std.specs.Prelude.{◌≡◌, IsTrue};

    /// The type of the question's answers.
    type Answer: Copy;

    /// The question's answer on a position.
    ghost meaning: { Self → BoardState → Self.Answer };

    /// Questions that compare as equal are equal, so they have the same answer on each position.
    ghost same: { (p q : Self) → IsTrue (Self.eq p q) → p ≡ q };
}

/// A question that can be read on a position.
pub trait Readable: Question {
    ghost use Rattle.go_rules.specs.Position.{BoardState};
    ghost use Rattle.read_cache.specs.Kept.{IsRight};
    ghost use Rattle.read_cache.specs.declared.variants.Variant.{Variant as VariantSeen};

    /// What a reading tells about itself beside its answer, for example a count of trial plays.
    type Effort: Copy;

    /// The question can be asked on the position.
    ghost is_about: { Self → BoardState → Type 0 };

    /// The variant's answer to the question rests on the variant's facts.
    ghost rests: { Self → VariantSeen Self.Answer → Type 0 };

    /// A fresh reading of the question on the position may take this effort.
    ghost takes: { Self → BoardState → Self.Effort → Type 0 };

    /// Reads the question on the position, and hands back its answer with facts and effort. Takes no memory.
    fn read(&self, position: &Position) -> (Variant<Self::Answer>, Self::Effort)
        requires { is_about self.now position.now }
        ensures holds { Agrees (told result.0.facts) position.now }
        ensures rests { rests self.now (record { facts = result.0.facts; answer = result.0.answer }) }
        ensures takes { takes self.now position.now result.1 };

    /// An answer that rests on its facts is right on every position on which they hold.
    ghost right: { (q : Self) (variant : VariantSeen Self.Answer) → rests q variant
        → IsRight (Self.meaning q) variant };
}
