//! A pair of rows, as the key by which its number is looked up.
ghost use Rattle.std.specs.Prelude.{◌≡◌};

use std::hash::{Hash, Hasher};
use std::marker::Model;

/// A row of the first automaton and a row of the second. Seen as the pair of their numbers.
#[derive(Clone, Copy, PartialEq, Eq)]
pub struct RowPair {
    /// The row of the first automaton.
    left: u32,
    /// The row of the second automaton.
    right: u32,
}

impl Model for RowPair {
    ghost use Rattle.dfa_join.specs.Pairs.{Pair};

    ghost Value = { Pair };

    ghost view = { λ pair. (pair.left, pair.right) };

    ghost inverse = { λ pair. record { left = pair.0; right = pair.1 } };
}

/// A pair is hashed as one number, so that the hasher takes one step.
impl Hash for RowPair {
    ghost use Rattle.std.specs.Prelude.{◌+◌, ◌*◌};
    ghost use Rattle.std.proofs.Common.{rules};
    ghost use Rattle.std.specs.Hash as fed;
    ghost use Rattle.std.specs.Cmp.Rules.{hashing};

    ghost hash_input = { λ pair. fed.u64 (pair.0 * 4294967296 + pair.1) };

    ghost respects_eq = { Prim.search (hashing, rules) };

    fn hash<H: Hasher>(&self, state: &mut H) {
        state.write_u64(self.left as u64 * 4294967296 + self.right as u64);
    }
}

impl RowPair {
    /// The key of the pair `pair`.
    pub fn new(pair: (u32, u32)) -> RowPair
        ensures { result ≡ pair }
    {
        RowPair {
            left: pair.0,
            right: pair.1,
        }
    }
}
