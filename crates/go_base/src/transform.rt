//! The eight transformations, which turn and mirror a diagram.

ghost use Rattle.std.specs.Prelude.{◌≡◌, ◌<◌, ◌↔◌, IsSome, IfSome};
ghost use Rattle.go_rules.specs.Transform.{IsNear, transformations, transformed};

use std::marker::Model;

/// How many transformations there are; they are numbered from 0.
pub const TRANSFORMATIONS: u8 = 8;

/// One of the eight transformations: 0 to 3 turn a diagram by quarters, 4 to 7 mirror it. It is seen as its number.
#[derive(Clone, Copy, Debug, PartialEq, Eq, PartialOrd, Ord)]
pub struct Transform {
    number: u8,
}

impl Model for Transform {
    ghost use Rattle.std.specs.Prelude.{ℕ, ◌<◌};
    ghost use Rattle.go_rules.specs.Transform.{transformations};

    ghost Value = { ℕ };

    ghost view = { λ t. t.number };

    ghost invariant = { λ t. t.number < transformations };

    ghost inverse = { λ n. record { number = n } };
}

impl Transform {
    /// The transformation with the number `n`; `None` exactly if `n` is above 7.
    pub fn new(n: u8) -> Option<Transform>
        ensures valid { IsSome result ↔ (n < transformations) }
        ensures value { IfSome result (λ t. t ≡ n) }
    {
        if n < TRANSFORMATIONS {
            Some(Transform { number: n })
        } else {
            None
        }
    }

    /// The transformation's number.
    pub fn get(self) -> u8
        ensures value { result ≡ self }
        ensures bound { result < transformations }
    {
        self.number
    }

    /// The offset to which the transformation moves the offset of `dr` rows down and `dc` columns to the right.
    pub fn apply(self, dr: i8, dc: i8) -> (i8, i8)
        requires { IsNear (dr, dc) }
        ensures value { result ≡ transformed self (dr, dc) }
        ensures near { IsNear result }
    {
        match self.number {
            0 => (dr, dc),
            1 => (dc, -dr),
            2 => (-dr, -dc),
            3 => (-dc, dr),
            4 => (dr, -dc),
            5 => (-dc, -dr),
            6 => (-dr, dc),
            _ => (dc, dr),
        }
    }
}
