//! The two parts of a box.
ghost use Rattle.std.specs.Prelude.{◌≡◌};
ghost use Rattle.std.specs.Box.Ownership.{box_owns};

use std::alloc::Allocator;
use std::marker::Model;

/// A box in two parts. It owns what the box owned.
pub struct Parts<T, A: Allocator> {
    /// The pointer to the value.
    pub at: *mut T,
    /// The allocator of the box.
    pub alloc: A,
    /// The value in the box.
    pub ghost value: { T },
}

impl<T, A: Allocator> Model for Parts<T, A> {
    ghost also_owns = { λ p. box_owns (A.dealloc_token p.alloc) T.row p.at p.value };
}

impl<T, A: Allocator> Parts<T, A> {
    /// Takes a box apart. The value stays where it is.
    pub fn of(held: Box<T, A>) -> Parts<T, A>
    where
        T: Drop,
        ensures { result.value ≡ held.value }
    {
        let (at, alloc) = Box::into_raw_with_allocator(held);
        Parts { at, alloc }
    }

    /// Makes the box again from its two parts.
    pub fn into_box(self) -> Box<T, A>
        ensures { result.value ≡ self.value }
    {
        let Parts { at, alloc } = self;
        unsafe { Box::from_raw(alloc, at) }
    }
}
