//! The pointer of a handle to its matcher.
ghost use Rattle.std.specs.Prelude.{◌≡◌, List, Option, Some, None, is_some, true};
ghost use Rattle.pat_types.specs.declared.pattern.Pattern.{Pattern};
ghost use Rattle.gopat_matches_c.specs.Owned.{held_coded};

use box_parts::Parts;
use match_doors::Matcher;
use std::alloc::Global;
use std::marker::Model;
use std::ptr::null_mut;

/// A pointer that owns a matcher, or nothing. Its layout is that of C, where it is a pointer without a type.
#[repr(C)]
pub struct Slot {
    at: *mut u8,
    alloc: Global,
    /// The patterns of the matcher; `None` if there is none.
    pub ghost held: { Option (List Pattern) } by { held_coded },
}

impl Model for Slot {
    ghost use Rattle.gopat_matches_c.specs.Owned.{owned_at};

    ghost also_owns = { λ s. owned_at s.alloc s.at s.held };
}

impl Slot {
    /// A slot with this pointer, which owns nothing.
    fn empty(at: *mut u8, alloc: Global) -> Slot
        ensures { result.held ≡ None }
    {
        Slot { at, alloc }
    }

    /// The slot with the null pointer, which owns nothing.
    pub fn nothing(alloc: Global) -> Slot
        ensures { result.held ≡ None }
    {
        let nowhere: *mut u8 = null_mut();
        Slot::empty(nowhere, alloc)
    }

    /// The slot that owns what the parts of a box owned.
    pub fn of_parts(parts: Parts<Matcher, Global>) -> Slot
        ensures { result.held ≡ Some parts.value }
    {
        let Parts { at, alloc } = parts;
        Slot {
            at: at as *mut u8,
            alloc,
        }
    }

    /// The parts of the box that the slot owns.
    pub fn into_parts(self) -> Parts<Matcher, Global>
        requires { is_some self.held ≡ true }
        ensures { self.held ≡ Some result.value }
    {
        let Slot { at, alloc } = self;
        Parts {
            at: at as *mut Matcher,
            alloc,
        }
    }

    /// Forgets a pointer that owns nothing.
    pub fn discard(self)
        requires { self.held ≡ None }
    {
        let Slot { at: _, alloc: _ } = self;
    }
}
