//! The pointer of a handle to the place of its session.
ghost use Rattle.std.specs.Prelude.{◌≡◌, Option, None, is_some, true};
ghost use Rattle.session_doors.specs.declared.held.HeldSession.{HeldSession as SessionSeen};
ghost use Rattle.gopat_session_c.specs.Owned.{held_coded};

use box_parts::Parts;
use session_doors::HeldSession;
use std::alloc::Global;
use std::marker::Model;
use std::ptr::null_mut;

/// A pointer that owns a place with a session, or nothing. Its layout is that of C, where it is a pointer without a
/// type. A line takes the session out of its place and puts it back, so that no line asks for a new place.
#[repr(C)]
pub struct Slot {
    at: *mut u8,
    alloc: Global,
    /// The session that is held; `None` if there is none.
    pub ghost held: { Option SessionSeen } by { held_coded },
}

impl Model for Slot {
    ghost use Rattle.gopat_session_c.specs.Owned.{owned_at};

    ghost also_owns = { λ s. owned_at s.alloc s.at s.held };
}

impl Slot {
    /// A slot with this pointer, which owns nothing.
    fn empty(at: *mut u8, alloc: Global) -> Slot
        ensures { result.held ≡ None }
    {
        Slot { at, alloc }
    }

    /// The slot with the null pointer, which owns nothing.
    pub fn nothing(alloc: Global) -> Slot
        ensures { result.held ≡ None }
    {
        let nowhere: *mut u8 = null_mut();
        Slot::empty(nowhere, alloc)
    }

    /// The slot that owns what the parts of a box owned.
    pub fn of_parts(parts: Parts<Option<HeldSession>, Global>) -> Slot
        requires { is_some parts.value ≡ true }
        ensures { result.held ≡ parts.value }
    {
        let Parts { at, alloc } = parts;
        Slot {
            at: at as *mut u8,
            alloc,
        }
    }

    /// The parts of the box that the slot owns.
    pub fn into_parts(self) -> Parts<Option<HeldSession>, Global>
        requires { is_some self.held ≡ true }
        ensures { result.value ≡ self.held }
    {
        let Slot { at, alloc } = self;
        Parts {
            at: at as *mut Option<HeldSession>,
            alloc,
        }
    }

    /// Forgets a pointer that owns nothing.
    pub fn discard(self)
        requires { self.held ≡ None }
    {
        let Slot { at: _, alloc: _ } = self;
    }
}
