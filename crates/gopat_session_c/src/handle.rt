//! The handle of a session.
ghost use Rattle.std.specs.Prelude.{◌≡◌, Some, None, is_some, true};
ghost use Rattle.std.specs.Option.{MatchOption};
ghost use Rattle.gopat_session_c.specs.Held.{Opens};

use crate::slot::Slot;
use box_parts::Parts;
use match_doors::{OpenReply, PatternFault, opened_reply};
use session_doors::{HeldSession, OpenFault, OpenedSession, SessionOptions, open, refused_reply};
use std::alloc::Global;
use std::mem;

/// A handle of a session. A caller in C makes it of zeros; then it is empty.
#[repr(C)]
pub struct SessionHandle {
    is_open: bool,
    /// The pointer to the place of the session.
    pub slot: Slot,
    ghost tied: { is_open ≡ is_some slot.held },
}

impl SessionHandle {
    /// The empty handle.
    fn none(alloc: Global) -> SessionHandle
        ensures { result.slot.held ≡ None }
    {
        SessionHandle {
            is_open: false,
            slot: Slot::nothing(alloc),
        }
    }

    /// The handle that holds the session in `place`.
    fn of(place: Box<Option<HeldSession>>) -> SessionHandle
        requires { is_some place.value ≡ true }
        ensures { result.slot.held ≡ place.value }
    {
        SessionHandle {
            is_open: true,
            slot: Slot::of_parts(Parts::of(place)),
        }
    }

    /// The place of the session that the handle holds, or `None` if the handle is empty.
    fn into_place(self) -> Option<Box<Option<HeldSession>>>
        ensures { MatchOption result (self.slot.held ≡ None)
            (λ place. (self.slot.held ≡ place.value) × (is_some place.value ≡ true)) }
    {
        let SessionHandle { is_open, slot } = self;
        if is_open {
            Some(slot.into_parts().into_box())
        } else {
            slot.discard();
            None
        }
    }

    /// Takes out the session that the handle holds, if it holds one, and its place without it. Afterwards the handle is
    /// empty.
    pub fn take(&mut self, alloc: Global) -> Option<(HeldSession, Box<Option<HeldSession>>)>
        ensures taken { MatchOption result (self.old.slot.held ≡ None)
            (λ taken. self.old.slot.held ≡ Some taken.0) }
        ensures none { self.new.slot.held ≡ None }
    {
        let mut place = mem::replace(self, SessionHandle::none(alloc)).into_place()?;
        let held = Box::replace(&mut place, None)?;
        Some((held, place))
    }

    /// Puts a place with a session into an empty handle.
    pub fn fill(&mut self, place: Box<Option<HeldSession>>)
        requires none { self.old.slot.held ≡ None }
        requires some { is_some place.value ≡ true }
        ensures { self.new.slot.held ≡ place.value }
    {
        let SessionHandle { is_open: _, slot } = mem::replace(self, SessionHandle::of(place));
        slot.discard();
    }

    /// Puts the session `held` into `place`, and the place into an empty handle.
    pub fn put(&mut self, held: HeldSession, mut place: Box<Option<HeldSession>>)
        requires { self.old.slot.held ≡ None }
        ensures { self.new.slot.held ≡ Some held }
    {
        drop(Box::replace(&mut place, Some(held)));
        self.fill(place);
    }

    /// Frees what the handle holds. Afterwards the handle is empty.
    pub fn close(&mut self, alloc: Global)
        ensures { self.new.slot.held ≡ None }
    {
        drop(self.take(alloc));
    }
}

/// Opens a session in an empty handle.
pub fn opened(
    alloc: Global,
    handle: &mut SessionHandle,
    text: &[u8],
    options: SessionOptions,
) -> OpenReply
    requires { handle.old.slot.held ≡ None }
    ensures { Opens text.now options result handle.new.slot.held }
{
    let OpenedSession { session, patterns } = match open(alloc, text, options) {
        Ok(opened) => opened,
        Err(fault) => return refused_reply(fault),
    };
    match Box::new(alloc, Some(session)) {
        Ok(place) => {
            handle.fill(place);
            opened_reply(patterns)
        }
        Err(_) => refused_reply(OpenFault::Patterns(PatternFault::NoMemory)),
    }
}
