//! The handle of patterns.
ghost use Rattle.std.specs.Prelude.{◌≡◌, Some, None, is_some, IfOk, IfErr};
ghost use Rattle.std.specs.Option.{MatchOption};
ghost use Rattle.match_doors.specs.Patterns.{AreOpened, IsRefused};
ghost use Rattle.gopat_matches_c.specs.Opened.{most_states, IsOpened};

use crate::slot::Slot;
use box_parts::Parts;
use match_doors::{Matcher, OpenReply, PatternFault, opened_reply, refused_reply};
use std::alloc::Global;
use std::mem;

/// A handle of patterns. A caller in C makes it of zeros; then it is empty.
#[repr(C)]
pub struct PatternsHandle {
    is_open: bool,
    /// The pointer to the matcher.
    pub slot: Slot,
    ghost tied: { is_open ≡ is_some slot.held },
}

impl PatternsHandle {
    /// The empty handle.
    fn none(alloc: Global) -> PatternsHandle
        ensures { result.slot.held ≡ None }
    {
        PatternsHandle {
            is_open: false,
            slot: Slot::nothing(alloc),
        }
    }

    /// The handle that holds the matcher of a box.
    fn of(held: Box<Matcher>) -> PatternsHandle
        ensures { result.slot.held ≡ Some held.value }
    {
        PatternsHandle {
            is_open: true,
            slot: Slot::of_parts(Parts::of(held)),
        }
    }

    /// The box of the matcher that the handle holds, or `None` if the handle is empty.
    fn into_box(self) -> Option<Box<Matcher>>
        ensures { MatchOption result (self.slot.held ≡ None) (λ held. self.slot.held ≡ Some held.value) }
    {
        let PatternsHandle { is_open, slot } = self;
        if is_open {
            Some(slot.into_parts().into_box())
        } else {
            slot.discard();
            None
        }
    }

    /// Takes out the matcher that the handle holds, if it holds one. Afterwards the handle is empty.
    pub fn take(&mut self, alloc: Global) -> Option<Box<Matcher>>
        ensures taken { MatchOption result (self.old.slot.held ≡ None)
            (λ held. self.old.slot.held ≡ Some held.value) }
        ensures none { self.new.slot.held ≡ None }
    {
        mem::replace(self, PatternsHandle::none(alloc)).into_box()
    }

    /// Puts a matcher into an empty handle.
    pub fn put(&mut self, held: Box<Matcher>)
        requires { self.old.slot.held ≡ None }
        ensures { self.new.slot.held ≡ Some held.value }
    {
        let PatternsHandle { is_open: _, slot } = mem::replace(self, PatternsHandle::of(held));
        slot.discard();
    }

    /// Frees what the handle holds. Afterwards the handle is empty.
    pub fn close(&mut self, alloc: Global)
        ensures { self.new.slot.held ≡ None }
    {
        drop(self.take(alloc));
    }
}

/// The matcher for the patterns of `text` in a box of its own, or why there is none.
fn boxed(alloc: Global, text: &[u8]) -> Result<Box<Matcher>, PatternFault>
    ensures ok { IfOk result (λ held. AreOpened text.now most_states held.value) }
    ensures err { IfErr result (IsRefused text.now most_states) }
{
    let matcher = Matcher::open(alloc, text)?;
    match Box::new(alloc, matcher) {
        Ok(held) => Ok(held),
        Err(_) => Err(PatternFault::NoMemory),
    }
}

/// Reads the patterns of `text` into an empty handle.
pub fn opened(alloc: Global, handle: &mut PatternsHandle, text: &[u8]) -> OpenReply
    requires { handle.old.slot.held ≡ None }
    ensures { IsOpened text.now result handle.new.slot.held }
{
    match boxed(alloc, text) {
        Ok(held) => {
            let patterns = held.count();
            handle.put(held);
            opened_reply(patterns)
        }
        Err(fault) => refused_reply(fault),
    }
}
