//! How the session of a handle answers lines.

ghost use Rattle.std.specs.Prelude.{◌≡◌, None, IfSome, length};
ghost use Rattle.board_doors.specs.Printed.{printed_over};
ghost use Rattle.session_core.specs.Replies.{reply_bytes};
ghost use Rattle.session_doors.specs.Replies.{line_reply, closed_reply};
ghost use Rattle.gopat_session_c.specs.Held.{HasAnswered};

use crate::handle::SessionHandle;
use session_doors::{LineReply, Unanswered, answer, closed_reply, fault_reply, written};
use std::alloc::Global;

/// Answers a line, and writes the reply over the front of a buffer if there is room for it.
pub fn answered(
    alloc: Global,
    session: &mut SessionHandle,
    line: &[u8],
    out: &mut [u8],
) -> LineReply
    ensures closed { session.old.slot.held ≡ None
        → (result ≡ closed_reply) × (out.new ≡ out.old) × (session.new.slot.held ≡ None) }
    ensures answers { IfSome session.old.slot.held (λ old.
        HasAnswered old line.now session.new.slot.held out.old out.new result) }
{
    let Some((held, place)) = session.take(alloc) else {
        return closed_reply();
    };
    match answer(alloc, held, line) {
        Ok(next) => {
            let told = written(&next.reply, out);
            session.put(next, place);
            told
        }
        Err(
            Unanswered {
                session: same,
                fault,
            },
        ) => {
            session.put(same, place);
            fault_reply(fault)
        }
    }
}

/// Writes the reply to the last line over the front of a buffer if there is room for it.
pub fn last_reply(alloc: Global, session: &mut SessionHandle, out: &mut [u8]) -> LineReply
    ensures closed { session.old.slot.held ≡ None → (result ≡ closed_reply) × (out.new ≡ out.old) }
    ensures reply { IfSome session.old.slot.held (λ old. result ≡ line_reply old.reply (length out.old)) }
    ensures over { IfSome session.old.slot.held (λ old. out.new ≡ printed_over (reply_bytes old.reply) out.old) }
    ensures same { session.new.slot.held ≡ session.old.slot.held }
{
    let Some((held, place)) = session.take(alloc) else {
        return closed_reply();
    };
    let told = written(&held.reply, out);
    session.put(held, place);
    told
}
