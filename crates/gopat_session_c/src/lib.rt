//! A session for programs in C, and in any language that can call C: the exports of the static library
//! `libgopat_session_c.a`.
//!
//! A handle holds a session: patterns, a board, and the cached answers. It is a struct of the caller's, all zeros
//! before its first call; the calls take it by a pointer, and `gopat_session_close` frees what it holds. `gopat_line`
//! answers a line of the protocol as the program does, and writes the reply into the caller's buffer. There are no
//! helpers, and each file that a line names counts as empty. `gopat_session.h`, in the folder of this crate, is what a
//! C compiler reads.
#![tactic(auto)]

ghost use Rattle.std.specs.Prelude.{◌≡◌, None, IfSome, length};
ghost use Rattle.board_doors.specs.Printed.{printed_over};
ghost use Rattle.session_core.specs.Replies.{reply_bytes};
ghost use Rattle.session_doors.specs.Replies.{line_reply, closed_reply};
ghost use Rattle.gopat_session_c.specs.Held.{Opens, HasAnswered};

mod handle;
mod lines;
mod slot;

use handle::SessionHandle;
use match_doors::OpenReply;
use session_doors::{LineReply, SessionOptions};
use std::alloc::Global;

/// Opens a session with the patterns of `text`, which name no helper, and with these `options`, before its first line.
/// What the handle held before is freed first. The reply says how many patterns there are, or gives the first fault: of
/// the depths, of the cache, of the states, of the text; with a fault the handle is empty.
#[unsafe(no_mangle)]
pub extern "C" fn gopat_session_open(
    alloc: Global,
    session: &mut SessionHandle,
    text: &[u8],
    options: SessionOptions,
) -> OpenReply
    ensures { Opens text.now options result session.new.slot.held }
{
    session.close(alloc);
    handle::opened(alloc, session, text, options)
}

/// Answers a line of the protocol, given without its line feed, and writes the reply over the front of the buffer. If
/// the buffer is too short, it stays as it is; the line is answered all the same, and `gopat_last_reply` writes its
/// reply.
#[unsafe(no_mangle)]
pub extern "C" fn gopat_line(
    alloc: Global,
    session: &mut SessionHandle,
    line: &[u8],
    reply: &mut [u8],
) -> LineReply
    ensures closed { session.old.slot.held ≡ None
        → (result ≡ closed_reply) × (reply.new ≡ reply.old) × (session.new.slot.held ≡ None) }
    ensures answers { IfSome session.old.slot.held (λ old.
        HasAnswered old line.now session.new.slot.held reply.old reply.new result) }
{
    lines::answered(alloc, session, line, reply)
}

/// Writes the reply to the last line over the front of the buffer once more; no bytes before the first line. No line is
/// answered again.
#[unsafe(no_mangle)]
pub extern "C" fn gopat_last_reply(
    alloc: Global,
    session: &mut SessionHandle,
    reply: &mut [u8],
) -> LineReply
    ensures closed { session.old.slot.held ≡ None → (result ≡ closed_reply) × (reply.new ≡ reply.old) }
    ensures reply { IfSome session.old.slot.held (λ old. result ≡ line_reply old.reply (length reply.old)) }
    ensures over { IfSome session.old.slot.held (λ old. reply.new ≡ printed_over (reply_bytes old.reply) reply.old) }
    ensures same { session.new.slot.held ≡ session.old.slot.held }
{
    lines::last_reply(alloc, session, reply)
}

/// Frees what a handle holds. Afterwards the handle is empty, as before its first call; an empty handle stays empty.
#[unsafe(no_mangle)]
pub extern "C" fn gopat_session_close(alloc: Global, session: &mut SessionHandle)
    ensures { session.new.slot.held ≡ None }
{
    session.close(alloc);
}
