//! Replies in the layout of C.

ghost use Rattle.std.specs.Prelude.{◌≡◌, ◌≤◌, ◌++◌, length, drop};
ghost use Rattle.board_doors.specs.Printed.{printed_over};
ghost use Rattle.session_core.specs.Replies.{reply_bytes};
ghost use Rattle.session_doors.specs.Replies.{text_reply, line_reply, closed_reply, fault_reply, refused_reply};

use crate::lines::LineFault;
use crate::opening::OpenFault;
use board_doors::DoorFault;
use board_doors::replies::status_of;
use gtp_cmd::{RefuseText, refusal};
use match_doors::{CLOSED, NO_MEMORY, OpenReply};
use session_core::Reply;

/// The status of options whose cache is out of its range.
const BAD_CACHE: u8 = 21;

/// The status of options whose states are out of their range.
const BAD_STATES: u8 = 22;

/// The status of a text that has a line feed.
const BAD_LINE: u8 = 23;

/// The reply to a line, whose bytes are in the caller's buffer.
#[repr(C)]
#[derive(Clone, Copy, Debug, PartialEq, Eq)]
pub struct LineReply {
    /// 0 if the bytes were written, else the number of the fault.
    pub status: u8,
    /// 1 if the line ends the session, else 0.
    pub ends: u8,
    /// How many bytes the reply has.
    pub length: usize,
}

/// The reply with this status and no bytes.
fn without_bytes(status: u8) -> LineReply
    ensures { result ≡ record { status = status; ends = 0; length = 0 } }
{
    LineReply {
        status,
        ends: 0,
        length: 0,
    }
}

/// The reply of an empty handle.
pub fn closed_reply() -> LineReply
    ensures { result ≡ closed_reply }
{
    without_bytes(CLOSED)
}

/// The reply to a text that was not answered.
pub fn fault_reply(fault: LineFault) -> LineReply
    ensures { result ≡ fault_reply fault }
{
    match fault {
        LineFault::LineFeed => without_bytes(BAD_LINE),
        LineFault::NoMemory => without_bytes(NO_MEMORY),
    }
}

/// The reply to a text and options that opened no session.
pub fn refused_reply(fault: OpenFault) -> OpenReply
    ensures { result ≡ refused_reply fault }
{
    let status = match fault {
        OpenFault::Depths => status_of(DoorFault::Depths),
        OpenFault::Cache => BAD_CACHE,
        OpenFault::States => BAD_STATES,
        OpenFault::Patterns(fault) => return match_doors::refused_reply(fault),
    };
    OpenReply {
        status,
        kind: 0,
        line: 0,
        patterns: 0,
    }
}

/// Writes a text over the front of a buffer.
fn write_over(text: &[u8], out: &mut [u8])
    requires { length text.now ≤ length out.old }
    ensures { out.new ≡ text.now ++ drop (length text.now) out.old }
{
    out[..text.len()].copy_from_slice(text);
}

/// Writes a text over the front of a buffer, if there is room for it. The reply says whether it was written.
fn written_text(text: &[u8], ends: bool, out: &mut [u8]) -> LineReply
    ensures reply { result ≡ text_reply text.now ends (length out.old) }
    ensures over { out.new ≡ printed_over text.now out.old }
{
    let length = text.len();
    let ends = if ends { 1 } else { 0 };
    if length > out.len() {
        return LineReply {
            status: status_of(DoorFault::ShortBuffer),
            ends,
            length,
        };
    }
    write_over(text, out);
    LineReply {
        status: 0,
        ends,
        length,
    }
}

/// Writes the bytes of a session's reply over the front of a buffer, if there is room for them.
pub fn written(reply: &Reply, out: &mut [u8]) -> LineReply
    ensures reply { result ≡ line_reply reply.now (length out.old) }
    ensures over { out.new ≡ printed_over (reply_bytes reply.now) out.old }
{
    match reply {
        Reply::Nothing => written_text(b"", false, out),
        Reply::Short { text, quit } => written_text(text.as_slice(), *quit, out),
        Reply::Text { bytes } => written_text(bytes.as_slice(), false, out),
        Reply::NoMemory { id } => {
            let text = refusal(*id, RefuseText::OutOfMemory);
            written_text(text.as_slice(), false, out)
        }
    }
}
