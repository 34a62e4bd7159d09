//! The bytes of replies.

ghost use Rattle.std.specs.Prelude.{◌≡◌, ◌+◌, ◌≤◌, [], ◌++◌, length, decimal, IfOk};
ghost use Rattle.gtp_cmd.specs.Replies.{id_text, success_text, refusal_text, text_of};
ghost use Rattle.gtp_cmd.specs.Rooms.{result_room};

use crate::refusals::RefuseText;
use go_base::{Bytes, NoMemory};
use itoa::Buffer;
use vertices::Short;

/// The first byte of a reply, and then the id if there is one.
fn head(first: &[u8], id: Option<u32>) -> Short
    requires { length first.now ≡ 1 }
    ensures text { result ≡ first.now ++ id_text id }
    ensures len { length result ≤ 11 }
{
    let mut out = Short::new();
    out.extend(first);
    if let Some(id) = id {
        let mut buffer = Buffer::new();
        out.extend(buffer.format(id).as_bytes());
    }
    out
}

/// The reply of a success with a result of any length, written to the empty list `out`. Takes memory.
///
/// The reply is `=`, the id if there is one, a blank and the result if the result is not empty, and two line feeds.
/// After the GTP version 2 draft, on the form of a reply; there an empty result has a blank before it too.
pub fn success(id: Option<u32>, text: &[u8], mut out: Bytes) -> Result<Bytes, NoMemory>
    requires { out ≡ [] }
    ensures { IfOk result (λ reply. reply ≡ success_text id text.now) }
{
    let mut front = head(b"=", id);
    if !text.is_empty() {
        front.extend(b" ");
    }
    out.extend(front.as_slice())?;
    out.extend(text)?;
    out.extend(b"\n\n")?;
    Ok(out)
}

/// The reply of a success with a result of at most 32 bytes. Takes no memory.
pub fn short(id: Option<u32>, text: &[u8]) -> Short
    requires { length text.now ≤ result_room }
    ensures { result ≡ success_text id text.now }
{
    let mut out = head(b"=", id);
    if !text.is_empty() {
        out.extend(b" ");
        out.extend(text);
    }
    out.extend(b"\n\n");
    out
}

/// The words of a reason, and its number after them.
fn numbered(words: &[u8], number: u8) -> Short
    requires { length words.now ≤ 14 }
    ensures text { result ≡ words.now ++ decimal number }
    ensures len { length result ≤ 24 }
{
    let mut out = Short::of(words);
    let mut buffer = Buffer::new();
    out.extend(buffer.format(u32::from(number)).as_bytes());
    out
}

/// What a refusal says after its id.
fn reason(text: RefuseText) -> Short
    ensures text { result ≡ text_of text }
    ensures len { length result ≤ 24 }
{
    match text {
        RefuseText::UnknownCommand => Short::of(b"unknown command"),
        RefuseText::SyntaxError => Short::of(b"syntax error"),
        RefuseText::LineTooLong => Short::of(b"line too long"),
        RefuseText::UnacceptableSize => Short::of(b"unacceptable size"),
        RefuseText::IllegalMove => Short::of(b"illegal move"),
        RefuseText::HistoryFull => Short::of(b"history full"),
        RefuseText::CannotUndo => Short::of(b"cannot undo"),
        RefuseText::VertexEmpty => Short::of(b"vertex must not be empty"),
        RefuseText::OutOfMemory => Short::of(b"out of memory"),
        RefuseText::CannotLoadFile => Short::of(b"cannot load file"),
        RefuseText::BadSgf(kind) => numbered(b"bad sgf kind ", kind),
        RefuseText::ProofTooLong => Short::of(b"proof too long"),
        RefuseText::ColoursDiffer => Short::of(b"colours differ"),
        RefuseText::NoSuchHelper => Short::of(b"no such helper"),
    }
}

/// The reply of a refusal: `?`, the id if there is one, a blank, the reason, and two line feeds. Takes no memory.
pub fn refusal(id: Option<u32>, text: RefuseText) -> Short
    ensures { result ≡ refusal_text id text }
{
    let mut out = head(b"?", id);
    out.extend(b" ");
    out.extend(reason(text).as_slice());
    out.extend(b"\n\n");
    out
}
