//! A text that grows word by word until it is too long.

ghost use Rattle.std.specs.Prelude.{◌≡◌, ◌*◌, ◌<◌, ◌≤◌, ◌↔◌, IsTrue, length};
ghost use Rattle.write_sure.specs.Room.{longest_proof};

use crate::refusal::SureProofError;
use go_base::{Bytes, Point, Size};
use vertices::vertex_text;

/// How many bytes a proof may have at most.
const MAX_BYTES: usize = 1_048_576;

/// Whether the text has at most 1,048,576 bytes.
pub(crate) fn is_short(text: &[u8]) -> bool
    ensures { IsTrue result ↔ (length text.now ≤ longest_proof) }
{
    text.len() <= MAX_BYTES
}

/// The bytes of `text` after the first `count`; none if it has fewer.
pub(crate) fn behind(text: &[u8], count: usize) -> &[u8] {
    if count > text.len() {
        return b"";
    }
    &text[count..]
}

/// Puts the bytes `more` at the end of `out`, if `out` is not too long yet.
fn put(out: &mut Bytes, more: &[u8]) -> Result<(), SureProofError> {
    if !is_short(out.as_slice()) {
        return Err(SureProofError::TooLong);
    }
    Ok(out.extend(more)?)
}

/// Puts a word at the end of `out`, after a blank if `out` is not empty.
pub(crate) fn put_word(out: &mut Bytes, word: &[u8]) -> Result<(), SureProofError> {
    if !out.as_slice().is_empty() {
        put(out, b" ")?;
    }
    put(out, word)
}

/// Puts the vertex of `p` at the end of `out`, after a blank if `out` is not empty.
pub(crate) fn put_vertex(out: &mut Bytes, size: Size, p: Point) -> Result<(), SureProofError>
    requires { p < size * size }
{
    put_word(out, vertex_text(size, p).as_slice())
}
