//! Parts of a line, given by where they begin and end.

ghost use Rattle.std.specs.Prelude.{◌≡◌, ◌≤◌, [], length, IfOk};
ghost use Rattle.gtp_cmd.specs.Words.{cleaned, blank_for_tab};
ghost use Rattle.gtp_cmd.specs.Spans.{spanned};

use go_base::{Bytes, NoMemory};
use vertices::{before_comment, is_kept};

/// A part of a line as it was read, from the index `from` to just before `to`. The span of some words runs from the
/// first byte of the first word to the last byte of the last; the span of no words has 0 for both.
#[derive(Clone, Copy, Debug, PartialEq, Eq)]
pub struct Span {
    /// The index of the first byte.
    pub from: u32,
    /// The index after the last byte.
    pub to: u32,
}

/// The byte, with a blank in place of a tab.
fn blank_for_tab(b: u8) -> u8
    ensures { result ≡ blank_for_tab b }
{
    if b == b'\t' { b' ' } else { b }
}

/// The cleaned bytes of a span of a line, written to the empty list `out`: control bytes other than tab and line feed
/// are dropped, a tab becomes a blank, and `#` and what follows it are dropped. Takes memory.
pub fn text(line: &[u8], span: Span, mut out: Bytes) -> Result<Bytes, NoMemory>
    requires empty { out ≡ [] }
    requires order { span.from ≤ span.to }
    requires inside { span.to ≤ length line.now }
    ensures { IfOk result (λ text. text ≡ cleaned (spanned line.now span)) }
{
    let part = before_comment(&line[span.from as usize..span.to as usize]);
    for b in part {
        if is_kept(*b) {
            out.push(blank_for_tab(*b))?;
        }
    }
    Ok(out)
}
