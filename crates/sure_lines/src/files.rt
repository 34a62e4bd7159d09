//! The files that lines name.

ghost use Rattle.std.specs.Prelude.{◌≡◌, true, IfOk, IfErr};
ghost use Rattle.gtp_cmd.specs.Spans.{IsSpanOf};
ghost use Rattle.sure_lines.specs.Answers.{IsAnswer};
ghost use Rattle.sure_lines.specs.Effects.{Effect};
ghost use Rattle.sure_lines.specs.Files.{named_file, is_utf8, IsFileOf, by_file, word_at};
ghost use Rattle.sure_lines.specs.Machine.{Machine};

use crate::answer::Answer;
use go_base::Bytes;
use gtp_cmd::{RefuseText, Span, text};
use gtp_io::{LoadError, Loader};
use std::alloc::Global;
use std::str::from_utf8;

/// The text of the file whose name stands in the part `span` of the line, or what is answered to the line if there is
/// no such text. The name and the text of the file take memory.
pub(crate) fn load_file<L: Loader>(
    alloc: Global,
    line: &[u8],
    span: Span,
    files: &mut L,
) -> Result<Vec<u8>, Answer>
    requires { IsSpanOf line.now span }
    ensures text { IfOk result (λ bytes. (is_utf8 (word_at line.now span) ≡ true)
        × IsFileOf (L.contents files.old) (named_file (word_at line.now span)) bytes.items) }
    ensures answer { IfErr result (λ said. (old : Machine) (effect : Effect)
        → IsAnswer (by_file old (word_at line.now span) effect) said old old) }
    ensures contents { L.contents files.new ≡ L.contents files.old }
{
    let Ok(word) = text(line, span, Bytes::new(alloc)) else {
        return Err(Answer::NoMemory);
    };
    let Ok(name) = from_utf8(word.as_slice()) else {
        return Err(Answer::Refused(RefuseText::SyntaxError));
    };
    match files.load(name, Vec::new(alloc)) {
        Ok(contents) => Ok(contents),
        Err(LoadError::Failed) => Err(Answer::Refused(RefuseText::CannotLoadFile)),
        Err(LoadError::NoMemory) => Err(Answer::NoMemory),
    }
}
