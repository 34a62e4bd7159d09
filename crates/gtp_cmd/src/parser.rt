//! What a line says.

ghost use Rattle.std.specs.Prelude.{◌≡◌, ◌≤◌, ◌∷◌, length, drop};
ghost use Rattle.gtp_cmd.specs.Words.{kept, plain, words_of};
ghost use Rattle.gtp_cmd.specs.Commands.{said, parsed_of};
ghost use Rattle.gtp_cmd.specs.Rooms.{longest_line};
ghost use Rattle.gtp_cmd.specs.Spans.{spans_at};
ghost use Rattle.gtp_cmd.specs.Within.{SaysWithin, SaysWithinLine};

use crate::calls::arguments;
use crate::commands::Parsed;
use crate::ids::id;
use crate::refusals::RefuseText;
use crate::rows::named;
use crate::word_spans::behind_word;
use go_base::Size;
use vertices::{before_comment, next_word};

/// What a command's word and the text after it say. The word begins in `whole` at `place` or after it.
fn called(
    id: Option<u32>,
    word: &[u8],
    text: &[u8],
    size: Size,
    whole: &[u8],
    place: usize,
) -> Parsed
    requires inside { place ≤ length whole.now }
    requires short { length whole.now ≤ longest_line }
    ensures { result ≡ said id size (kept word.now ∷ words_of (plain text.now)) (spans_at whole.now place) }
{
    let Some(name) = named(word) else {
        return Parsed::Refused {
            id,
            text: RefuseText::UnknownCommand,
        };
    };
    match arguments(name, text, size, whole, place) {
        Some(command) => Parsed::Command { id, command },
        None => Parsed::Refused {
            id,
            text: RefuseText::SyntaxError,
        },
    }
}

/// What the text after an id says. The id begins in `whole` at `place` or after it.
fn after_id(id: u32, text: &[u8], size: Size, whole: &[u8], place: usize) -> Parsed
    requires inside { place ≤ length whole.now }
    requires short { length whole.now ≤ longest_line }
    ensures { result ≡ said (Some id) size (words_of (plain text.now)) (drop 1 (spans_at whole.now place)) }
{
    match next_word(text) {
        Some((word, more)) => called(Some(id), word, more, size, whole, behind_word(whole, place)),
        None => Parsed::Refused {
            id: Some(id),
            text: RefuseText::UnknownCommand,
        },
    }
}

/// What a line, given without its line feed, says on a board of this size: nothing, a command, or the first refusal.
///
/// Control bytes other than tab and line feed are ignored, a tab counts as a blank, and `#` begins a comment. A first
/// word of digits alone is the id, if it is at most 2147483647. An unknown command is refused before its arguments are
/// read, and words after the last argument are ignored. Colours, vertices and `pass` may be in either case, and a
/// number may have any length. Each point of the answer lies on the board, depths lie in their ranges, and spans in the
/// line. Takes no memory.
///
/// After the GTP version 2 draft, on preprocessing and on the structure of a command.
#[tactic(auto, unfolding(crate::specs::Commands::parsed_of, crate::specs::Spans::spans_of))]
pub fn parse(line: &[u8], size: Size) -> Parsed
    requires short { length line.now ≤ longest_line }
    ensures said { result ≡ parsed_of line.now size }
    ensures within { SaysWithin size result }
    ensures spans { SaysWithinLine line.now result }
{
    let text = before_comment(line);
    let Some((first, more)) = next_word(text) else {
        return Parsed::Nothing;
    };
    match id(first) {
        Some(id) => after_id(id, more, size, text, 0),
        None => called(None, first, more, size, text, 0),
    }
}
