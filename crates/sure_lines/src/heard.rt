//! What a line says to this program: the same as to gopat, except that commands that this program does not have are
//! unknown.

ghost use Rattle.std.specs.Prelude.{◌≡◌, ◌≤◌, length, drop, is_some};
ghost use Rattle.gtp_cmd.specs.Rooms.{longest_line};
ghost use Rattle.gtp_cmd.specs.Within.{SaysWithin, SaysWithinLine};
ghost use Rattle.gtp_cmd.specs.Words.{kept, plain, cleaned, words_of, id_of};
ghost use Rattle.gtp_lex.specs.Raw.{raw_line};
ghost use Rattle.sure_lines.specs.Heard.{own_parsed, bytes_in, heard_at, asked_words, names_own, own_said};

use crate::command_names::is_own;
use go_base::Size;
use gtp_cmd::{Parsed, RefuseText, parse};
use gtp_lex::Raw;
use vertices::{before_comment, next_word, number};

/// The greatest id.
const MAX_ID: u32 = 2_147_483_647;

/// Whether a word is an id.
fn is_id(word: &[u8]) -> bool
    ensures { result ≡ is_some (id_of (kept word.now)) }
{
    match number(word) {
        Some(id) => id <= MAX_ID,
        None => false,
    }
}

/// A line from its command on: without its id and without its comment.
fn from_command(line: &[u8]) -> &[u8]
    ensures { words_of (plain result.now) ≡ asked_words (words_of (cleaned line.now)) }
{
    let text = before_comment(line);
    let Some((first, more)) = next_word(text) else {
        return text;
    };
    if is_id(first) { more } else { text }
}

/// Whether the first word of a text names a command of this program.
fn names_own(text: &[u8]) -> bool
    ensures { result ≡ names_own (words_of (plain text.now)) }
{
    match next_word(text) {
        Some((word, _)) => is_own(word),
        None => false,
    }
}

/// The text after its first word; all of it if it has no word.
fn behind_word(text: &[u8]) -> &[u8]
    ensures { words_of (plain result.now) ≡ drop 1 (words_of (plain text.now)) }
{
    match next_word(text) {
        Some((_, more)) => more,
        None => text,
    }
}

/// Whether the first argument of a line names a command of this program.
pub(crate) fn knows_argument(line: &[u8]) -> bool
    ensures { result ≡ names_own (drop 1 (asked_words (words_of (cleaned line.now)))) }
{
    names_own(behind_word(from_command(line)))
}

/// What a line says: `said` if its command is one of this program's; else a command or a refusal becomes the refusal of
/// an unknown command.
fn own_parsed(is_own: bool, said: Parsed) -> Parsed
    ensures { result ≡ own_parsed is_own said }
{
    if is_own {
        return said;
    }
    match said {
        Parsed::Nothing => Parsed::Nothing,
        Parsed::Refused { id, .. } | Parsed::Command { id, .. } => Parsed::Refused {
            id,
            text: RefuseText::UnknownCommand,
        },
    }
}

/// What a line says to this program on a board of this size.
fn said(line: &[u8], size: Size) -> Parsed
    requires { length line.now ≤ longest_line }
    ensures said { result ≡ own_said line.now size }
    ensures within { SaysWithin size result }
    ensures spans { SaysWithinLine line.now result }
{
    own_parsed(names_own(from_command(line)), parse(line, size))
}

/// The bytes of a line; none if the line is too long.
pub(crate) fn bytes_of(raw: Raw<'_>) -> &[u8]
    ensures { result.now ≡ bytes_in (raw_line raw.entry) }
{
    match raw {
        Raw::Line(text) => text,
        Raw::TooLong => b"",
    }
}

/// What a line says on a board of this size; a line that is too long is refused.
pub(crate) fn heard(raw: Raw<'_>, size: Size) -> Parsed
    requires { length (bytes_in (raw_line raw)) ≤ longest_line }
    ensures said { result ≡ heard_at size (raw_line raw.entry) }
    ensures within { SaysWithin size result }
    ensures spans { SaysWithinLine (bytes_in (raw_line raw.entry)) result }
{
    match raw {
        Raw::TooLong => Parsed::Refused {
            id: None,
            text: RefuseText::LineTooLong,
        },
        Raw::Line(text) => said(text, size),
    }
}
