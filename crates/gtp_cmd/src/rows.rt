//! The words that name the commands.

ghost use Rattle.std.specs.Prelude.{◌≡◌, ◌∷◌, ◌++◌, true, length, map, option_map, find, IfOk, OnOk};
ghost use Rattle.std.specs.List.{flat_map, list_all};
ghost use Rattle.std.specs.Str.{bytes_eq};
ghost use Rattle.gtp_cmd.specs.Words.{kept, line_feed};
ghost use Rattle.gtp_cmd.specs.CodeRows.{row_seen, is_plain};
ghost use Rattle.gtp_cmd.specs.Commands.{command_in, named, names_text};

use crate::commands::CommandName;
use go_base::{Bytes, NoMemory};
use std::alloc::Global;
use vertices::{byte_count, spells};

/// A command and the word that names it.
#[derive(Clone, Copy)]
struct Row {
    command: CommandName,
    word: &'static [u8],
}

/// The commands in the order in which they are listed.
const TABLE: [Row; 34] = [
    Row {
        command: CommandName::ProtocolVersion,
        word: b"protocol_version",
    },
    Row {
        command: CommandName::Name,
        word: b"name",
    },
    Row {
        command: CommandName::Version,
        word: b"version",
    },
    Row {
        command: CommandName::KnownCommand,
        word: b"known_command",
    },
    Row {
        command: CommandName::ListCommands,
        word: b"list_commands",
    },
    Row {
        command: CommandName::Quit,
        word: b"quit",
    },
    Row {
        command: CommandName::BoardSize,
        word: b"boardsize",
    },
    Row {
        command: CommandName::ClearBoard,
        word: b"clear_board",
    },
    Row {
        command: CommandName::Komi,
        word: b"komi",
    },
    Row {
        command: CommandName::GetKomi,
        word: b"get_komi",
    },
    Row {
        command: CommandName::Play,
        word: b"play",
    },
    Row {
        command: CommandName::Undo,
        word: b"undo",
    },
    Row {
        command: CommandName::ShowBoard,
        word: b"showboard",
    },
    Row {
        command: CommandName::IsLegal,
        word: b"is_legal",
    },
    Row {
        command: CommandName::AllLegal,
        word: b"all_legal",
    },
    Row {
        command: CommandName::CountLib,
        word: b"countlib",
    },
    Row {
        command: CommandName::FindLib,
        word: b"findlib",
    },
    Row {
        command: CommandName::Captures,
        word: b"captures",
    },
    Row {
        command: CommandName::Attack,
        word: b"attack",
    },
    Row {
        command: CommandName::Defend,
        word: b"defend",
    },
    Row {
        command: CommandName::Depths,
        word: b"depths",
    },
    Row {
        command: CommandName::MatchPatterns,
        word: b"match_patterns",
    },
    Row {
        command: CommandName::ListPatterns,
        word: b"list_patterns",
    },
    Row {
        command: CommandName::LoadSgf,
        word: b"loadsgf",
    },
    Row {
        command: CommandName::AttackProof,
        word: b"attack_proof",
    },
    Row {
        command: CommandName::DefendProof,
        word: b"defend_proof",
    },
    Row {
        command: CommandName::CheckProof,
        word: b"check_proof",
    },
    Row {
        command: CommandName::Connect,
        word: b"connect",
    },
    Row {
        command: CommandName::Disconnect,
        word: b"disconnect",
    },
    Row {
        command: CommandName::GenMove,
        word: b"genmove",
    },
    Row {
        command: CommandName::RegGenMove,
        word: b"reg_genmove",
    },
    Row {
        command: CommandName::HelperOff,
        word: b"helper_off",
    },
    Row {
        command: CommandName::HelperCalls,
        word: b"helper_calls",
    },
    Row {
        command: CommandName::HelperDrop,
        word: b"helper_drop",
    },
];

/// Whether `row` has this word; `count` is the number of the word's kept bytes.
fn is_row_of(row: &Row, word: &[u8], count: usize) -> bool
    requires { count ≡ length (kept word.now) }
    ensures { result ≡ bytes_eq (kept word.now) row.now.word.now }
{
    row.word.len() == count && spells(word, row.word)
}

/// The command of the first of these rows that has this word, if the bytes to be dropped are left out of the word.
fn command_spelt(rows: &[Row], word: &[u8]) -> Option<CommandName>
    ensures { result ≡ option_map (λ r. r.command) (find (λ r. bytes_eq (kept word.now) r.word.now) rows.now) }
{
    let count = byte_count(word);
    let row = rows.iter().find(|row| is_row_of(row, word, count))?;
    Some(row.command)
}

/// Whether a word equals the row's word byte by byte. Words of another length are not compared.
fn is_written(row: &Row, word: &[u8]) -> bool
    ensures { result ≡ bytes_eq word.now row.now.word.now }
{
    word.len() == row.word.len() && word == row.word
}

/// The command of the first of these rows whose word equals this word byte by byte.
fn command_written(rows: &[Row], word: &[u8]) -> Option<CommandName>
    ensures { result ≡ option_map (λ r. r.command) (find (λ r. bytes_eq word.now r.word.now) rows.now) }
{
    let row = rows.iter().find(|row| is_written(row, word))?;
    Some(row.command)
}

/// The command of the first of these rows that has this word. Most words have no byte to be dropped, so the word is
/// first compared as it stands, and read byte by byte only if that finds no row.
fn first_command(rows: &[Row], word: &[u8]) -> Option<CommandName>
    requires { list_all is_plain rows.now ≡ true }
    ensures { result ≡ option_map (λ r. r.command) (find (λ r. bytes_eq (kept word.now) r.word.now) rows.now) }
{
    match command_written(rows, word) {
        Some(command) => Some(command),
        None => command_spelt(rows, word),
    }
}

/// The command of a word in a table of rows, or `None` if no row has the word.
fn command_in(rows: &[Row], word: &[u8]) -> Option<CommandName>
    requires { list_all is_plain rows.now ≡ true }
    ensures { result ≡ command_in (map row_seen rows.now) (kept word.now) }
{
    first_command(rows, word)
}

/// The command that a word names. Upper and lower case are different here.
pub fn named(word: &[u8]) -> Option<CommandName>
    ensures { result ≡ named (kept word.now) }
{
    command_in(&TABLE, word)
}

/// Appends the words of these rows to `out`, each after a line feed.
fn put_words(out: &mut Bytes, rows: &[Row]) -> Result<(), NoMemory>
    ensures { OnOk result (out.new ≡ out.old ++ flat_map (λ r. line_feed ∷ r.word.now) rows.now) }
{
    for row in rows {
        out.push(b'\n')?;
        out.extend(row.word)?;
    }
    Ok(())
}

/// The names of the commands in the order in which they are listed, one name a line. Takes memory.
pub fn names_text(alloc: Global) -> Result<Bytes, NoMemory>
    ensures { IfOk result (λ text. text ≡ names_text) }
{
    let mut out = Bytes::new(alloc);
    out.extend(TABLE[0].word)?;
    put_words(&mut out, &TABLE[1..])?;
    Ok(out)
}
