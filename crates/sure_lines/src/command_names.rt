//! The words that name this program's commands.

ghost use Rattle.std.specs.Prelude.{◌≡◌, ◌∷◌, ◌++◌, IfOk, OnOk};
ghost use Rattle.std.specs.List.{flat_map, list_any};
ghost use Rattle.std.specs.Str.{bytes_eq};
ghost use Rattle.gtp_cmd.specs.Words.{kept, line_feed};
ghost use Rattle.sure_lines.specs.CommandNames.{is_own, names_text};

use go_base::{Bytes, NoMemory};
use std::alloc::Global;
use vertices::spells;

/// The names of the commands, in the order in which they are listed.
const NAMES: [&[u8]; 18] = [
    b"protocol_version",
    b"name",
    b"version",
    b"known_command",
    b"list_commands",
    b"quit",
    b"boardsize",
    b"clear_board",
    b"komi",
    b"play",
    b"undo",
    b"attack",
    b"defend",
    b"depths",
    b"loadsgf",
    b"attack_proof",
    b"defend_proof",
    b"check_proof",
];

/// Whether a word is one of `names`.
fn is_among(names: &[&[u8]], word: &[u8]) -> bool
    ensures { result ≡ list_any (λ name. bytes_eq (kept word.now) name.now) names.now }
{
    names.iter().any(|name| spells(word, name))
}

/// Whether a word names a command of this program.
pub(crate) fn is_own(word: &[u8]) -> bool
    ensures { result ≡ is_own (kept word.now) }
{
    is_among(&NAMES, word)
}

/// Puts the names `names` at the end of `out`, each after a line feed.
fn put_names(out: &mut Bytes, names: &[&[u8]]) -> Result<(), NoMemory>
    ensures { OnOk result (out.new ≡ out.old ++ flat_map (λ name. line_feed ∷ name.now) names.now) }
{
    for name in names {
        out.push(b'\n')?;
        out.extend(name)?;
    }
    Ok(())
}

/// The names of the commands in their order, one on each line. Takes memory.
pub(crate) fn names_text(alloc: Global) -> Result<Bytes, NoMemory>
    ensures { IfOk result (λ text. text ≡ names_text) }
{
    let mut out = Bytes::new(alloc);
    out.extend(NAMES[0])?;
    put_names(&mut out, &NAMES[1..])?;
    Ok(out)
}
