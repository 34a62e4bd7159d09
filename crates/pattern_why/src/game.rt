//! Sets up the game whose position is looked at.

use crate::fault::{Fault, noted};
use crate::files::text_of;
use crate::options::Options;
use board_lines::{Game, LineFault, cut_record};
use gtp_cmd::{RefuseText, refusal};
use gtp_io::FileLoader;
use read_rules::Depths;
use std::alloc::{AllocError, Global};
use std::fs::Files;
use std::io::Read;
use why_report::put_name;

/// A new game on an empty board.
fn new_game(alloc: Global) -> Result<Game, Fault> {
    match Game::new(alloc) {
        Some(game) => Ok(game),
        None => Err(Fault::NoMemory),
    }
}

/// The words of a note on the line of standard input with this `number`.
fn line_words(alloc: Global, number: u64, words: &[u8]) -> Result<String, AllocError> {
    let mut note = format!(in alloc; "input line {number}: ")?;
    put_name(&mut note, words)?;
    Ok(note)
}

/// The note on a line that `gopat` refuses: the words of its refusal, without the `? ` before and the two line feeds
/// behind.
fn refused(alloc: Global, number: u64, text: RefuseText) -> Fault {
    let reply = refusal(None, text);
    let reply = reply.as_slice();
    let words = reply.get(2..reply.len().saturating_sub(2)).unwrap_or(&[]);
    match line_words(alloc, number, words) {
        Ok(note) => Fault::Note(note),
        Err(_) => Fault::NoMemory,
    }
}

/// The note on a line that is refused.
fn line_note(alloc: Global, number: u64, fault: LineFault) -> Fault {
    match fault {
        LineFault::Refused(text) => refused(alloc, number, text),
        LineFault::NoMemory => Fault::NoMemory,
        LineFault::OtherCommand => noted(format!(in alloc;
            "input line {number}: only boardsize, clear_board, play, undo, loadsgf, komi and depths are taken"
        )),
    }
}

/// The game that the lines of standard input set up.
fn typed_game<R: Files + Input + AllocGlobal>(rt: &R) -> Result<Game, Fault> {
    let alloc = rt.alloc();
    let mut game = new_game(alloc)?;
    let mut text = Vec::new(alloc);
    rt.reader().read_to_end(&mut text)?;
    let mut files = FileLoader::new(alloc, rt);
    let mut number: u64 = 0;
    for line in text.as_slice().split(is_feed) {
        number = number.saturating_add(1);
        if let Err(fault) = game.line(line, &mut files) {
            return Err(line_note(alloc, number, fault));
        }
    }
    Ok(game)
}

/// Whether a byte ends a line.
fn is_feed(byte: &u8) -> bool {
    *byte == b'\n'
}

/// The note on a record that has a fault.
fn record_note(alloc: Global, file: &str, fault: LineFault) -> Fault {
    match fault {
        LineFault::Refused(RefuseText::BadSgf(kind)) => {
            noted(format!(in alloc; "{file}: bad sgf kind {kind}"))
        }
        _ => Fault::NoMemory,
    }
}

/// The game after `moves` moves of the main line of a record; at its end if `moves` is `None`.
pub(crate) fn game_after(
    alloc: Global,
    file: &str,
    record: &[u8],
    moves: Option<u64>,
) -> Result<Game, Fault> {
    let cut = cut_record(alloc, record, moves.unwrap_or(u64::MAX))?;
    if let Some(wanted) = moves
        && cut.moves < wanted
    {
        let moves = cut.moves;
        return Err(noted(format!(in alloc; "{file}: the main line has {moves} moves")));
    }
    let mut game = new_game(alloc)?;
    match game.start_record(cut.text.as_slice()) {
        Ok(()) => Ok(game),
        Err(fault) => Err(record_note(alloc, file, fault)),
    }
}

/// The depths of readings in a new game. Searches over records use them too.
pub(crate) fn depths_at_first(alloc: Global) -> Result<Depths, Fault> {
    Ok(new_game(alloc)?.depths())
}

/// The number of moves in the main line of a record.
pub(crate) fn move_count(alloc: Global, record: &[u8]) -> Result<u64, Fault> {
    Ok(cut_record(alloc, record, u64::MAX)?.moves)
}

/// The game that the record of the options, or the lines of standard input, lead to.
pub(crate) fn game_of<R: Files + Input + AllocGlobal>(
    rt: &R,
    options: &Options,
) -> Result<Game, Fault> {
    match &options.record {
        Some(file) => {
            let record = text_of(rt, file.as_str())?;
            game_after(rt.alloc(), file.as_str(), record.as_slice(), options.moves)
        }
        None => typed_game(rt),
    }
}
