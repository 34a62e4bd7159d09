//! The loop of a session: it reads lines from a source, and writes their replies to a sink.

ghost use Rattle.std.specs.Prelude.{◌≡◌, ◌≤◌, ◌<◌, false, [], ◌∷◌, length, take, IfOk, OnOk};
ghost use Rattle.std.specs.Io.{ReadsAtMost};
ghost use Rattle.std.specs.Io.KnownBytes.{Appends, ReadConsumes};
ghost use Rattle.gtp_cmd.specs.Rooms.{longest_line};
ghost use Rattle.gtp_lex.specs.Held.{lines_from, held_from, held_line};
ghost use Rattle.gtp_lex.specs.Lines.{no_line};
ghost use Rattle.gtp_lex.specs.LinesTaken.{taken_of, given_state};
ghost use Rattle.gtp_lex.specs.Raw.{raw_line};
ghost use Rattle.gtp_rules.specs.Lines.{RawLine};
ghost use Rattle.sure_lines.specs.Heard.{bytes_in};
ghost use Rattle.sure_lines.specs.Replies.{reply_bytes, reply_ends};
ghost use Rattle.sure_lines.specs.Sessions.{AreAnswered, IsSession};

use crate::machine::SureMachine;
use crate::reply::Reply;
use gtp_cmd::{RefuseText, refusal};
use gtp_io::{Failed, Loader, Sink, Source};
use gtp_lex::{Lines, Raw, Taken};
use std::alloc::Global;

/// How many bytes are asked of a source at once, at most.
const PIECE: usize = 4096;

/// A session ends once it has taken this many bytes.
const MOST_TAKEN: usize = 1 << 32;

/// Why a session has ended.
#[derive(Clone, Copy, Debug, PartialEq, Eq)]
pub enum End {
    /// The input has ended, or a line ended the session.
    Done,
    /// The source failed.
    InputFault,
    /// The sink failed.
    OutputFault,
    /// The input has more than 4,294,967,295 bytes.
    InputTooLong,
    /// There was no memory to begin the session.
    NoMemory,
}

/// Writes all bytes to the sink.
fn put_all<K: Sink>(output: &mut K, bytes: &[u8]) -> Result<(), Failed>
    ensures { OnOk result (Appends (K.written output.old) (K.written output.new) bytes.now) }
{
    let mut done = 0;
    'puts: while done < bytes.len() {
        let count = output.put(&bytes[done..])?;
        done += count;
    }
    Ok(())
}

/// Writes the bytes of a reply, and answers `ends`, which says whether it ends the session.
fn put_reply<K: Sink>(output: &mut K, bytes: &[u8], ends: bool) -> Result<bool, Failed>
    ensures { IfOk result (λ e. (e ≡ ends) × Appends (K.written output.old) (K.written output.new) bytes.now) }
{
    put_all(output, bytes)?;
    Ok(ends)
}

/// Writes a reply, and answers whether it ends the session.
fn send<K: Sink>(output: &mut K, reply: Reply) -> Result<bool, Failed>
    ensures { IfOk result (λ ends. (ends ≡ reply_ends reply)
        × Appends (K.written output.old) (K.written output.new) (reply_bytes reply)) }
{
    match reply {
        Reply::Nothing => Ok(false),
        Reply::Short { text, quit } => put_reply(output, text.as_slice(), quit),
        Reply::Text { bytes } => put_reply(output, bytes.as_slice(), false),
        Reply::NoMemory { id } => {
            let text = refusal(id, RefuseText::OutOfMemory);
            put_reply(output, text.as_slice(), false)
        }
    }
}

/// Answers one line, and returns whether it ends the session.
fn answer<L: Loader, K: Sink>(
    alloc: Global,
    machine: &mut SureMachine,
    raw: Raw<'_>,
    files: &mut L,
    output: &mut K,
) -> Result<bool, Failed>
    requires { length (bytes_in (raw_line raw)) ≤ longest_line }
    ensures answered { IfOk result (λ ends. AreAnswered (L.contents files.old) machine.old machine.new
        (raw_line raw.entry ∷ []) (K.written output.old) (K.written output.new) ends) }
    ensures contents { L.contents files.new ≡ L.contents files.old }
{
    let reply = machine.line(alloc, raw, files);
    send(output, reply)
}

/// Answers the line that was taken, and returns whether it ends the session.
fn answer_taken<L: Loader, K: Sink>(
    alloc: Global,
    machine: &mut SureMachine,
    lines: &Lines,
    taken: Taken,
    files: &mut L,
    output: &mut K,
) -> Result<bool, Failed>
    requires { (held : RawLine) × (lines.now ≡ given_state held) × (taken ≡ taken_of held) }
    ensures answered { (held : RawLine) → lines.now ≡ given_state held → taken ≡ taken_of held → IfOk result (λ ends.
        AreAnswered (L.contents files.old) machine.old machine.new (held ∷ []) (K.written output.old)
        (K.written output.new) ends) }
    ensures contents { L.contents files.new ≡ L.contents files.old }
{
    match taken {
        Taken::Line => answer(alloc, machine, Raw::Line(lines.bytes()), files, output),
        Taken::TooLong => answer(alloc, machine, Raw::TooLong, files, output),
    }
}

/// Takes the bytes of `rest` up to the first line feed and with it, and answers the line that it ends, if there is one.
/// Returns how many bytes were taken, and whether the line ends the session.
fn answer_next<L: Loader, K: Sink>(
    alloc: Global,
    machine: &mut SureMachine,
    lines: &mut Lines,
    rest: &[u8],
    files: &mut L,
    output: &mut K,
) -> Result<(usize, bool), Failed>
    requires { lines.old.waits ≡ false }
    ensures bound { IfOk result (λ turn. (turn.0 ≤ length rest.now) × (0 < length rest.now → 0 < turn.0)) }
    ensures answered { IfOk result (λ turn. AreAnswered (L.contents files.old) machine.old machine.new
        (lines_from lines.old.held (take turn.0 rest.now)) (K.written output.old) (K.written output.new) turn.1) }
    ensures held { IfOk result (λ turn. (lines.new.held ≡ held_from lines.old.held (take turn.0 rest.now))
        × (lines.new.waits ≡ false)) }
    ensures contents { L.contents files.new ≡ L.contents files.old }
{
    let count = lines.feed(rest);
    match lines.take() {
        Some(taken) => {
            let ended = answer_taken(alloc, machine, lines, taken, files, output)?;
            Ok((count, ended))
        }
        None => Ok((count, false)),
    }
}

/// Answers the lines that end in `piece`, each before the next is looked at. Returns whether one of them ends the
/// session.
fn answer_piece<L: Loader, K: Sink>(
    alloc: Global,
    machine: &mut SureMachine,
    lines: &mut Lines,
    piece: &[u8],
    files: &mut L,
    output: &mut K,
) -> Result<bool, Failed>
    requires { lines.old.waits ≡ false }
    ensures answered { IfOk result (λ ended. AreAnswered (L.contents files.old) machine.old machine.new
        (lines_from lines.old.held piece.now) (K.written output.old) (K.written output.new) ended) }
    ensures held { IfOk result (λ ended. ended ≡ false
        → (lines.new.held ≡ held_from lines.old.held piece.now) × (lines.new.waits ≡ false)) }
    ensures contents { L.contents files.new ≡ L.contents files.old }
{
    let mut rest = piece;
    'lines: while !rest.is_empty() {
        let (count, ended) = answer_next(alloc, machine, lines, rest, files, output)?;
        if ended {
            return Ok(true);
        }
        rest = &rest[count..];
    }
    Ok(false)
}

/// Answers the bytes after the last line feed as a last line, if there are any. Returns whether it ends the session.
fn answer_rest<L: Loader, K: Sink>(
    alloc: Global,
    machine: &mut SureMachine,
    lines: &mut Lines,
    files: &mut L,
    output: &mut K,
) -> Result<bool, Failed>
    requires { lines.old.waits ≡ false }
    ensures answered { IfOk result (λ ended. AreAnswered (L.contents files.old) machine.old machine.new
        (held_line lines.old.held) (K.written output.old) (K.written output.new) ended) }
    ensures contents { L.contents files.new ≡ L.contents files.old }
{
    match lines.finish() {
        Some(taken) => answer_taken(alloc, machine, lines, taken, files, output),
        None => Ok(false),
    }
}

/// Reads the next bytes of the source into `buf`, at most `room`, and returns their number.
fn next_piece<S: Source>(input: &mut S, buf: &mut [u8], room: usize) -> Result<usize, Failed>
    requires room { 0 < room }
    requires some { 0 < length buf.old }
    ensures room { IfOk result (λ n. n ≤ room) }
    ensures bound { ReadsAtMost result buf.new }
    ensures bytes { ReadConsumes (S.left input.old) (S.left input.new) result buf.new }
{
    let most = room.min(buf.len());
    input.next(&mut buf[..most])
}

/// Answers the lines of a source from which nothing was read yet.
fn serve_lines<L: Loader, S: Source, K: Sink>(
    alloc: Global,
    machine: &mut SureMachine,
    lines: &mut Lines,
    files: &mut L,
    input: &mut S,
    output: &mut K,
) -> End
    requires { lines.old ≡ no_line }
    ensures { result ≡ End.Done → IsSession (L.contents files.old) machine.old (S.left input.old) (S.left input.new)
        (K.written output.old) (K.written output.new) }
{
    let mut buf = [0u8; PIECE];
    let mut room = MOST_TAKEN;
    'pieces: while room > 0 {
        match next_piece(input, &mut buf, room) {
            Err(_) => return End::InputFault,
            Ok(0) => match answer_rest(alloc, machine, lines, files, output) {
                Ok(_) => return End::Done,
                Err(_) => return End::OutputFault,
            },
            Ok(count) => {
                room -= count;
                match answer_piece(alloc, machine, lines, &buf[..count], files, output) {
                    Ok(false) => {}
                    Ok(true) => return End::Done,
                    Err(_) => return End::OutputFault,
                }
            }
        }
    }
    End::InputTooLong
}

/// Answers the lines of a source until its end, a fault, or the line that ends the session. A reply is written before
/// the next line is looked at. At the end of the input, or after the line that ends the session, what was written is a
/// transcript of the lines by the machine's step. Takes memory for the line.
pub fn serve<L: Loader, S: Source, K: Sink>(
    alloc: Global,
    machine: &mut SureMachine,
    files: &mut L,
    input: &mut S,
    output: &mut K,
) -> End
    ensures session { result ≡ End.Done → IsSession (L.contents files.old) machine.old (S.left input.old)
        (S.left input.new) (K.written output.old) (K.written output.new) }
{
    let Ok(mut lines) = Lines::new(alloc) else {
        return End::NoMemory;
    };
    serve_lines(alloc, machine, &mut lines, files, input, output)
}
