//! The loops of a run: the lines of a piece, and the pieces of a source.
ghost use Rattle.std.specs.Prelude.{◌≡◌, ◌≤◌, ◌<◌, true, false, None, [], ◌∷◌, length, take, IfOk, IfErr, OnOk, OnErr};
ghost use Rattle.std.specs.Prelude.{is_err};
ghost use Rattle.std.specs.Io.{ReadsAtMost};
ghost use Rattle.std.specs.Io.KnownBytes.{ReadConsumes};
ghost use Rattle.gtp_io.specs.Outside.{IsCounted, GaveBytes};
ghost use Rattle.gtp_rules.specs.Lines.{RawLine};
ghost use Rattle.gtp_lex.specs.Held.{lines_from, held_from, held_line};
ghost use Rattle.gtp_lex.specs.Lines.{no_line};
ghost use Rattle.gtp_lex.specs.LinesTaken.{taken_of, given_state};
ghost use Rattle.gtp_lex.specs.Raw.{raw_line};
ghost use Rattle.gtp_cmd.specs.Rooms.{longest_line};
ghost use Rattle.machine_rules.specs.Heard.{bytes_in};
ghost use Rattle.session.specs.Headline.{IsCauseOf};
ghost use Rattle.session.specs.FirstSession.{EndsCounting};
ghost use Rattle.session_core.specs.SessionView.{kept_of, step_of};
ghost use Rattle.session.specs.Ends.{streams};
ghost use Rattle.session_core.specs.Replies.{reply_bytes, reply_ends};
ghost use Rattle.session.specs.Waiting.{none_wait, output_of, stop_of, MayStop, SendsReply};
ghost use Rattle.session.specs.Answered.{standing, Answered, AnsweredOut, BreaksIn, BreaksOut};

use crate::outbox::Outbox;
use crate::outcome::End;
use gtp_cmd::{RefuseText, refusal};
use gtp_io::{Failed, Loader, Sink, Source};
use gtp_lex::{Lines, Raw, Taken};
use run_notes::Counts;
use session_core::{Reply, Session};

/// The most bytes that are asked of a source in one call.
const PIECE: usize = 4096;

/// How many bytes of input are too many.
const MOST_TAKEN: usize = 1 << 32;

/// A session that answers lines, and its waiting replies.
#[derive(Drop)]
pub(crate) struct Server {
    /// The session.
    pub(crate) session: Session,
    /// The waiting replies, and what was sent.
    pub(crate) outbox: Outbox,
}

// Sends the reply to a line after the waiting ones, and says whether it ends the session. The outbox is flushed at once
// if `now`.
fn send<K: Sink>(
    reply: Reply,
    counts: Counts,
    now: bool,
    outbox: &mut Outbox,
    output: &mut K,
) -> Result<bool, Counts>
    ensures ends { IfOk result (λ ends. ends ≡ reply_ends reply) }
    ensures ok { OnOk result (SendsReply (output_of (K.written output.old) outbox.old)
        (output_of (K.written output.new) outbox.new) reply counts) }
    ensures part { IfErr result (λ noted. MayStop (output_of (K.written output.old) outbox.old)
        (reply_bytes reply) counts (stop_of (K.written output.new) outbox.new noted)) }
    ensures cause { IsCounted (K.faults output.old) (K.faults output.new) result }
    ensures last { OnErr result (K.failed output.new ≡ true) }
{
    match reply {
        Reply::Nothing => Ok(false),
        Reply::Short { text, quit } => {
            outbox.put(text.as_slice(), counts, now, output)?;
            Ok(quit)
        }
        Reply::Text { bytes } => {
            outbox.put(bytes.as_slice(), counts, now, output)?;
            Ok(false)
        }
        Reply::NoMemory { id } => {
            let text = refusal(id, RefuseText::OutOfMemory);
            outbox.put(text.as_slice(), counts, now, output)?;
            Ok(false)
        }
    }
}

// Answers one line, and says whether it ends the session. Waiting replies are flushed before a line that may take long.
fn answer<L: Loader, K: Sink>(
    server: &mut Server,
    raw: Raw<'_>,
    files: &mut L,
    output: &mut K,
) -> Result<bool, Counts>
    requires { length (bytes_in (raw_line raw)) ≤ longest_line }
    ensures ok { IfOk result (λ ends. Answered (step_of server.old.session (L.contents files.old))
        (raw_line raw.entry ∷ []) ends
        (standing (kept_of state server.old.session (L.missed files.old)) (K.written output.old) server.old.outbox)
        (standing (kept_of state server.new.session (L.missed files.new)) (K.written output.new) server.new.outbox)) }
    ensures part { IfErr result (λ noted. BreaksIn (step_of server.old.session (L.contents files.old))
        (raw_line raw.entry ∷ [])
        (standing (kept_of state server.old.session (L.missed files.old)) (K.written output.old) server.old.outbox)
        (stop_of (K.written output.new) server.new.outbox noted) (L.missed files.new)) }
    ensures same { server.new.session.matcher ≡ server.old.session.matcher }
    ensures contents { L.contents files.new ≡ L.contents files.old }
    ensures cause { IsCounted (K.faults output.old) (K.faults output.new) result }
    ensures last { OnErr result (K.failed output.new ≡ true) }
{
    match server.session.try_line(raw) {
        Ok(reply) => send(
            reply,
            server.session.stats(),
            false,
            &mut server.outbox,
            output,
        ),
        Err(slow) => {
            server.outbox.flush(output)?;
            let reply = server.session.finish(slow, raw, files);
            send(
                reply,
                server.session.stats(),
                true,
                &mut server.outbox,
                output,
            )
        }
    }
}

// Answers the line that was taken.
fn answer_taken<L: Loader, K: Sink>(
    server: &mut Server,
    lines: &Lines,
    taken: Taken,
    files: &mut L,
    output: &mut K,
) -> Result<bool, Counts>
    requires { (held : RawLine) × (lines.now ≡ given_state held) × (taken ≡ taken_of held) }
    ensures ok { (held : RawLine) → lines.now ≡ given_state held → taken ≡ taken_of held → IfOk result
        (λ ends. Answered (step_of server.old.session (L.contents files.old)) (held ∷ []) ends
        (standing (kept_of state server.old.session (L.missed files.old)) (K.written output.old) server.old.outbox)
        (standing (kept_of state server.new.session (L.missed files.new)) (K.written output.new) server.new.outbox)) }
    ensures part { (held : RawLine) → lines.now ≡ given_state held → taken ≡ taken_of held → IfErr result
        (λ noted. BreaksIn (step_of server.old.session (L.contents files.old)) (held ∷ [])
        (standing (kept_of state server.old.session (L.missed files.old)) (K.written output.old) server.old.outbox)
        (stop_of (K.written output.new) server.new.outbox noted) (L.missed files.new)) }
    ensures same { server.new.session.matcher ≡ server.old.session.matcher }
    ensures contents { L.contents files.new ≡ L.contents files.old }
    ensures cause { IsCounted (K.faults output.old) (K.faults output.new) result }
    ensures last { OnErr result (K.failed output.new ≡ true) }
{
    match taken {
        Taken::Line => answer(server, Raw::Line(lines.bytes()), files, output),
        Taken::TooLong => answer(server, Raw::TooLong, files, output),
    }
}

// Takes bytes up to and with the first line feed, and answers the line that it ends, if there is a line feed. Says how
// many bytes were taken, and whether the line ends the session.
fn answer_next<L: Loader, K: Sink>(
    server: &mut Server,
    lines: &mut Lines,
    rest: &[u8],
    files: &mut L,
    output: &mut K,
) -> Result<(usize, bool), Counts>
    requires { lines.old.waits ≡ false }
    ensures bound { IfOk result (λ turn. (turn.0 ≤ length rest.now) × (0 < length rest.now → 0 < turn.0)) }
    ensures ok { IfOk result (λ turn. Answered (step_of server.old.session (L.contents files.old))
        (lines_from lines.old.held (take turn.0 rest.now)) turn.1
        (standing (kept_of state server.old.session (L.missed files.old)) (K.written output.old) server.old.outbox)
        (standing (kept_of state server.new.session (L.missed files.new)) (K.written output.new) server.new.outbox)) }
    ensures held { IfOk result (λ turn. (lines.new.held ≡ held_from lines.old.held (take turn.0 rest.now))
        × (lines.new.waits ≡ false)) }
    ensures part { IfErr result (λ noted. BreaksIn (step_of server.old.session (L.contents files.old))
        (lines_from lines.old.held rest.now)
        (standing (kept_of state server.old.session (L.missed files.old)) (K.written output.old) server.old.outbox)
        (stop_of (K.written output.new) server.new.outbox noted) (L.missed files.new)) }
    ensures same { server.new.session.matcher ≡ server.old.session.matcher }
    ensures contents { L.contents files.new ≡ L.contents files.old }
    ensures cause { IsCounted (K.faults output.old) (K.faults output.new) result }
    ensures last { OnErr result (K.failed output.new ≡ true) }
{
    let count = lines.feed(rest);
    match lines.take() {
        Some(taken) => {
            let ended = answer_taken(server, lines, taken, files, output)?;
            Ok((count, ended))
        }
        None => Ok((count, false)),
    }
}

// Answers the lines that end in a piece, and says whether one of them ends the session. No reply waits afterwards.
fn answer_piece<L: Loader, K: Sink>(
    server: &mut Server,
    lines: &mut Lines,
    piece: &[u8],
    files: &mut L,
    output: &mut K,
) -> Result<bool, Counts>
    requires open_ended { lines.old.waits ≡ false }
    requires none { server.old.outbox.waiting ≡ none_wait }
    ensures ok { IfOk result (λ ended. AnsweredOut (step_of server.old.session (L.contents files.old))
        (lines_from lines.old.held piece.now) ended
        (standing (kept_of state server.old.session (L.missed files.old)) (K.written output.old) server.old.outbox)
        (standing (kept_of state server.new.session (L.missed files.new)) (K.written output.new) server.new.outbox)) }
    ensures held { IfOk result (λ ended. ended ≡ false →
        (lines.new.held ≡ held_from lines.old.held piece.now) × (lines.new.waits ≡ false)) }
    ensures none { OnOk result (server.new.outbox.waiting ≡ none_wait) }
    ensures part { IfErr result (λ noted. BreaksOut (step_of server.old.session (L.contents files.old))
        (lines_from lines.old.held piece.now)
        (standing (kept_of state server.old.session (L.missed files.old)) (K.written output.old) server.old.outbox)
        (stop_of (K.written output.new) server.new.outbox noted) (L.missed files.new)) }
    ensures same { server.new.session.matcher ≡ server.old.session.matcher }
    ensures contents { L.contents files.new ≡ L.contents files.old }
    ensures cause { IsCounted (K.faults output.old) (K.faults output.new) result }
    ensures last { OnErr result (K.failed output.new ≡ true) }
{
    let mut rest = piece;
    while !rest.is_empty() {
        let (count, ended) = answer_next(server, lines, rest, files, output)?;
        if ended {
            server.outbox.flush(output)?;
            return Ok(true);
        }
        rest = &rest[count..];
    }
    server.outbox.flush(output)?;
    Ok(false)
}

// Answers the rest of the input as a last line, if there is a rest. No reply waits afterwards.
fn answer_rest<L: Loader, K: Sink>(
    server: &mut Server,
    lines: &mut Lines,
    files: &mut L,
    output: &mut K,
) -> Result<bool, Counts>
    requires open_ended { lines.old.waits ≡ false }
    requires none { server.old.outbox.waiting ≡ none_wait }
    ensures ok { IfOk result (λ ended. AnsweredOut (step_of server.old.session (L.contents files.old))
        (held_line lines.old.held) ended
        (standing (kept_of state server.old.session (L.missed files.old)) (K.written output.old) server.old.outbox)
        (standing (kept_of state server.new.session (L.missed files.new)) (K.written output.new) server.new.outbox)) }
    ensures part { IfErr result (λ noted. BreaksOut (step_of server.old.session (L.contents files.old))
        (held_line lines.old.held)
        (standing (kept_of state server.old.session (L.missed files.old)) (K.written output.old) server.old.outbox)
        (stop_of (K.written output.new) server.new.outbox noted) (L.missed files.new)) }
    ensures contents { L.contents files.new ≡ L.contents files.old }
    ensures cause { IsCounted (K.faults output.old) (K.faults output.new) result }
    ensures last { OnErr result (K.failed output.new ≡ true) }
{
    match lines.finish() {
        Some(taken) => {
            let ended = answer_taken(server, lines, taken, files, output)?;
            server.outbox.flush(output)?;
            Ok(ended)
        }
        None => Ok(false),
    }
}

// Reads the next bytes, at most `room` of them.
fn next_piece<S: Source>(input: &mut S, buf: &mut [u8], room: usize) -> Result<usize, Failed>
    requires room { 0 < room }
    requires some { 0 < length buf.old }
    ensures room { IfOk result (λ n. n ≤ room) }
    ensures bound { ReadsAtMost result buf.new }
    ensures bytes { ReadConsumes (S.left input.old) (S.left input.new) result buf.new }
    ensures piece { GaveBytes (S.piece input.new) result }
    ensures cause { IsCounted (S.faults input.old) (S.faults input.new) result }
    ensures last { S.failed input.new ≡ is_err result }
{
    let most = room.min(buf.len());
    input.next(&mut buf[..most])
}

/// Why no more lines were served, and the counts to note: the counts after the last line, or after the line whose reply
/// broke off.
#[derive(Clone, Copy)]
pub(crate) struct Ended {
    /// Why no more lines were served.
    pub(crate) end: End,
    /// The counts to note.
    pub(crate) counts: Counts,
}

/// Answers the lines of the source until its end, a fault, or the line that ends the session.
///
/// Replies to the lines of a piece wait together, and all are out before the next piece is asked for.
pub(crate) fn serve<L: Loader, S: Source, K: Sink>(
    server: &mut Server,
    lines: &mut Lines,
    files: &mut L,
    input: &mut S,
    output: &mut K,
) -> Ended
    requires no_line { lines.old ≡ no_line }
    requires none { server.old.outbox.waiting ≡ none_wait }
    ensures serves { EndsCounting None (step_of server.old.session (L.contents files.old))
        (kept_of state server.old.session (L.missed files.old)) server.old.outbox.sent
        (streams (S.left input.old) (S.piece input.old) (S.faults input.old) (K.written output.old)
        (K.faults output.old))
        (streams (S.left input.new) (S.piece input.new) (S.faults input.new) (K.written output.new)
        (K.faults output.new)) result (L.missed files.new) server.new.outbox.sent }
    ensures contents { L.contents files.new ≡ L.contents files.old }
    ensures input { IsCauseOf (result.end ≡ End.InputFault) (S.faults input.old) (S.faults input.new) }
    ensures output { IsCauseOf (result.end ≡ End.OutputFault) (K.faults output.old) (K.faults output.new) }
    ensures last_read { result.end ≡ End.InputFault → S.failed input.new ≡ true }
    ensures last { result.end ≡ End.OutputFault → K.failed output.new ≡ true }
{
    let mut buf = [0u8; PIECE];
    let mut room = MOST_TAKEN;
    while room > 0 {
        match next_piece(input, &mut buf, room) {
            Err(_) => {
                return Ended {
                    end: End::InputFault,
                    counts: server.session.stats(),
                };
            }
            Ok(0) => {
                return match answer_rest(server, lines, files, output) {
                    Ok(_) => Ended {
                        end: End::Done,
                        counts: server.session.stats(),
                    },
                    Err(counts) => Ended {
                        end: End::OutputFault,
                        counts,
                    },
                };
            }
            Ok(count) => {
                room -= count;
                match answer_piece(server, lines, &buf[..count], files, output) {
                    Ok(false) => {}
                    Ok(true) => {
                        return Ended {
                            end: End::Done,
                            counts: server.session.stats(),
                        };
                    }
                    Err(counts) => {
                        return Ended {
                            end: End::OutputFault,
                            counts,
                        };
                    }
                }
            }
        }
    }
    Ended {
        end: End::InputTooLong,
        counts: server.session.stats(),
    }
}
