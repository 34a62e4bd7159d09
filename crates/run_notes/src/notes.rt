//! The notes of a run, and how they are put on a sink.
ghost use Rattle.std.specs.Prelude.{◌≡◌, ◌∷◌, [], Some, OnOk, OnErr};
ghost use Rattle.std.specs.List.{concat};
ghost use Rattle.std.specs.Io.KnownBytes.{Appends};
ghost use Rattle.gtp_io.specs.Outside.{IsCounted};
ghost use Rattle.run_notes.specs.Notes.{counts_line, links_line, notes_text, sent_line};
ghost use Rattle.run_notes.specs.Putting.{IsNoted, PutsFront};

use crate::pieces::{labelled, put_pieces};
use gtp_io::{Failed, Sink};
use vertices::Short;

/// The counts of a run's connections.
#[derive(Clone, Copy, Debug, PartialEq, Eq)]
pub struct Links {
    /// How many lines asked whether two strings can be joined or kept apart, and were answered with a result.
    pub connections: u64,
    /// How many of these connections were read afresh.
    pub fresh: u64,
}

/// What a run counted.
#[derive(Clone, Copy, Debug, PartialEq, Eq)]
pub struct Counts {
    /// How many lines asked for a reading and were answered with a code.
    pub readings: u64,
    /// How many of these readings were read afresh.
    pub fresh: u64,
    /// How many moves the fresh readings tried.
    pub trials: u64,
    /// How many readings were not cached for want of memory.
    pub refused: u64,
    /// The counts of connections.
    pub links: Links,
}

/// What a run wrote to its output.
#[derive(Clone, Copy, Debug, PartialEq, Eq)]
pub struct Sent {
    /// How many replies went out whole.
    pub lines: u64,
    /// How many bytes were put on the output.
    pub bytes: u64,
}

/// The line of connections in three pieces, which are empty if there were no connections.
fn link_pieces(links: Links) -> (Short, Short, Short)
    ensures { concat (result.0 ∷ result.1 ∷ result.2 ∷ []) ≡ links_line links }
{
    if links.connections == 0 {
        return (Short::new(), Short::new(), Short::new());
    }
    (
        labelled(b"connections ", links.connections),
        labelled(b" fresh ", links.fresh),
        Short::of(b"\n"),
    )
}

/// Puts the line of readings, and then the line of connections.
fn put_counts<D: Sink>(notes: &mut D, counts: Counts) -> Result<(), Failed>
    ensures ok { OnOk result (Appends (D.written notes.old) (D.written notes.new) (counts_line (Some counts))) }
    ensures part { OnErr result (PutsFront (D.written notes.old) (D.written notes.new) (counts_line (Some counts))) }
    ensures cause { IsCounted (D.faults notes.old) (D.faults notes.new) result }
{
    let (connections, fresh, end) = link_pieces(counts.links);
    let pieces = [
        labelled(b"readings ", counts.readings),
        labelled(b" fresh ", counts.fresh),
        labelled(b" trials ", counts.trials),
        labelled(b" refused ", counts.refused),
        Short::of(b"\n"),
        connections,
        fresh,
        end,
    ];
    put_pieces(notes, &pieces)
}

/// Puts the line of what a run sent.
fn put_sent<D: Sink>(notes: &mut D, sent: Sent) -> Result<(), Failed>
    ensures ok { OnOk result (Appends (D.written notes.old) (D.written notes.new) (sent_line (Some sent))) }
    ensures part { OnErr result (PutsFront (D.written notes.old) (D.written notes.new) (sent_line (Some sent))) }
    ensures cause { IsCounted (D.faults notes.old) (D.faults notes.new) result }
{
    let pieces = [
        labelled(b"lines ", sent.lines),
        labelled(b" bytes ", sent.bytes),
        Short::of(b"\n"),
    ];
    put_pieces(notes, &pieces)
}

/// Puts the lines of the counts, if there are counts.
fn put_some_counts<D: Sink>(notes: &mut D, counts: Option<Counts>) -> Result<(), Failed>
    ensures ok { OnOk result (Appends (D.written notes.old) (D.written notes.new) (counts_line counts)) }
    ensures part { OnErr result (PutsFront (D.written notes.old) (D.written notes.new) (counts_line counts)) }
    ensures cause { IsCounted (D.faults notes.old) (D.faults notes.new) result }
{
    match counts {
        Some(counts) => put_counts(notes, counts),
        None => Ok(()),
    }
}

/// Puts the line of what a run sent, if it is given.
fn put_some_sent<D: Sink>(notes: &mut D, sent: Option<Sent>) -> Result<(), Failed>
    ensures ok { OnOk result (Appends (D.written notes.old) (D.written notes.new) (sent_line sent)) }
    ensures part { OnErr result (PutsFront (D.written notes.old) (D.written notes.new) (sent_line sent)) }
    ensures cause { IsCounted (D.faults notes.old) (D.faults notes.new) result }
{
    match sent {
        Some(sent) => put_sent(notes, sent),
        None => Ok(()),
    }
}

/// Puts all notes. Fails if the sink fails.
fn put_lines<D: Sink>(
    notes: &mut D,
    counts: Option<Counts>,
    sent: Option<Sent>,
    last: &[Short],
) -> Result<(), Failed>
    ensures ok { OnOk result
        (Appends (D.written notes.old) (D.written notes.new) (notes_text counts sent (concat last.now))) }
    ensures part { OnErr result
        (PutsFront (D.written notes.old) (D.written notes.new) (notes_text counts sent (concat last.now))) }
    ensures cause { IsCounted (D.faults notes.old) (D.faults notes.new) result }
{
    put_some_counts(notes, counts)?;
    put_some_sent(notes, sent)?;
    put_pieces(notes, last)
}

/// Puts the notes of a run on the sink `notes`: its counts and what it sent, if they are given, and then the pieces of
/// its last line.
///
/// Puts nothing more after the sink's first failure.
pub fn put_notes<D: Sink>(notes: &mut D, counts: Option<Counts>, sent: Option<Sent>, last: &[Short])
    ensures { IsNoted (D.written notes.old) (D.written notes.new) (D.faults notes.old) (D.faults notes.new)
        (notes_text counts sent (concat last.now)) }
{
    let _ = put_lines(notes, counts, sent, last);
}
