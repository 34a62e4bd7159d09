//! Replies that wait, so that the replies to many lines go out in one call of the output.
ghost use Rattle.std.specs.Prelude.{◌≡◌, ◌+◌, ◌<◌, ◌≤◌, true, length, OnOk, OnErr, IfErr, Option, List, ℕ};
ghost use Rattle.gtp_io.specs.Outside.{IsCounted};
ghost use Rattle.run_notes.specs.declared.notes.Sent.{Sent};
ghost use Rattle.session.specs.Tallies.{kept_sum};
ghost use Rattle.session.specs.Serving.{Puts, PutsFront, PutsReply};
ghost use Rattle.session.specs.Waiting.{none_wait, none_sent, outbox_room, most_marks, gone, counts_at, output_of};
ghost use Rattle.session.specs.Waiting.{stop_of, CutsReply, IsStop, MayStop, Sends, KeepsOutput};

use gtp_io::Sink;
use run_notes::{Counts, Links, Sent};
use std::marker::Model;
use vertices::write_at;

/// How many bytes may wait.
const ROOM: usize = 4096;

/// How many replies may wait.
const MOST_MARKS: usize = 128;

/// Where a waiting reply ends, and what was counted up to and with its line.
#[derive(Clone, Copy)]
pub(crate) struct ReplyMark {
    /// How many bytes wait up to the end of the reply.
    pub(crate) end: usize,
    /// The counts after the line of the reply.
    pub(crate) counts: Counts,
}

/// A mark that stands for no reply.
const NO_MARK: ReplyMark = ReplyMark {
    end: 0,
    counts: Counts {
        readings: 0,
        fresh: 0,
        trials: 0,
        refused: 0,
        links: Links {
            connections: 0,
            fresh: 0,
        },
    },
};

/// Replies that wait for an output, in their order, and what was sent before them. Contracts see the replies as their
/// bytes and their marks.
#[derive(Drop)]
pub(crate) struct Outbox {
    bytes: [u8; ROOM],
    len: usize,
    marks: [ReplyMark; MOST_MARKS],
    count: usize,
    sent: Sent,
}

impl Model for Outbox {
    ghost use Rattle.std.specs.Prelude.{◌≤◌, take};
    ghost use Rattle.session.specs.Waiting.{OutboxState, AreMarked, outbox_room, most_marks};

    ghost Value = { OutboxState };

    ghost view = { λ b. record {
      waiting = record { bytes = take b.len b.bytes; marks = take b.count b.marks };
      sent = b.sent;
    } };

    ghost invariant = { λ b. (b.len ≤ outbox_room) × (b.count ≤ most_marks)
        × AreMarked (take b.len b.bytes) (take b.count b.marks) };
}

/// A count plus `n`, but at most the greatest value of a u64.
fn added(count: u64, n: u64) -> u64
    ensures { result ≡ kept_sum count n }
{
    count.saturating_add(n)
}

/// Puts all the bytes and counts them, or says how many went out before the sink failed.
fn put_all<K: Sink>(output: &mut K, bytes: &[u8], sent: &mut Sent) -> Result<(), usize>
    ensures ok { OnOk result (Puts (K.written output.old) (K.written output.new) sent.old sent.new bytes.now) }
    ensures part { IfErr result
        (λ n. PutsFront (K.written output.old) (K.written output.new) sent.old sent.new bytes.now n) }
    ensures cause { IsCounted (K.faults output.old) (K.faults output.new) result }
    ensures last { OnErr result (K.failed output.new ≡ true) }
{
    let mut done = 0;
    while done < bytes.len() {
        match output.put(&bytes[done..]) {
            Ok(count) => {
                sent.bytes = added(sent.bytes, count as u64);
                done += count;
            }
            Err(_) => return Err(done),
        }
    }
    Ok(())
}

/// How many of the `marks` end within the first `place` bytes, and the counts of the first mark that does not.
fn cut_at(marks: &[ReplyMark], place: usize) -> (usize, Counts)
    ensures gone { result.0 ≡ gone marks.now place }
    ensures counts { result.1 ≡ counts_at marks.now place }
{
    for (at, mark) in marks.iter().enumerate() {
        if place < mark.end {
            return (at, mark.counts);
        }
    }
    (marks.len(), NO_MARK.counts)
}

/// Puts a reply when none waits before it, and counts it if it went out whole.
fn put_directly<K: Sink>(
    reply: &[u8],
    counts: Counts,
    output: &mut K,
    sent: &mut Sent,
) -> Result<(), Counts>
    ensures ok { OnOk result (PutsReply (K.written output.old) (K.written output.new) sent.old sent.new reply.now) }
    ensures part { IfErr result (λ noted. CutsReply (K.written output.old) sent.old reply.now counts
        (record { written = K.written output.new; sent = sent.new; counts = noted })) }
    ensures cause { IsCounted (K.faults output.old) (K.faults output.new) result }
    ensures last { OnErr result (K.failed output.new ≡ true) }
{
    match put_all(output, reply, sent) {
        Ok(()) => {
            sent.lines = added(sent.lines, 1);
            Ok(())
        }
        Err(_) => Err(counts),
    }
}

impl Outbox {
    /// The outbox in which no reply waits and from which nothing was sent.
    pub(crate) fn new() -> Outbox
        ensures none { result.waiting ≡ none_wait }
        ensures unsent { result.sent ≡ none_sent }
    {
        Outbox {
            bytes: [0; ROOM],
            len: 0,
            marks: [NO_MARK; MOST_MARKS],
            count: 0,
            sent: Sent { lines: 0, bytes: 0 },
        }
    }

    /// What was sent so far.
    pub(crate) fn sent(&self) -> Sent
        ensures { result ≡ self.now.sent }
    {
        self.sent
    }

    /// Whether a reply of `n` bytes has room after the waiting ones.
    fn has_room(&self, n: usize) -> bool
        ensures { result ≡ true → (length self.now.waiting.bytes + n ≤ outbox_room)
            × (length self.now.waiting.marks < most_marks) }
    {
        self.count < MOST_MARKS && n <= ROOM - self.len
    }

    /// Adds a reply to the waiting ones, with the counts after its line.
    fn add(&mut self, reply: &[u8], counts: Counts)
        requires bytes { length self.old.waiting.bytes + length reply.now ≤ outbox_room }
        requires marks { length self.old.waiting.marks < most_marks }
        ensures { (written : Option (List ℕ))
            → Sends (output_of written self.old) (output_of written self.new) reply.now counts }
    {
        write_at(&mut self.bytes, self.len, reply);
        self.len += reply.len();
        self.marks[self.count] = ReplyMark {
            end: self.len,
            counts,
        };
        self.count += 1;
    }

    /// Flushes the waiting replies, or gives the counts up to and with the line whose reply broke off.
    pub(crate) fn flush<K: Sink>(&mut self, output: &mut K) -> Result<(), Counts>
        ensures ok { OnOk result (KeepsOutput (output_of (K.written output.old) self.old)
            (output_of (K.written output.new) self.new)) }
        ensures none { OnOk result (self.new.waiting ≡ none_wait) }
        ensures part { IfErr result (λ noted. IsStop (output_of (K.written output.old) self.old)
            (stop_of (K.written output.new) self.new noted)) }
        ensures cause { IsCounted (K.faults output.old) (K.faults output.new) result }
        ensures last { OnErr result (K.failed output.new ≡ true) }
    {
        let mut sent = self.sent;
        match put_all(output, &self.bytes[..self.len], &mut sent) {
            Ok(()) => {
                sent.lines = added(sent.lines, self.count as u64);
                self.sent = sent;
                self.len = 0;
                self.count = 0;
                Ok(())
            }
            Err(place) => {
                let (gone, counts) = cut_at(&self.marks[..self.count], place);
                sent.lines = added(sent.lines, gone as u64);
                self.sent = sent;
                Err(counts)
            }
        }
    }

    /// Flushes the waiting replies, if a reply of `n` bytes has no room after them.
    fn make_room<K: Sink>(&mut self, n: usize, output: &mut K) -> Result<(), Counts>
        ensures ok { OnOk result (KeepsOutput (output_of (K.written output.old) self.old)
            (output_of (K.written output.new) self.new)) }
        ensures room { OnOk result (n ≤ outbox_room → (length self.new.waiting.bytes + n ≤ outbox_room)
            × (length self.new.waiting.marks < most_marks)) }
        ensures none { OnOk result (outbox_room < n → self.new.waiting ≡ none_wait) }
        ensures part { IfErr result (λ noted. IsStop (output_of (K.written output.old) self.old)
            (stop_of (K.written output.new) self.new noted)) }
        ensures cause { IsCounted (K.faults output.old) (K.faults output.new) result }
        ensures last { OnErr result (K.failed output.new ≡ true) }
    {
        if self.has_room(n) {
            return Ok(());
        }
        self.flush(output)
    }

    /// Adds a reply to the waiting ones, and flushes them all if `now`.
    fn keep<K: Sink>(
        &mut self,
        reply: &[u8],
        counts: Counts,
        now: bool,
        output: &mut K,
    ) -> Result<(), Counts>
        requires bytes { length self.old.waiting.bytes + length reply.now ≤ outbox_room }
        requires marks { length self.old.waiting.marks < most_marks }
        ensures ok { OnOk result (Sends (output_of (K.written output.old) self.old)
            (output_of (K.written output.new) self.new) reply.now counts) }
        ensures part { IfErr result (λ noted. MayStop (output_of (K.written output.old) self.old) reply.now counts
            (stop_of (K.written output.new) self.new noted)) }
        ensures cause { IsCounted (K.faults output.old) (K.faults output.new) result }
        ensures last { OnErr result (K.failed output.new ≡ true) }
    {
        self.add(reply, counts);
        if now {
            return self.flush(output);
        }
        Ok(())
    }

    /// Takes a reply, with the counts after its line. The waiting replies are flushed before it if it has no room after
    /// them, and together with it if `now`.
    pub(crate) fn put<K: Sink>(
        &mut self,
        reply: &[u8],
        counts: Counts,
        now: bool,
        output: &mut K,
    ) -> Result<(), Counts>
        ensures ok { OnOk result (Sends (output_of (K.written output.old) self.old)
            (output_of (K.written output.new) self.new) reply.now counts) }
        ensures part { IfErr result (λ noted. MayStop (output_of (K.written output.old) self.old) reply.now counts
            (stop_of (K.written output.new) self.new noted)) }
        ensures cause { IsCounted (K.faults output.old) (K.faults output.new) result }
        ensures last { OnErr result (K.failed output.new ≡ true) }
    {
        self.make_room(reply.len(), output)?;
        if reply.len() <= ROOM {
            self.keep(reply, counts, now, output)
        } else {
            put_directly(reply, counts, output, &mut self.sent)
        }
    }
}
