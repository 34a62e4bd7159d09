//! The line that is being read from a stream, in room that is made once.
ghost use Rattle.std.specs.Prelude.{◌≡◌, ◌≢◌, ◌+◌, ◌≤◌, ◌<◌, true, false, Some, None, All, ◌==◌, [], ◌++◌, length};
ghost use Rattle.std.specs.Prelude.{take, slice_index, vec_len, vec_capacity, IfOk, IsSome};
ghost use Rattle.gtp_rules.specs.Lines.{Line, line_of, line_feed, longest_line};
ghost use Rattle.gtp_lex.specs.Held.{longest_held};
ghost use Rattle.gtp_lex.specs.LinesTaken.{taken_of, given_state};
ghost use Rattle.gtp_lex.specs.Lines.{Feeds, no_line};
ghost use Rattle.gtp_lex.specs.LinesView.{state_of};

use gtp_io::NoMemory;
use std::alloc::Global;
use std::marker::Model;

/// The most bytes that a line may have before its line feed.
const LONGEST_LINE: usize = 65_536;

/// The most bytes that are kept of a line: one byte more than a line may have shows that it is too long.
const LONGEST_HELD: usize = LONGEST_LINE + 1;

/// What `take` and `finish` answer for a line: it stands in `bytes`, or it is too long.
#[derive(Clone, Copy, Debug, PartialEq, Eq)]
pub enum Taken {
    /// The line stands in `bytes`.
    Line,
    /// The line has more than 65,536 bytes.
    TooLong,
}

/// The state of a line: it is still open, or its line feed has come, or it was given out.
#[derive(Clone, Copy, Debug, PartialEq, Eq)]
enum Phase {
    /// The line feed has not come.
    Open,
    /// The line feed has come, and the line was not given out yet.
    Full,
    /// The line was given out.
    Given,
}

/// The line that is being read from a stream.
///
/// Contracts see the line so far, whether its line feed waits for `take`, and the bytes of the line that was given
/// last.
#[derive(Drop)]
pub struct Lines {
    // the first bytes of the line, and one byte too many if it is too long
    bytes: Vec<u8>,
    phase: Phase,
}

impl Model for Lines {
    ghost use Rattle.std.specs.Prelude.{◌≤◌, vec_len, vec_capacity};
    ghost use Rattle.gtp_lex.specs.Held.{longest_held};
    ghost use Rattle.gtp_lex.specs.Lines.{LinesState};

    ghost Value = { LinesState };

    ghost use Rattle.gtp_lex.specs.LinesView.{lines_view};

    ghost view = { lines_view };

    ghost invariant = { λ l. (longest_held ≤ vec_capacity l.bytes) × (vec_len l.bytes ≤ longest_held) };
}

// The number of bytes of `piece` before its first line feed, or of all bytes if it has none.
fn text_len(piece: &[u8]) -> usize
    ensures bound { result ≤ length piece.now }
    ensures front { All (λ b. (b == line_feed) ≡ false) (take result piece.now) }
    ensures feed { result < length piece.now → slice_index piece.now result ≡ line_feed }
{
    for (i, b) in piece.iter().enumerate() {
        if *b == b'\n' {
            return i;
        }
    }
    piece.len()
}

// Clears the bytes of a line that was given out.
fn drop_given(bytes: &mut Vec<u8>, phase: Phase)
    requires { longest_held ≤ vec_capacity bytes.old }
    ensures held { line_of bytes.new.items ≡ (state_of phase (line_of bytes.old.items)).held }
    ensures room { longest_held ≤ vec_capacity bytes.new }
    ensures len { vec_len bytes.new ≤ vec_len bytes.old }
{
    if phase == Phase::Given {
        bytes.clear();
    }
}

// Appends as much of `text` as is needed to know the line.
fn keep(bytes: &mut Vec<u8>, text: &[u8])
    requires room { longest_held ≤ vec_capacity bytes.old }
    requires len { vec_len bytes.old ≤ longest_held }
    ensures line { line_of bytes.new.items ≡ line_of (bytes.old.items ++ text.now) }
    ensures room { longest_held ≤ vec_capacity bytes.new }
    ensures len { vec_len bytes.new ≤ longest_held }
{
    let count = text.len().min(LONGEST_HELD - bytes.len());
    bytes.extend_from_slice(&text[..count]).unwrap();
}

// The answer for the line of a text.
fn line_taken(text: &[u8]) -> Taken
    ensures { result ≡ taken_of (line_of text.now) }
{
    if text.len() > LONGEST_LINE {
        Taken::TooLong
    } else {
        Taken::Line
    }
}

impl Lines {
    /// A `Lines` without any byte of a line. Takes the room for a line, 65,537 bytes, and no memory after that.
    pub fn new(alloc: Global) -> Result<Lines, NoMemory>
        ensures { IfOk result (λ l. l ≡ no_line) }
    {
        match Vec::with_capacity(alloc, LONGEST_HELD) {
            Ok(bytes) => Ok(Lines {
                bytes,
                phase: Phase::Open,
            }),
            Err(_) => Err(NoMemory),
        }
    }

    /// Takes the bytes of `piece` up to and with its first line feed, or all bytes if it has none, and returns how
    /// many.
    ///
    /// Takes no byte and returns 0 while a line feed waits for `take`.
    pub fn feed(&mut self, piece: &[u8]) -> usize
        ensures bound { result ≤ length piece.now }
        ensures waits { self.old.waits ≡ true → (result ≡ 0) × (self.new ≡ self.old) }
        ensures some { self.old.waits ≡ false → 0 < length piece.now → 0 < result }
        ensures fed { self.old.waits ≡ false → Feeds self.old self.new piece.now result }
    {
        if self.phase == Phase::Full {
            return 0;
        }
        drop_given(&mut self.bytes, self.phase);
        self.phase = Phase::Open;
        let len = text_len(piece);
        keep(&mut self.bytes, &piece[..len]);
        if len == piece.len() {
            return len;
        }
        self.phase = Phase::Full;
        len + 1
    }

    /// The line whose line feed waits, or `None` exactly if no line feed was fed since the last `take`.
    pub fn take(&mut self) -> Option<Taken>
        ensures none { self.old.waits ≡ false → (result ≡ None) × (self.new ≡ self.old) }
        ensures some { self.old.waits ≡ true
            → (result ≡ Some (taken_of self.old.held)) × (self.new ≡ given_state self.old.held) }
    {
        if self.phase == Phase::Full {
            self.phase = Phase::Given;
            Some(line_taken(&self.bytes))
        } else {
            None
        }
    }

    /// The rest of the stream as a last line, or `None` exactly if there is no rest.
    pub fn finish(&mut self) -> Option<Taken>
        requires { self.old.waits ≡ false }
        ensures none { self.old.held ≡ Line [] → (result ≡ None) × (self.new ≡ self.old) }
        ensures some { self.old.held ≢ Line []
            → (result ≡ Some (taken_of self.old.held)) × (self.new ≡ given_state self.old.held) }
    {
        if self.phase == Phase::Given || self.bytes.is_empty() {
            None
        } else {
            self.phase = Phase::Given;
            Some(line_taken(&self.bytes))
        }
    }

    /// The bytes, without the line feed, of the line that the last `take` or `finish` gave.
    pub fn bytes(&self) -> &[u8]
        requires { IsSome self.now.given }
        ensures given { self.now.given ≡ Some result.now }
        ensures short { length result.now ≤ longest_line }
    {
        &self.bytes
    }
}
