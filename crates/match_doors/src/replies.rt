//! Replies in the layout of C.

ghost use Rattle.std.specs.Prelude.{◌≡◌, ◌≤◌, length};
ghost use Rattle.board_doors.specs.Replies.{status_of};
ghost use Rattle.match_doors.specs.Matching.{bytes_of, found_reply, AreWritten, AreWrittenIf, unanswered, closed_reply};
ghost use Rattle.match_doors.specs.Opening.{opened_reply, refused_reply};

use crate::patterns::PatternFault;
use board_doors::DoorFault;
use board_doors::replies::status_of;
use match_engine::Match;

/// The status of an empty handle.
pub const CLOSED: u8 = 17;

/// The status of a call for which there was no memory.
pub const NO_MEMORY: u8 = 18;

/// The status of a text with a fault.
const BAD_TEXT: u8 = 19;

/// The status of a text whose patterns have too many states.
const TOO_MANY_STATES: u8 = 20;

/// A match.
#[repr(C)]
#[derive(Clone, Copy, Debug, PartialEq, Eq)]
pub struct MatchBytes {
    /// The place of the pattern in the text, counted from 0.
    pub pattern: u16,
    /// The point of the move.
    pub at: u16,
    /// The transformation, 0 to 7.
    pub transform: u8,
}

/// The reply to a question for matches.
#[repr(C)]
#[derive(Clone, Copy, Debug, PartialEq, Eq)]
pub struct MatchReply {
    /// 0 if the matches were written, else the number of the fault.
    pub status: u8,
    /// How many matches there are, if they were written or the buffer is too short for them; else 0.
    pub number: usize,
}

/// The reply to a text of patterns.
#[repr(C)]
#[derive(Clone, Copy, Debug, PartialEq, Eq)]
pub struct OpenReply {
    /// 0 if the handle holds the patterns, else the number of the fault.
    pub status: u8,
    /// The kind of the text's first fault, 1 to 18; 0 without one.
    pub kind: u8,
    /// The line of the text's first fault, counted from 1; 0 without one.
    pub line: u64,
    /// How many patterns the handle holds.
    pub patterns: usize,
}

/// The numbers of a match.
fn bytes_of(z: &Match) -> MatchBytes
    ensures { result ≡ bytes_of z.now }
{
    MatchBytes {
        pattern: z.pattern,
        at: z.at,
        transform: z.transform.get(),
    }
}

/// Writes the matches over the front of a buffer.
fn write(found: &[Match], out: &mut [MatchBytes])
    requires { length found.now ≤ length out.old }
    ensures { AreWritten found.now out.old out.new }
{
    'matches: for i in 0..found.len() {
        out[i] = bytes_of(&found[i]);
    }
}

/// Writes the matches over the front of a buffer, if there is room for them, and says how many there are.
pub(crate) fn found_reply(found: &[Match], out: &mut [MatchBytes]) -> MatchReply
    ensures reply { result ≡ found_reply (length found.now) (length out.old) }
    ensures written { AreWrittenIf found.now out.old out.new }
{
    let number = found.len();
    if number > out.len() {
        return MatchReply {
            status: status_of(DoorFault::ShortBuffer),
            number,
        };
    }
    write(found, out);
    MatchReply { status: 0, number }
}

/// The reply to a question with a fault.
pub(crate) fn fault_reply(fault: DoorFault) -> MatchReply
    ensures { result ≡ record { status = status_of fault; number = 0 } }
{
    MatchReply {
        status: status_of(fault),
        number: 0,
    }
}

/// The reply to a question for which there was no memory.
pub(crate) fn unanswered() -> MatchReply
    ensures { result ≡ unanswered }
{
    MatchReply {
        status: NO_MEMORY,
        number: 0,
    }
}

/// The reply to a question to an empty handle.
pub fn closed_reply() -> MatchReply
    ensures { result ≡ closed_reply }
{
    MatchReply {
        status: CLOSED,
        number: 0,
    }
}

/// The reply to a text that gave this many patterns.
pub fn opened_reply(patterns: usize) -> OpenReply
    ensures { result ≡ opened_reply patterns }
{
    OpenReply {
        status: 0,
        kind: 0,
        line: 0,
        patterns,
    }
}

/// The reply to a text that gave no patterns.
pub fn refused_reply(fault: PatternFault) -> OpenReply
    ensures { result ≡ refused_reply fault }
{
    let (status, kind, line) = match fault {
        PatternFault::NoMemory => (NO_MEMORY, 0, 0),
        PatternFault::Text { line, kind } => (BAD_TEXT, kind, line),
        PatternFault::TooManyStates => (TOO_MANY_STATES, 0, 0),
    };
    OpenReply {
        status,
        kind,
        line,
        patterns: 0,
    }
}
