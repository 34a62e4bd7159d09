//! Replies in the layout of C: a status, and the answer if the status is 0.

ghost use Rattle.std.specs.Prelude.{◌≡◌, ℕ, ◌<◌, slice_index_or, replicate};
ghost use Rattle.std.specs.FinSet as set;
ghost use Rattle.go_rules.specs.Board.{largest_points};
ghost use Rattle.board_doors.specs.Replies.{status_of, spot_number, answer_reply, linkage_reply, number_reply};
ghost use Rattle.board_doors.specs.Replies.{truth_number, truth_reply, play_reply};
ghost use Rattle.board_doors.specs.Moves.{RepliesMoves};

use crate::fault::DoorFault;
use crate::moves::MoveSet;
use crate::plays::PASS;
use board_bytes::{BoardBytes, BoardFault, bytes_of};
use connect_rules::Linkage;
use go_base::size::MAX_POINTS;
use go_base::{Illegal, Point, PointSet, Position};
use read_rules::{Answer, Spot};

/// The number of a point that stands for no move.
pub const NO_MOVE: u16 = 65534;

/// The reply to a reading or a connection.
#[repr(C)]
#[derive(Clone, Copy, Debug, PartialEq, Eq)]
pub struct AnswerReply {
    /// 0 for an answer, else the number of the fault.
    pub status: u8,
    /// The code: 0 to 3 for a reading; 1 for yes and 0 for no of a connection; 0 with a fault.
    pub code: u8,
    /// The move: a point, 65535 for a pass, 65534 if there is none.
    pub at: u16,
}

/// A reply that is a number.
#[repr(C)]
#[derive(Clone, Copy, Debug, PartialEq, Eq)]
pub struct NumberReply {
    /// 0 for an answer, else the number of the fault.
    pub status: u8,
    /// The number; 0 with a fault. A yes is 1 and a no is 0.
    pub number: u16,
}

/// The reply to a play.
#[repr(C)]
#[derive(Clone, Copy)]
pub struct PlayReply {
    /// 0 if the play was made, else the number of the fault.
    pub status: u8,
    /// The board after the play; with a fault the board that came in.
    pub board: BoardBytes,
}

/// The reply to a question for all moves that attain the code.
#[repr(C)]
#[derive(Clone, Copy)]
pub struct MovesReply {
    /// 0 for an answer, else the number of the fault.
    pub status: u8,
    /// The code, 0 to 3; 0 with a fault.
    pub code: u8,
    /// 1 if the defender's pass attains the code, else 0.
    pub pass: u8,
    /// For each point 1 if a play there attains the code, else 0.
    pub points: [u8; MAX_POINTS],
}

/// The reply to a question for the first proof, whose bytes are in the caller's buffer.
#[repr(C)]
#[derive(Clone, Copy, Debug, PartialEq, Eq)]
pub struct ProofReply {
    /// 0 if the proof was written, else the number of the fault.
    pub status: u8,
    /// The code, 0 to 3, if the proof was written or the buffer is too short for it; else 0.
    pub code: u8,
    /// How many bytes the proof has, if it was written or the buffer is too short for it; else 0.
    pub length: u16,
}

/// The number of the reason why bytes are not a position.
fn board_status(fault: BoardFault) -> u8
    ensures { result ≡ status_of (DoorFault.Board fault) }
{
    match fault {
        BoardFault::Size => 1,
        BoardFault::Cell => 2,
        BoardFault::NoLiberty => 3,
        BoardFault::Ban => 4,
    }
}

/// The number of the reason why the rules forbid a play.
fn illegal_status(why: Illegal) -> u8
    ensures { result ≡ status_of (DoorFault.Illegal why) }
{
    match why {
        Illegal::Occupied => 12,
        Illegal::Ko => 13,
        Illegal::Suicide => 14,
    }
}

/// The number of a fault. Each fault has its own, from 1 to 16.
pub fn status_of(fault: DoorFault) -> u8
    ensures { result ≡ status_of fault }
{
    match fault {
        DoorFault::Board(fault) => board_status(fault),
        DoorFault::OffBoard => 5,
        DoorFault::NoStone => 6,
        DoorFault::Depths => 7,
        DoorFault::TwoColours => 8,
        DoorFault::Colour => 9,
        DoorFault::Kind => 10,
        DoorFault::Code => 11,
        DoorFault::Illegal(why) => illegal_status(why),
        DoorFault::ShortBuffer => 15,
        DoorFault::TooLong => 16,
    }
}

/// The number of a move: its point, `PASS`, or `NO_MOVE`.
fn spot_number(at: Option<Spot>) -> u16
    ensures { result ≡ spot_number at }
{
    match at {
        Some(Spot::At(p)) => p,
        Some(Spot::Pass) => PASS,
        None => NO_MOVE,
    }
}

/// 1 for yes, 0 for no.
fn truth_number(told: bool) -> u8
    ensures { result ≡ truth_number told }
{
    if told { 1 } else { 0 }
}

/// The reply to a reading.
pub fn answer_reply(found: Result<Answer, DoorFault>) -> AnswerReply
    ensures { result ≡ answer_reply found }
{
    match found {
        Ok(answer) => AnswerReply {
            status: 0,
            code: answer.code,
            at: spot_number(answer.at),
        },
        Err(fault) => AnswerReply {
            status: status_of(fault),
            code: 0,
            at: NO_MOVE,
        },
    }
}

/// The reply to a question about a connection.
pub fn linkage_reply(found: Result<Linkage, DoorFault>) -> AnswerReply
    ensures { result ≡ linkage_reply found }
{
    match found {
        Ok(linkage) => AnswerReply {
            status: 0,
            code: truth_number(linkage.yes),
            at: spot_number(linkage.at),
        },
        Err(fault) => AnswerReply {
            status: status_of(fault),
            code: 0,
            at: NO_MOVE,
        },
    }
}

/// A reply that is a number.
pub fn number_reply(found: Result<u16, DoorFault>) -> NumberReply
    ensures { result ≡ number_reply found }
{
    match found {
        Ok(number) => NumberReply { status: 0, number },
        Err(fault) => NumberReply {
            status: status_of(fault),
            number: 0,
        },
    }
}

/// A reply that is yes or no.
pub fn truth_reply(found: Result<bool, DoorFault>) -> NumberReply
    ensures { result ≡ truth_reply found }
{
    match found {
        Ok(yes) => NumberReply {
            status: 0,
            number: u16::from(truth_number(yes)),
        },
        Err(fault) => NumberReply {
            status: status_of(fault),
            number: 0,
        },
    }
}

/// The reply to a play on `board`.
pub fn play_reply(board: &BoardBytes, found: Result<Position, DoorFault>) -> PlayReply
    ensures { result ≡ play_reply board.now found }
{
    match found {
        Ok(position) => PlayReply {
            status: 0,
            board: bytes_of(&position),
        },
        Err(fault) => PlayReply {
            status: status_of(fault),
            board: *board,
        },
    }
}

/// A byte 0 for each point.
fn no_points() -> [u8; MAX_POINTS]
    ensures { result ≡ replicate largest_points 0 }
{
    [0; MAX_POINTS]
}

/// A byte for each point: 1 if `points` has it, else 0.
fn point_bytes(points: &PointSet) -> [u8; MAX_POINTS]
    ensures { (p : ℕ) → p < largest_points → slice_index_or result p 0 ≡ truth_number (set.contains points.now p) }
{
    let mut bytes = no_points();
    for p in 0..MAX_POINTS {
        bytes[p] = truth_number(points.has(p as Point));
    }
    bytes
}

/// The reply to a question for all moves that attain the code.
pub fn moves_reply(found: Result<MoveSet, DoorFault>) -> MovesReply
    ensures { RepliesMoves found result }
{
    match found {
        Ok(moves) => MovesReply {
            status: 0,
            code: moves.code,
            pass: truth_number(moves.pass),
            points: point_bytes(&moves.points),
        },
        Err(fault) => MovesReply {
            status: status_of(fault),
            code: 0,
            pass: 0,
            points: no_points(),
        },
    }
}
