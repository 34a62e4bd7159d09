//! The first proof of a reading, written into a caller's buffer.

ghost use Rattle.std.specs.Prelude.{◌≡◌, ◌≤◌, ◌++◌, length, take, drop, true, Ok};
ghost use Rattle.board_doors.specs.Doors.{question_on, question_of, check_on, checking_of};
ghost use Rattle.board_doors.specs.Printed.{most_text, no_proof, printed_reply, printed_over};
ghost use Rattle.board_doors.specs.Printed.{proof_reply, proof_over};

use crate::depths::DepthBytes;
use crate::fault::DoorFault;
use crate::questions::question_on;
use crate::replies::{ProofReply, status_of};
use board_bytes::{BoardBytes, position_of};
use go_base::{Point, Position};
use write_proof::{NoRoom, Text, write_first};

/// The reply to a question with a fault.
fn no_proof(fault: DoorFault) -> ProofReply
    ensures { result ≡ no_proof fault }
{
    ProofReply {
        status: status_of(fault),
        code: 0,
        length: 0,
    }
}

/// Writes a text over the first bytes of a buffer.
fn write_over(text: &[u8], out: &mut [u8])
    requires { length text.now ≤ length out.old }
    ensures { out.new ≡ text.now ++ drop (length text.now) out.old }
{
    out[..text.len()].copy_from_slice(text);
}

/// Writes the proof of a code over the first bytes of a buffer, if there is room for it.
fn printed(code: u8, text: &[u8], out: &mut [u8]) -> ProofReply
    requires { length text.now ≤ most_text }
    ensures reply { result ≡ printed_reply code (length text.now) (length out.old) }
    ensures over { out.new ≡ printed_over text.now out.old }
    ensures written { result.status ≡ 0 → take result.length out.new ≡ text.now }
    ensures code { result.code ≡ code }
{
    let length = text.len() as u16;
    if text.len() > out.len() {
        return ProofReply {
            status: status_of(DoorFault::ShortBuffer),
            code,
            length,
        };
    }
    write_over(text, out);
    ProofReply {
        status: 0,
        code,
        length,
    }
}

/// Writes the first proof of the code, or gives the first fault: of the question, of the point, of the depths, of the
/// proof.
fn proof_on(
    kind: u8,
    target: Point,
    depths: DepthBytes,
    position: &Position,
    out: &mut [u8],
) -> ProofReply
    ensures reply { result ≡ proof_reply (question_on kind target depths position.now) (length out.old) }
    ensures over { out.new ≡ proof_over (question_on kind target depths position.now) out.old }
    ensures accepted { result.status ≡ 0
        → check_on kind target depths result.code (take result.length out.new) position.now ≡ Ok true }
{
    match question_on(kind, target, depths, position) {
        Ok((kind, depths)) => {
            let mut text = Text::new();
            match write_first(position, kind, target, depths, &mut text) {
                Ok(code) => printed(code, &text.as_slice()[1..], out),
                Err(NoRoom) => no_proof(DoorFault::TooLong),
            }
        }
        Err(fault) => no_proof(fault),
    }
}

/// Writes the first proof of the code of an attack on the string at `target` (`kind` 1) or of its defence (`kind` 2)
/// into the first bytes of a buffer: the words that `prove_attack` and `prove_defend` print after the code. The faults
/// come in this order: of the board, of the question, of the point, of the depths, a proof of more than 60,000 bytes, a
/// buffer that is too short. With a fault the buffer stays as it is. Takes no memory.
#[tactic(auto, unfolding(crate::specs::Doors::question_of, crate::specs::Doors::checking_of))]
pub fn proof(
    board: &BoardBytes,
    kind: u8,
    target: Point,
    depths: DepthBytes,
    out: &mut [u8],
) -> ProofReply
    ensures reply { result ≡ proof_reply (question_of board.now kind target depths) (length out.old) }
    ensures over { out.new ≡ proof_over (question_of board.now kind target depths) out.old }
    ensures accepted { result.status ≡ 0
        → checking_of board.now kind target depths result.code (take result.length out.new) ≡ Ok true }
{
    match position_of(board) {
        Ok(position) => proof_on(kind, target, depths, &position, out),
        Err(fault) => no_proof(DoorFault::Board(fault)),
    }
}
