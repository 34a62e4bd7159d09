//! gopat for programs in C, and in any language that can call C: the exports of the static library `libgopat_c.a`.
//!
//! Each export is one call of a door of `board_doors`, and its clause says that the reply is the one for the answer
//! defined there. A board crosses by value, so only `gopat_check` and `gopat_proof` take a pointer. A caller may pass
//! any numbers: a question without an answer gets a status of its own. Nothing takes memory, and no export keeps
//! anything from one call to the next. `gopat.h`, in the folder of this crate, is what a C compiler reads.
#![tactic(auto)]

ghost use Rattle.std.specs.Prelude.{◌≡◌, length, take, true, Ok};
ghost use Rattle.board_doors.specs.Doors.{reading_of, question_of, linking_of, play_of, liberties_of, checking_of};
ghost use Rattle.board_doors.specs.Moves.{AnswersMoves};
ghost use Rattle.board_doors.specs.Printed.{proof_reply, proof_over};
ghost use Rattle.board_doors.specs.Replies.{answer_reply, linkage_reply, play_reply, number_reply, truth_reply};

use board_doors::replies::{
    answer_reply, linkage_reply, moves_reply, number_reply, play_reply, truth_reply,
};
use board_doors::{
    AnswerReply, BoardBytes, DepthBytes, MovesReply, NumberReply, PlayReply, ProofReply,
};
use connect_rules::LinkKind;
use read_rules::Kind;

/// Whether the string at `target` can be captured when the attacker plays first: the code, and the first move that
/// attains it.
#[unsafe(no_mangle)]
pub extern "C" fn gopat_attack(board: BoardBytes, target: u16, depths: DepthBytes) -> AnswerReply
    ensures { result ≡ answer_reply (reading_of Kind.Attack board target depths) }
{
    answer_reply(board_doors::attack(&board, target, depths))
}

/// Whether the string at `target` can be saved when the defender plays first: the code, and the first move that attains
/// it, the pass before all points.
#[unsafe(no_mangle)]
pub extern "C" fn gopat_defend(board: BoardBytes, target: u16, depths: DepthBytes) -> AnswerReply
    ensures { result ≡ answer_reply (reading_of Kind.Defend board target depths) }
{
    answer_reply(board_doors::defend(&board, target, depths))
}

/// Every move that attains the code of an attack on the string at `target` (`kind` 1) or of its defence (`kind` 2), of
/// the moves that the reader tries: the code, whether the pass attains it, and for each point whether a play there
/// does.
#[unsafe(no_mangle)]
pub extern "C" fn gopat_all(
    board: BoardBytes,
    kind: u8,
    target: u16,
    depths: DepthBytes,
) -> MovesReply
    ensures { AnswersMoves (question_of board kind target depths) result }
{
    moves_reply(board_doors::all(&board, kind, target, depths))
}

/// Writes the first proof of the code of an attack on the string at `target` (`kind` 1) or of its defence (`kind` 2)
/// into the first bytes of `text`: the words that the program prints after the code. `gopat_check` accepts them. With a
/// fault, and if the buffer is too short, it stays as it is. The buffer is a pointer and then a length; the pointer is
/// not null, even for no bytes.
#[unsafe(no_mangle)]
pub extern "C" fn gopat_proof(
    board: BoardBytes,
    kind: u8,
    target: u16,
    depths: DepthBytes,
    text: &mut [u8],
) -> ProofReply
    ensures reply { result ≡ proof_reply (question_of board kind target depths) (length text.old) }
    ensures over { text.new ≡ proof_over (question_of board kind target depths) text.old }
    ensures accepted { result.status ≡ 0
        → checking_of board kind target depths result.code (take result.length text.new) ≡ Ok true }
{
    board_doors::proof(&board, kind, target, depths, text)
}

/// Whether the strings at `a` and `b`, of one colour, can be joined when their own colour plays first, and the first
/// move that does it.
#[unsafe(no_mangle)]
pub extern "C" fn gopat_connect(board: BoardBytes, a: u16, b: u16, plies: u8) -> AnswerReply
    ensures { result ≡ linkage_reply (linking_of LinkKind.Connect board a b plies) }
{
    linkage_reply(board_doors::connect(&board, a, b, plies))
}

/// Whether the strings at `a` and `b`, of one colour, can be kept apart when the other colour plays first, and the
/// first move that does it.
#[unsafe(no_mangle)]
pub extern "C" fn gopat_disconnect(board: BoardBytes, a: u16, b: u16, plies: u8) -> AnswerReply
    ensures { result ≡ linkage_reply (linking_of LinkKind.Disconnect board a b plies) }
{
    linkage_reply(board_doors::disconnect(&board, a, b, plies))
}

/// The board after the colour 1, Black, or 2, White, plays at `at`, or passes if `at` is 65535; with a fault the board
/// that came in.
#[unsafe(no_mangle)]
pub extern "C" fn gopat_play(board: BoardBytes, colour: u8, at: u16) -> PlayReply
    ensures { result ≡ play_reply board (play_of board colour at) }
{
    play_reply(&board, board_doors::play(&board, colour, at))
}

/// How many liberties the string at `at` has.
#[unsafe(no_mangle)]
pub extern "C" fn gopat_liberties(board: BoardBytes, at: u16) -> NumberReply
    ensures { result ≡ number_reply (liberties_of board at) }
{
    number_reply(board_doors::liberties(&board, at))
}

/// Whether `text` proves that an attack on the string at `target` (`kind` 1) or its defence (`kind` 2) has this `code`:
/// 1 for yes, 0 for no. The text is a pointer and then a length; the pointer is not null, even for no bytes.
#[unsafe(no_mangle)]
pub extern "C" fn gopat_check(
    board: BoardBytes,
    kind: u8,
    target: u16,
    depths: DepthBytes,
    code: u8,
    text: &[u8],
) -> NumberReply
    ensures { result ≡ truth_reply (checking_of board kind target depths code text.now) }
{
    truth_reply(board_doors::check(&board, kind, target, depths, code, text))
}
