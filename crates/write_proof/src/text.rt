//! Putting words at the end of a text, each after a blank, as long as there is room.

ghost use Rattle.std.specs.Prelude.{◌≡◌, ◌≤◌, [], ◌∷◌, length};
ghost use Rattle.read_rules.specs.GoodMoves.{IsOnBoard};
ghost use Rattle.read_proof.specs.FirstProof.{move_word};
ghost use Rattle.write_proof.specs.Printed.{behind_blanks, Puts};
ghost use Rattle.write_proof.specs.Room.{most_bytes};

use crate::room::{MAX_BYTES, Text};
use go_base::Size;
use read_rules::Spot;
use thiserror::Error;
use vertices::vertex_text;

/// Why a proof is not answered.
#[derive(Clone, Copy, Debug, PartialEq, Eq, Error)]
pub enum ProofError {
    /// The proof has more than 60,000 bytes.
    #[error("proof too long")]
    TooLong,
    /// There was no memory for the proof.
    #[error("out of memory")]
    NoMemory,
}

/// A text has no room for more bytes: it would have more than 60,001.
#[derive(Clone, Copy, Debug, PartialEq, Eq)]
pub struct NoRoom;

/// Puts the bytes `more` at the end of `out`, if there is room for them.
pub fn put(out: &mut Text, more: &[u8]) -> Result<(), NoRoom>
    requires { length out.old ≤ most_bytes }
    ensures { Puts out.old more.now out.new result }
{
    if more.len() > MAX_BYTES - out.as_slice().len() {
        return Err(NoRoom);
    }
    out.extend(more);
    Ok(())
}

/// Puts a blank and a word at the end of `out`.
pub fn put_word(out: &mut Text, word: &[u8]) -> Result<(), NoRoom>
    requires { length out.old ≤ most_bytes }
    ensures { Puts out.old (behind_blanks (word.now ∷ [])) out.new result }
{
    put(out, b" ")?;
    put(out, word)
}

/// Puts a blank and the word of a move at the end of `out`.
pub fn put_move(out: &mut Text, size: Size, spot: Spot) -> Result<(), NoRoom>
    requires room { length out.old ≤ most_bytes }
    requires on_board { IsOnBoard size spot }
    ensures { Puts out.old (behind_blanks (move_word size spot ∷ [])) out.new result }
{
    match spot {
        Spot::At(p) => put_word(out, vertex_text(size, p).as_slice()),
        Spot::Pass => put_word(out, b"PASS"),
    }
}
