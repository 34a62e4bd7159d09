//! A text in place, with room for a printed proof.

ghost use Rattle.std.specs.Prelude.{◌≡◌, ◌+◌, ◌≤◌, [], ◌++◌, length};
ghost use Rattle.write_proof.specs.Room.{most_bytes};

use std::marker::Model;
use vertices::write_at;

/// How many bytes a printed proof may have, with a blank before its first word.
pub(crate) const MAX_BYTES: usize = 60_001;

/// A text of at most 60,001 bytes in place, seen as the list of its bytes. It takes no memory but its own.
#[derive(Drop)]
pub struct Text {
    /// The bytes of the text, and behind them bytes that do not count.
    bytes: [u8; MAX_BYTES],
    /// How many bytes the text has.
    len: usize,
}

impl Model for Text {
    ghost use Rattle.std.specs.Prelude.{◌≤◌, List, ℕ, take};
    ghost use Rattle.write_proof.specs.Room.{most_bytes};

    ghost Value = { List ℕ };

    ghost view = { λ t. take t.len t.bytes };

    ghost invariant = { λ t. t.len ≤ most_bytes };
}

impl Text {
    /// The empty text.
    pub fn new() -> Text
        ensures { result ≡ [] }
    {
        Text {
            bytes: [0; MAX_BYTES],
            len: 0,
        }
    }

    /// The bytes of the text.
    pub fn as_slice(&self) -> &[u8]
        ensures { result.now ≡ self.now }
    {
        &self.bytes[..self.len]
    }

    /// Puts the bytes `more` at the end of the text, which must have room for them.
    pub(crate) fn extend(&mut self, more: &[u8])
        requires { length self.old + length more.now ≤ most_bytes }
        ensures { self.new ≡ self.old ++ more.now }
    {
        write_at(&mut self.bytes, self.len, more);
        self.len += more.len();
    }
}
