//! Short texts that are kept in place.

ghost use Rattle.std.specs.Prelude.{◌≡◌, ◌+◌, ◌≤◌, [], ◌++◌, length, take};
ghost use Rattle.vertices.specs.Rooms.{short_room};

use std::marker::Model;

/// How many bytes a short text may have.
const MAX_SHORT: usize = 48;

/// A text of at most 48 bytes: a vertex, a line or a short reply.
#[derive(Drop)]
pub struct Short {
    bytes: [u8; MAX_SHORT],
    len: usize,
}

impl Model for Short {
    ghost use Rattle.std.specs.Prelude.{◌≤◌, List, ℕ, take};
    ghost use Rattle.vertices.specs.Rooms.{short_room};

    ghost Value = { List ℕ };

    ghost view = { λ s. take s.len s.bytes };

    ghost invariant = { λ s. s.len ≤ short_room };
}

/// Writes `more` over the bytes from `place` on.
pub fn write_at(bytes: &mut [u8], place: usize, more: &[u8])
    requires { place + length more.now ≤ length bytes.old }
    ensures { take (place + length more.now) bytes.new ≡ take place bytes.old ++ more.now }
{
    bytes[place..place + more.len()].copy_from_slice(more);
}

impl Short {
    /// The empty text.
    pub fn new() -> Short
        ensures { result ≡ [] }
    {
        Short {
            bytes: [0; MAX_SHORT],
            len: 0,
        }
    }

    /// The short text with these bytes.
    pub fn of(bytes: &[u8]) -> Short
        requires { length bytes.now ≤ short_room }
        ensures { result ≡ bytes.now }
    {
        let mut text = Short::new();
        text.extend(bytes);
        text
    }

    /// Appends `more`, for which there is room.
    pub fn extend(&mut self, more: &[u8])
        requires { length self.old + length more.now ≤ short_room }
        ensures { self.new ≡ self.old ++ more.now }
    {
        write_at(&mut self.bytes, self.len, more);
        self.len += more.len();
    }

    /// The bytes of the text.
    pub fn as_slice(&self) -> &[u8]
        ensures { result.now ≡ self.now }
    {
        &self.bytes[..self.len]
    }
}
