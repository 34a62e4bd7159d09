//! Ids of lines: numbers of digits alone.

ghost use Rattle.std.specs.Prelude.{◌≡◌};
ghost use Rattle.gtp_cmd.specs.Words.{kept, id_of};

use vertices::number;

/// The greatest number of an id.
const MAX_ID: u32 = 2_147_483_647;

/// The id that a word writes: digits alone, of a number up to 2147483647.
pub fn id(word: &[u8]) -> Option<u32>
    ensures { result ≡ id_of (kept word.now) }
{
    let id = number(word)?;
    if id > MAX_ID { None } else { Some(id) }
}
