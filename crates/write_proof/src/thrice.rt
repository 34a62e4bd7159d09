//! A part of a text, three times.

ghost use Rattle.std.specs.Prelude.{◌≤◌, ◌++◌, length};
ghost use Rattle.write_proof.specs.Printed.{Puts};
ghost use Rattle.write_proof.specs.Room.{most_bytes};

use crate::room::Text;
use crate::text::{NoRoom, put};

/// Puts `part` three times at the end of `out`.
pub fn put_thrice(out: &mut Text, part: &[u8]) -> Result<(), NoRoom>
    requires { length out.old ≤ most_bytes }
    ensures { Puts out.old (part.now ++ (part.now ++ part.now)) out.new result }
{
    put(out, part)?;
    put(out, part)?;
    put(out, part)
}
