//! The trait of sources: where bytes come from.
ghost use Rattle.std.specs.Prelude.{◌≡◌, Bool, List, Option, ℕ, is_err};
ghost use Rattle.std.specs.Io.{ReadsAtMost};
ghost use Rattle.std.specs.Io.KnownBytes.{ReadConsumes};
ghost use Rattle.gtp_io.specs.Outside.{IsCounted, GaveBytes};

use crate::Failed;

/// A source of bytes.
pub trait Source {
    /// The bytes that are left, if the source tells them.
    ghost left: { Self → Option (List ℕ) };

    /// How many bytes the last call gave.
    ghost piece: { Self → ℕ };

    /// How often the source has failed, up to the greatest value of a u64.
    ghost faults: { Self → ℕ };

    /// Whether the source's last call failed.
    ghost failed: { Self → Bool };

    /// Copies the next bytes of what is left into `buf`, at most as many as it holds, and returns how many.
    ///
    /// A result of 0 for a buffer that is not empty means the end. A call that answers `Failed` takes no byte.
    fn next(&mut self, buf: &mut [u8]) -> Result<usize, Failed>
        ensures bound { ReadsAtMost result buf.new }
        ensures bytes { ReadConsumes (left self.old) (left self.new) result buf.new }
        ensures piece { GaveBytes (piece self.new) result }
        ensures cause { IsCounted (faults self.old) (faults self.new) result }
        ensures last { failed self.new ≡ is_err result };
}
