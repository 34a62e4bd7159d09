//! The trait of sinks: where bytes go.
ghost use Rattle.std.specs.Prelude.{◌≡◌, Bool, List, Option, ℕ, is_err};
ghost use Rattle.std.specs.Io.KnownBytes.{WriteAppends};
ghost use Rattle.gtp_io.specs.Outside.{IsCounted, TakesSome};

use crate::Failed;

/// A sink for bytes.
pub trait Sink {
    /// The bytes written, if the sink tells them.
    ghost written: { Self → Option (List ℕ) };

    /// How often the sink has failed, up to the greatest value of a u64.
    ghost faults: { Self → ℕ };

    /// Whether the sink's last call failed.
    ghost failed: { Self → Bool };

    /// Takes a front of `bytes` and returns how many bytes it took: at least one if `bytes` is not empty.
    ///
    /// A call that answers `Failed` leaves what was written before.
    fn put(&mut self, bytes: &[u8]) -> Result<usize, Failed>
        ensures some { TakesSome result bytes.now }
        ensures bytes { WriteAppends (written self.old) (written self.new) result bytes.now }
        ensures cause { IsCounted (faults self.old) (faults self.new) result }
        ensures last { failed self.new ≡ is_err result };
}
