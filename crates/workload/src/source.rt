//! The source of generated lines.
ghost use Rattle.std.specs.Prelude.{◌≡◌, Some, false, is_err};
ghost use Rattle.std.specs.Io.{ReadsAtMost};
ghost use Rattle.std.specs.Io.KnownBytes.{ReadConsumes};
ghost use Rattle.gtp_io.specs.Outside.{GaveBytes, IsCounted};
ghost use Rattle.workload.specs.GeneratedLines.{generated_text};

use crate::rest::Rest;
use gtp_io::{Failed, Source};
use std::marker::Model;

/// A source of generated lines. It never fails and takes no memory. One call gives bytes of one line only; the lines
/// that set up the board count as one here.
#[derive(Drop)]
pub struct Workload {
    rest: Rest,
    piece: usize,
}

impl Model for Workload {
    ghost use Rattle.workload.specs.Remaining.{AreMade, WorkloadState, left_from};

    ghost Value = { WorkloadState };

    ghost view = { λ w. record { left = left_from w.rest.lines w.rest.made w.rest.line w.rest.at; piece = w.piece } };

    ghost invariant = { λ w. AreMade w.rest.lines w.rest.made w.rest.number w.rest.line w.rest.at };
}

impl Workload {
    /// A source of the lines that set up the board and of `n` lines after them.
    pub fn new(n: u32) -> Workload
        ensures { result ≡ record { left = generated_text n; piece = 0 } }
    {
        Workload {
            rest: Rest::new(n),
            piece: 0,
        }
    }
}

impl Source for Workload {
    ghost left = { λ w. Some w.left };

    ghost piece = { λ w. w.piece };

    ghost faults = { λ _. 0 };

    ghost failed = { λ _. false };

    fn next(&mut self, buf: &mut [u8]) -> Result<usize, Failed>
        ensures bound { ReadsAtMost result buf.new }
        ensures bytes { ReadConsumes (Some self.old.left) (Some self.new.left) result buf.new }
        ensures piece { GaveBytes self.new.piece result }
        ensures cause { IsCounted 0 0 result }
        ensures last { false ≡ is_err result }
    {
        self.rest.ready();
        self.piece = self.rest.give(buf);
        Ok(self.piece)
    }
}
