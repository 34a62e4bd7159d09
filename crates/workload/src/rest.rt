//! The bytes of the generated lines that no call has given yet.
ghost use Rattle.std.specs.Prelude.{◌≡◌, ◌+◌, ◌-◌, ◌<◌, ◌≤◌, ◌++◌, [], drop, length, min, take};
ghost use Rattle.workload.specs.GeneratedLines.{generated_text};
ghost use Rattle.workload.specs.Remaining.{AreMade, left_from};

use crate::lines::{line, next_number, opening};
use vertices::Short;

/// How many lines there are, how many of them were made, and what is left of the last made line. The lines that set up
/// the board stand before the first made line.
#[derive(Drop)]
pub(crate) struct Rest {
    lines: u32,
    made: u32,
    number: u32,
    line: Short,
    at: usize,
}

/// Copies the bytes of `bytes` from `at` on to the front of `buf`, and returns how many.
fn copy_piece(bytes: &[u8], at: usize, buf: &mut [u8]) -> usize
    requires { at ≤ length bytes.now }
    ensures bound { result ≤ length buf.new }
    ensures within { at + result ≤ length bytes.now }
    ensures copied { take result buf.new ≡ take result (drop at bytes.now) }
    ensures end { 0 < length buf.new → result ≡ 0 → at ≡ length bytes.now }
{
    let count = (bytes.len() - at).min(buf.len());
    buf[..count].copy_from_slice(&bytes[at..at + count]);
    count
}

impl Rest {
    /// All bytes of `n` lines and of the lines that set up the board.
    pub(crate) fn new(n: u32) -> Rest
        ensures made { AreMade result.lines result.made result.number result.line result.at }
        ensures left { left_from result.lines result.made result.line result.at ≡ generated_text n }
    {
        Rest {
            lines: n,
            made: 0,
            number: n,
            line: opening(),
            at: 0,
        }
    }

    /// Makes the next line; the last one was given whole.
    fn next_line(&mut self)
        requires made { AreMade self.old.lines self.old.made self.old.number self.old.line self.old.at }
        requires more { self.old.made < self.old.lines }
        requires done { self.old.at ≡ length self.old.line }
        ensures made { AreMade self.new.lines self.new.made self.new.number self.new.line self.new.at }
        ensures same { left_from self.new.lines self.new.made self.new.line self.new.at
            ≡ left_from self.old.lines self.old.made self.old.line self.old.at }
        ensures some { self.new.at < length self.new.line }
    {
        self.made += 1;
        self.number = next_number(self.number);
        self.line = line(self.made, self.number);
        self.at = 0;
    }

    /// Makes the next line if nothing is left of the last one and there is a next one.
    pub(crate) fn ready(&mut self)
        requires { AreMade self.old.lines self.old.made self.old.number self.old.line self.old.at }
        ensures made { AreMade self.new.lines self.new.made self.new.number self.new.line self.new.at }
        ensures same { left_from self.new.lines self.new.made self.new.line self.new.at
            ≡ left_from self.old.lines self.old.made self.old.line self.old.at }
        ensures some { self.new.at ≡ length self.new.line
            → left_from self.new.lines self.new.made self.new.line self.new.at ≡ [] }
    {
        if self.at == self.line.as_slice().len() && self.made < self.lines {
            self.next_line();
        }
    }

    /// Gives what is left of the last line, as many bytes as `buf` holds, and returns how many.
    pub(crate) fn give(&mut self, buf: &mut [u8]) -> usize
        requires { AreMade self.old.lines self.old.made self.old.number self.old.line self.old.at }
        ensures made { AreMade self.new.lines self.new.made self.new.number self.new.line self.new.at }
        ensures bound { result ≤ length buf.new }
        ensures bytes { left_from self.old.lines self.old.made self.old.line self.old.at
            ≡ take result buf.new ++ left_from self.new.lines self.new.made self.new.line self.new.at }
        ensures end { 0 < length buf.new → result ≡ 0 → self.old.at ≡ length self.old.line }
        ensures none { result ≡ 0 → left_from self.new.lines self.new.made self.new.line self.new.at
            ≡ left_from self.old.lines self.old.made self.old.line self.old.at }
    {
        let given = copy_piece(self.line.as_slice(), self.at, buf);
        self.at += given;
        given
    }
}
