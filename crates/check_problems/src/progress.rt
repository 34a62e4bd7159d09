//! What the program is doing, shown on a terminal if the work takes longer.

use std::io;
use std::time::{Clock, Duration, Instant};

/// The number of seconds before the progress is shown.
const PATIENCE: u64 = 1;

/// A line of standard error that says what is done now. It is erased before anything else is printed.
#[derive(Drop)]
pub(crate) struct Progress {
    /// When the program began, if standard error is a terminal.
    begun: Option<Instant>,
    /// Whether the line is on the terminal now.
    stands: bool,
}

impl Progress {
    /// No progress is shown yet, and none ever is if standard error is not a terminal.
    pub(crate) fn begin<R: Clock>(rt: &R, is_terminal: bool) -> io::Result<Progress> {
        let begun = if is_terminal {
            Some(Instant::now(rt)?)
        } else {
            None
        };
        Ok(Progress {
            begun,
            stands: false,
        })
    }

    /// Shows what is done now, if the program has run for a while.
    pub(crate) fn tell<R: Clock + Eprint>(
        &mut self,
        rt: &R,
        doing: &str,
        what: &str,
    ) -> io::Result<()> {
        let Some(begun) = &self.begun else {
            return Ok(());
        };
        if begun.elapsed(rt)? >= Duration::from_secs(PATIENCE) {
            eprint!(rt; "\r{doing} {what}\x1b[K")?;
            self.stands = true;
        }
        Ok(())
    }

    /// Erases the line.
    pub(crate) fn clear<R: Eprint>(&mut self, rt: &R) -> io::Result<()> {
        if self.stands {
            eprint!(rt; "\r\x1b[K")?;
            self.stands = false;
        }
        Ok(())
    }
}
