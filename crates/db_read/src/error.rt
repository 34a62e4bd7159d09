//! Why a database text is refused.

ghost use Rattle.std.specs.Prelude.{Some};
ghost use Rattle.db_read.specs.Messages.{error_text};

use std::fmt::{self, Display, Formatter, Write};

/// Why a database text is refused: memory ran out, or the first fault of the text.
#[derive(Clone, Copy, Debug, PartialEq, Eq)]
pub enum DbError {
    /// Memory ran out.
    NoMemory,
    /// The first fault of the text.
    Fault {
        /// The number of the line, counted from 1.
        line: u64,
        /// The kind of the fault, from 1 to 18.
        kind: u8,
    },
}

impl Display for DbError {
    ghost output = { λ e. Some (error_text e) };

    fn fmt<W: Write>(&self, f: &mut Formatter<W>) -> fmt::Result {
        match self {
            DbError::NoMemory => write!(f, "out of memory"),
            DbError::Fault { line, kind } => write!(f, "bad database: line {line} kind {kind}"),
        }
    }
}
