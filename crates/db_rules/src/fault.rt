//! The first fault of a database text, and why a line is refused.

ghost use Rattle.std.specs.Prelude.{◌≡◌};
ghost use Rattle.db_rules.specs.declared.fault.LineError.TheVariants.{NoMemory as no_memory};

use crate::kind::FaultKind;
use go_base::NoMemory;

/// The first fault of a text.
///
/// A fault at the end of the text has as its line the number of lines plus one; a fault of an expression has the line
/// of its first `;`.
#[derive(Clone, Copy, Debug, PartialEq, Eq)]
pub struct Fault {
    /// The number of the line, counted from 1.
    pub line: u64,
    /// The number of the kind of fault, from 1 to 18.
    pub kind: u8,
}

/// Why a line is refused: memory ran out, or the kind of its first fault.
#[derive(Clone, Copy, Debug, PartialEq, Eq)]
pub enum LineError {
    /// Memory ran out.
    NoMemory,
    /// The kind of the first fault.
    Kind(FaultKind),
}

impl From<NoMemory> for LineError {
    ghost from_gives = { λ _ e. e ≡ no_memory };

    fn from(_e: NoMemory) -> LineError {
        LineError::NoMemory
    }
}
