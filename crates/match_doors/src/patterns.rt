//! The patterns of a text, and their automaton.

ghost use Rattle.std.specs.Prelude.{IfOk, IfErr};
ghost use Rattle.match_doors.specs.Patterns.{AreRead, IsRefused};

use db_read::{DbError, read};
use dfa_core::Automaton;
use dfa_join::{JoinError, compile};
use go_base::NoMemory;
use pat_types::Pattern;
use std::alloc::Global;

/// The most patterns of a text. `read` refuses a text with more.
const MOST_PATTERNS: usize = 4096;

/// Patterns, and the automaton that finds them.
#[derive(Drop)]
pub struct Patterns {
    /// The patterns in their order.
    pub list: Vec<Pattern>,
    /// The automaton of the patterns.
    pub automaton: Automaton,
}

/// Why a text gives no patterns.
#[derive(Clone, Copy, Debug, PartialEq, Eq)]
pub enum PatternFault {
    /// There was no memory.
    NoMemory,
    /// The first fault of the text.
    Text {
        /// The number of the faulty line, counted from 1.
        line: u64,
        /// The kind of the fault, from 1 to 18.
        kind: u8,
    },
    /// The automaton would have more states than the caller allows.
    TooManyStates,
}

impl From<DbError> for PatternFault {
    ghost use Rattle.std.specs.Prelude.{◌≡◌};
    ghost use Rattle.match_doors.specs.Patterns.{fault_of_text};

    ghost from_gives = { λ why fault. fault ≡ fault_of_text why };

    fn from(why: DbError) -> PatternFault {
        match why {
            DbError::NoMemory => PatternFault::NoMemory,
            DbError::Fault { line, kind } => PatternFault::Text { line, kind },
        }
    }
}

impl From<JoinError> for PatternFault {
    ghost use Rattle.std.specs.Prelude.{◌≡◌};
    ghost use Rattle.match_doors.specs.Patterns.{fault_of_join};

    ghost from_gives = { λ why fault. fault ≡ fault_of_join why };

    fn from(why: JoinError) -> PatternFault {
        match why {
            JoinError::NoMemory => PatternFault::NoMemory,
            JoinError::TooManyStates { .. } => PatternFault::TooManyStates,
        }
    }
}

impl From<NoMemory> for PatternFault {
    ghost use Rattle.std.specs.Prelude.{◌≡◌};
    ghost use Rattle.match_doors.specs.declared.patterns.PatternFault.TheVariants.{NoMemory as no_memory};

    ghost from_gives = { λ _ fault. fault ≡ no_memory };

    fn from(_: NoMemory) -> PatternFault {
        PatternFault::NoMemory
    }
}

/// Reads the patterns of `text`, which name no helper, and joins them into one automaton with at most `states` states,
/// or says why not. The text's first fault comes before the states. Takes memory.
pub fn read_patterns(alloc: Global, text: &[u8], states: u32) -> Result<Patterns, PatternFault>
    ensures ok { IfOk result (λ patterns. AreRead text.now states patterns.list.items patterns.automaton) }
    ensures err { IfErr result (IsRefused text.now states) }
{
    let list = read(alloc, text, &[], Vec::new(alloc))?;
    if list.len() > MOST_PATTERNS {
        return Err(PatternFault::NoMemory);
    }
    let automaton = compile(alloc, list.as_slice(), states)?;
    Ok(Patterns { list, automaton })
}
