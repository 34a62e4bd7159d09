//! The report for the author of a pattern file: every fault of a text, its place and its cause, entry by entry.
//!
//! `db_read` reports the first fault of a text as a line and a number. Here a fault has its place in the line, its
//! cause in words, and the name of its entry; after a fault, reading continues at the next Pattern line. The first
//! fault of the report is the first fault of the text.
//!
//! `pattern_lines` has the parts of a text, `pattern_faults` the words of a fault, and `pattern_hints` the hints beside
//! the faults. No clause speaks of these words.
#![tactic(auto)]

mod hints;
mod report;

pub use hints::warnings;
pub use pat_types::NoMemory;
pub use pattern_faults::{Cause, Fault, Shown, ShownByte};
pub use pattern_hints::{Caution, Port, PortNote, Warning, port_notes, port_of};
pub use pattern_lines::{Part, Place, name_of, parts};
pub use report::{Report, report_on};
