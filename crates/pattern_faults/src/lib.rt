//! Explains why an entry of a pattern file is refused: the cause, in words, of a fault with a known line and kind.
//!
//! `db_read` reports the first fault of a text as a line and a number. `explain` looks at the entry again, and finds
//! the place in the line and the cause. The line and the kind stay as reported; no clause speaks of the words and the
//! place.
#![tactic(auto)]

mod cause;
mod fault;
mod seen;
mod shown;
mod words;

pub use cause::Cause;
pub use fault::Fault;
pub use seen::explain;
pub use shown::{Shown, ShownByte};
pub use words::{Value, write_words};
