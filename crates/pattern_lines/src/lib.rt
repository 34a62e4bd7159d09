//! The parts of a pattern file as its author sees them: entries, their lines by kind, and the words of an expression,
//! each with the place where it stands.
//!
//! A text is cut into parts at its Pattern lines. The lines of a text are counted from 1, and so are the bytes of a
//! line. Nothing is refused here: a line in a wrong place is still a line, and a byte that no expression has is still a
//! word. Which texts are accepted is decided by `db_read`.
#![tactic(auto)]

mod bytes;
mod field;
mod part;
mod place;
mod token;
mod written;

pub use bytes::{is_bad, is_feed, is_letter, is_no_blank};
pub use field::{Field, fields};
pub use part::{Part, parts};
pub use place::Place;
pub use token::{Sort, Token, tokens};
pub use written::{Role, Written, head_of, lines_in, name_in, name_of};
