//! The protocol's language: what the words of a line say, and the bytes of each reply. After the GTP version 2 draft.
//!
//! `parse` answers the id and the command of a line, or the first refusal; `success`, `short` and `refusal` give the
//! reply. Columns are lettered from the left without I, and row 1 is the bottom row; points are numbered as in
//! `go_base`. `success`, `text` and `names_text` take memory, and no other call does.
#![tactic(auto)]

mod arguments;
mod calls;
mod commands;
mod ids;
mod komi;
pub mod laws;
mod parser;
mod refusals;
mod replies;
mod rows;
mod spans;
mod word_spans;

pub use commands::{Command, CommandName, Parsed};
pub use komi::KomiText;
pub use parser::parse;
pub use refusals::RefuseText;
pub use replies::{refusal, short, success};
pub use rows::names_text;
pub use spans::{Span, text};
pub use vertices::{Short, column_letter, vertex_text};
