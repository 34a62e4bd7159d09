//! The language of points: the words of a text, the vertices that words name, and a vertex as it is printed. After the
//! GTP version 2 draft.
//!
//! Columns are lettered from the left without I, and row 1 is the bottom row; points are numbered as everywhere in
//! gopat. A word is read in place, with the bytes that are dropped still in it. Nothing here takes memory.
#![tactic(auto)]

mod bytes;
mod columns;
pub mod laws;
mod numbers;
mod room;
mod vertex;
mod words;

pub use bytes::is_kept;
pub use columns::column_letter;
pub use numbers::number;
pub use room::{Short, write_at};
pub use vertex::{target_named, vertex_named, vertex_text};
pub use words::{before_comment, byte_count, next_word, spells, spells_in_either_case};
