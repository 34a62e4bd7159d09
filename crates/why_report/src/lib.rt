//! Shows an author why a pattern does not match: the reason of a try at a point under a transformation, in words, the
//! turned diagram beside the board, and the constraint with the value of each part; all this as text or as JSON.
//!
//! The reason of a try is the first part of the definition of a match that fails, as `match_reasons` finds it; no
//! clause speaks of the words and the drawings.
#![tactic(auto)]

mod block;
mod drawing;
mod expression;
mod json;
mod parts;
mod placing;
mod tries;
mod words;

pub use block::{put_block, put_entry, put_line};
pub use drawing::put_drawing;
pub use expression::{function_name, put_expression, put_values};
pub use json::{put_json, put_text};
pub use parts::{PARTS, part_name};
pub use pat_types::NoMemory;
pub use placing::star_from;
pub use tries::{Entry, Setting, Try, parts_held, tried};
pub use words::{colour_name, put_name, put_vertex, put_words};
