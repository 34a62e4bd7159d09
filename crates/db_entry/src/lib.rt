//! Reading one entry of a database, line by line: its main diagram, its colon line, and the labels of its constraint
//! diagram.
//!
//! A diagram line is given by its word, the colon line by all its bytes. `db_rules` defines what is kept after some
//! lines. A line is refused with the first fault that `db_rules` lists for its kind.
#![tactic(auto)]

mod colon;
mod diagram;
mod fields;
mod line;
mod marks;
mod words;

pub use colon::{ColonLine, bytes_of, read_colon_line};
pub use diagram::Diagram;
pub use marks::Marks;
pub use words::is_ascii_letter;
