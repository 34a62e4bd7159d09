//! The results for the records of a problem set: a row for each record, as columns or as an object of JSON, and the
//! number of records with each verdict.
#![tactic(auto)]

mod counts;
mod json;
mod page;
mod row;

pub use counts::Counts;
pub use json::print_object;
pub use page::print_row;
pub use row::{Asked, Row, row_of};
