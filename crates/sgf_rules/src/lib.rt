//! The rules of game records as definitions: tokens, trees, the main line, and the position of a record or its first
//! fault. The crate that reads a record cites the definitions in specs/. Here are the small types that the definitions
//! speak of, and the laws that say in the words of the grammar and of a board what is computed.
//!
//! After SGF FF[4], in this project's own profile: the first game tree's main line, with SZ, AB, AW, AE, B and W.
#![tactic(auto)]

mod area;
mod kind;
mod laws;
mod meaning;
mod token;

pub use area::Area;
pub use kind::FaultKind;
pub use laws::{
    a_text_has_one_first_tree, faults_are_by_kind, main_lines_are_of_first_trees,
    records_go_on_from_their_first_node, the_last_value_sets_a_point,
};
pub use meaning::Meaning;
pub use token::TokenKind;
