//! Reading a game record: the position at the end of its main line, or after its first node, or its first fault.
//!
//! One pass over the tokens finds whether the text begins with a game tree. It keeps the last token's kind and a count
//! of open trees, so a text with deep trees costs neither stack nor memory. The main line is the nodes before the first
//! `)`: a second pass goes through them, and through each node's values anew for each kind of fault. Each call meets
//! the definitions of `sgf_rules`, and none takes memory.
//!
//! A caller that needs more of a record than its position, such as the comments of a problem, can cut the record into
//! the same tokens with `tree_start` and `token_from`.
//!
//! After SGF FF[4], in this project's own profile.
#![tactic(auto)]

mod error;
mod first;
mod game;
mod points;
mod setup;
mod token;
mod tree;
mod uses;
mod values;

pub use error::SgfError;
pub use first::read_first_node;
pub use game::{read, read_game};
pub use points::{area_of, move_of};
pub use sgf_rules::FaultKind;
pub use token::{Token, token_from};
pub use tree::tree_start;
pub use values::{takes, write_capitals};
