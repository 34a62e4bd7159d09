//! The options of the program. One command of `clap` reads them from the words of the command line.
//!
//! The command is one value, `command_line`: five options that take a whole number in a range, a flag, and the names of
//! files. It has no short names, no help and no version. `clap`'s own definitions, applied to this value, say which
//! words it takes and what it finds in them.
#![tactic(auto)]

mod command;
mod errors;
mod files;
mod options;

pub use errors::{NoMemory, OptionsError};
pub use files::Files;
pub use options::{Options, read_options};
