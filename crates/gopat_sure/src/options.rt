//! Parses the words of the command line.

use clap::{Arg, ArgAction, ArgMatches, Command};
use std::alloc::{AllocError, Global};
use sure_lines::{Depths, Tree};

/// The plies of a reading if no option sets them.
const USUAL_PLIES: u8 = 10;

/// The wide plies of a reading if no option sets them.
const USUAL_WIDE: u8 = 2;

/// An option of the command line with one value.
fn option<'a>(alloc: Global, name: &'a str) -> Arg<'a> {
    Arg::new(alloc, name)
        .long(name)
        .action(ArgAction::Set)
        .num_args(1)
}

/// The command line of the program.
fn command<'a>(alloc: Global) -> Result<Command<'a>, AllocError> {
    Command::new(alloc, "gopat_sure")
        .no_binary_name(true)
        .disable_help_flag(true)
        .disable_version_flag(true)
        .arg(option(alloc, "depth"))?
        .arg(option(alloc, "branch"))?
        .arg(option(alloc, "tree"))
}

/// The number that the option `name` sets, or `usual` if the option is not given. `None` if its value is no number.
fn number_in(matches: &ArgMatches<'_>, name: &str, usual: u8) -> Option<u8> {
    match matches.get_str(name) {
        Some(value) => value.parse().ok(),
        None => Some(usual),
    }
}

/// The tree that names the attacker's candidates: the stated tree if no option names one. `None` if the word names no
/// tree.
fn tree_in(matches: &ArgMatches<'_>) -> Option<Tree> {
    match matches.get_str("tree") {
        None | Some("stated") => Some(Tree::Stated),
        Some("wider") => Some(Tree::Wider),
        Some(_) => None,
    }
}

/// The depths that the words of a command line set; the words come without the program's name. `None` if they are no
/// command line of the program, or a number is out of its range.
pub(crate) fn depths_of(alloc: Global, words: &[String]) -> Option<Depths> {
    let matches = command(alloc).ok()?.try_get_matches_from(words).ok()?;
    let plies = number_in(&matches, "depth", USUAL_PLIES)?;
    let wide = number_in(&matches, "branch", USUAL_WIDE)?;
    Some(Depths::new(plies, wide)?.in_tree(tree_in(&matches)?))
}
