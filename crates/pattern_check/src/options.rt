//! What the command line asks for.

use clap::{Arg, ArgAction, ArgMatches, Command};
use std::alloc::{AllocError, Global};

/// The greatest limit of states that can be asked for.
const MOST_STATES: u32 = 1_000_000;

/// What the command line asks for.
#[derive(Drop)]
pub(crate) struct Options {
    /// Whether warnings are left out.
    pub(crate) quiet: bool,
    /// Whether there are notes for entries of GNU Go.
    pub(crate) port: bool,
    /// The limit of the states of the automaton; `None` if the states are not asked for.
    pub(crate) states: Option<u32>,
    /// The names of the files, at least one.
    pub(crate) files: Vec<String>,
}

/// A flag of the command line.
fn flag<'a>(alloc: Global, name: &'a str) -> Arg<'a> {
    Arg::new(alloc, name).long(name).action(ArgAction::SetTrue)
}

/// The option for the limit of states.
fn states<'a>(alloc: Global) -> Arg<'a> {
    Arg::new(alloc, "states")
        .long("states")
        .action(ArgAction::Set)
}

/// The argument for the names of the files.
fn files<'a>(alloc: Global) -> Arg<'a> {
    Arg::new(alloc, "files")
        .action(ArgAction::Append)
        .num_args(0..)
}

/// The command line of the program.
fn command<'a>(alloc: Global) -> Result<Command<'a>, AllocError> {
    Command::new(alloc, "pattern_check")
        .no_binary_name(true)
        .disable_help_flag(true)
        .disable_version_flag(true)
        .arg(flag(alloc, "quiet"))?
        .arg(flag(alloc, "port"))?
        .arg(states(alloc))?
        .arg(files(alloc))
}

/// Whether a flag is set.
fn is_set(matches: &ArgMatches<'_>, flag: &str) -> bool {
    matches.get_str(flag) == Some("true")
}

/// The names of the files.
fn files_in(alloc: Global, matches: &ArgMatches<'_>) -> Option<Vec<String>> {
    let mut files = Vec::new(alloc);
    for name in matches.get_strs("files")? {
        files.push(String::from_str(alloc, name).ok()?).ok()?;
    }
    Some(files)
}

/// The limit of states: `Some(None)` if there is none, and `None` if it is not a number from 1 to `MOST_STATES`.
fn states_in(matches: &ArgMatches<'_>) -> Option<Option<u32>> {
    let Some(text) = matches.get_str("states") else {
        return Some(None);
    };
    match text.parse::<u32>() {
        Ok(limit) if 1 <= limit && limit <= MOST_STATES => Some(Some(limit)),
        _ => None,
    }
}

/// What a parsed command line asks for; `None` if it has no file.
fn options_in(alloc: Global, matches: &ArgMatches<'_>) -> Option<Options> {
    let states = states_in(matches)?;
    let files = files_in(alloc, matches)?;
    if files.is_empty() {
        return None;
    }
    Some(Options {
        quiet: is_set(matches, "quiet"),
        port: is_set(matches, "port"),
        states,
        files,
    })
}

/// What the words of a command line ask for; the program's name is not one of them. `None` if they are no command line
/// with a file.
pub(crate) fn options_of(alloc: Global, words: &[String]) -> Option<Options> {
    let matches = command(alloc).ok()?.try_get_matches_from(words).ok()?;
    options_in(alloc, &matches)
}
