//! What the command line asks for.

use clap::{Arg, ArgAction, ArgMatches, Command};
use problem_verdicts::{Depths, Replies, Scope, Tree};
use std::alloc::{AllocError, Global};

/// The plies of a question whose record says no depths.
const USUAL_PLIES: u8 = 10;

/// The wide plies of a question whose record says no depths.
const USUAL_WIDE: u8 = 2;

/// What the command line asks for.
#[derive(Drop)]
pub(crate) struct Options {
    /// The depths of a question whose record says none, and the tree of all questions.
    pub(crate) depths: Depths,
    /// The defender's replies against which an answer holds.
    pub(crate) replies: Replies,
    /// The moves of a question that are judged.
    pub(crate) scope: Scope,
    /// The file name of the records that are checked; `None` if all records are checked.
    pub(crate) only: Option<String>,
    /// Whether the proof of each code is printed.
    pub(crate) proof: bool,
    /// Whether each line is an object of JSON.
    pub(crate) json: bool,
    /// The names of folders and files, at least one.
    pub(crate) places: Vec<String>,
}

/// A flag of the command line.
fn flag<'a>(alloc: Global, name: &'a str) -> Arg<'a> {
    Arg::new(alloc, name).long(name).action(ArgAction::SetTrue)
}

/// An option with this number of values.
fn option<'a>(alloc: Global, name: &'a str, values: usize) -> Arg<'a> {
    Arg::new(alloc, name)
        .long(name)
        .action(ArgAction::Set)
        .num_args(values)
}

/// The names of folders and files.
fn places<'a>(alloc: Global) -> Arg<'a> {
    Arg::new(alloc, "places")
        .action(ArgAction::Append)
        .num_args(0..)
}

/// The command line of the program.
fn command<'a>(alloc: Global) -> Result<Command<'a>, AllocError> {
    Command::new(alloc, "check_problems")
        .no_binary_name(true)
        .disable_help_flag(true)
        .disable_version_flag(true)
        .arg(option(alloc, "depths", 2))?
        .arg(option(alloc, "tree", 1))?
        .arg(option(alloc, "only", 1))?
        .arg(flag(alloc, "anywhere"))?
        .arg(flag(alloc, "proof"))?
        .arg(flag(alloc, "json"))?
        .arg(places(alloc))
}

/// Whether a flag is set.
fn is_set(matches: &ArgMatches<'_>, flag: &str) -> bool {
    matches.get_str(flag) == Some("true")
}

/// The depths; `None` if they are not two numbers in their ranges.
fn depths_in(matches: &ArgMatches<'_>) -> Option<Depths> {
    match matches.get_strs("depths") {
        Some([plies, wide]) => Depths::new(plies.parse().ok()?, wide.parse().ok()?),
        Some(_) => None,
        None => Depths::new(USUAL_PLIES, USUAL_WIDE),
    }
}

/// The replies against which answers hold, and the tree. For sure answers the tree says which candidates the attacker
/// has. `None` if the word names no tree.
fn tree_in(matches: &ArgMatches<'_>) -> Option<(Replies, Tree)> {
    match matches.get_str("tree") {
        None | Some("stated") => Some((Replies::Tried, Tree::Stated)),
        Some("wider") => Some((Replies::Tried, Tree::Wider)),
        Some("sure") => Some((Replies::Every, Tree::Stated)),
        Some("sure-wider") => Some((Replies::Every, Tree::Wider)),
        Some(_) => None,
    }
}

/// The moves of a question that are judged.
fn scope_in(matches: &ArgMatches<'_>) -> Scope {
    if is_set(matches, "anywhere") {
        Scope::Anywhere
    } else {
        Scope::Tried
    }
}

/// The names of folders and files.
fn places_in(alloc: Global, matches: &ArgMatches<'_>) -> Option<Vec<String>> {
    let mut places = Vec::new(alloc);
    for name in matches.get_strs("places")? {
        places.push(String::from_str(alloc, name).ok()?).ok()?;
    }
    Some(places)
}

/// The file name of the records that are checked: `Some(None)` if all records are checked, and `None` if memory runs
/// out.
fn only_in(alloc: Global, matches: &ArgMatches<'_>) -> Option<Option<String>> {
    match matches.get_str("only") {
        Some(name) => Some(Some(String::from_str(alloc, name).ok()?)),
        None => Some(None),
    }
}

/// What a parsed command line asks for. `None` if it names no folder and no file, or asks for the proof of a sure code,
/// which has no proof.
fn options_in(alloc: Global, matches: &ArgMatches<'_>) -> Option<Options> {
    let (replies, tree) = tree_in(matches)?;
    let proof = is_set(matches, "proof");
    if proof && replies == Replies::Every {
        return None;
    }
    let depths = depths_in(matches)?.in_tree(tree);
    let places = places_in(alloc, matches)?;
    if places.is_empty() {
        return None;
    }
    Some(Options {
        depths,
        replies,
        scope: scope_in(matches),
        only: only_in(alloc, matches)?,
        proof,
        json: is_set(matches, "json"),
        places,
    })
}

/// What the words of a command line ask for; the program's name is not one of them. `None` if they are no command line
/// with a folder or a file.
pub(crate) fn options_of(alloc: Global, words: &[String]) -> Option<Options> {
    let matches = command(alloc).ok()?.try_get_matches_from(words).ok()?;
    options_in(alloc, &matches)
}
