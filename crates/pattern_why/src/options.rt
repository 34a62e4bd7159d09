//! What the command line asks for.

use clap::{Arg, ArgAction, ArgMatches, Command};
use go_base::Colour;
use std::alloc::{AllocError, Global};

/// The files that the entries of the pattern file are compared with, and over.
#[derive(Drop)]
pub(crate) struct Comparison {
    /// The file with the new entries.
    pub(crate) new: String,
    /// The folder of the records over which the files are compared.
    pub(crate) folder: String,
}

/// What the command line asks for.
#[derive(Drop)]
pub(crate) struct Options {
    /// The colour for which entries are tried; both colours if `None`.
    pub(crate) colour: Option<Colour>,
    /// The vertex at which entries are tried; every point if `None`.
    pub(crate) at: Option<String>,
    /// The folder of the records over which tries are counted; `None` if they are not counted.
    pub(crate) coverage: Option<String>,
    /// The comparison with a new file; `None` if there is none.
    pub(crate) compare: Option<Comparison>,
    /// Whether to print one line for each entry and colour, the tries in which most parts hold first.
    pub(crate) all: bool,
    /// Whether to print objects of JSON.
    pub(crate) json: bool,
    /// The game record that leads to the position; lines of standard input set it up if `None`.
    pub(crate) record: Option<String>,
    /// The number of moves of the record that are played; all moves if `None`.
    pub(crate) moves: Option<u64>,
    /// The pattern file; in a comparison the old file.
    pub(crate) file: String,
    /// The name of the entries that are tried, or the name and line of one; all entries of the file if `None`.
    pub(crate) entry: Option<String>,
}

impl Options {
    /// The colours for which entries are tried.
    pub(crate) fn colours(&self) -> &'static [Colour] {
        match self.colour {
            Some(Colour::Black) => &[Colour::Black],
            Some(Colour::White) => &[Colour::White],
            None => &[Colour::Black, Colour::White],
        }
    }
}

/// A flag of the command line.
fn flag<'a>(alloc: Global, name: &'a str) -> Arg<'a> {
    Arg::new(alloc, name).long(name).action(ArgAction::SetTrue)
}

/// An option with a value.
fn value<'a>(alloc: Global, name: &'a str) -> Arg<'a> {
    Arg::new(alloc, name).long(name).action(ArgAction::Set)
}

/// The words that are not options.
fn plain_words<'a>(alloc: Global) -> Arg<'a> {
    Arg::new(alloc, "names")
        .action(ArgAction::Append)
        .num_args(0..)
}

/// The command line of the program.
fn command<'a>(alloc: Global) -> Result<Command<'a>, AllocError> {
    Command::new(alloc, "pattern_why")
        .no_binary_name(true)
        .disable_help_flag(true)
        .disable_version_flag(true)
        .arg(value(alloc, "colour"))?
        .arg(value(alloc, "at"))?
        .arg(value(alloc, "coverage"))?
        .arg(flag(alloc, "compare"))?
        .arg(flag(alloc, "all"))?
        .arg(flag(alloc, "json"))?
        .arg(value(alloc, "sgf"))?
        .arg(value(alloc, "move"))?
        .arg(plain_words(alloc))
}

/// Whether a flag is set.
fn is_set(matches: &ArgMatches<'_>, flag: &str) -> bool {
    matches.get_str(flag) == Some("true")
}

/// A copy of the value of an option: `Some(None)` if the option is not given, and `None` if memory runs out.
fn text_in(alloc: Global, matches: &ArgMatches<'_>, name: &str) -> Option<Option<String>> {
    match matches.get_str(name) {
        Some(text) => match String::from_str(alloc, text) {
            Ok(copy) => Some(Some(copy)),
            Err(_) => None,
        },
        None => Some(None),
    }
}

/// The colour: `Some(None)` if none is given, and `None` if the word is neither `b` nor `w`.
fn colour_in(matches: &ArgMatches<'_>) -> Option<Option<Colour>> {
    match matches.get_str("colour") {
        None => Some(None),
        Some("b") => Some(Some(Colour::Black)),
        Some("w") => Some(Some(Colour::White)),
        Some(_) => None,
    }
}

/// The number of moves: `Some(None)` if none is given, and `None` if the word is not a number.
fn moves_in(matches: &ArgMatches<'_>) -> Option<Option<u64>> {
    match matches.get_str("move") {
        None => Some(None),
        Some(text) => match text.parse::<u64>() {
            Ok(moves) => Some(Some(moves)),
            Err(_) => None,
        },
    }
}

/// The names on the command line.
#[derive(Drop)]
struct CommandNames {
    /// The pattern file.
    file: String,
    /// The entry, if one is named.
    entry: Option<String>,
    /// The comparison with a new file, if one is asked for.
    compare: Option<Comparison>,
}

/// The names for `--compare`: the old file, the new file and the folder. `None` if there are fewer or more names.
fn compared_names(alloc: Global, names: &[&str]) -> Option<CommandNames> {
    let [old, new, folder] = names else {
        return None;
    };
    Some(CommandNames {
        file: String::from_str(alloc, old).ok()?,
        entry: None,
        compare: Some(Comparison {
            new: String::from_str(alloc, new).ok()?,
            folder: String::from_str(alloc, folder).ok()?,
        }),
    })
}

/// The pattern file, and the entry if one is named. `None` if there is no file, or one word too many.
fn tried_names(alloc: Global, names: &[&str]) -> Option<CommandNames> {
    let (file, entry) = match names {
        [file] => (file, None),
        [file, entry] => (file, Some(String::from_str(alloc, entry).ok()?)),
        _ => return None,
    };
    Some(CommandNames {
        file: String::from_str(alloc, file).ok()?,
        entry,
        compare: None,
    })
}

/// The names on the command line; `None` if there are too few or too many.
fn names_in(alloc: Global, matches: &ArgMatches<'_>) -> Option<CommandNames> {
    let names = matches.get_strs("names")?;
    if is_set(matches, "compare") {
        compared_names(alloc, names)
    } else {
        tried_names(alloc, names)
    }
}

/// Whether the options ask for a position, or for something that needs one.
fn has_position(options: &Options) -> bool {
    options.at.is_some() || options.record.is_some() || options.entry.is_some() || options.all
}

/// Whether the options can be combined. `--move` needs `--sgf`; `--all` needs `--at` and excludes an entry.
/// `--coverage` allows only `--colour`, and no entry; `--compare` allows only `--colour` and `--json`.
fn are_together(options: &Options) -> bool {
    let has_record = options.record.is_some() || options.moves.is_none();
    let has_point = !options.all || (options.at.is_some() && options.entry.is_none());
    let is_covered = options.coverage.is_none() || !(has_position(options) || options.json);
    let is_compared = options.compare.is_none()
        || !(has_position(options) || options.coverage.is_some());
    has_record && has_point && is_covered && is_compared
}

/// What a parsed command line asks for; `None` if its options cannot be combined.
fn options_in(alloc: Global, matches: &ArgMatches<'_>) -> Option<Options> {
    let CommandNames {
        file,
        entry,
        compare,
    } = names_in(alloc, matches)?;
    let options = Options {
        colour: colour_in(matches)?,
        at: text_in(alloc, matches, "at")?,
        coverage: text_in(alloc, matches, "coverage")?,
        compare,
        all: is_set(matches, "all"),
        json: is_set(matches, "json"),
        record: text_in(alloc, matches, "sgf")?,
        moves: moves_in(matches)?,
        file,
        entry,
    };
    if are_together(&options) {
        Some(options)
    } else {
        None
    }
}

/// What the words of a command line ask for; the program's name is not one of them. `None` if they are no command line
/// with a file.
pub(crate) fn options_of(alloc: Global, words: &[String]) -> Option<Options> {
    let matches = command(alloc).ok()?.try_get_matches_from(words).ok()?;
    options_in(alloc, &matches)
}
