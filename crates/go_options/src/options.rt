//! The options, and how they are read from the words of the command line.
ghost use Rattle.std.specs.Prelude.{◌≡◌, ◌≢◌, Some, false, map, string_bytes, true, IfOk, IsErrOf};
ghost use Rattle.std.specs.Prelude.{OnOk};
ghost use Rattle.clap.specs.Matches.{found_of};
ghost use Rattle.clap.specs.Walk.{rows_of};
ghost use Rattle.go_options.specs.CommandLine.{is_taken, rows_in};
ghost use Rattle.go_options.specs.Found.{AreFound, AreInRange, flag_in, number_in, words_in};
ghost use Rattle.go_options.specs.Numbers.{HasNumber, HasNumbers, HasOnlyNumber, largest};

use crate::command::command;
use crate::{Files, NoMemory, OptionsError};
use clap::ArgMatches;
use clap::error::ErrorKind;
use std::alloc::Global;

/// What the words of the command line ask for. Each number lies in the range that its option has in `command`.
#[derive(Debug, Drop)]
pub struct Options {
    /// How many plies deep a reading goes.
    pub depth: u8,
    /// How many plies of a reading are wide.
    pub branch: u8,
    /// The most questions that are cached about readings, and the most about connections.
    pub cache: u32,
    /// The most states of the automaton.
    pub states: u32,
    /// Whether the counts are written at the end of the run.
    pub stats: bool,
    /// How many lines are generated in place of the input, or `None` if the input is read.
    pub generate: Option<u32>,
    /// The names of the pattern files.
    pub files: Files,
}

/// The number of the option `name`, if the option has a value.
fn number(matches: &ArgMatches<'_>, name: &str) -> Option<u32>
    requires { HasOnlyNumber (found_of matches.now) name.now 0 largest }
    ensures { result ≡ number_in name.now (rows_of (found_of matches.now)) }
{
    matches.get_one::<u32>(name)
}

/// The number of the option `name`, which has a value.
fn given_number(matches: &ArgMatches<'_>, name: &str) -> u32
    requires { HasNumber (found_of matches.now) name.now 0 largest }
    ensures { number_in name.now (rows_of (found_of matches.now)) ≡ Some result }
{
    number(matches, name).unwrap()
}

/// Whether the flag `name` is set.
fn flag(matches: &ArgMatches<'_>, name: &str) -> bool
    ensures { result ≡ flag_in name.now (rows_of (found_of matches.now)) }
{
    match matches.get_str(name) {
        Some(text) => text == "true",
        None => false,
    }
}

/// Copies of these names.
fn copied(alloc: Global, names: &[&str]) -> Result<Files, NoMemory>
    ensures { IfOk result (λ files. files ≡ map (λ name. name.now) names.now) }
{
    let mut files = Files::new(alloc);
    for name in names {
        files.push(String::from_str(alloc, name)?)?;
    }
    Ok(files)
}

/// The words that are no option, copied.
fn words(alloc: Global, matches: &ArgMatches<'_>, name: &str) -> Result<Files, NoMemory>
    ensures { IfOk result (λ files. files ≡ words_in name.now (rows_of (found_of matches.now))) }
{
    match matches.get_strs(name) {
        Some(names) => copied(alloc, names),
        None => Ok(Files::new(alloc)),
    }
}

/// The options that a parse found.
fn options_in(alloc: Global, matches: &ArgMatches<'_>) -> Result<Options, NoMemory>
    requires { HasNumbers (found_of matches.now) }
    ensures found { IfOk result (AreFound (rows_of (found_of matches.now))) }
    ensures ranges { IfOk result AreInRange }
{
    let files = words(alloc, matches, "files")?;
    Ok(Options {
        depth: given_number(matches, "depth") as u8,
        branch: given_number(matches, "branch") as u8,
        cache: given_number(matches, "cache"),
        states: given_number(matches, "states"),
        stats: flag(matches, "stats"),
        generate: number(matches, "generate"),
        files,
    })
}

/// The error for a parse that failed with this kind of error.
fn cause(kind: ErrorKind) -> OptionsError
    ensures usage { result ≡ OptionsError.Usage → kind ≢ ErrorKind.OutOfMemory }
    ensures memory { kind ≡ ErrorKind.OutOfMemory → result ≡ OptionsError.NoMemory }
{
    match kind {
        ErrorKind::OutOfMemory => OptionsError::NoMemory,
        _ => OptionsError::Usage,
    }
}

/// The options that the words of a command line give. The program's name is not among the words.
///
/// A value stands after `=` in its option's word, or in the next word, and `--` ends the options. A word that begins
/// with no hyphen, or is `-` alone, names a file. `Usage` comes only if the command line does not take the words: an
/// option is unknown or given twice, its value is missing or is no number in its range, or a flag has a value.
pub fn read_options(alloc: Global, words: &[String]) -> Result<Options, OptionsError>
    ensures found { IfOk result (AreFound (rows_in (map string_bytes words.now))) }
    ensures ranges { IfOk result AreInRange }
    ensures taken { OnOk result (is_taken (map string_bytes words.now) ≡ true) }
    ensures usage { IsErrOf result OptionsError.Usage → is_taken (map string_bytes words.now) ≡ false }
{
    match command(alloc)?.try_get_matches_from(words) {
        Ok(matches) => Ok(options_in(alloc, &matches)?),
        Err(error) => Err(cause(error.kind())),
    }
}
