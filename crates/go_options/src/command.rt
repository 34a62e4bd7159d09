//! The command line as a command of `clap`.
ghost use Rattle.std.specs.Prelude.{◌≡◌, false, IfOk};
ghost use Rattle.clap.specs.Simple.{app_of};
ghost use Rattle.clap.specs.Walk.{rule_of};
ghost use Rattle.go_options.specs.CommandLine.{bare_command, command_line, default_rule, flag_rule, option_rule};
ghost use Rattle.go_options.specs.CommandLine.{whole_from, words_rule};

use clap::builder::ValueParser;
use clap::{Arg, ArgAction, Command, value_parser};
use read_rules::{MAX_PLIES, MAX_WIDE, MIN_PLIES};
use std::alloc::{AllocError, Global};

/// An option that has one value.
fn option<'a>(alloc: Global, name: &'a str, values: ValueParser<'a>) -> Arg<'a>
    ensures rule { rule_of result ≡ option_rule name.entry.now values.entry }
    ensures local { result.global ≡ false }
{
    Arg::new(alloc, name)
        .long(name)
        .action(ArgAction::Set)
        .value_parser(values)
}

/// An option that has one value, which is `text` if the option is not given.
fn option_or<'a>(alloc: Global, name: &'a str, values: ValueParser<'a>, text: &'a str) -> Arg<'a>
    ensures rule { rule_of result ≡ default_rule name.entry.now values.entry text.entry.now }
    ensures local { result.global ≡ false }
{
    option(alloc, name, values).default_value(text)
}

/// The whole numbers from `low` to `high`, which fit a byte.
fn bytes_from<'a>(low: u8, high: u8) -> ValueParser<'a>
    ensures { result ≡ whole_from low high }
{
    value_parser!(u8).range(i64::from(low)..=i64::from(high))
}

/// A flag.
fn flag<'a>(alloc: Global, name: &'a str) -> Arg<'a>
    ensures rule { rule_of result ≡ flag_rule name.entry.now }
    ensures local { result.global ≡ false }
{
    Arg::new(alloc, name).long(name).action(ArgAction::SetTrue)
}

/// Any number of words that are no option.
fn words<'a>(alloc: Global, name: &'a str) -> Arg<'a>
    ensures rule { rule_of result ≡ words_rule name.entry.now }
    ensures local { result.global ≡ false }
{
    Arg::new(alloc, name)
        .action(ArgAction::Append)
        .num_args(0..)
}

/// A command whose words begin after the name of the program, without help and version.
fn bare<'a>(alloc: Global, name: &'a str) -> Command<'a>
    ensures { app_of result ≡ bare_command name.entry.now }
{
    Command::new(alloc, name)
        .no_binary_name(true)
        .disable_help_flag(true)
        .disable_version_flag(true)
}

/// The command line of the program.
pub(crate) fn command<'a>(alloc: Global) -> Result<Command<'a>, AllocError>
    ensures { IfOk result (λ c. app_of c ≡ command_line) }
{
    let depth = option_or(alloc, "depth", bytes_from(MIN_PLIES, MAX_PLIES), "10");
    let branch = option_or(alloc, "branch", bytes_from(0, MAX_WIDE), "2");
    let cache = option_or(alloc, "cache", value_parser!(u32).range(8..=65_536), "4096");
    let states = option_or(
        alloc,
        "states",
        value_parser!(u32).range(1..=1_000_000),
        "100000",
    );
    let generate = option(alloc, "generate", value_parser!(u32).range(1..=100_000));
    let command = bare(alloc, "gopat")
        .arg(depth)?
        .arg(branch)?
        .arg(cache)?
        .arg(states)?
        .arg(generate)?
        .arg(flag(alloc, "stats"))?
        .arg(words(alloc, "files"))?;
    Ok(command)
}
