//! A checker for authors of problem sets. For each record it prints the code of its question, all moves that attain
//! this code, the fewest plies with which the question has it, and whether that is what the author expects.
//!
//! `check_problems [--depths PLIES WIDE] [--tree stated|wider|sure|sure-wider] [--anywhere] [--only NAME] [--proof]
//! [--json] FOLDER|FILE...`. The exit status is 0 if every record is as expected, 1 if some record is not, and 2 if the
//! command line is faulty or names no record, a folder cannot be listed, or memory runs out.
#![tactic(auto)]

mod options;
mod progress;
mod record_names;

use crate::options::{Options, options_of};
use crate::progress::Progress;
use crate::record_names::records_of;
use go_base::NoMemory;
use problem_rows::{Counts, Row, print_object, print_row, row_of};
use std::fs::Files;
use std::io::{IsTerminal, Write};
use std::process::ExitCode;
use std::rt::Env;
use std::time::Clock;
use std::{env, fs, io};

/// The message for a faulty command line.
const USAGE: &str =
    "usage: check_problems [--depths PLIES WIDE] [--tree stated|wider|sure|sure-wider] [--anywhere] [--only NAME] \
[--proof] [--json] FOLDER|FILE...";

/// The exit status if some record is not as expected.
const NOT_AS_EXPECTED: u8 = 1;

/// The exit status if no record can be judged.
const NOT_CHECKED: u8 = 2;

/// Out of memory, as an error of the program.
fn no_memory(_error: NoMemory) -> io::Error {
    io::Error::from(io::ErrorKind::OutOfMemory)
}

/// The row of the record called `name`.
fn row_at<R: Files + AllocGlobal>(rt: &R, options: &Options, name: &str) -> io::Result<Row> {
    match fs::read(rt, name) {
        Ok(text) => {
            let text = text.as_slice();
            row_of(
                rt.alloc(),
                text,
                options.depths,
                options.replies,
                options.scope,
                options.proof,
            )
            .map_err(no_memory)
        }
        Err(_) => Ok(Row::NotLoaded),
    }
}

/// The line that prints `row`, as columns or as an object of JSON.
fn line_of<R: AllocGlobal>(rt: &R, options: &Options, name: &str, row: &Row) -> io::Result<String> {
    let mut line = String::new(rt.alloc());
    if options.json {
        print_object(&mut line, name, row)?;
    } else {
        print_row(&mut line, name, row)?;
    }
    Ok(line)
}

/// Checks the record called `name`, prints its line, and counts it.
fn check_record<R: Files + Print + Eprint + Clock + AllocGlobal>(
    rt: &R,
    options: &Options,
    progress: &mut Progress,
    counts: &mut Counts,
    name: &str,
) -> io::Result<()> {
    progress.tell(rt, "reading", name)?;
    let row = row_at(rt, options, name)?;
    counts.count(&row);
    let line = line_of(rt, options, name, &row)?;
    progress.clear(rt)?;
    io::writer(rt).write_all(line.as_bytes())
}

/// Checks the records in their order, and says the exit status.
fn check_records<R: Files + Print + Eprint + Clock + AllocGlobal + Clone + Drop>(
    rt: &R,
    options: &Options,
    is_terminal: bool,
) -> io::Result<ExitCode> {
    let names = records_of(rt, options)?;
    if names.is_empty() {
        eprintln!(rt; "no record")?;
        return Ok(ExitCode::from(NOT_CHECKED));
    }
    let mut progress = Progress::begin(rt, is_terminal)?;
    let mut counts = Counts::new();
    for name in &names {
        check_record(rt, options, &mut progress, &mut counts, name.as_str())?;
    }
    eprintln!(rt; "{counts}")?;
    if counts.is_all_as_expected() {
        Ok(ExitCode::SUCCESS)
    } else {
        Ok(ExitCode::from(NOT_AS_EXPECTED))
    }
}

/// The words of the command line without the program's name.
fn words_of<R: Env + AllocGlobal>(rt: &R) -> io::Result<Vec<String>> {
    let mut words = Vec::new(rt.alloc());
    for word in env::args(rt)?.skip(1) {
        words.push(word)?;
    }
    Ok(words)
}

/// What the command line asks for; `None` if it is faulty, or cannot be read.
fn options_asked<R: Env + AllocGlobal>(rt: &R) -> Option<Options> {
    let words = words_of(rt).ok()?;
    options_of(rt.alloc(), words.as_slice())
}

fn main(rt: HostRuntime) -> ExitCode {
    let Some(options) = options_asked(&rt) else {
        let _ = eprintln!(rt; "{USAGE}");
        return ExitCode::from(NOT_CHECKED);
    };
    match check_records(&rt, &options, rt.stderr().is_terminal()) {
        Ok(code) => code,
        Err(error) => {
            let _ = eprintln!(rt; "{error}");
            ExitCode::from(NOT_CHECKED)
        }
    }
}
