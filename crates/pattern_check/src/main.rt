//! A checker for authors of pattern files. It prints the first fault of every entry with its place and cause, what the
//! author may not have meant, and how many states the automaton of the entries has.
//!
//! `pattern_check [--quiet] [--port] [--states N] FILE...`; `-` is standard input. The exit status is 0 if no file has
//! a fault, 1 if some file has one, and 2 if the command line is faulty, a file cannot be read, or memory runs out.
#![tactic(auto)]

mod checker;
mod counts;
mod list;
mod options;
mod page;
mod progress;

use crate::checker::{Checker, NOT_CHECKED};
use crate::options::{Options, options_of};
use crate::progress::Progress;
use pattern_report::NoMemory;
use std::fs::Files;
use std::io::{IsTerminal, Read, Write};
use std::process::ExitCode;
use std::rt::Env;
use std::time::Clock;
use std::{env, fs, io};

/// The message for a faulty command line.
const USAGE: &str =
    "usage: pattern_check [--quiet] [--port] [--states N] FILE... ('-' is standard input)";

/// The size in bytes from which the check of a text may take longer.
const LONG_TEXT: usize = 1 << 19;

/// The text of a file, or of standard input.
fn text_of<R: Files + Input + AllocGlobal>(rt: &R, file: &str) -> io::Result<Vec<u8>> {
    if file != "-" {
        return fs::read(rt, file);
    }
    let mut text = Vec::new(rt.alloc());
    rt.reader().read_to_end(&mut text)?;
    Ok(text)
}

/// Out of memory, as an error of the program.
fn no_memory(_error: NoMemory) -> io::Error {
    io::Error::from(io::ErrorKind::OutOfMemory)
}

/// Prints a page, and erases the line of progress first.
fn print_page<R: Print + Eprint>(rt: &R, progress: &mut Progress, page: &str) -> io::Result<()> {
    progress.clear(rt)?;
    io::writer(rt).write_all(page.as_bytes())
}

/// Checks the text of the file with this `index`, and prints the results.
fn check_text<R: Print + Eprint + Clock + AllocGlobal>(
    rt: &R,
    options: &Options,
    checker: &mut Checker,
    progress: &mut Progress,
    index: usize,
    file: &str,
    text: &[u8],
) -> io::Result<()> {
    progress.tell(rt, text.len() > LONG_TEXT, "checking", file)?;
    let mut page = String::new(rt.alloc());
    checker
        .check(rt.alloc(), options, index, file, text, &mut page)
        .map_err(no_memory)?;
    print_page(rt, progress, page.as_str())
}

/// Checks the file with this `index`, and prints the results, or that the file cannot be read.
fn check_file<R: Files + Input + Print + Eprint + Clock + AllocGlobal>(
    rt: &R,
    options: &Options,
    checker: &mut Checker,
    progress: &mut Progress,
    index: usize,
    file: &str,
) -> io::Result<()> {
    match text_of(rt, file) {
        Ok(text) => check_text(rt, options, checker, progress, index, file, text.as_slice()),
        Err(error) => {
            checker.miss();
            progress.clear(rt)?;
            eprintln!(rt; "{file}: {error}")
        }
    }
}

/// Prints the results of all files together.
fn finish<R: Print + Eprint + Clock + AllocGlobal>(
    rt: &R,
    options: &Options,
    checker: &Checker,
    progress: &mut Progress,
) -> io::Result<()> {
    if options.states.is_some() {
        progress.tell(rt, true, "counting", "states")?;
    }
    let mut page = String::new(rt.alloc());
    checker
        .finish(rt.alloc(), options, &mut page)
        .map_err(no_memory)?;
    print_page(rt, progress, page.as_str())
}

/// Checks the files in their order, and says the exit status.
fn check_files<R: Files + Input + Print + Eprint + Clock + AllocGlobal>(
    rt: &R,
    options: &Options,
    is_terminal: bool,
) -> io::Result<ExitCode> {
    let mut progress = Progress::begin(rt, is_terminal)?;
    let mut checker = Checker::new(rt.alloc()).map_err(no_memory)?;
    for (index, file) in options.files.iter().enumerate() {
        check_file(
            rt,
            options,
            &mut checker,
            &mut progress,
            index,
            file.as_str(),
        )?;
    }
    finish(rt, options, &checker, &mut progress)?;
    Ok(ExitCode::from(checker.status()))
}

/// The words of the command line without the program's name.
fn words_of<R: Env + AllocGlobal>(rt: &R) -> io::Result<Vec<String>> {
    let mut words = Vec::new(rt.alloc());
    for word in env::args(rt)?.skip(1) {
        words.push(word)?;
    }
    Ok(words)
}

/// What the command line asks for; `None` if it is faulty, or cannot be read.
fn options_asked<R: Env + AllocGlobal>(rt: &R) -> Option<Options> {
    let words = words_of(rt).ok()?;
    options_of(rt.alloc(), words.as_slice())
}

fn main(rt: HostRuntime) -> ExitCode {
    let Some(options) = options_asked(&rt) else {
        let _ = eprintln!(rt; "{USAGE}");
        return ExitCode::from(NOT_CHECKED);
    };
    match check_files(&rt, &options, rt.stderr().is_terminal()) {
        Ok(code) => code,
        Err(error) => {
            let _ = eprintln!(rt; "{error}");
            ExitCode::from(NOT_CHECKED)
        }
    }
}
