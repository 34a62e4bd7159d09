//! Shows why a pattern does not match. For a position that protocol lines set up or that a game record leads to, it
//! prints which part of the definition of a match fails first. Over game records it counts how often each part fails,
//! or prints which matches go and come if a pattern file is changed.
//!
//! `pattern_why [options] FILE [PATTERN[@LINE]]`. The exit status is 0 if something matches, 1 if nothing does, and 2
//! if the command line is faulty, a file has a fault or cannot be read, a line is refused, or memory runs out. With
//! `--coverage` it is 0 if each entry fits somewhere and no record has a fault, and 1 if not. With `--compare` it is 0
//! if no match went or came, 1 if one did, and also 2 if a record has a fault.
#![tactic(auto)]

mod almost;
mod compare;
mod coverage;
mod entries;
mod fault;
mod files;
mod game;
mod joining;
mod main_line;
mod options;
mod outcome;
mod position;
mod progress;
mod records;
mod task;
mod telling;
mod tries;

use crate::fault::Fault;
use crate::options::{Options, options_of};
use crate::outcome::Outcome;
use crate::position::tell;
use helpers::{Helper, NearEdge, NoBan};
use std::io::IsTerminal;
use std::process::ExitCode;
use std::rt::Env;
use std::{env, io};

/// The message for a faulty command line.
const USAGE: &str =
    "usage: pattern_why [--colour b|w] [--at VERTEX] [--all] [--json] [--sgf RECORD [--move N]] FILE [PATTERN[@LINE]], \
or pattern_why [--colour b|w] --coverage FOLDER FILE, \
or pattern_why [--colour b|w] [--json] --compare OLD NEW FOLDER";

/// The words of the command line without the program's name.
fn words_of<R: Env + AllocGlobal>(rt: &R) -> io::Result<Vec<String>> {
    let mut words = Vec::new(rt.alloc());
    for word in env::args(rt)?.skip(1) {
        words.push(word)?;
    }
    Ok(words)
}

/// What the command line asks for; `None` if it is faulty, or cannot be read.
fn options_asked<R: Env + AllocGlobal>(rt: &R) -> Option<Options> {
    let words = words_of(rt).ok()?;
    options_of(rt.alloc(), words.as_slice())
}

/// Prints why there is no answer, and says the exit status.
fn give_up<R: Eprint>(rt: &R, fault: &Fault) -> ExitCode {
    let _ = match fault {
        Fault::NoMemory => eprintln!(rt; "out of memory"),
        Fault::Io(error) => eprintln!(rt; "{error}"),
        Fault::Note(note) => eprintln!(rt; "{note}"),
    };
    ExitCode::from(Outcome::Trouble.status())
}

fn main(rt: HostRuntime) -> ExitCode {
    let Some(options) = options_asked(&rt) else {
        let _ = eprintln!(rt; "{USAGE}");
        return ExitCode::from(Outcome::Trouble.status());
    };
    let alloc = rt.alloc();
    let mut helpers: Vec<Box<dyn Helper>> = Vec::new(alloc);
    let mut has_all = false;
    if let (Ok(near_edge), Ok(no_ban)) = (
        Box::new(alloc, NearEdge::new()),
        Box::new(alloc, NoBan::new()),
    ) {
        has_all = helpers.push(near_edge).is_ok() && helpers.push(no_ban).is_ok();
    }
    let told = if has_all {
        tell(&rt, &options, helpers, rt.stderr().is_terminal())
    } else {
        Err(Fault::NoMemory)
    };
    match told {
        Ok(outcome) => ExitCode::from(outcome.status()),
        Err(fault) => give_up(&rt, &fault),
    }
}
