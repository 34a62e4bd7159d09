//! The program that finds sure captures. It answers protocol lines that set up a position; `attack` and `defend` count
//! only a capture that works whatever the defender plays.
//!
//! `gopat_sure [--depth N] [--branch N] [--tree stated|wider]`. The exit status is that of `gopat` for each of its
//! ends: 0 at the end of the input or after `quit`, 2 for a faulty command line, 3 if memory runs out at the start, 4
//! if the input fails, 5 if the output fails, 8 if the input is too long.
#![tactic(auto)]

mod options;

use crate::options::depths_of;
use gtp_io::{FileLoader, StdSink, StdSource};
use std::process::ExitCode;
use std::rt::Env;
use std::{env, io};
use sure_lines::{Depths, End, SureMachine, serve};

/// The message for a faulty command line.
const USAGE: &str = "usage: gopat_sure [--depth N] [--branch N] [--tree stated|wider]";

/// The exit status for a faulty command line.
const WRONG_WORDS: u8 = 2;

/// The words of the command line without the program's name.
fn words_of<R: Env + AllocGlobal>(rt: &R) -> io::Result<Vec<String>> {
    let mut words = Vec::new(rt.alloc());
    for word in env::args(rt)?.skip(1) {
        words.push(word)?;
    }
    Ok(words)
}

/// The depths that the command line asks for. `None` if its words are no command line of the program, or cannot be
/// read.
fn depths_asked<R: Env + AllocGlobal>(rt: &R) -> Option<Depths> {
    let words = words_of(rt).ok()?;
    depths_of(rt.alloc(), words.as_slice())
}

/// The message for an end of the session, if it has one.
fn note_of(end: End) -> Option<&'static str> {
    match end {
        End::Done => None,
        End::NoMemory => Some("out of memory"),
        End::InputFault => Some("input failed"),
        End::OutputFault => Some("output failed"),
        End::InputTooLong => Some("input too long"),
    }
}

/// The exit status for an end of the session.
fn status_of(end: End) -> u8 {
    match end {
        End::Done => 0,
        End::NoMemory => 3,
        End::InputFault => 4,
        End::OutputFault => 5,
        End::InputTooLong => 8,
    }
}

fn main(rt: HostRuntime) -> ExitCode {
    let Some(depths) = depths_asked(&rt) else {
        let _ = eprintln!(rt; "{USAGE}");
        return ExitCode::from(WRONG_WORDS);
    };
    let alloc = rt.alloc();
    let end = match SureMachine::new(alloc, depths) {
        Ok(mut machine) => serve(
            alloc,
            &mut machine,
            &mut FileLoader::new(alloc, &rt),
            &mut StdSource::new(rt.stdin()),
            &mut StdSink::new(rt.stdout()),
        ),
        Err(_) => End::NoMemory,
    };
    if let Some(note) = note_of(end) {
        let _ = eprintln!(rt; "{note}");
    }
    ExitCode::from(status_of(end))
}
