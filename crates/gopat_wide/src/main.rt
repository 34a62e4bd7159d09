//! The program that reads the wider tree: it answers the same lines as `gopat`, with the same options and files. Its
//! readings try more moves, so they are stronger and take longer.
#![tactic(auto)]

use gtp_io::{FileLoader, StdSink, StdSource};
use helpers::{Helper, NearEdge, NoBan};
use program::words;
use read_rules::Tree;
use session::{WordsError, run_words_in};
use std::process::ExitCode;

fn main(rt: HostRuntime) -> ExitCode {
    let alloc = rt.alloc();
    let mut helpers: Vec<Box<dyn Helper>> = Vec::new(alloc);
    let mut has_all = false;
    if let (Ok(near_edge), Ok(no_ban)) = (
        Box::new(alloc, NearEdge::new()),
        Box::new(alloc, NoBan::new()),
    ) {
        has_all = helpers.push(near_edge).is_ok() && helpers.push(no_ban).is_ok();
    }
    let words = if has_all {
        words(&rt)
    } else {
        Err(WordsError::NoMemory)
    };
    let outcome = run_words_in(
        alloc,
        Tree::Wider,
        words,
        &mut FileLoader::new(alloc, &rt),
        &mut StdSource::new(rt.stdin()),
        &mut StdSink::new(rt.stdout()),
        &mut StdSink::new(rt.stderr()),
        helpers,
    );
    ExitCode::from(outcome.code())
}
