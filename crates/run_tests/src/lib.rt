//! Runs over sources, sinks and loaders in memory: what the contract of `session::run` says of them, and the worked
//! sessions as tests.
//!
//! A feed tells the bytes that it has left, a page the bytes that it holds, and a shelf the contents of its files, so
//! here the contract names these bytes. If none of them can fail, the run reports no fault of a file, the input or the
//! output.
#![tactic(auto)]

ghost use Rattle.std.specs.Prelude.{◌≢◌, map, string_bytes};
ghost use Rattle.gtp_io.specs.Loading.{named};
ghost use Rattle.session_core.specs.Handed.{handed};
ghost use Rattle.session.specs.Outcomes.{phase_of};
ghost use Rattle.run_tests.specs.MemoryRuns.{ComesTo};

use gtp_io::{Feed, Page, Shelf, SureFeed, SurePage, SureShelf};
use helpers::Helper;
use session::{Outcome, run};
use std::alloc::Global;

/// Runs the program over bytes and files in memory, and puts the replies on `page`.
pub fn run_in_memory(
    alloc: Global,
    words: &[String],
    shelf: &mut Shelf,
    feed: &mut Feed,
    page: &mut Page,
    helpers: Vec<Box<dyn Helper>>,
) -> Outcome
    ensures { ComesTo (handed state helpers.items) (map string_bytes words.now)
        (named shelf.old.names shelf.old.contents) feed.old.left feed.new.left
        page.old.written page.new.written feed.new.piece (phase_of result) }
{
    run(
        alloc,
        words,
        shelf,
        feed,
        page,
        &mut SurePage::new(),
        helpers,
    )
}

/// Runs the program over a shelf, a feed and a page that never fail.
pub fn run_surely(
    alloc: Global,
    words: &[String],
    shelf: &mut SureShelf,
    feed: &mut SureFeed,
    page: &mut SurePage,
    helpers: Vec<Box<dyn Helper>>,
) -> Outcome
    ensures file { result ≢ Outcome.FileFault }
    ensures input { result ≢ Outcome.InputFault }
    ensures output { result ≢ Outcome.OutputFault }
{
    run(
        alloc,
        words,
        shelf,
        feed,
        page,
        &mut SurePage::new(),
        helpers,
    )
}

#[cfg(test)]
mod sessions;
#[cfg(test)]
mod tests;
