//! Does the work of the program: reads the entries of a file, sets up a position, and prints the answer.

use crate::almost::tell_almost;
use crate::compare::tell_changes;
use crate::coverage::tell_coverage;
use crate::entries::{Entries, entries_of};
use crate::fault::{Fault, noted};
use crate::files::text_of;
use crate::game::game_of;
use crate::options::Options;
use crate::outcome::Outcome;
use crate::task::Task;
use crate::tries::tell_tries;
use helpers::{Helper, Helpers};
use std::alloc::Global;
use std::fs::Files;
use std::io;
use std::io::Write;
use std::time::Clock;
use why_report::{Entry, Setting};

/// The entries of a file.
fn entries_in<R: Files + AllocGlobal>(
    rt: &R,
    helpers: &Helpers,
    file: &str,
) -> Result<Entries, Fault> {
    let alloc = rt.alloc();
    let names = helpers.names(alloc)?;
    let text = text_of(rt, file)?;
    entries_of(alloc, file, text.as_slice(), names.as_slice())
}

/// The entries that the command line names. Fails if the file has no entry of that name.
fn entries_asked<'a>(
    alloc: Global,
    options: &Options,
    known: &'a Entries,
) -> Result<Vec<Entry<'a>>, Fault> {
    let Some(word) = &options.entry else {
        return known.all(alloc);
    };
    let entries = known.named(alloc, word.as_str())?;
    if entries.is_empty() {
        let file = &options.file;
        return Err(noted(format!(in alloc; "{file}: no entry is named {word}")));
    }
    Ok(entries)
}

/// Prints a page.
fn print_page<R: Print>(rt: &R, page: &str) -> Result<(), Fault> {
    io::writer(rt).write_all(page.as_bytes())?;
    Ok(())
}

/// Prints why entries do not match on a position. The outcome is yes if one of them matches.
fn tell_position<R: Files + Input + Print + AllocGlobal>(
    rt: &R,
    options: &Options,
    helpers: &mut Helpers,
    entries: &[Entry<'_>],
) -> Result<Outcome, Fault> {
    let game = game_of(rt, options)?;
    let position = game.position();
    let setting = Setting {
        position: &position,
        depths: game.depths(),
    };
    let task = Task::new(rt.alloc(), options, setting)?;
    let telling = if options.all {
        tell_almost(&task, helpers, entries)?
    } else {
        tell_tries(&task, helpers, entries)?
    };
    print_page(rt, telling.page.as_str())?;
    Ok(Outcome::of(telling.matches))
}

/// Prints what the options ask for. The outcome is yes if something matches; with `--coverage` if each entry fits at
/// least once and no record has a fault; with `--compare` if nothing changed.
pub(crate) fn tell<R: Files + Input + Print + Eprint + Clock + AllocGlobal + Clone + Drop>(
    rt: &R,
    options: &Options,
    helpers: Vec<Box<dyn Helper>>,
    is_terminal: bool,
) -> Result<Outcome, Fault> {
    let alloc = rt.alloc();
    let mut helpers = Helpers::new(alloc, helpers)?;
    let known = entries_in(rt, &helpers, options.file.as_str())?;
    if let Some(folder) = &options.coverage {
        let folder = folder.as_str();
        return tell_coverage(rt, options, &known, folder, &mut helpers, is_terminal);
    }
    if let Some(comparison) = &options.compare {
        let new = entries_in(rt, &helpers, comparison.new.as_str())?;
        return tell_changes(
            rt,
            options,
            comparison,
            known,
            new,
            &mut helpers,
            is_terminal,
        );
    }
    let entries = entries_asked(alloc, options, &known)?;
    tell_position(rt, options, &mut helpers, entries.as_slice())
}
