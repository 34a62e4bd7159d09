//! Shows what a change of a pattern file changes over the records of a folder.

ghost use Rattle.std.specs.Prelude.{⊤};

use crate::entries::Entries;
use crate::fault::Fault;
use crate::files::text_of;
use crate::game::depths_at_first;
use crate::joining::{MOST_ENTRIES, MOST_STATES, join_fault, too_many};
use crate::main_line::main_line;
use crate::options::{Comparison, Options};
use crate::outcome::Outcome;
use crate::progress::Progress;
use crate::records::records_of;
use go_base::{Colour, Position, Size};
use helpers::Helpers;
use match_engine::Readings;
use pattern_changes::{Change, Matcher, Way, changes_over};
use std::alloc::{AllocError, Global};
use std::fs::Files;
use std::io;
use std::io::Write;
use std::time::Clock;
use why_report::{Entry, colour_name, put_entry, put_name, put_text, put_vertex};

/// The number of readings that are cached: that of the program `gopat` without its option `cache`.
const KEPT_READINGS: u32 = 4096;

/// The entries of a file, ready to be matched.
#[derive(Drop)]
struct Side {
    /// The patterns of the entries.
    matcher: Matcher,
    /// The line numbers of their Pattern lines.
    lines: Vec<u64>,
}

impl Side {
    /// Makes the entries of a file ready to be matched.
    fn new(alloc: Global, file: &str, entries: Entries) -> Result<Side, Fault> {
        let (patterns, lines) = entries.into_parts();
        if patterns.len() > MOST_ENTRIES {
            return Err(too_many(alloc, file));
        }
        match Matcher::new(alloc, patterns, MOST_STATES) {
            Ok(matcher) => Ok(Side { matcher, lines }),
            Err(error) => Err(join_fault(alloc, file, &error)),
        }
    }

    /// The entry at index `place` of the file.
    fn entry(&self, place: u16) -> Option<Entry<'_>> {
        let pattern = self.matcher.patterns().get(place as usize)?;
        let line = *self.lines.get(place as usize)?;
        Some(Entry { pattern, line })
    }
}

/// The entries of both files.
#[derive(Drop)]
struct Both {
    /// The entries of the old file.
    old: Side,
    /// The entries of the new file.
    new: Side,
}

impl Both {
    /// The entry of a change: in the old file if the match went, in the new file if it came.
    fn entry(&self, change: &Change) -> Option<Entry<'_>> {
        match change.way {
            Way::Went => self.old.entry(change.found.pattern),
            Way::Came => self.new.entry(change.found.pattern),
        }
    }
}

/// The counts over all records.
#[derive(Clone, Copy)]
struct Totals {
    /// The number of records.
    records: u64,
    /// The number of positions.
    positions: u64,
    /// The number of matches that came.
    came: u64,
    /// The number of matches that went.
    went: u64,
    /// Whether a record could not be read to its end.
    missed: bool,
}

impl Totals {
    /// The counts before any record.
    fn new() -> Totals {
        Totals {
            records: 0,
            positions: 0,
            came: 0,
            went: 0,
            missed: false,
        }
    }

    /// Counts a record with this number of `positions`, and its `changes`.
    fn add(&mut self, positions: usize, changes: &[Change]) {
        self.records = self.records.saturating_add(1);
        self.positions = self.positions.saturating_add(positions as u64);
        for change in changes {
            match change.way {
                Way::Went => self.went = self.went.saturating_add(1),
                Way::Came => self.came = self.came.saturating_add(1),
            }
        }
    }

    /// The outcome for the exit status.
    fn outcome(&self) -> Outcome {
        if self.missed {
            Outcome::Trouble
        } else if self.came == 0 && self.went == 0 {
            Outcome::Yes
        } else {
            Outcome::No
        }
    }
}

/// The word for a change.
fn way_name(way: Way) -> &'static str {
    match way {
        Way::Went => "went",
        Way::Came => "came",
    }
}

/// Prints a line of text: the record and the move, the entry, the colour, the vertex, the transformation, and whether
/// the match went or came.
fn put_line(
    page: &mut String,
    record: &str,
    size: Size,
    entry: Entry<'_>,
    change: &Change,
) -> Result<(), AllocError> {
    put_name(page, record.as_bytes())?;
    write!(page, ", move {}: ", change.moves)?;
    put_entry(page, entry, change.friend)?;
    page.push_str(" at ")?;
    put_vertex(page, size, change.found.at)?;
    let (transform, way) = (change.found.transform.get(), way_name(change.way));
    write!(page, ", transformation {transform}: {way}\n")
}

/// Prints an object of JSON on a line of its own.
fn put_object(
    page: &mut String,
    record: &str,
    size: Size,
    entry: Entry<'_>,
    change: &Change,
) -> Result<(), AllocError> {
    page.push_str("{\"record\":")?;
    put_text(page, record.as_bytes())?;
    let (moves, way) = (change.moves, way_name(change.way));
    write!(page, ",\"move\":{moves},\"change\":\"{way}\",\"entry\":")?;
    put_text(page, entry.pattern.name.as_slice())?;
    let (line, colour) = (entry.line, colour_name(change.friend));
    write!(page, ",\"line\":{line},\"colour\":\"{colour}\",\"at\":\"")?;
    put_vertex(page, size, change.found.at)?;
    let transform = change.found.transform.get();
    write!(page, "\",\"transformation\":{transform}}}\n")
}

/// The lines for the changes in a record.
fn page_of(
    alloc: Global,
    json: bool,
    both: &Both,
    record: &str,
    positions: &[Position],
    changes: &[Change],
) -> Result<String, AllocError> {
    let mut page = String::new(alloc);
    let Some(position) = positions.first() else {
        return Ok(page);
    };
    for change in changes {
        if let Some(entry) = both.entry(change) {
            if json {
                put_object(&mut page, record, position.size(), entry, change)?;
            } else {
                put_line(&mut page, record, position.size(), entry, change)?;
            }
        }
    }
    Ok(page)
}

/// What is asked of each record.
#[derive(Clone, Copy)]
struct Search<'a> {
    /// The entries of both files.
    both: &'a Both,
    /// The colours for which the files are compared.
    colours: &'static [Colour],
    /// Whether objects of JSON are printed.
    json: bool,
}

/// Compares the files on each position of a record's main line, and prints the changes. If the record has a fault, it
/// is reported on standard error, and only the positions before it are compared.
fn compare_record<R: Files + Print + Eprint + Clock + AllocGlobal>(
    rt: &R,
    search: Search<'_>,
    readings: &mut Readings,
    helpers: &mut Helpers,
    totals: &mut Totals,
    progress: &mut Progress,
    name: &str,
) -> Result<(), Fault>
    requires { ⊤ }
{
    let alloc = rt.alloc();
    let record = text_of(rt, name)?;
    let line = main_line(alloc, name, record.as_slice())?;
    let positions = line.positions.as_slice();
    let changes = changes_over(
        alloc,
        &search.both.old.matcher,
        &search.both.new.matcher,
        positions,
        search.colours,
        readings,
        helpers,
    )?;
    let changes = changes.as_slice();
    let page = page_of(alloc, search.json, search.both, name, positions, changes)?;
    totals.add(positions.len(), changes);
    if !page.is_empty() {
        progress.clear(rt)?;
        io::writer(rt).write_all(page.as_bytes())?;
    }
    if let Some(note) = &line.fault {
        totals.missed = true;
        progress.clear(rt)?;
        eprintln!(rt; "{note}")?;
    }
    Ok(())
}

/// Compares the files over the records with these `names`.
fn compare_records<R: Files + Print + Eprint + Clock + AllocGlobal>(
    rt: &R,
    search: Search<'_>,
    helpers: &mut Helpers,
    names: &[String],
    is_terminal: bool,
) -> Result<Totals, Fault>
    requires { ⊤ }
{
    let alloc = rt.alloc();
    let mut readings = Readings::new(alloc, depths_at_first(alloc)?, KEPT_READINGS)?;
    let mut totals = Totals::new();
    let mut progress = Progress::begin(rt, is_terminal)?;
    for name in names {
        progress.tell(rt, "reading", name.as_str())?;
        compare_record(
            rt,
            search,
            &mut readings,
            helpers,
            &mut totals,
            &mut progress,
            name.as_str(),
        )?;
    }
    progress.clear(rt)?;
    Ok(totals)
}

/// Prints which matches went and which came from an old pattern file to a new one, over the records of a folder. Their
/// numbers go to standard error.
pub(crate) fn tell_changes<R: Files + Print + Eprint + Clock + AllocGlobal + Clone + Drop>(
    rt: &R,
    options: &Options,
    comparison: &Comparison,
    old: Entries,
    new: Entries,
    helpers: &mut Helpers,
    is_terminal: bool,
) -> Result<Outcome, Fault>
    requires { ⊤ }
{
    let alloc = rt.alloc();
    let both = Both {
        old: Side::new(alloc, options.file.as_str(), old)?,
        new: Side::new(alloc, comparison.new.as_str(), new)?,
    };
    let search = Search {
        both: &both,
        colours: options.colours(),
        json: options.json,
    };
    let names = records_of(rt, comparison.folder.as_str())?;
    let totals = compare_records(rt, search, helpers, names.as_slice(), is_terminal)?;
    let (records, positions, came, went) = (
        totals.records,
        totals.positions,
        totals.came,
        totals.went,
    );
    eprintln!(rt; "{records} records, {positions} positions, {came} matches came, {went} went")?;
    Ok(totals.outcome())
}
