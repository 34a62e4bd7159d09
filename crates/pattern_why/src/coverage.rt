//! Counts how often the entries of a file fit and match over the records of a folder.

ghost use Rattle.std.specs.Prelude.{◌≤◌, length, IfOk};
ghost use Rattle.pattern_coverage.specs.Bare.{AreDiagramsOf};

use crate::entries::Entries;
use crate::fault::Fault;
use crate::files::text_of;
use crate::game::depths_at_first;
use crate::joining::{MOST_ENTRIES, MOST_STATES, join_fault, too_many};
use crate::main_line::main_line;
use crate::options::Options;
use crate::outcome::Outcome;
use crate::progress::Progress;
use crate::records::records_of;
use go_base::{Colour, Position};
use helpers::Helpers;
use pat_types::Pattern;
use pattern_coverage::{Diagrams, ENDS, PartCounts, ends_on};
use read_rules::Depths;
use std::alloc::{AllocError, Global};
use std::fs::Files;
use std::io;
use std::io::Write;
use std::time::Clock;
use why_report::{PARTS, part_name, put_name};

/// The counts over all records.
#[derive(Drop)]
pub(crate) struct Coverage {
    /// For each entry, in the order of the file, where its tries end.
    counts: Vec<PartCounts>,
    /// The number of records.
    records: u64,
    /// The number of positions.
    positions: u64,
    /// Whether a record could not be read to its end.
    missed: bool,
}

/// The number of tries of an entry whose diagram fits.
fn fits_of(counts: &PartCounts) -> u64 {
    let mut fits: u64 = 0;
    for part in 1..ENDS {
        fits = fits.saturating_add(counts.at(part));
    }
    fits
}

impl Coverage {
    /// The counts before any record, for this number of `entries`.
    fn new(alloc: Global, entries: usize) -> Result<Coverage, Fault> {
        let mut counts = Vec::new(alloc);
        for _ in 0..entries {
            counts.push(PartCounts::new())?;
        }
        Ok(Coverage {
            counts,
            records: 0,
            positions: 0,
            missed: false,
        })
    }

    /// Adds the ends of the tries on one position for one colour.
    fn add(&mut self, ends: &[PartCounts]) {
        for (total, more) in self.counts.iter_mut().zip(ends) {
            total.add(more);
        }
    }

    /// The number of entries whose diagram never fits.
    fn never_fit(&self) -> usize {
        let mut never: usize = 0;
        for counts in &self.counts {
            if fits_of(counts) == 0 {
                never = never.saturating_add(1);
            }
        }
        never
    }
}

/// What is counted on each position.
#[derive(Clone, Copy)]
struct Search<'a> {
    /// The allocator.
    alloc: Global,
    /// The colours for which entries are tried.
    colours: &'static [Colour],
    /// The patterns of the entries, in the order of the file.
    patterns: &'a [Pattern],
    /// The diagrams of the patterns.
    diagrams: &'a Diagrams,
    /// The depths of readings.
    depths: Depths,
}

/// Counts the tries on a position.
fn cover_position(
    search: Search<'_>,
    helpers: &mut Helpers,
    coverage: &mut Coverage,
    position: &Position,
) -> Result<(), Fault>
    requires few { length search.patterns.now ≤ 4096 }
    requires diagrams { AreDiagramsOf search.patterns.now search.diagrams.now }
{
    for colour in search.colours {
        let ends = ends_on(
            search.alloc,
            search.patterns,
            search.diagrams,
            position,
            *colour,
            search.depths,
            helpers,
        )?;
        coverage.add(ends.as_slice());
    }
    coverage.positions = coverage.positions.saturating_add(1);
    Ok(())
}

/// Counts the tries on each position of a record's main line. If the record has a fault, it is reported on standard
/// error, and only the positions before it are counted.
fn cover_record<R: Files + Eprint + AllocGlobal>(
    rt: &R,
    search: Search<'_>,
    helpers: &mut Helpers,
    coverage: &mut Coverage,
    progress: &mut Progress,
    name: &str,
) -> Result<(), Fault>
    requires few { length search.patterns.now ≤ 4096 }
    requires diagrams { AreDiagramsOf search.patterns.now search.diagrams.now }
{
    let record = text_of(rt, name)?;
    let line = main_line(search.alloc, name, record.as_slice())?;
    for position in &line.positions {
        cover_position(search, helpers, coverage, position)?;
    }
    if let Some(note) = &line.fault {
        coverage.missed = true;
        progress.clear(rt)?;
        eprintln!(rt; "{note}")?;
    }
    coverage.records = coverage.records.saturating_add(1);
    Ok(())
}

/// Counts the tries on each position of the records with these `names`.
fn cover_records<R: Files + Eprint + Clock + AllocGlobal>(
    rt: &R,
    search: Search<'_>,
    helpers: &mut Helpers,
    coverage: &mut Coverage,
    names: &[String],
    is_terminal: bool,
) -> Result<(), Fault>
    requires few { length search.patterns.now ≤ 4096 }
    requires diagrams { AreDiagramsOf search.patterns.now search.diagrams.now }
{
    let mut progress = Progress::begin(rt, is_terminal)?;
    for name in names {
        progress.tell(rt, "reading", name.as_str())?;
        cover_record(rt, search, helpers, coverage, &mut progress, name.as_str())?;
    }
    progress.clear(rt)?;
    Ok(())
}

/// Prints the first line of the table: the names of its columns.
fn put_names(page: &mut String) -> Result<(), AllocError> {
    page.push_str("entry\tline\tfits")?;
    for part in 1..PARTS + 1 {
        write!(page, "\t{}", part_name(part))?;
    }
    page.push_str("\n")
}

/// Prints the line of an entry.
fn put_row(
    page: &mut String,
    name: &[u8],
    line: u64,
    counts: &PartCounts,
) -> Result<(), AllocError> {
    put_name(page, name)?;
    write!(page, "\t{line}\t{}", fits_of(counts))?;
    for part in 1..ENDS {
        write!(page, "\t{}", counts.at(part))?;
    }
    page.push_str("\n")
}

/// The table, with a line for each entry of the file.
fn table_of(alloc: Global, entries: &Entries, coverage: &Coverage) -> Result<String, Fault> {
    let mut page = String::new(alloc);
    put_names(&mut page)?;
    for (entry, counts) in entries.all(alloc)?.iter().zip(&coverage.counts) {
        put_row(&mut page, entry.pattern.name.as_slice(), entry.line, counts)?;
    }
    Ok(page)
}

/// The diagrams of the entries of a file.
fn diagrams_of(alloc: Global, file: &str, patterns: &[Pattern]) -> Result<Diagrams, Fault>
    requires { length patterns.now ≤ 4096 }
    ensures { IfOk result (AreDiagramsOf patterns.now) }
{
    match Diagrams::new(alloc, patterns, MOST_STATES) {
        Ok(diagrams) => Ok(diagrams),
        Err(error) => Err(join_fault(alloc, file, &error)),
    }
}

/// Prints how often the entries of a file fit and match over the records of a folder. The outcome is yes if each entry
/// fits at least once and no record has a fault. The counts over all records go to standard error.
pub(crate) fn tell_coverage<R: Files + Print + Eprint + Clock + AllocGlobal + Clone + Drop>(
    rt: &R,
    options: &Options,
    entries: &Entries,
    folder: &str,
    helpers: &mut Helpers,
    is_terminal: bool,
) -> Result<Outcome, Fault> {
    let alloc = rt.alloc();
    let file = options.file.as_str();
    let patterns = entries.patterns();
    if patterns.len() > MOST_ENTRIES {
        return Err(too_many(alloc, file));
    }
    let diagrams = diagrams_of(alloc, file, patterns)?;
    let search = Search {
        alloc,
        colours: options.colours(),
        patterns,
        diagrams: &diagrams,
        depths: depths_at_first(alloc)?,
    };
    let names = records_of(rt, folder)?;
    let mut coverage = Coverage::new(alloc, patterns.len())?;
    cover_records(
        rt,
        search,
        helpers,
        &mut coverage,
        names.as_slice(),
        is_terminal,
    )?;
    let table = table_of(alloc, entries, &coverage)?;
    io::writer(rt).write_all(table.as_bytes())?;
    let never = coverage.never_fit();
    let (records, positions, all) = (coverage.records, coverage.positions, patterns.len());
    eprintln!(rt;
        "{records} records, {positions} positions, {all} entries, {never} of them never fit"
    )?;
    Ok(Outcome::of(never == 0 && !coverage.missed))
}
