//! Checks the files in their order.

use crate::counts::Counts;
use crate::list::List;
use crate::options::Options;
use crate::page::{
    print_counts, print_fault, print_port, print_port_note, print_states, print_warning,
};
use go_base::Bytes;
use pattern_report::{
    Fault, NoMemory, Part, Report, Warning, parts, port_notes, port_of, report_on, warnings,
};
use pattern_states::states_of;
use std::alloc::Global;

/// The exit status if a file has a fault.
const FAULTY: u8 = 1;

/// The exit status if nothing can be checked.
pub(crate) const NOT_CHECKED: u8 = 2;

/// The results of the files so far.
#[derive(Drop)]
pub(crate) struct Checker {
    /// The names of the helpers that an entry may name.
    helpers: Vec<Bytes>,
    /// The counts of all files.
    all: Counts,
    /// The entries of all files, if their states are asked for.
    list: List,
    /// Whether a file could not be read.
    missed: bool,
}

/// The names of the helpers that an entry may name.
fn helper_names(alloc: Global) -> Result<Vec<Bytes>, NoMemory> {
    let mut names = Vec::new(alloc);
    for name in ["near_edge", "no_ban"] {
        let mut bytes = Bytes::new(alloc);
        bytes.extend(name.as_bytes())?;
        names.push(bytes)?;
    }
    Ok(names)
}

/// Prints a fault, and what in GNU Go it comes from if `is_asked`.
fn print_fault_and_port(
    page: &mut String,
    is_asked: bool,
    file: &str,
    fault: &Fault<'_>,
) -> Result<(), NoMemory> {
    print_fault(page, file, fault)?;
    if is_asked && let Some(port) = port_of(fault) {
        print_port(page, file, fault.line, &port)?;
    }
    Ok(())
}

/// Prints the faults of a text, and counts them.
fn print_faults(
    page: &mut String,
    port: bool,
    file: &str,
    report: &Report<'_>,
    counts: &mut Counts,
) -> Result<(), NoMemory> {
    for fault in report.first.iter().chain(report.others.iter()) {
        print_fault_and_port(page, port, file, fault)?;
        counts.refuse(fault.kind);
    }
    Ok(())
}

/// Prints the values in an entry that differ from GNU Go's.
fn print_notes(
    page: &mut String,
    alloc: Global,
    file: &str,
    part: Part<'_>,
) -> Result<(), NoMemory> {
    for note in &port_notes(alloc, part)? {
        print_port_note(page, file, note)?;
    }
    Ok(())
}

/// Prints the values in all accepted entries that differ from GNU Go's.
fn print_all_notes(
    page: &mut String,
    alloc: Global,
    file: &str,
    entries: &[Part<'_>],
) -> Result<(), NoMemory> {
    for part in entries {
        print_notes(page, alloc, file, *part)?;
    }
    Ok(())
}

/// The warnings about a text with this `report`.
fn warnings_of<'a>(
    alloc: Global,
    text: &'a [u8],
    report: &Report<'a>,
) -> Result<Vec<Warning<'a>>, NoMemory> {
    let parts = parts(alloc, text)?;
    warnings(alloc, text, parts.as_slice(), report)
}

/// Prints the warnings about a text with this `report`, and counts them.
fn print_warnings<'a>(
    page: &mut String,
    alloc: Global,
    file: &str,
    text: &'a [u8],
    report: &Report<'a>,
    counts: &mut Counts,
) -> Result<(), NoMemory> {
    for warning in &warnings_of(alloc, text, report)? {
        print_warning(page, file, warning)?;
        counts.warn();
    }
    Ok(())
}

/// Prints the `report` on a text with its warnings, and counts the entries and faults.
fn print_report<'a>(
    page: &mut String,
    alloc: Global,
    options: &Options,
    file: &str,
    text: &'a [u8],
    report: &Report<'a>,
) -> Result<Counts, NoMemory> {
    let mut counts = Counts::new();
    counts.take(report.entries.len());
    print_faults(page, options.port, file, report, &mut counts)?;
    if options.port {
        print_all_notes(page, alloc, file, report.entries.as_slice())?;
    }
    if !options.quiet {
        print_warnings(page, alloc, file, text, report, &mut counts)?;
    }
    print_counts(page, file, &counts)?;
    Ok(counts)
}

impl Checker {
    /// A checker before the first file.
    pub(crate) fn new(alloc: Global) -> Result<Checker, NoMemory> {
        Ok(Checker {
            helpers: helper_names(alloc)?,
            all: Counts::new(),
            list: List::new(alloc),
            missed: false,
        })
    }

    /// Notes that a file could not be read.
    pub(crate) fn miss(&mut self) {
        self.missed = true;
    }

    /// Prints the report on the text of the file with this `index`, and keeps its entries if their states are asked
    /// for.
    pub(crate) fn check(
        &mut self,
        alloc: Global,
        options: &Options,
        index: usize,
        file: &str,
        text: &[u8],
        page: &mut String,
    ) -> Result<(), NoMemory> {
        let report: Report = report_on(alloc, text, self.helpers.as_slice())?;
        let counts = print_report(page, alloc, options, file, text, &report)?;
        self.all.add(&counts);
        if options.states.is_some() {
            self.list.extend(index, report)?;
        }
        Ok(())
    }

    /// Prints the results of all files together.
    pub(crate) fn finish(
        &self,
        alloc: Global,
        options: &Options,
        page: &mut String,
    ) -> Result<(), NoMemory> {
        if options.files.len() > 1 {
            print_counts(page, "all files", &self.all)?;
        }
        if let Some(limit) = options.states {
            let states = states_of(alloc, self.list.patterns.as_slice(), limit)?;
            print_states(page, options.files.as_slice(), limit, &self.list, &states)?;
        }
        Ok(())
    }

    /// The exit status of the program.
    pub(crate) fn status(&self) -> u8 {
        if self.missed {
            NOT_CHECKED
        } else if self.all.refused() > 0 {
            FAULTY
        } else {
            0
        }
    }
}
