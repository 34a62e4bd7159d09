//! Prints the results in the form that compilers use.

use crate::counts::Counts;
use crate::list::List;
use pattern_report::{Fault, Place, Port, PortNote, Shown, Warning};
use pattern_states::{Added, States};
use std::alloc::AllocError;
use std::fmt::Display;

/// The number of letters that show the first `bytes` bytes of a line.
fn shown_width(text: &[u8], bytes: usize) -> usize {
    let mut width: usize = 0;
    for byte in text.iter().take(bytes) {
        let letters = if *byte == b' ' || byte.is_ascii_graphic() {
            1
        } else {
            4
        };
        width = width.saturating_add(letters);
    }
    width
}

/// Prints blanks.
fn print_blanks(page: &mut String, count: usize) -> Result<(), AllocError> {
    for _ in 0..count {
        page.push_str(" ")?;
    }
    Ok(())
}

/// Prints the line of a place and a caret under its column. An empty line is not printed.
fn print_line(page: &mut String, place: &Place<'_>) -> Result<(), AllocError> {
    if place.text.is_empty() {
        return Ok(());
    }
    let blanks = shown_width(place.text, place.column.saturating_sub(1));
    write!(page, "{:>6} | {}\n       | ", place.line, Shown(place.text))?;
    print_blanks(page, blanks)?;
    page.push_str("^\n")
}

/// Prints the place of a message, its kind, and its words.
fn print_words<D: Display>(
    page: &mut String,
    file: &str,
    line: u64,
    column: usize,
    kind: &str,
    words: &D,
) -> Result<(), AllocError> {
    write!(page, "{file}:{line}:{column}: {kind}: {words}")
}

/// Ends the first line of a fault with its kind, and the name of its entry if it has one.
fn end_fault(page: &mut String, kind: u8, entry: &[u8]) -> Result<(), AllocError> {
    if entry.is_empty() {
        writeln!(page, " [kind {kind}]")
    } else {
        writeln!(page, " [kind {kind}, Pattern {}]", Shown(entry))
    }
}

/// Ends the first line of a warning with the name of its entry, if it has one.
fn end_warning(page: &mut String, entry: &[u8]) -> Result<(), AllocError> {
    if entry.is_empty() {
        page.push_str("\n")
    } else {
        writeln!(page, " [Pattern {}]", Shown(entry))
    }
}

/// Prints a fault.
pub(crate) fn print_fault(
    page: &mut String,
    file: &str,
    fault: &Fault<'_>,
) -> Result<(), AllocError> {
    let column = if fault.line == fault.place.line {
        fault.place.column
    } else {
        1
    };
    print_words(page, file, fault.line, column, "error", &fault.cause)?;
    end_fault(page, fault.kind, fault.entry)?;
    print_line(page, &fault.place)
}

/// Prints a warning.
pub(crate) fn print_warning(
    page: &mut String,
    file: &str,
    warning: &Warning<'_>,
) -> Result<(), AllocError> {
    let Place { line, column, .. } = warning.place;
    print_words(page, file, line, column, "warning", &warning.caution)?;
    end_warning(page, warning.entry)?;
    print_line(page, &warning.place)
}

/// Prints what in GNU Go a fault comes from.
pub(crate) fn print_port(
    page: &mut String,
    file: &str,
    line: u64,
    port: &Port<'_>,
) -> Result<(), AllocError> {
    writeln!(page, "{file}:{line}: note: {port}")
}

/// Prints a note on an accepted entry.
pub(crate) fn print_port_note(
    page: &mut String,
    file: &str,
    note: &PortNote<'_>,
) -> Result<(), AllocError> {
    let Place { line, column, .. } = note.place;
    print_words(page, file, line, column, "note", &note.port)?;
    page.push_str("\n")?;
    print_line(page, &note.place)
}

/// Prints the number of faults of each kind that has some.
fn print_kinds(page: &mut String, kinds: &[u64]) -> Result<(), AllocError> {
    for (kind, count) in kinds.iter().enumerate() {
        if *count > 0 {
            write!(page, "; kind {kind}: {count}")?;
        }
    }
    page.push_str("\n")
}

/// Prints the number of accepted entries, of faults and of warnings, and the faults of each kind.
pub(crate) fn print_counts(
    page: &mut String,
    file: &str,
    counts: &Counts,
) -> Result<(), AllocError> {
    let (taken, faults, warnings) = (counts.taken, counts.refused(), counts.warnings);
    write!(
        page,
        "{file}: taken {taken}, faults {faults}, warnings {warnings}"
    )?;
    print_kinds(page, counts.kinds.as_slice())
}

/// The name for the files that share one list of entries.
fn list_name(files: &[String]) -> &str {
    match files {
        [file] => file.as_str(),
        _ => "all files",
    }
}

/// Prints the number of states of the entries of all files, up to `limit`, and the entries that add most.
pub(crate) fn print_states(
    page: &mut String,
    files: &[String],
    limit: u32,
    list: &List,
    states: &States,
) -> Result<(), AllocError> {
    let name = list_name(files);
    match states {
        States::TooManyPatterns => {
            writeln!(
                page,
                "{name}: more than 4096 entries; gopat takes no list of so many"
            )
        }
        States::More => writeln!(page, "{name}: states more than {limit}"),
        States::Counted { all, most } => {
            writeln!(
                page,
                "{name}: states {all}; gopat needs --states {all} or more"
            )?;
            print_most(page, files, list, most.as_slice())
        }
    }
}

/// Prints the number of states that each of these entries adds.
fn print_most(
    page: &mut String,
    files: &[String],
    list: &List,
    most: &[Added],
) -> Result<(), AllocError> {
    for added in most {
        print_added(page, files, list, added)?;
    }
    Ok(())
}

/// Prints the number of states that an entry adds.
fn print_added(
    page: &mut String,
    files: &[String],
    list: &List,
    added: &Added,
) -> Result<(), AllocError> {
    if let Some(origin) = list.origins.get(added.pattern)
        && let Some(pattern) = list.patterns.get(added.pattern)
        && let Some(file) = files.get(origin.file)
    {
        let (line, name, states) = (origin.line, pattern.name.as_slice(), added.states);
        return writeln!(page, "{file}:{line}: {} adds {states} states", Shown(name));
    }
    Ok(())
}
