//! Finds all faults of a text.

ghost use Rattle.std.specs.Prelude.{◌≡◌, [], None, IfOk, map};
ghost use Rattle.std.specs.Option.{option_map};
ghost use Rattle.db_rules.specs.Entries.{entry_of};
ghost use Rattle.db_rules.specs.Faults.{first_fault, entries};
ghost use Rattle.pattern_report.specs.ReportedFaults.{line_and_kind};

use db_read::{DbError, read};
use go_base::Bytes;
use pat_types::{NoMemory, Pattern};
use pattern_faults::{Fault, explain};
use pattern_lines::{Part, parts};
use std::alloc::Global;

/// The most entries that a text may have.
const MOST_ENTRIES: usize = 4096;

/// The kind of the fault of a text with more entries.
const TOO_MANY: u8 = 18;

/// The report on a text, for its author.
#[derive(Drop)]
pub struct Report<'a> {
    /// The first fault of the text.
    pub first: Option<Fault<'a>>,
    /// The first fault of each later entry that has one, in order.
    pub others: Vec<Fault<'a>>,
    /// The entries without a fault, in order; at most 4,096.
    pub entries: Vec<Part<'a>>,
    /// The patterns of these entries.
    pub patterns: Vec<Pattern>,
}

/// Whether a fault with this `line` and `kind` belongs to `part`, or to a part behind it.
fn is_at_or_behind(part: &Part<'_>, line: u64, kind: u8) -> bool {
    // An entry that ends too early has its fault at the Pattern line of the next entry.
    let told_at_end = kind == 10 || kind == 14;
    part.number < line || (part.number == line && !told_at_end)
}

/// The number of parts up to the one with a fault of this `line` and `kind`.
fn parts_to(parts: &[Part<'_>], line: u64, kind: u8) -> usize {
    parts
        .iter()
        .filter(|part| is_at_or_behind(part, line, kind))
        .count()
}

/// The first fault of a text, explained by means of the part that has it.
fn first_explained<'a>(
    alloc: Global,
    helpers: &[Bytes],
    parts: &[Part<'a>],
    text: &'a [u8],
    line: u64,
    kind: u8,
) -> Result<Fault<'a>, NoMemory>
    ensures line { IfOk result (λ f. f.line ≡ line) }
    ensures kind { IfOk result (λ f. f.kind ≡ kind) }
{
    let at = parts_to(parts, line, kind).saturating_sub(1);
    let whole = Part {
        number: 1,
        bytes: text,
    };
    let part = *parts.get(at).unwrap_or(&whole);
    explain(alloc, helpers, part, line, kind)
}

/// The line of the text that is the line number `line` of `part`.
fn line_in_text(part: &Part<'_>, line: u64) -> u64 {
    part.number.saturating_add(line.saturating_sub(1))
}

/// The result of reading a part alone.
#[derive(Drop)]
enum PartReading {
    /// The part is an entry without a fault.
    Taken(Pattern),
    /// The part has no fault, but is not an entry, or is an entry for which the text has no room.
    Nothing,
    /// The part has a fault: the line in the text, and the kind.
    Refused(u64, u8),
}

/// Reads a part alone; as an entry it has this `number`. The first entry for which a text has no room is refused for
/// that reason, and later entries only for their own faults.
fn read_part(
    alloc: Global,
    helpers: &[Bytes],
    part: &Part<'_>,
    number: usize,
) -> Result<PartReading, NoMemory> {
    if number == MOST_ENTRIES + 1 {
        return Ok(PartReading::Refused(part.number, TOO_MANY));
    }
    match read(alloc, part.bytes, helpers, Vec::new(alloc)) {
        Ok(mut found) => match found.pop() {
            Some(pattern) if number <= MOST_ENTRIES => Ok(PartReading::Taken(pattern)),
            _ => Ok(PartReading::Nothing),
        },
        Err(DbError::NoMemory) => Err(NoMemory),
        Err(DbError::Fault { line, kind }) => Ok(PartReading::Refused(
            line_in_text(part, line),
            kind,
        )),
    }
}

/// The results of reading the parts, each alone.
#[derive(Drop)]
struct Readings<'a> {
    entries: Vec<Part<'a>>,
    patterns: Vec<Pattern>,
    faults: Vec<Fault<'a>>,
}

/// Reads each part alone. The result has the entries without a fault, at most 4,096, and the faults of the parts from
/// the index `from` on.
fn read_parts<'a>(
    alloc: Global,
    helpers: &[Bytes],
    parts: &[Part<'a>],
    from: usize,
) -> Result<Readings<'a>, NoMemory> {
    let mut entries = Vec::new(alloc);
    let mut patterns = Vec::new(alloc);
    let mut faults = Vec::new(alloc);
    for (at, part) in parts.iter().enumerate() {
        match read_part(alloc, helpers, part, at)? {
            PartReading::Taken(pattern) => {
                entries.push(*part)?;
                patterns.push(pattern)?;
            }
            PartReading::Refused(line, kind) if at >= from => {
                faults.push(explain(alloc, helpers, *part, line, kind)?)?;
            }
            _ => {}
        }
    }
    Ok(Readings {
        entries,
        patterns,
        faults,
    })
}

/// The report on a text, in which the helpers with these names may be named. Takes memory.
///
/// After a fault, reading continues at the next Pattern line, so that the report has the first fault of each entry.
pub fn report_on<'a>(
    alloc: Global,
    text: &'a [u8],
    helpers: &[Bytes],
) -> Result<Report<'a>, NoMemory>
    // The first fault of the report has the line and the kind of the text's first fault; there is none exactly if the
    // text has none.
    ensures first { IfOk result (λ r. option_map line_and_kind r.first ≡ first_fault helpers.now text.now) }
    // The report on a text without a fault has no other faults.
    ensures clean { IfOk result (λ r. first_fault helpers.now text.now ≡ None → r.others.items ≡ []) }
    // The patterns of the report on a text without a fault are the entries of the text.
    ensures patterns { IfOk result (λ r. first_fault helpers.now text.now ≡ None
        → map entry_of r.patterns.items ≡ entries text.now) }
{
    let parts = parts(alloc, text)?;
    match read(alloc, text, helpers, Vec::new(alloc)) {
        Ok(found) => {
            let mut entries = Vec::new(alloc);
            entries.extend_from_slice(parts.get(1..).unwrap_or(&[]))?;
            Ok(Report {
                first: None,
                others: Vec::new(alloc),
                entries,
                patterns: found,
            })
        }
        Err(DbError::NoMemory) => Err(NoMemory),
        Err(DbError::Fault { line, kind }) => {
            let first = first_explained(alloc, helpers, parts.as_slice(), text, line, kind)?;
            let behind = parts_to(parts.as_slice(), line, kind);
            let readings = read_parts(alloc, helpers, parts.as_slice(), behind)?;
            Ok(Report {
                first: Some(first),
                others: readings.faults,
                entries: readings.entries,
                patterns: readings.patterns,
            })
        }
    }
}
