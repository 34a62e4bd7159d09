//! The table of stages, and what is closed when a stage ends.

ghost use Rattle.std.specs.Prelude.{[], ◌∷◌, ◌≡◌, ◌<◌, ◌&&◌, nat_lt, Some, None};
ghost use Rattle.std.specs.List.{position_or_len};
ghost use Rattle.pat_types.specs.Diagrams.{is_star};
ghost use Rattle.db_rules.specs.Blocks.{Block, table as next_by_table, end_refused};
ghost use Rattle.db_rules.specs.Faults.{closes as leaves};
ghost use Rattle.db_read.specs.Reading.{error_at, fault_told};
ghost use Rattle.db_rules.specs.declared.kind.FaultKind.{FaultKind};
ghost use Rattle.db_rules.specs.Kinds.{first_of};
ghost use Rattle.db_rules.specs.Entries.{entry_of, entry_of_block};
ghost use Rattle.db_read.specs.Drafts.{Drafts, IsComplete};

use crate::draft::Draft;
use crate::error::DbError;
use db_entry::{ColonLine, Diagram, Marks, is_ascii_letter};
use db_lex::LineKind;
use db_rules::{FaultKind, LineError, Shape, Stage, TableCell};
use pat_types::{Letter, Pattern};

/// The cell of the table of stages for a line of this kind and first byte.
pub fn table(stage: Stage, kind: LineKind, first: u8) -> TableCell
    ensures { result ≡ next_by_table stage kind first }
{
    match (stage, kind) {
        (Stage::Start, LineKind::Pattern) => TableCell::Next(Stage::Diagram),
        (Stage::Start, LineKind::Other) => {
            if is_ascii_letter(first) {
                TableCell::Next(Stage::Start)
            } else {
                TableCell::Refused(FaultKind::StrayLine)
            }
        }
        (Stage::Start, _) => TableCell::Refused(FaultKind::StrayLine),
        (Stage::Diagram, LineKind::Colon) => TableCell::Next(Stage::Labels),
        (Stage::Diagram, LineKind::Other) => TableCell::Next(Stage::Diagram),
        (Stage::Diagram, _) => TableCell::Refused(FaultKind::NoColonLine),
        (_, LineKind::Pattern) => TableCell::Next(Stage::Diagram),
        (_, LineKind::Colon) => TableCell::Refused(FaultKind::StrayLine),
        (Stage::Actions, LineKind::Semicolon) => TableCell::Refused(FaultKind::StrayLine),
        (_, LineKind::Semicolon) => TableCell::Next(Stage::Expression),
        (_, LineKind::Action) => TableCell::Next(Stage::Actions),
        (Stage::Labels, LineKind::Other) => TableCell::Next(Stage::Labels),
        (_, LineKind::Other) => TableCell::Refused(FaultKind::StrayLine),
    }
}

/// Whether a line of this kind, or the end of the text, ends the constraint diagram or the expression of this stage.
pub fn closes(stage: Stage, kind: Option<LineKind>) -> bool
    ensures { result ≡ leaves stage kind }
{
    match stage {
        Stage::Labels => !matches!(kind, Some(LineKind::Other)),
        Stage::Expression => !matches!(kind, Some(LineKind::Semicolon)),
        _ => false,
    }
}

/// The fault of a constraint diagram that ends after `lines` lines, if its main diagram has `mains` lines.
pub fn labels_fault(mains: usize, lines: usize) -> Option<FaultKind>
    ensures { result ≡ first_of ((nat_lt 0 lines && nat_lt lines mains, FaultKind.ConstraintShape) ∷ []) }
{
    if 0 < lines && lines < mains {
        Some(FaultKind::ConstraintShape)
    } else {
        None
    }
}

/// The fault if the text ends in this stage, by the table of stages.
pub fn end_kind(stage: Stage) -> Option<FaultKind>
    ensures { result ≡ end_refused stage }
{
    match stage {
        Stage::Diagram => Some(FaultKind::NoColonLine),
        _ => None,
    }
}

/// The error for a fault of this kind at this line. Here the kind becomes the number that callers see.
pub fn fault_at(line: u64, kind: FaultKind) -> DbError
    ensures { result ≡ fault_told line kind }
{
    DbError::Fault {
        line,
        kind: kind.number(),
    }
}

/// The error of the text, if the line of this number has the error `e`.
pub fn at(number: u64, e: LineError) -> DbError
    ensures { result ≡ error_at number e }
{
    match e {
        LineError::NoMemory => DbError::NoMemory,
        LineError::Kind(kind) => fault_at(number, kind),
    }
}

/// The index of the first star, or the number of letters if there is none.
fn star_index(letters: &[Letter]) -> usize
    ensures { result ≡ position_or_len is_star letters.now }
{
    for (i, l) in letters.iter().enumerate() {
        if matches!(l, Letter::Star) {
            return i;
        }
    }
    letters.len()
}

/// The pattern of a complete draft: its colon line has no fault, and its expression is judged.
pub fn finish(draft: Draft<'_>) -> Pattern
    requires { IsComplete draft }
    ensures { (b : Block) → Drafts draft.entry b → entry_of result ≡ entry_of_block b }
{
    let Draft {
        name,
        words: _,
        diagram,
        colon,
        marks,
        expression: _,
        constraint,
    } = draft;
    let Diagram {
        lines: _,
        rows,
        top,
        bottom,
        shape,
        letters,
    } = diagram;
    let Marks {
        lines: _,
        rows: _,
        labels,
    } = marks;
    let star = star_index(letters.as_slice());
    let Shape { left, right, width } = shape.unwrap();
    let ColonLine {
        mark,
        classes,
        items,
    } = colon.unwrap();
    Pattern {
        name,
        rows: rows as u8,
        cols: width as u8,
        letters,
        top,
        bottom,
        left,
        right,
        star: ((star / width) as u8, (star % width) as u8),
        mark,
        classes,
        items,
        labels,
        constraint,
    }
}
