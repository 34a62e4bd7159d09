//! How a further line changes what is kept of a main diagram.

ghost use Rattle.go_rules.specs.Board.{largest_size};
ghost use Rattle.std.specs.Prelude.{◌≡◌, ◌∷◌, [], ◌++◌, ◌&&◌, ◌||◌, not, nat_lt, nat_le, ℕ, List, OnOk, OnErr, IfErr};
ghost use Rattle.std.specs.Prelude.{length, Some, None, ◌+◌, ◌<◌, ◌≤◌, ◌^◌, if◌then◌else◌};
ghost use Rattle.std.specs.List.{filter_map};
ghost use Rattle.pat_types.specs.Diagrams.{drawn_strip};
ghost use Rattle.db_rules.specs.declared.kind.FaultKind.{FaultKind};
ghost use Rattle.db_rules.specs.Kinds.{first_of};
ghost use Rattle.db_rules.specs.Diagram.{diagram_fault, letter_of, letters_of_row, other_sides, other_width};
ghost use Rattle.db_rules.specs.Faults.{Blames};
ghost use Rattle.db_entry.specs.Reads.{Draws, kept_fault};

use crate::diagram::Diagram;
use crate::line::DiagramLine;
use crate::words::{letter, row_letters};
use db_rules::{FaultKind, LineError, Shape};
use go_base::size::MAX_SIZE;
use pat_types::{Letters, NoMemory};

/// The greatest number of bytes of a diagram line, and of lines of a diagram: with its edges it lies within the largest
/// board.
const LONGEST: usize = MAX_SIZE as usize;

fn differs(a: Option<Shape>, s: Shape) -> bool
    ensures { result ≡ other_sides s a }
{
    match a {
        None => false,
        Some(w) => !(s.left == w.left && s.right == w.right),
    }
}

fn is_ragged(a: Option<Shape>, s: Shape) -> bool
    ensures { result ≡ other_width s a }
{
    match a {
        None => false,
        Some(w) => s.width != w.width,
    }
}

fn is_out_of_place(edge: bool, has_row: bool, top: bool, bottom: bool, differs: bool) -> bool
    ensures { result ≡ (edge && not has_row && top || bottom || differs) }
{
    (edge && !has_row && top) || bottom || differs
}

fn is_too_large(bytes: usize, lines: usize) -> bool
    ensures { result ≡ (nat_lt largest_size bytes || nat_le largest_size lines) }
{
    bytes > LONGEST || lines >= LONGEST
}

/// The shape of the first row, or of the top edge if there is no row, after a further line of the shape `now`.
fn shape_after(
    shape: Option<Shape>,
    rows: usize,
    lines: usize,
    row: bool,
    now: Shape,
) -> Option<Shape>
    ensures { result ≡ (if nat_lt 0 rows || not row && nat_lt 0 lines then shape else Some now) }
{
    if 0 < rows || (!row && 0 < lines) {
        shape
    } else {
        Some(now)
    }
}

fn top_after(top: bool, lines: usize, edge: bool) -> bool
    ensures { result ≡ (if nat_lt 0 lines then top else edge) }
{
    if 0 < lines { top } else { edge }
}

fn bottom_after(rows: usize, edge: bool) -> bool
    ensures { result ≡ (nat_lt 0 rows && edge) }
{
    0 < rows && edge
}

fn rows_after(rows: usize, row: bool) -> usize
    requires { rows < 2 ^ 63 }
    ensures { result ≡ rows + drawn_strip row }
{
    if row { rows + 1 } else { rows }
}

/// Puts the letters of a row at the end of `letters`.
fn push_inner(letters: &mut Letters, inner: &[u8]) -> Result<(), NoMemory>
    ensures { OnOk result (letters.new ≡ letters.old ++ filter_map letter_of inner.now) }
{
    for b in inner {
        if let Some(l) = letter(*b) {
            letters.push(l)?;
        }
    }
    Ok(())
}

/// Puts the letters of a line at the end of `letters`, if the line is a row.
fn push_row(letters: &mut Letters, row: bool, word: &[u8]) -> Result<(), NoMemory>
    ensures { OnOk result (letters.new ≡ letters.old ++ (if row then letters_of_row word.now else [])) }
{
    if !row {
        return Ok(());
    }
    push_inner(letters, row_letters(word))
}

impl Diagram {
    /// The first fault of a further line of this many bytes, if it has one.
    fn fault(&self, line: DiagramLine, bytes: usize) -> Option<FaultKind>
        ensures { result ≡ kept_fault self.now line bytes }
    {
        let shape = line.shape();
        let has_row = 0 < self.rows;
        let misplaced = is_out_of_place(
            line.is_edge(),
            has_row,
            self.top,
            self.bottom,
            differs(self.shape, shape),
        );
        FaultKind::first_of(&[
            (misplaced, FaultKind::EdgePlace),
            (is_ragged(self.shape, shape), FaultKind::Ragged),
            (is_too_large(bytes, self.lines), FaultKind::TooLarge),
        ])
    }

    /// Reads a further line. After an `Err` nothing is known of the diagram, except that its `lines` are unchanged.
    pub fn line(&mut self, word: &[u8]) -> Result<(), LineError>
        ensures ok { OnOk result ((words : List (List ℕ)) → Draws self.old words →
            (diagram_fault words word.now ≡ None) × Draws self.new (words ++ word.now ∷ [])) }
        ensures err { IfErr result (λ e. (words : List (List ℕ)) → Draws self.old words →
            Blames e (diagram_fault words word.now)) }
        ensures few { OnOk result ((length word.now ≤ largest_size) × (self.new.lines ≤ largest_size)
            × (self.new.lines ≡ self.old.lines + 1)) }
        ensures same { OnErr result (self.new.lines ≡ self.old.lines) }
    {
        let line = match DiagramLine::of(word) {
            Some(line) => line,
            None => return Err(LineError::Kind(FaultKind::BadLetter)),
        };
        if let Some(kind) = self.fault(line, word.len()) {
            return Err(LineError::Kind(kind));
        }
        let edge = line.is_edge();
        let row = line.is_row();
        match push_row(&mut self.letters, row, word) {
            Ok(()) => {}
            Err(_) => return Err(LineError::NoMemory),
        }
        self.shape = shape_after(self.shape, self.rows, self.lines, row, line.shape());
        self.top = top_after(self.top, self.lines, edge);
        self.rows = rows_after(self.rows, row);
        self.bottom = bottom_after(self.rows, edge);
        self.lines += 1;
        Ok(())
    }
}
