//! How a further line changes what is kept of a constraint diagram.

ghost use Rattle.go_rules.specs.Board.{largest_size};
ghost use Rattle.std.specs.Prelude.{◌≡◌, ◌≤◌, ◌<◌, get_or, ◌==◌, ◌&&◌, ◌||◌, ◌+◌, ℕ, List, [], ◌∷◌, ◌++◌, length};
ghost use Rattle.std.specs.Prelude.{map, OnOk, IfErr, None};
ghost use Rattle.pat_types.specs.Labels.{names as some_has, are_apart as apart};
ghost use Rattle.pat_types.specs.Diagrams.{drawn_strip};
ghost use Rattle.db_rules.specs.Diagram.{is_letter};
ghost use Rattle.db_rules.specs.Labels.{is_label as label, repeats as word_repeats, labels_from, labels_of_line};
ghost use Rattle.db_rules.specs.Labels.{constraint_fault};
ghost use Rattle.db_rules.specs.Faults.{Blames};
ghost use Rattle.db_entry.specs.Reads.{IsMarked};

use crate::marks::Marks;
use crate::words::{is_ascii_letter, letter, row_shape};
use db_rules::{FaultKind, LineError};
use pat_types::{LabelAt, Labels, NoMemory};

fn is_label(b: u8) -> bool
    ensures { result ≡ label b }
{
    is_ascii_letter(b) && letter(b).is_none()
}

fn may_stand_over(m: u8, w: u8) -> bool
    ensures { result ≡ (w == m || label w && is_letter m) }
{
    w == m || (is_label(w) && letter(m).is_some())
}

/// Whether `word` repeats the main line `main`, apart from labels over its letters.
fn repeats(main: &[u8], word: &[u8]) -> bool
    ensures { result ≡ word_repeats main.now word.now }
{
    if main.len() != word.len() {
        return false;
    }
    for (i, m) in main.iter().enumerate() {
        if !may_stand_over(*m, word[i]) {
            return false;
        }
    }
    true
}

fn names(labels: &[LabelAt], b: u8) -> bool
    ensures { result ≡ some_has labels.now b }
{
    labels.iter().any(|l| l.letter == b)
}

/// Whether no two labels have the same letter.
fn are_apart(labels: &[LabelAt]) -> bool
    ensures { result ≡ apart labels.now }
{
    for (i, l) in labels.iter().enumerate() {
        if names(&labels[i + 1..], l.letter) {
            return false;
        }
    }
    true
}

/// Puts the labels of a line at the end of `labels`; the first byte of the line stands in column 0.
fn push_from(labels: &mut Labels, row: u8, main: &[u8], word: &[u8]) -> Result<(), NoMemory>
    requires same { length main.now ≡ length word.now }
    requires short { length main.now ≤ 255 }
    ensures { OnOk result (labels.new ≡ labels.old ++ labels_from row 0 main.now word.now) }
{
    for (i, m) in main.iter().enumerate() {
        if word[i] != *m {
            labels.push(LabelAt {
                letter: word[i],
                row,
                col: i as u8,
            })?;
        }
    }
    Ok(())
}

/// Puts the labels of a line at the end of `labels`; a `|` at the front of the line is no column.
fn push_labels(labels: &mut Labels, row: u8, main: &[u8], word: &[u8]) -> Result<(), NoMemory>
    requires same { length main.now ≡ length word.now }
    requires short { length main.now ≤ 255 }
    ensures { OnOk result (labels.new ≡ labels.old ++ labels_of_line row main.now word.now) }
{
    match (main, word) {
        ([b'|', mains @ ..], [_, words @ ..]) => push_from(labels, row, mains, words),
        _ => push_from(labels, row, main, word),
    }
}

/// The word at the index `i`.
fn word_at<'a>(words: &[&'a [u8]], i: usize) -> &'a [u8]
    requires { i < length words.now }
    ensures { result.now ≡ get_or (map (λ f. f.now) words.now) i [] }
{
    words[i]
}

fn rows_after(rows: u8, row: bool) -> u8
    requires { rows < 255 }
    ensures { result ≡ rows + drawn_strip row }
{
    if row { rows + 1 } else { rows }
}

impl Marks {
    /// Reads a further line under a main diagram with the words `mains`. After an `Err` nothing is known of the labels.
    pub fn line(&mut self, mains: &[&[u8]], word: &[u8]) -> Result<(), LineError>
        requires short { (k : ℕ) → length (get_or (map (λ f. f.now) mains.now) k []) ≤ largest_size }
        requires few { length mains.now ≤ largest_size }
        ensures ok { OnOk result ((words : List (List ℕ)) → IsMarked self.old (map (λ f. f.now) mains.now) words →
            (constraint_fault (map (λ f. f.now) mains.now) words word.now ≡ None)
            × IsMarked self.new (map (λ f. f.now) mains.now) (words ++ word.now ∷ [])) }
        ensures err { IfErr result (λ e. (words : List (List ℕ))
            → IsMarked self.old (map (λ f. f.now) mains.now) words →
            Blames e (constraint_fault (map (λ f. f.now) mains.now) words word.now)) }
    {
        if self.lines >= mains.len() {
            return Err(LineError::Kind(FaultKind::ConstraintShape));
        }
        let main = word_at(mains, self.lines);
        if !repeats(main, word) {
            return Err(LineError::Kind(FaultKind::ConstraintShape));
        }
        match push_labels(&mut self.labels, self.rows, main, word) {
            Ok(()) => {}
            Err(_) => return Err(LineError::NoMemory),
        }
        if !are_apart(self.labels.as_slice()) {
            return Err(LineError::Kind(FaultKind::ConstraintShape));
        }
        self.rows = rows_after(self.rows, row_shape(main).is_some());
        self.lines += 1;
        Ok(())
    }
}
