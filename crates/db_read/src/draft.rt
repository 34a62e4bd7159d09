//! The entry that is being read.

ghost use Rattle.go_rules.specs.Board.{largest_size};
ghost use Rattle.std.specs.Prelude.{◌≤◌, ◌<◌, ℕ, [], length, get_or, map, vec_len};

mod lines;

use db_entry::{ColonLine, Diagram, Marks};
pub use lines::{begin, nameless};
use pat_types::{Bytes, Expr};

/// What is kept of the expression lines of an entry.
#[derive(Debug, Drop)]
pub struct ExpressionText {
    /// The line number of the first expression line.
    pub line: u64,
    /// The texts of the expression lines, joined by one blank.
    pub text: Bytes,
}

/// What has been read of an entry so far.
#[derive(Drop)]
pub struct Draft<'a> {
    /// The name on the Pattern line.
    pub name: Bytes,
    /// The words of the main diagram lines.
    pub words: Vec<&'a [u8]>,
    /// What is kept of the main diagram so far.
    pub diagram: Diagram,
    /// What the colon line says, once it is read.
    pub colon: Option<ColonLine>,
    /// What is kept of the constraint diagram so far.
    pub marks: Marks,
    /// What is kept of the expression lines, if there is one.
    pub expression: Option<ExpressionText>,
    /// The constraint, once the expression is judged.
    pub constraint: Option<Expr>,
    ghost short: { (k : ℕ) → length (get_or (map (λ w. w.now) words.items) k []) ≤ largest_size },
    ghost counted: { vec_len words ≤ diagram.lines },
    ghost few: { diagram.lines ≤ largest_size },
}
