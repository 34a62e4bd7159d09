//! Reading an entry, line by line.

ghost use Rattle.std.specs.Prelude.{◌≡◌, ◌<◌, ◌++◌, ◌∷◌, [], List, length, IfOk};
ghost use Rattle.std.specs.Prelude.{IfErr, OnOk, None};
ghost use Rattle.db_lex.specs.Lines.{KeptLine, word_of};
ghost use Rattle.db_rules.specs.Blocks.{Block, begun_with, words_in};
ghost use Rattle.db_rules.specs.Colon.{colon_fault};
ghost use Rattle.db_rules.specs.Labels.{constraint_fault};
ghost use Rattle.db_rules.specs.Diagram.{diagram_fault};
ghost use Rattle.db_read.specs.Drafts.{Drafts, KeepsText, IsTextOf, IsUnjudged, IsJudged};
ghost use Rattle.db_read.specs.Reading.{BlamesAt, expression_error};
ghost use Rattle.db_rules.specs.Entries.{name_on};
ghost use Rattle.db_rules.specs.Expressions.{text_on};
ghost use Rattle.db_rules.specs.Faults.{Blames, expression_kind, expression_fault};
ghost use Rattle.db_entry.specs.Reads.{Draws, IsMarked};

use crate::draft::{Draft, ExpressionText};
use crate::error::DbError;
use crate::pattern_names::name_of;
use crate::stages::fault_at;
use cons_parse::{ConsError, parse};
use db_entry::{Diagram, Marks, bytes_of, read_colon_line};
use db_rules::{FaultKind, LineError};
use pat_types::{Bytes, Labels, Letters, NoMemory};
use std::alloc::Global;

fn empty_diagram(alloc: Global) -> Diagram
    ensures drawn { Draws result [] }
    ensures lines { result.lines ≡ 0 }
{
    Diagram {
        lines: 0,
        rows: 0,
        top: false,
        bottom: false,
        shape: None,
        letters: Letters::new(alloc),
    }
}

fn empty_marks(alloc: Global) -> Marks
    ensures { IsMarked result [] [] }
{
    Marks {
        lines: 0,
        rows: 0,
        labels: Labels::new(alloc),
    }
}

/// The draft of the entry that a Pattern line begins.
pub fn begin<'a>(alloc: Global, line: &[u8]) -> Result<Draft<'a>, NoMemory>
    ensures begun { IfOk result (λ d. (k : KeptLine) → k.bytes ≡ line.now → Drafts d (begun_with k)) }
    ensures unjudged { IfOk result (λ d. IsUnjudged d) }
{
    let name = bytes_of(alloc, name_of(line))?;
    Ok(named(alloc, name))
}

/// The draft of an entry with this name, of which no further line has been read.
fn named<'a>(alloc: Global, name: Bytes) -> Draft<'a>
    ensures begun { (k : KeptLine) → name ≡ name_on k.bytes → Drafts result (begun_with k) }
    ensures unjudged { IsUnjudged result }
{
    Draft {
        name,
        words: Vec::new(alloc),
        diagram: empty_diagram(alloc),
        colon: None,
        marks: empty_marks(alloc),
        expression: None,
        constraint: None,
    }
}

/// The draft that stands for no entry, before the first Pattern line: it has no name, and no line of it has been read.
pub fn nameless<'a>(alloc: Global) -> Draft<'a>
    ensures begun { (k : KeptLine) → name_on k.bytes ≡ [] → Drafts result (begun_with k) }
    ensures unjudged { IsUnjudged result }
{
    named(alloc, Bytes::new(alloc))
}

impl<'a> Draft<'a> {
    /// Reads a line of the main diagram with this word.
    pub fn diagram_line(&mut self, word: &'a [u8]) -> Result<(), LineError>
        ensures ok { OnOk result ((b : Block) (k : KeptLine) → word_of k.bytes ≡ word.now → b.constraint ≡ []
            → Drafts self.old b →
            (diagram_fault (words_in b.diagram) word.now ≡ None)
            × Drafts self.new (record b { diagram = b.diagram ++ k ∷ [] })) }
        ensures err { IfErr result (λ e. (b : Block) → Drafts self.old b
            → Blames e (diagram_fault (words_in b.diagram) word.now)) }
        ensures rest { (self.new.expression ≡ self.old.expression) × (self.new.constraint ≡ self.old.constraint) }
    {
        self.diagram.line(word)?;
        match self.words.push(word) {
            Ok(()) => Ok(()),
            Err(_) => Err(LineError::NoMemory),
        }
    }

    /// Reads the colon line.
    pub fn colon_line(
        &mut self,
        alloc: Global,
        helpers: &[Bytes],
        line: &[u8],
    ) -> Result<(), LineError>
        requires { 0 < length line.now }
        ensures ok { OnOk result ((b : Block) (k : KeptLine) → k.bytes ≡ line.now → b.colon ≡ [] → Drafts self.old b →
            (colon_fault helpers.now (words_in b.diagram) line.now ≡ None)
            × Drafts self.new (record b { colon = b.colon ++ k ∷ [] })) }
        ensures err { IfErr result (λ e. (b : Block) → Drafts self.old b
            → Blames e (colon_fault helpers.now (words_in b.diagram) line.now)) }
        ensures rest { (self.new.expression ≡ self.old.expression) × (self.new.constraint ≡ self.old.constraint) }
    {
        let colon = read_colon_line(alloc, helpers, &self.diagram, line)?;
        self.colon = Some(colon);
        Ok(())
    }

    /// Reads a line of the constraint diagram with this word.
    pub fn constraint_line(&mut self, word: &[u8]) -> Result<(), LineError>
        ensures ok { OnOk result ((b : Block) (k : KeptLine) → word_of k.bytes ≡ word.now → Drafts self.old b →
            (constraint_fault (words_in b.diagram) (words_in b.constraint) word.now ≡ None)
            × Drafts self.new (record b { constraint = b.constraint ++ k ∷ [] })) }
        ensures err { IfErr result (λ e. (b : Block) → Drafts self.old b →
            Blames e (constraint_fault (words_in b.diagram) (words_in b.constraint) word.now)) }
        ensures rest { (self.new.expression ≡ self.old.expression) × (self.new.constraint ≡ self.old.constraint) }
    {
        self.marks.line(self.words.as_slice(), word)
    }

    /// Reads an expression line of this number.
    pub fn expression_line(
        &mut self,
        alloc: Global,
        number: u64,
        line: &[u8],
    ) -> Result<(), NoMemory>
        requires { 0 < length line.now }
        ensures ok { OnOk result ((b : Block) (k : KeptLine) → k.number ≡ number → k.bytes ≡ line.now
            → Drafts self.old b →
            Drafts self.new (record b { expression = b.expression ++ k ∷ [] })) }
        ensures rest { self.new.constraint ≡ self.old.constraint }
    {
        let kept = with_line(alloc, self.expression.take(), number, &line[1..])?;
        self.expression = Some(kept);
        Ok(())
    }

    /// Judges the expression, if there is one: parses it and keeps it as the constraint.
    pub fn judge(&mut self, alloc: Global) -> Result<(), DbError>
        ensures ok { OnOk result ((b : Block) → Drafts self.old b → (expression_kind b ≡ None) × Drafts self.new b) }
        ensures judged { OnOk result (self.old.constraint ≡ None → IsJudged self.new) }
        ensures err { IfErr result (λ e. (b : Block) → Drafts self.old b → BlamesAt e (expression_fault b)) }
    {
        let kept = match &self.expression {
            None => return Ok(()),
            Some(kept) => kept,
        };
        match parse(alloc, kept.text.as_slice(), self.marks.labels.as_slice()) {
            Ok(constraint) => {
                self.constraint = Some(constraint);
                Ok(())
            }
            Err(e) => Err(error_of(kept.line, e)),
        }
    }
}

/// What is kept of the expression lines after one more line with this number and this text.
fn with_line(
    alloc: Global,
    kept: Option<ExpressionText>,
    number: u64,
    text: &[u8],
) -> Result<ExpressionText, NoMemory>
    ensures { IfOk result (λ new. (lines : List KeptLine) (k : KeptLine) → k.number ≡ number → text_on k ≡ text.now →
        KeepsText kept lines → IsTextOf new (lines ++ k ∷ [])) }
{
    match kept {
        None => Ok(ExpressionText {
            line: number,
            text: bytes_of(alloc, text)?,
        }),
        Some(
            ExpressionText {
                line,
                text: mut all,
            },
        ) => {
            all.push(b' ')?;
            all.extend(text)?;
            Ok(ExpressionText { line, text: all })
        }
    }
}

/// The error that a fault of an expression is reported as, if the expression begins at the line of this number.
fn error_of(line: u64, e: ConsError) -> DbError
    ensures { result ≡ expression_error line e }
{
    match e {
        ConsError::NoMemory => DbError::NoMemory,
        ConsError::UnknownLabel => fault_at(line, FaultKind::UnknownLabel),
        ConsError::Syntax | ConsError::TooDeep | ConsError::UnknownFunction | ConsError::Arity => {
            fault_at(line, FaultKind::ExprFault)
        }
    }
}
