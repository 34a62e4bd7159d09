//! Reading a text, line by line.

ghost use Rattle.std.specs.Prelude.{◌≡◌, ◌↔◌, ◌++◌, Option, IsTrue, ◌<◌, ℕ, true, false, List, []};
ghost use Rattle.std.specs.Prelude.{length, map, OnOk, IfOk, IfErr, Some, None, slice_index};
ghost use Rattle.db_lex.specs.declared.line.LineKind.{LineKind};
ghost use Rattle.db_lex.specs.Lines.{KeptLine, kind_of, word_of};
ghost use Rattle.db_rules.specs.declared.stage.TableCell.{TableCell};
ghost use Rattle.db_rules.specs.declared.stage.Stage.{Stage};
ghost use Rattle.db_rules.specs.Blocks.{SoFar, Block, at_start, placed, blocks_of, after_line, cell_for};
ghost use Rattle.db_rules.specs.Blocks.{table as next_by_table};
ghost use Rattle.db_rules.specs.Faults.{pattern_fault as first_pattern_fault, own_fault, table_fault};
ghost use Rattle.db_rules.specs.Faults.{closes as closes_stage, gathered_fault as fault_gathered};
ghost use Rattle.db_rules.specs.Faults.{closing_fault as fault_closed, found, found_at_end, first_fault, entries};
ghost use Rattle.std.specs.Option.{option_to_list};
ghost use Rattle.db_rules.specs.Entries.{entry_of, entry_of_block};
ghost use Rattle.db_read.specs.Drafts.{IsComplete};
ghost use Rattle.db_read.specs.Reading.{BlamesAt, ReadsNow, Shows, IsReading, IsTaking, settled};
ghost use Rattle.db_rules.specs.Faults.{Blames};

use crate::draft::{Draft, begin, nameless};
use crate::error::DbError;
use crate::pattern_names::pattern_fault;
use crate::stages::{at, closes, end_kind, fault_at, finish, labels_fault, table};
use db_lex::{LineKind, line_count, lines, word_len};
use db_rules::{FaultKind, LineError, Stage, TableCell};
use pat_types::{Bytes, NoMemory, Pattern};
use std::alloc::Global;
use std::mem;

/// A reader of a text: what it has read of the text so far.
#[derive(Drop)]
pub struct Reader<'a> {
    /// Where in a block the reader stands.
    pub stage: Stage,
    /// The entries that another entry follows.
    pub done: Vec<Pattern>,
    /// The number of entries that were begun.
    pub begun: usize,
    /// The entry that may go on. Before the first Pattern line it is `nameless`, which is no entry.
    pub draft: Draft<'a>,
}

fn is_start(stage: Stage) -> bool
    ensures { IsTrue result ↔ (stage ≡ Stage.Start) }
{
    matches!(stage, Stage::Start)
}

/// Puts the entry `before` at the end of `done`. At the start there is no entry yet, so nothing is put.
fn close(done: &mut Vec<Pattern>, stage: Stage, before: Draft<'_>) -> Result<(), NoMemory>
    requires { (stage ≡ Stage.Start → ⊥) → IsComplete before }
    ensures { OnOk result ((now : Option Block) → ReadsNow before.entry stage now →
        map entry_of done.new.items ≡ map entry_of done.old.items ++ map entry_of_block (option_to_list now)) }
{
    if is_start(stage) {
        return Ok(());
    }
    match done.push(finish(before)) {
        Ok(()) => {}
        Err(_) => return Err(NoMemory),
    }
    Ok(())
}

impl<'a> Reader<'a> {
    /// Closes the constraint diagram or the expression, if a line of this number and kind ends it. `None` as the kind
    /// is the end of the text.
    fn close_stage(
        &mut self,
        alloc: Global,
        number: u64,
        kind: Option<LineKind>,
    ) -> Result<(), DbError>
        ensures ok { OnOk result ((s : SoFar) → Shows self.old s → (fault_closed number kind s ≡ None)
            × Shows self.new (settled kind s)) }
        ensures left { OnOk result (self.new.stage ≡ Stage.Expression → kind ≡ Some LineKind.Semicolon) }
        ensures err { IfErr result (λ e. (s : SoFar) → Shows self.old s → BlamesAt e (fault_closed number kind s)) }
    {
        if !closes(self.stage, kind) {
            return Ok(());
        }
        match self.stage {
            Stage::Labels => self.close_labels(number),
            _ => self.close_expression(alloc),
        }
    }

    /// Closes the constraint diagram, which a line of this number ends.
    fn close_labels(&self, number: u64) -> Result<(), DbError>
        ensures ok { OnOk result ((s : SoFar) → s.stage ≡ Stage.Labels → Shows self.now s
            → fault_gathered number s.stage s.now ≡ None) }
        ensures err { IfErr result (λ e. (s : SoFar) → s.stage ≡ Stage.Labels → Shows self.now s
            → BlamesAt e (fault_gathered number s.stage s.now)) }
    {
        match labels_fault(self.draft.diagram.lines, self.draft.marks.lines) {
            None => Ok(()),
            Some(kind) => Err(fault_at(number, kind)),
        }
    }

    /// Closes the expression and leaves its stage.
    fn close_expression(&mut self, alloc: Global) -> Result<(), DbError>
        ensures ok { OnOk result ((number : ℕ) (kind : Option LineKind) (s : SoFar) → closes_stage s.stage kind ≡ true
            → s.stage ≡ Stage.Expression → Shows self.old s →
            (fault_gathered number s.stage s.now ≡ None) × Shows self.new (settled kind s)) }
        ensures left { OnOk result (self.new.stage ≡ Stage.Actions) }
        ensures err { IfErr result (λ e. (number : ℕ) (s : SoFar) → s.stage ≡ Stage.Expression → Shows self.old s
            → BlamesAt e (fault_gathered number s.stage s.now)) }
    {
        match self.draft.judge(alloc) {
            Ok(()) => {}
            Err(e) => return Err(e),
        }
        self.stage = Stage::Actions;
        Ok(())
    }

    /// Reads a Pattern line that the table of stages accepts.
    fn pattern_line(&mut self, alloc: Global, line: &[u8]) -> Result<(), LineError>
        requires { IsTaking self.old LineKind.Pattern (slice_index line.now 0) Stage.Diagram }
        ensures ok { OnOk result ((s : SoFar) (k : KeptLine) → k.bytes ≡ line.now → Shows self.old s →
            (first_pattern_fault (length (blocks_of s)) line.now ≡ None)
            × Shows self.new (placed k Stage.Diagram s LineKind.Pattern)) }
        ensures err { IfErr result (λ e. (s : SoFar) → Shows self.old s
            → Blames e (first_pattern_fault (length (blocks_of s)) line.now)) }
    {
        if let Some(kind) = pattern_fault(self.begun, line) {
            return Err(LineError::Kind(kind));
        }
        let draft = match begin(alloc, line) {
            Ok(draft) => draft,
            Err(_) => return Err(LineError::NoMemory),
        };
        let before = mem::replace(&mut self.draft, draft);
        match close(&mut self.done, self.stage, before) {
            Ok(()) => {}
            Err(_) => return Err(LineError::NoMemory),
        }
        self.begun += 1;
        self.stage = Stage::Diagram;
        Ok(())
    }

    /// Reads a colon line that the table of stages accepts.
    fn colon_line(&mut self, alloc: Global, helpers: &[Bytes], line: &[u8]) -> Result<(), LineError>
        requires { 0 < length line.now }
        ensures ok { OnOk result ((s : SoFar) (k : KeptLine) → k.bytes ≡ line.now → s.stage ≡ Stage.Diagram
            → Shows self.old s →
            (own_fault helpers.now s k LineKind.Colon ≡ None)
            × Shows self.new (placed k Stage.Labels s LineKind.Colon)) }
        ensures err { IfErr result (λ e. (s : SoFar) (k : KeptLine) → k.bytes ≡ line.now → s.stage ≡ Stage.Diagram
            → Shows self.old s →
            Blames e (own_fault helpers.now s k LineKind.Colon)) }
    {
        self.draft.colon_line(alloc, helpers, line)?;
        self.stage = Stage::Labels;
        Ok(())
    }

    /// Reads a main diagram line that the table of stages accepts.
    fn diagram_line(&mut self, word: &'a [u8]) -> Result<(), LineError>
        ensures ok { OnOk result ((helpers : List (List ℕ)) (s : SoFar) (k : KeptLine) → word_of k.bytes ≡ word.now
            → s.stage ≡ Stage.Diagram → Shows self.old s →
            (own_fault helpers s k LineKind.Other ≡ None) × Shows self.new (placed k Stage.Diagram s LineKind.Other)) }
        ensures err { IfErr result (λ e. (helpers : List (List ℕ)) (s : SoFar) (k : KeptLine)
            → word_of k.bytes ≡ word.now → s.stage ≡ Stage.Diagram → Shows self.old s →
            Blames e (own_fault helpers s k LineKind.Other)) }
    {
        self.draft.diagram_line(word)
    }

    /// Reads a constraint diagram line that the table of stages accepts.
    fn constraint_line(&mut self, word: &[u8]) -> Result<(), LineError>
        ensures ok { OnOk result ((helpers : List (List ℕ)) (s : SoFar) (k : KeptLine) → word_of k.bytes ≡ word.now
            → s.stage ≡ Stage.Labels → Shows self.old s →
            (own_fault helpers s k LineKind.Other ≡ None) × Shows self.new (placed k Stage.Labels s LineKind.Other)) }
        ensures err { IfErr result (λ e. (helpers : List (List ℕ)) (s : SoFar) (k : KeptLine)
            → word_of k.bytes ≡ word.now → s.stage ≡ Stage.Labels → Shows self.old s →
            Blames e (own_fault helpers s k LineKind.Other)) }
    {
        self.draft.constraint_line(word)
    }

    /// Reads an expression line that the table of stages accepts.
    fn expression_line(&mut self, alloc: Global, number: u64, line: &[u8]) -> Result<(), LineError>
        requires { 0 < length line.now }
        ensures ok { OnOk result ((s : SoFar) (k : KeptLine) → k.number ≡ number → k.bytes ≡ line.now
            → next_by_table s.stage LineKind.Semicolon (slice_index line.now 0) ≡ TableCell.Next Stage.Expression
            → Shows self.old s →
            Shows self.new (placed k Stage.Expression s LineKind.Semicolon)) }
        ensures err { IfErr result (λ e. e ≡ LineError.NoMemory) }
    {
        self.draft.expression_line(alloc, number, line)?;
        self.stage = Stage::Expression;
        Ok(())
    }

    /// Skips an action line that the table of stages accepts.
    fn action_line(&mut self)
        ensures { (byte : ℕ) (s : SoFar) (k : KeptLine)
            → next_by_table s.stage LineKind.Action byte ≡ TableCell.Next Stage.Actions
            → (s.stage ≡ Stage.Expression → ⊥) → Shows self.old s →
            Shows self.new (placed k Stage.Actions s LineKind.Action) }
    {
        self.stage = Stage::Actions;
    }
}

impl<'a> Reader<'a> {
    /// Reads a line of kind `Other` that the table of stages accepts; `stage` is the next stage.
    fn other_line(&mut self, stage: Stage, line: &'a [u8]) -> Result<(), LineError>
        ensures ok { OnOk result ((helpers : List (List ℕ)) (s : SoFar) (k : KeptLine) → k.bytes ≡ line.now
            → next_by_table s.stage LineKind.Other (slice_index line.now 0) ≡ TableCell.Next stage → Shows self.old s →
            (own_fault helpers s k LineKind.Other ≡ None) × Shows self.new (placed k stage s LineKind.Other)) }
        ensures err { IfErr result (λ e. (helpers : List (List ℕ)) (s : SoFar) (k : KeptLine) → k.bytes ≡ line.now
            → next_by_table s.stage LineKind.Other (slice_index line.now 0) ≡ TableCell.Next stage → Shows self.old s →
            Blames e (own_fault helpers s k LineKind.Other)) }
    {
        let word = &line[..word_len(line)];
        match stage {
            Stage::Diagram => self.diagram_line(word),
            Stage::Labels => self.constraint_line(word),
            _ => Ok(()),
        }
    }

    /// Reads a line that the table of stages accepts; `stage` is the next stage.
    fn taken_line(
        &mut self,
        alloc: Global,
        helpers: &[Bytes],
        number: u64,
        kind: LineKind,
        stage: Stage,
        line: &'a [u8],
    ) -> Result<(), LineError>
        requires some { 0 < length line.now }
        requires taking { IsTaking self.old kind (slice_index line.now 0) stage }
        ensures ok { OnOk result ((s : SoFar) (k : KeptLine) → k.number ≡ number → k.bytes ≡ line.now
            → next_by_table s.stage kind (slice_index line.now 0) ≡ TableCell.Next stage → Shows self.old s →
            (own_fault helpers.now s k kind ≡ None) × Shows self.new (placed k stage s kind)) }
        ensures err { IfErr result (λ e. (s : SoFar) (k : KeptLine) → k.number ≡ number → k.bytes ≡ line.now
            → next_by_table s.stage kind (slice_index line.now 0) ≡ TableCell.Next stage → Shows self.old s →
            Blames e (own_fault helpers.now s k kind)) }
    {
        match kind {
            LineKind::Pattern => self.pattern_line(alloc, line),
            LineKind::Colon => self.colon_line(alloc, helpers, line),
            LineKind::Semicolon => self.expression_line(alloc, number, line),
            LineKind::Action => {
                self.action_line();
                Ok(())
            }
            LineKind::Other => self.other_line(stage, line),
        }
    }

    /// Reads a line by the table of stages, once what the line ends has been closed without a fault.
    fn tabled_line(
        &mut self,
        alloc: Global,
        helpers: &[Bytes],
        number: u64,
        kind: LineKind,
        line: &'a [u8],
    ) -> Result<(), LineError>
        requires some { 0 < length line.now }
        requires reading { IsReading self.old }
        requires left { self.old.stage ≡ Stage.Expression → kind ≡ LineKind.Semicolon }
        ensures ok { OnOk result ((s : SoFar) (k : KeptLine) → k.number ≡ number → k.bytes ≡ line.now
            → kind ≡ kind_of k.bytes → Shows self.old s →
            (table_fault helpers.now s k (cell_for s.stage k) ≡ None) × Shows self.new (after_line s k)) }
        ensures err { IfErr result (λ e. (s : SoFar) (k : KeptLine) → k.number ≡ number → k.bytes ≡ line.now
            → kind ≡ kind_of k.bytes → Shows self.old s →
            Blames e (table_fault helpers.now s k (cell_for s.stage k))) }
    {
        match table(self.stage, kind, line[0]) {
            TableCell::Refused(kind) => Err(LineError::Kind(kind)),
            TableCell::Next(stage) => self.taken_line(alloc, helpers, number, kind, stage, line),
        }
    }

    /// Reads a line that has no bad byte: closes what the line ends, then reads the line by the table of stages.
    pub fn line(
        &mut self,
        alloc: Global,
        helpers: &[Bytes],
        number: u64,
        kind: LineKind,
        line: &'a [u8],
    ) -> Result<(), DbError>
        requires some { 0 < length line.now }
        requires reading { IsReading self.old }
        ensures ok { OnOk result ((s : SoFar) (k : KeptLine) → k.number ≡ number → k.is_bad ≡ false → k.bytes ≡ line.now
            → kind ≡ kind_of k.bytes → Shows self.old s →
            (found helpers.now s k ≡ None) × Shows self.new (after_line s k)) }
        ensures err { IfErr result (λ e. (s : SoFar) (k : KeptLine) → k.number ≡ number → k.is_bad ≡ false
            → k.bytes ≡ line.now → kind ≡ kind_of k.bytes → Shows self.old s →
            BlamesAt e (found helpers.now s k)) }
    {
        match self.close_stage(alloc, number, Some(kind)) {
            Ok(()) => {}
            Err(e) => return Err(e),
        }
        match self.tabled_line(alloc, helpers, number, kind, line) {
            Ok(()) => {}
            Err(e) => return Err(at(number, e)),
        }
        Ok(())
    }
}

impl<'a> Reader<'a> {
    /// Ends the text and returns its entries. A fault at the end of the text has this line number.
    fn end(mut self, alloc: Global, number: u64) -> Result<Vec<Pattern>, DbError>
        requires { IsReading self }
        ensures ok { IfOk result (λ v. (s : SoFar) → Shows self.entry s → (found_at_end number s ≡ None)
            × (map entry_of v.items ≡ map entry_of_block (blocks_of s))) }
        ensures err { IfErr result (λ e. (s : SoFar) → Shows self.entry s → BlamesAt e (found_at_end number s)) }
    {
        match self.close_stage(alloc, number, None) {
            Ok(()) => {}
            Err(e) => return Err(e),
        }
        if let Some(kind) = end_kind(self.stage) {
            return Err(fault_at(number, kind));
        }
        let Reader {
            stage,
            mut done,
            begun: _,
            draft,
        } = self;
        match close(&mut done, stage, draft) {
            Ok(()) => {}
            Err(_) => return Err(DbError::NoMemory),
        }
        Ok(done)
    }
}

/// The reader before the first line of a text. `out` is the list in which it gathers the entries.
fn start<'a>(alloc: Global, out: Vec<Pattern>) -> Reader<'a>
    requires { out.items ≡ [] }
    ensures { Shows result at_start }
{
    Reader {
        stage: Stage::Start,
        done: out,
        begun: 0,
        draft: nameless(alloc),
    }
}

/// Reads a database text: its entries in order, or its first fault. `out` must be empty.
///
/// `helpers` are the names of the helpers that entries may name. The only other error is `NoMemory`.
pub fn read(
    alloc: Global,
    text: &[u8],
    helpers: &[Bytes],
    out: Vec<Pattern>,
) -> Result<Vec<Pattern>, DbError>
    requires { out.items ≡ [] }
    // If entries are returned, the text has no fault, and they are the entries of the text.
    ensures ok { IfOk result (λ v. (first_fault helpers.now text.now ≡ None)
        × (map entry_of v.items ≡ entries text.now)) }
    // An error other than `NoMemory` is the first fault of the text.
    ensures err { IfErr result (λ e. BlamesAt e (first_fault helpers.now text.now)) }
{
    let mut reader = start(alloc, out);
    let mut lexer = lines(text);
    while let Some(told) = lexer.next() {
        match told {
            Err(bad) => {
                return Err(fault_at(bad.number, FaultKind::BadByte));
            }
            Ok(line) => {
                let bytes = &text[line.from..line.to];
                match reader.line(alloc, helpers, line.number, line.kind, bytes) {
                    Ok(()) => {}
                    Err(e) => return Err(e),
                }
            }
        }
    }
    reader.end(alloc, line_count(text) + 1)
}
