//! The commands that print why a capture is sure, and that check such a proof.

ghost use Rattle.std.specs.Prelude.{◌≡◌, ◌≢◌, ◌*◌, ◌<◌, ◌≤◌, ◌&&◌, true, List, ℕ, [], Ok, Some, IfOk};
ghost use Rattle.go_rules.specs.Strings.{cell_at, is_stone};
ghost use Rattle.gtp_cmd.specs.Spans.{spanned, IsSpanOf};
ghost use Rattle.read_rules.specs.Answer.{asked_in, first_node};
ghost use Rattle.read_proof.specs.Tokens.{words_in};
ghost use Rattle.sure_lines.specs.Answers.{IsAnswer};
ghost use Rattle.sure_lines.specs.Files.{named_file, IsFileOf, by_file, word_at};
ghost use Rattle.sure_lines.specs.Machine.{Machine, present};
ghost use Rattle.sure_lines.specs.ProofCommands.{code_of_capture, has_allowances, coded_proof, proof_told, proved};
ghost use Rattle.sure_lines.specs.ProofCommands.{IsProofTold, is_sure_proof, judged, checked_by, kind_of, names_file};
ghost use Rattle.sure_lines.specs.ProofCommands.{proof_name, proof_in, blank_for_line_feed};

use crate::answer::{Answer, brief_answer};
use crate::files::load_file;
use crate::line::word;
use crate::machine::SureMachine;
use crate::question_commands::sure_answer;
use go_base::{Bytes, Cell, NoMemory, Point, Position};
use gtp_cmd::{RefuseText, Span};
use gtp_io::Loader;
use itoa::Buffer;
use read_rules::{Depths, Kind};
use std::alloc::Global;
use sure_proof::checks_surely;
use write_sure::{SureProofError, sure_proof};

/// The kind of question that a proof is about: an attack if `attack`, else a defence.
fn kind_of(attack: bool) -> Kind
    ensures { result ≡ kind_of attack }
{
    if attack { Kind::Attack } else { Kind::Defend }
}

/// The code under whose ko allowances the capture is sure, if `code` is the code of an answer: for an attack `code`
/// itself, for a defence the next code, which the defence does not attain.
fn code_of_capture(kind: Kind, code: u8) -> u8
    requires { code ≤ 3 }
    ensures { result ≡ code_of_capture kind code }
{
    match kind {
        Kind::Attack => code,
        Kind::Defend => code + 1,
    }
}

/// Whether `code` has ko allowances: whether it is 1, 2 or 3.
fn has_allowances(code: u8) -> bool
    ensures { result ≡ has_allowances code }
{
    code > 0 && code < 4
}

/// The text of a code, and of a proof after a blank if `proof` is not empty. Takes memory.
fn proof_text(alloc: Global, code: u8, proof: &[u8]) -> Result<Bytes, NoMemory>
    ensures { IfOk result (λ text. text ≡ coded_proof code proof.now) }
{
    let mut buffer = Buffer::new();
    let mut text = Bytes::new(alloc);
    text.extend(buffer.format(code).as_bytes())?;
    if !proof.is_empty() {
        text.push(b' ')?;
        text.extend(proof)?;
    }
    Ok(text)
}

/// The answer with a code and a proof; the lack of memory if there was none for it.
fn told_proof(alloc: Global, code: u8, proof: &[u8]) -> Answer
    ensures { (old : Machine) → IsAnswer (proof_told code proof.now old) result old old }
{
    match proof_text(alloc, code, proof) {
        Ok(text) => Answer::Grown(text),
        Err(NoMemory) => Answer::NoMemory,
    }
}

/// The answer with a code and what the search for its proof found: with the proof, without one if there is none, or a
/// refusal.
fn told_found(alloc: Global, code: u8, found: Result<Option<Bytes>, SureProofError>) -> Answer
    ensures { (text : List ℕ) × (text ≢ [] → found ≡ Ok (Some text))
        × ((old : Machine) → IsAnswer (proof_told code text old) result old old) }
{
    match found {
        Ok(Some(text)) => told_proof(alloc, code, text.as_slice()),
        Err(SureProofError::TooLong) => Answer::Refused(RefuseText::ProofTooLong),
        Err(SureProofError::NoMemory) => Answer::NoMemory,
        Ok(None) | Err(SureProofError::NotFound) => told_proof(alloc, code, b""),
    }
}

/// Whether the words of a text are a proof that the string at `p` is surely captured under the ko allowances of `code`.
fn is_proof(
    position: &Position,
    kind: Kind,
    p: Point,
    depths: Depths,
    code: u8,
    text: &[u8],
) -> bool
    requires on_board { p < position.now.size * position.now.size }
    requires stone { cell_at position.now.cells p ≢ Cell.Empty }
    ensures { result ≡ is_sure_proof depths.plies
        (first_node (asked_in depths.tree position.now kind p depths.plies depths.wide) code) position.now
        (words_in text.now) }
{
    checks_surely(position, kind, p, depths, code, text)
}

/// Whether a text names a file: whether its first byte is `@`.
fn names_file(text: &[u8]) -> bool
    ensures { result ≡ names_file text.now }
{
    match text.first() {
        Some(b) => *b == b'@',
        None => false,
    }
}

/// The byte, with a blank in place of a line feed.
fn blank_for_line_feed(b: u8) -> u8
    ensures { result ≡ blank_for_line_feed b }
{
    if b == b'\n' { b' ' } else { b }
}

/// Puts a blank in the place of each line feed, so that words that stand on lines are words of one line.
fn join_lines(text: &mut [u8])
    ensures { text.new ≡ proof_in text.old }
{
    'bytes: for b in text.iter_mut() {
        *b = blank_for_line_feed(*b);
    }
}

/// The text of the proof that a file with this text holds: the words of all its lines on one line.
fn joined(mut file: Vec<u8>) -> Vec<u8>
    ensures { result.items ≡ proof_in file.items }
{
    join_lines(file.as_mut_slice());
    file
}

/// Whether both are true.
fn are_both(first: bool, second: bool) -> bool
    ensures { result ≡ (first && second) }
{
    first && second
}

impl SureMachine {
    /// Prints the code of a question about the string of `p`, and a proof of the sure capture that this code means.
    pub(crate) fn print_proof(&self, alloc: Global, kind: Kind, p: Point) -> Answer
        requires { p < self.now.game.base.size * self.now.game.base.size }
        ensures { (text : List ℕ) × IsProofTold self.now kind p text
            × IsAnswer (proved self.now kind p text) result self.now self.now }
    {
        let position = self.position();
        if position.cell(p) == Cell::Empty {
            return Answer::Refused(RefuseText::VertexEmpty);
        }
        let code = sure_answer(&position, kind, p, self.depths).code;
        let under = code_of_capture(kind, code);
        let found = sure_proof(alloc, &position, kind, p, self.depths, under);
        told_found(alloc, code, found)
    }

    /// Answers whether the words in the part `tokens` of the line are a proof that the string of `p` is surely captured
    /// under the ko allowances that belong to `code`; refused if no stone stands there. If the words begin with `@`,
    /// what follows is the name of a file, and the words in this file are checked in their place: then the name and the
    /// text of the file take memory.
    pub(crate) fn check_proof<L: Loader>(
        &self,
        alloc: Global,
        attack: bool,
        p: Point,
        code: u8,
        line: &[u8],
        tokens: Span,
        files: &mut L,
    ) -> Answer
        requires on_board { p < self.now.game.base.size * self.now.game.base.size }
        requires code { code ≤ 3 }
        requires span { IsSpanOf line.now tokens }
        ensures answer { (file : List ℕ) × IsFileOf (L.contents files.old) (proof_name (spanned line.now tokens)) file
            × IsAnswer (checked_by self.now (kind_of attack) p code (spanned line.now tokens) file) result self.now
            self.now }
        ensures contents { L.contents files.new ≡ L.contents files.old }
    {
        if !self.has_stone(p) {
            return Answer::Refused(RefuseText::VertexEmpty);
        }
        let kind = kind_of(attack);
        let words = &line[tokens.from as usize..tokens.to as usize];
        if !names_file(words) {
            return self.judge(kind, p, code, words);
        }
        let name = Span {
            from: tokens.from + 1,
            to: tokens.to,
        };
        self.judge_file(alloc, kind, p, code, line, name, files)
    }

    /// Whether a stone stands at `p`.
    fn has_stone(&self, p: Point) -> bool
        requires { p < self.now.game.base.size * self.now.game.base.size }
        ensures { result ≡ is_stone (cell_at (present self.now).cells p) }
    {
        self.position().cell(p) != Cell::Empty
    }

    /// Answers whether the words of a text are a proof that the string of `p` is surely captured under the ko
    /// allowances that belong to `code`.
    fn judge(&self, kind: Kind, p: Point, code: u8, words: &[u8]) -> Answer
        requires on_board { p < self.now.game.base.size * self.now.game.base.size }
        requires stone { is_stone (cell_at (present self.now).cells p) ≡ true }
        requires code { code ≤ 3 }
        ensures { IsAnswer (judged self.now kind p code words.now) result self.now self.now }
    {
        let under = code_of_capture(kind, code);
        let holds = is_proof(&self.position(), kind, p, self.depths, under, words);
        brief_answer(word(are_both(has_allowances(under), holds)))
    }

    /// Answers the same of the words in the file whose name stands in the part `name` of the line. Takes memory for the
    /// name and the text of the file.
    fn judge_file<L: Loader>(
        &self,
        alloc: Global,
        kind: Kind,
        p: Point,
        code: u8,
        line: &[u8],
        name: Span,
        files: &mut L,
    ) -> Answer
        requires on_board { p < self.now.game.base.size * self.now.game.base.size }
        requires stone { is_stone (cell_at (present self.now).cells p) ≡ true }
        requires code { code ≤ 3 }
        requires span { IsSpanOf line.now name }
        ensures answer { (file : List ℕ) × IsFileOf (L.contents files.old) (named_file (word_at line.now name)) file
            × IsAnswer (by_file self.now (word_at line.now name) (judged self.now kind p code (proof_in file))) result
            self.now self.now }
        ensures contents { L.contents files.new ≡ L.contents files.old }
    {
        match load_file(alloc, line, name, files) {
            Ok(file) => self.judge(kind, p, code, joined(file).as_slice()),
            Err(said) => said,
        }
    }
}
