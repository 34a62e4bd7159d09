//! The line of a comment that says the question and what is expected: `gopat: attack C2 depths 16 6 answer A1 only`.

ghost use Rattle.std.specs.Prelude.{◌≡◌, IfSome, IfOk, IfErr, MatchResult, Ok, Err, map};
ghost use Rattle.std.specs.List.{slice_split};
ghost use Rattle.std.specs.Option.{option_map};
ghost use Rattle.go_rules.specs.Board.{largest_points};
ghost use Rattle.sgf_rules.specs.Tokens.{is_blank as blank};
ghost use Rattle.problem_records.specs.Problems.{IsMoveBelow};
ghost use Rattle.problem_records.specs.Lines.{ends_line, behind_blanks, text_behind, words_of};
ghost use Rattle.problem_records.specs.Lines.{kind_named, kind_in, target_in, told_line, IsOfParts};
ghost use Rattle.problem_records.specs.Found.{AsksSame, IsInWords, IsInLine};

use crate::lack::{Lack, ProblemError};
use crate::node::are_same;
use go_base::{Point, Size};
use problem_verdicts::{Depths, Expected, Kind, Moves, Tree};
use std::alloc::{AllocError, Global};
use std::str;
use vertices::{target_named, vertex_named};

/// The word with which the line begins.
const LINE: &[u8] = b"gopat:";

/// What the line `gopat:` says.
#[derive(Drop)]
pub(crate) struct Line {
    /// Whether the target is attacked or defended.
    pub(crate) kind: Kind,
    /// The point that is asked about.
    pub(crate) target: Point,
    /// The depths, if the line says them.
    pub(crate) depths: Option<Depths>,
    /// What the author expects.
    pub(crate) expected: Expected,
}

/// The part of the line to which the next word belongs.
#[derive(Clone, Copy)]
enum Part {
    /// No part: the last one has ended.
    Ended,
    /// The next word is the plies.
    Plies,
    /// The next word is the wide plies; the plies are these.
    Wide(u8),
    /// The next word is the code.
    Code,
    /// The next word is a move: a list of moves has at least one.
    FirstMove,
    /// The next word may be a move.
    Moves,
}

/// A line of which some words have been read.
#[derive(Drop)]
struct Draft {
    /// What these words say.
    line: Line,
    /// The part to which the next word belongs.
    part: Part,
    /// The size of the board.
    size: Size,
    /// The tree that goes with the depths of the line.
    tree: Tree,
}

/// The question that a word names.
fn kind_named(word: &[u8]) -> Option<Kind>
    ensures { result ≡ kind_named word.now }
{
    if are_same(word, b"attack") {
        Some(Kind::Attack)
    } else if are_same(word, b"defend") {
        Some(Kind::Defend)
    } else {
        None
    }
}

/// The move that a word names: a point or the pass.
fn move_named(word: &[u8], size: Size) -> Option<Option<Point>>
    ensures { IfSome result (IsMoveBelow largest_points) }
{
    let _ = size.points();
    target_named(word, size)
}

/// The number that a word says.
fn number_said(word: &[u8]) -> Option<u8> {
    str::from_utf8(word).ok()?.parse::<u8>().ok()
}

impl Draft {
    /// Whether the line has already had this part.
    fn has(&self, part: Part) -> bool {
        let expected = &self.line.expected;
        match part {
            Part::Ended => expected.only,
            Part::Plies | Part::Wide(_) => self.line.depths.is_some(),
            Part::Code => expected.code.is_some(),
            Part::FirstMove | Part::Moves => expected.answers.is_some(),
        }
    }

    /// Begins a part, if a part may begin here and the line has not had this one.
    fn begin(&mut self, part: Part) -> Result<(), Lack>
        ensures same { AsksSame self.old.line self.new.line }
        ensures lack { IfErr result IsOfParts }
    {
        self.end()?;
        if self.has(part) {
            return Err(Lack::Twice);
        }
        self.part = part;
        Ok(())
    }

    /// Checks that the current part may end here.
    fn end(&self) -> Result<(), Lack>
        ensures { IfErr result IsOfParts }
    {
        match self.part {
            Part::Ended | Part::Moves => Ok(()),
            Part::Plies | Part::Wide(_) => Err(Lack::NoDepths),
            Part::Code => Err(Lack::NoCode),
            Part::FirstMove => Err(Lack::NoVertex),
        }
    }

    /// Reads the number of plies.
    fn take_plies(&mut self, word: &[u8]) -> Result<(), Lack>
        ensures same { AsksSame self.old.line self.new.line }
        ensures lack { IfErr result IsOfParts }
    {
        let plies = number_said(word).ok_or(Lack::NoDepths)?;
        self.part = Part::Wide(plies);
        Ok(())
    }

    /// Reads the number of wide plies, after the number of `plies`.
    fn take_wide(&mut self, plies: u8, word: &[u8]) -> Result<(), Lack>
        ensures same { AsksSame self.old.line self.new.line }
        ensures lack { IfErr result IsOfParts }
    {
        let wide = number_said(word).ok_or(Lack::NoDepths)?;
        let depths = Depths::new(plies, wide).ok_or(Lack::NoDepths)?;
        self.line.depths = Some(depths.in_tree(self.tree));
        self.part = Part::Ended;
        Ok(())
    }

    /// Reads the code.
    fn take_code(&mut self, word: &[u8]) -> Result<(), Lack>
        ensures same { AsksSame self.old.line self.new.line }
        ensures lack { IfErr result IsOfParts }
    {
        let code = number_said(word).ok_or(Lack::NoCode)?;
        if code > 3 {
            return Err(Lack::NoCode);
        }
        self.line.expected.code = Some(code);
        self.part = Part::Ended;
        Ok(())
    }

    /// Reads one of the moves.
    fn take_move(&mut self, word: &[u8]) -> Result<(), Lack>
        ensures same { AsksSame self.old.line self.new.line }
        ensures lack { IfErr result IsOfParts }
    {
        let at = move_named(word, self.size).ok_or(Lack::NoVertex)?;
        if at.is_none() && self.line.kind == Kind::Attack {
            return Err(Lack::NoPass);
        }
        if let Some(moves) = &mut self.line.expected.answers {
            moves.add(at);
        }
        self.part = Part::Moves;
        Ok(())
    }

    /// Reads a word that begins no part.
    fn take_word(&mut self, word: &[u8]) -> Result<(), Lack>
        ensures same { AsksSame self.old.line self.new.line }
        ensures lack { IfErr result IsOfParts }
    {
        match self.part {
            Part::Ended => Err(Lack::NoMeaning),
            Part::Plies => self.take_plies(word),
            Part::Wide(plies) => self.take_wide(plies, word),
            Part::Code => self.take_code(word),
            Part::FirstMove | Part::Moves => self.take_move(word),
        }
    }

    /// Begins the list of moves.
    fn begin_moves(&mut self) -> Result<(), Lack>
        ensures same { AsksSame self.old.line self.new.line }
        ensures lack { IfErr result IsOfParts }
    {
        self.begin(Part::FirstMove)?;
        self.line.expected.answers = Some(Moves::none());
        Ok(())
    }

    /// Rules out all other moves.
    fn rule_others_out(&mut self) -> Result<(), Lack>
        ensures same { AsksSame self.old.line self.new.line }
        ensures lack { IfErr result IsOfParts }
    {
        self.begin(Part::Ended)?;
        self.line.expected.only = true;
        Ok(())
    }

    /// Reads the next word.
    fn take(&mut self, word: &[u8]) -> Result<(), Lack>
        ensures same { AsksSame self.old.line self.new.line }
        ensures lack { IfErr result IsOfParts }
    {
        if are_same(word, b"depths") {
            self.begin(Part::Plies)
        } else if are_same(word, b"code") {
            self.begin(Part::Code)
        } else if are_same(word, b"answer") {
            self.begin_moves()
        } else if are_same(word, b"only") {
            self.rule_others_out()
        } else {
            self.take_word(word)
        }
    }

    /// The whole line, if its last part may end here and its parts agree.
    fn finish(self) -> Result<Line, Lack>
        ensures same { IfOk result (AsksSame self.line) }
        ensures lack { IfErr result IsOfParts }
    {
        self.end()?;
        let expected = &self.line.expected;
        if expected.only && expected.answers.is_none() {
            return Err(Lack::NoOnly);
        }
        if expected.code == Some(0) && expected.answers.is_some() {
            return Err(Lack::NoSuccess);
        }
        Ok(self.line)
    }
}

/// The question that the first of `words` names.
fn kind_in(words: &[&[u8]]) -> Result<Kind, Lack>
    ensures { result ≡ kind_in (map (λ w. w.now) words.now) }
{
    match words {
        [word, ..] => kind_named(word).ok_or(Lack::NoKind),
        [] => Err(Lack::NoKind),
    }
}

/// The point that the second of `words` says.
fn target_in(words: &[&[u8]], size: Size) -> Result<Point, Lack>
    ensures { result ≡ target_in size (map (λ w. w.now) words.now) }
{
    match words {
        [_, word, ..] => vertex_named(word, size).ok_or(Lack::NoTarget),
        _ => Err(Lack::NoTarget),
    }
}

/// The line with the question `kind` about `target`, and with what these `words` behind it say.
fn parts_in(
    words: &[&[u8]],
    kind: Kind,
    target: Point,
    size: Size,
    tree: Tree,
) -> Result<Line, Lack>
    ensures same { IfOk result (λ line. (line.kind ≡ kind) × (line.target ≡ target)) }
    ensures lack { IfErr result IsOfParts }
{
    let mut draft = Draft {
        line: Line {
            kind,
            target,
            depths: None,
            expected: Expected {
                code: None,
                answers: None,
                only: false,
            },
        },
        part: Part::Ended,
        size,
        tree,
    };
    for word in words {
        draft.take(word)?;
    }
    draft.finish()
}

/// The line that these words say.
fn line_by_words(words: &[&[u8]], size: Size, tree: Tree) -> Result<Line, Lack>
    ensures { IsInWords size (map (λ w. w.now) words.now) result }
{
    let kind = kind_in(words)?;
    let target = target_in(words, size)?;
    let parts = words.get(2..).unwrap_or(&[]);
    parts_in(parts, kind, target, size, tree)
}

/// Whether a byte is a blank.
fn is_blank(b: u8) -> bool
    ensures { result ≡ blank b }
{
    (9 <= b && b <= 13) || b == b' '
}

/// The words of a line.
fn words_of<'a>(alloc: Global, line: &'a [u8]) -> Result<Vec<&'a [u8]>, AllocError>
    ensures { IfOk result (λ words. map (λ w. w.now) words.items ≡ words_of line.now) }
{
    line.split(|b| is_blank(*b))
        .filter(|word| !word.is_empty())
        .collect(alloc)
}

/// The line that the text behind `gopat:` says.
pub(crate) fn line_of(
    alloc: Global,
    line: &[u8],
    size: Size,
    tree: Tree,
) -> Result<Line, ProblemError>
    ensures { IsInLine size line.now result }
{
    let words = words_of(alloc, line)?;
    Ok(line_by_words(words.as_slice(), size, tree)?)
}

/// The bytes that are left if all blanks at the front are dropped.
fn behind_blanks(bytes: &[u8]) -> &[u8]
    ensures { result.now ≡ behind_blanks bytes.now }
{
    for (i, b) in bytes.iter().enumerate() {
        if !is_blank(*b) {
            return &bytes[i..];
        }
    }
    &[]
}

/// The text behind `gopat:`, if the line begins with `gopat:` after its blanks.
fn text_behind(line: &[u8]) -> Option<&[u8]>
    ensures { option_map (λ text. text.now) result ≡ text_behind line.now }
{
    behind_blanks(line).strip_prefix(LINE)
}

/// The lines of a comment.
pub(crate) fn lines_of<'a>(alloc: Global, comment: &'a [u8]) -> Result<Vec<&'a [u8]>, AllocError>
    ensures { IfOk result (λ lines. map (λ line. line.now) lines.items ≡ slice_split ends_line comment.now) }
{
    comment.split(|b| *b == b'\n').collect(alloc)
}

/// The text of the one line that begins with `gopat:`; `None` if no line begins so.
pub(crate) fn told_line<'a>(lines: &[&'a [u8]]) -> Result<Option<&'a [u8]>, Lack>
    ensures { MatchResult result
        (λ found. told_line (map (λ line. line.now) lines.now) ≡ Ok (option_map (λ text. text.now) found))
        (λ lack. told_line (map (λ line. line.now) lines.now) ≡ Err lack) }
{
    let mut found = None;
    for line in lines {
        if let Some(text) = text_behind(line) {
            if found.is_some() {
                return Err(Lack::ManyLines);
            }
            found = Some(text);
        }
    }
    Ok(found)
}
