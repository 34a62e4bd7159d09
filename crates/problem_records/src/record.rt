//! Finds the problem of a record: in the line `gopat:` of its first node, or by its marks if there is no such line.

ghost use Rattle.std.specs.Prelude.{◌≡◌, ◌≤◌, ◌↔◌, IsTrue, IfOk, IfErr, Ok, Err, length};
ghost use Rattle.sgf_rules.specs.FirstNode.{first_position_of};
ghost use Rattle.sgf_rules.specs.Kinds.{number_of};
ghost use Rattle.problem_records.specs.Problems.{HasStone};
ghost use Rattle.problem_records.specs.Nodes.{first_node, named_values, all_shown};
ghost use Rattle.problem_records.specs.Marks.{marked_stones as all_marked, player_of};
ghost use Rattle.problem_records.specs.Marks.{asked_by_marks as question_of_marks};
ghost use Rattle.problem_records.specs.Asked.{IsOutcome};
ghost use Rattle.problem_records.specs.Found.{IsInMarks, IsInNode, IsOfLine};

use crate::lack::{Lack, ProblemError};
use crate::line::{Line, line_of, lines_of, told_line};
use crate::marks::{asked_by_marks, marked_stones, player};
use crate::node::{NamedValue, comment, first_node_start, values_at, values_end};
use crate::pieces::pieces_from;
use crate::problem::Problem;
use crate::variations::{right_moves, variations};
use go_base::{Cell, Colour, Point, Position, Size};
use problem_verdicts::{Depths, Expected, Moves};
use sgf_read::read_first_node;
use std::alloc::{AllocError, Global};

/// Whether `p` is a point of the board, and a stone stands there.
fn has_stone(position: &Position, p: Point) -> bool
    ensures { IsTrue result ↔ HasStone position.now p }
{
    p < position.size().points() && position.cell(p) != Cell::Empty
}

/// The right moves of `player` behind the first node, whose values end at the index `end`; `None` if there are none.
fn right_moves_behind(
    alloc: Global,
    text: &[u8],
    end: usize,
    size: Size,
    player: Option<Colour>,
) -> Result<Option<Moves>, AllocError>
    requires { end ≤ length text.now }
{
    let Some(player) = player else {
        return Ok(None);
    };
    let pieces = pieces_from(alloc, text, end)?;
    let variations = variations(alloc, pieces.as_slice())?;
    Ok(right_moves(variations.as_slice(), size, player))
}

/// The question that the marks of a node with these `values` ask, and the right moves behind `end`, where the values
/// end.
fn line_by_marks(
    alloc: Global,
    text: &[u8],
    end: usize,
    values: &[NamedValue<'_>],
    position: &Position,
    usual: Depths,
) -> Result<Line, ProblemError>
    requires { end ≤ length text.now }
    ensures { IsInMarks (question_of_marks position.now.cells (all_marked position.now (all_shown values.now))
        (player_of (all_shown values.now))) usual result }
{
    let stones = marked_stones(alloc, position, values)?;
    let player = player(alloc, values)?;
    let (kind, target) = asked_by_marks(position, stones.as_slice(), player)?;
    let answers = right_moves_behind(alloc, text, end, position.size(), player)?;
    Ok(Line {
        kind,
        target,
        depths: Some(usual),
        expected: Expected {
            code: None,
            answers,
            only: true,
        },
    })
}

/// The question of a node with these `values`, which end at the index `end`, and what the author expects.
fn line_by_values(
    alloc: Global,
    text: &[u8],
    end: usize,
    values: &[NamedValue<'_>],
    position: &Position,
    usual: Depths,
) -> Result<Line, ProblemError>
    requires { end ≤ length text.now }
    ensures { IsInNode position.now (all_shown values.now) usual result }
{
    let comment = comment(alloc, values)?;
    let lines = lines_of(alloc, comment.as_slice())?;
    match told_line(lines.as_slice())? {
        Some(line) => line_of(alloc, line, position.size(), usual.tree),
        None => line_by_marks(alloc, text, end, values, position, usual),
    }
}

/// The question of the first node of a record, and what the author expects.
fn line_by_record(
    alloc: Global,
    text: &[u8],
    position: &Position,
    usual: Depths,
) -> Result<Line, ProblemError>
    ensures { IsInNode position.now (named_values (first_node text.now)) usual result }
{
    let start = first_node_start(text);
    let values = values_at(alloc, text, start)?;
    line_by_values(
        alloc,
        text,
        values_end(text, start),
        values.as_slice(),
        position,
        usual,
    )
}

/// The problem of a line on this position; it is refused if no stone stands at its point.
fn problem_by_line(position: Position, line: Line, usual: Depths) -> Result<Problem, ProblemError>
    ensures { IsOfLine position line usual result }
{
    if !has_stone(&position, line.target) {
        return Err(ProblemError::Lacks(Lack::NoStone));
    }
    Ok(Problem {
        position,
        kind: line.kind,
        target: line.target,
        depths: line.depths.unwrap_or(usual),
        expected: line.expected,
    })
}

/// The problem of a record whose first node leads to this position.
fn problem_on(
    alloc: Global,
    text: &[u8],
    position: Position,
    usual: Depths,
) -> Result<Problem, ProblemError>
    ensures position { IfOk result (λ problem. problem.position ≡ position) }
    ensures outcome { IsOutcome position (named_values (first_node text.now)) usual result }
{
    let line = line_by_record(alloc, text, &position, usual)?;
    problem_by_line(position, line, usual)
}

/// The problem of a record, or what the record lacks. Its depths are `usual` if its line says none. Takes memory.
pub fn problem_of(alloc: Global, text: &[u8], usual: Depths) -> Result<Problem, ProblemError>
    ensures position { IfOk result (λ problem. first_position_of text.now ≡ Ok problem.position) }
    ensures fault { IfErr (first_position_of text.now) (λ kind.
        result ≡ Err (ProblemError.Lacks (Lack.BadRecord (number_of kind)))) }

    // If the first node leads to a position, the outcome is the question of its line, or of its marks without a line.
    ensures outcome { IfOk (first_position_of text.now) (λ pos.
        IsOutcome pos (named_values (first_node text.now)) usual result) }
{
    match read_first_node(text) {
        Ok(position) => problem_on(alloc, text, position, usual),
        Err(kind) => Err(ProblemError::Lacks(Lack::BadRecord(kind.number()))),
    }
}
