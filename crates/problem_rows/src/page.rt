//! The row of a record as one line: columns separated by tabs.

use crate::row::{Asked, Row};
use go_base::Size;
use problem_verdicts::{Kind, Moves, Replies, Scope, Tree, Verdict};
use std::alloc::AllocError;
use std::fmt::Display;
use vertices::vertex_text;

/// The text of a column of which nothing is known.
const NOTHING: &str = "-";

/// The word for a question.
pub(crate) fn kind_word(kind: Kind) -> &'static str {
    match kind {
        Kind::Attack => "attack",
        Kind::Defend => "defend",
    }
}

/// The word for a tree. For sure answers it is the word of the replies, with `wider` if the attacker's candidates are
/// those of the wider tree.
pub(crate) fn tree_word(replies: Replies, tree: Tree) -> &'static str {
    match (replies, tree) {
        (Replies::Tried, Tree::Stated) => "stated",
        (Replies::Tried, Tree::Wider) => "wider",
        (Replies::Every, Tree::Stated) => "sure",
        (Replies::Every, Tree::Wider) => "sure-wider",
    }
}

/// The words for a verdict.
pub(crate) fn verdict_words(verdict: Verdict) -> &'static str {
    match verdict {
        Verdict::AsExpected => "as expected",
        Verdict::OtherAnswersToo => "other answers too",
        Verdict::AnotherAnswer => "another answer",
        Verdict::NeedsNoMove => "needs no move",
        Verdict::NotSolved => "not solved within the depths",
        Verdict::NotTold => "not told",
    }
}

/// Prints the ASCII bytes of a text, and leaves out all others.
pub(crate) fn print_bytes(page: &mut String, bytes: &[u8]) -> Result<(), AllocError> {
    for b in bytes {
        if b.is_ascii() {
            page.push(char::from(*b))?;
        }
    }
    Ok(())
}

/// Prints moves, the pass first: each between quotes, with a separator between two of them.
pub(crate) fn print_moves(
    page: &mut String,
    moves: &Moves,
    size: Size,
    quote: &str,
    separator: &str,
) -> Result<(), AllocError> {
    let mut is_first = true;
    if moves.pass {
        write!(page, "{quote}PASS{quote}")?;
        is_first = false;
    }
    for p in 0..size.points() {
        if moves.points.has(p) {
            if !is_first {
                page.push_str(separator)?;
            }
            page.push_str(quote)?;
            print_bytes(page, vertex_text(size, p).as_slice())?;
            page.push_str(quote)?;
            is_first = false;
        }
    }
    Ok(())
}

/// Prints the question of a record.
fn print_question(page: &mut String, asked: &Asked) -> Result<(), AllocError> {
    let problem = &asked.problem;
    write!(page, "{} ", kind_word(problem.kind))?;
    let size = problem.position.size();
    print_bytes(page, vertex_text(size, problem.target).as_slice())?;
    write!(
        page,
        " depths {} {}",
        problem.depths.plies, problem.depths.wide
    )?;
    if asked.replies == Replies::Every {
        write!(page, " {}", tree_word(asked.replies, problem.depths.tree))?;
    }
    match asked.scope {
        Scope::Tried => Ok(()),
        Scope::Anywhere => page.push_str(" anywhere"),
    }
}

/// Prints the moves that attain the code.
fn print_answers(page: &mut String, asked: &Asked) -> Result<(), AllocError> {
    let moves = &asked.judged.found.moves;
    if moves.count() == 0 {
        return page.push_str(NOTHING);
    }
    print_moves(page, moves, asked.problem.position.size(), "", " ")
}

/// Prints a column that may be empty.
fn print_column<T: Display>(page: &mut String, value: &Option<T>) -> Result<(), AllocError> {
    match value {
        Some(value) => write!(page, "{value}"),
        None => page.push_str(NOTHING),
    }
}

/// Prints the verdict on a question, with the reason if the author tells no answer.
fn print_verdict(page: &mut String, verdict: Verdict) -> Result<(), AllocError> {
    page.push_str(verdict_words(verdict))?;
    if verdict == Verdict::NotTold {
        page.push_str(": no answer")?;
    }
    Ok(())
}

/// Prints the proof, if a proof is asked for.
fn print_proof(page: &mut String, asked: &Asked) -> Result<(), AllocError> {
    match &asked.proof {
        Some(Some(text)) => {
            page.push_str("\t")?;
            print_bytes(page, text.as_slice())
        }
        Some(None) => page.push_str("\tproof too long"),
        None => Ok(()),
    }
}

/// Prints the columns of a question.
fn print_asked(page: &mut String, asked: &Asked) -> Result<(), AllocError> {
    let found = &asked.judged.found;
    print_question(page, asked)?;
    write!(page, "\t{}\t", found.code)?;
    print_answers(page, asked)?;
    page.push_str("\t")?;
    print_column(page, &found.fewest)?;
    page.push_str("\t")?;
    print_verdict(page, asked.judged.verdict)?;
    print_proof(page, asked)
}

/// Prints the columns of a record that asks no question, with the reason.
fn print_unasked<D: Display>(page: &mut String, why: &D) -> Result<(), AllocError> {
    write!(page, "-\t-\t-\t-\tnot told: {why}")
}

/// Prints the line of the record called `name`.
pub fn print_row(page: &mut String, name: &str, row: &Row) -> Result<(), AllocError> {
    write!(page, "{name}\t")?;
    match row {
        Row::Asked(asked) => print_asked(page, asked)?,
        Row::Lacks(lack) => print_unasked(page, lack)?,
        Row::NotLoaded => print_unasked(page, &"cannot load file")?,
    }
    page.push_str("\n")
}
