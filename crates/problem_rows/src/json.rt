//! The row of a record as an object of JSON.

use crate::page::{kind_word, print_bytes, print_moves, tree_word, verdict_words};
use crate::row::{Asked, Row};
use go_base::Size;
use problem_verdicts::{Moves, Scope, Verdict};
use std::alloc::AllocError;
use std::fmt::Display;
use vertices::vertex_text;

/// Prints a text between quotes, and escapes the characters that JSON does not allow in it.
fn print_text(page: &mut String, text: &str) -> Result<(), AllocError> {
    page.push_str("\"")?;
    for letter in text.chars() {
        match letter {
            '"' => page.push_str("\\\"")?,
            '\\' => page.push_str("\\\\")?,
            control if control < ' ' => write!(page, "\\u{:04x}", control as u32)?,
            other => page.push(other)?,
        }
    }
    page.push_str("\"")
}

/// The word for a scope.
fn scope_word(scope: Scope) -> &'static str {
    match scope {
        Scope::Tried => "tried",
        Scope::Anywhere => "anywhere",
    }
}

/// Prints moves as a list.
fn print_list(page: &mut String, moves: &Moves, size: Size) -> Result<(), AllocError> {
    page.push_str("[")?;
    print_moves(page, moves, size, "\"", ",")?;
    page.push_str("]")
}

/// Prints a member that is a number, or null if there is no number.
fn print_number(page: &mut String, name: &str, value: Option<u8>) -> Result<(), AllocError> {
    match value {
        Some(value) => write!(page, ",\"{name}\":{value}"),
        None => write!(page, ",\"{name}\":null"),
    }
}

/// Prints the members of a question.
fn print_question(page: &mut String, asked: &Asked) -> Result<(), AllocError> {
    let problem = &asked.problem;
    write!(
        page,
        ",\"kind\":\"{}\",\"target\":\"",
        kind_word(problem.kind)
    )?;
    let size = problem.position.size();
    print_bytes(page, vertex_text(size, problem.target).as_slice())?;
    write!(
        page,
        "\",\"plies\":{},\"wide\":{},\"tree\":\"{}\",\"scope\":\"{}\"",
        problem.depths.plies,
        problem.depths.wide,
        tree_word(asked.replies, problem.depths.tree),
        scope_word(asked.scope)
    )
}

/// Prints the member of the moves that the author expects.
fn print_expected(page: &mut String, asked: &Asked) -> Result<(), AllocError> {
    page.push_str(",\"expected\":")?;
    match &asked.problem.expected.answers {
        Some(moves) => print_list(page, moves, asked.problem.position.size()),
        None => page.push_str("null"),
    }
}

/// Prints the members of what is found.
fn print_found(page: &mut String, asked: &Asked) -> Result<(), AllocError> {
    let found = &asked.judged.found;
    print_number(page, "code", Some(found.code))?;
    page.push_str(",\"moves\":")?;
    print_list(page, &found.moves, asked.problem.position.size())?;
    print_number(page, "fewest", found.fewest)
}

/// Prints the member of the verdict.
fn print_verdict(page: &mut String, verdict: Verdict) -> Result<(), AllocError> {
    write!(page, ",\"verdict\":\"{}\"", verdict_words(verdict))
}

/// Prints the member of the proof, if a proof is asked for.
fn print_proof(page: &mut String, asked: &Asked) -> Result<(), AllocError> {
    match &asked.proof {
        Some(Some(text)) => {
            page.push_str(",\"proof\":\"")?;
            print_bytes(page, text.as_slice())?;
            page.push_str("\"")
        }
        Some(None) => page.push_str(",\"proof\":null"),
        None => Ok(()),
    }
}

/// Prints the members of a record that asks a question.
fn print_asked(page: &mut String, asked: &Asked) -> Result<(), AllocError> {
    print_question(page, asked)?;
    print_expected(page, asked)?;
    print_found(page, asked)?;
    print_verdict(page, asked.judged.verdict)?;
    if asked.judged.verdict == Verdict::NotTold {
        page.push_str(",\"why\":\"no answer\"")?;
    }
    print_proof(page, asked)
}

/// Prints the members of a record that asks no question.
fn print_unasked<D: Display>(page: &mut String, why: &D) -> Result<(), AllocError> {
    page.push_str(",\"kind\":null,\"target\":null,\"plies\":null,\"wide\":null,\"tree\":null")?;
    page.push_str(
        ",\"scope\":null,\"expected\":null,\"code\":null,\"moves\":null,\"fewest\":null",
    )?;
    print_verdict(page, Verdict::NotTold)?;
    write!(page, ",\"why\":\"{why}\"")
}

/// Prints the object of the record called `name`.
pub fn print_object(page: &mut String, name: &str, row: &Row) -> Result<(), AllocError> {
    page.push_str("{\"record\":")?;
    print_text(page, name)?;
    match row {
        Row::Asked(asked) => print_asked(page, asked)?,
        Row::Lacks(lack) => print_unasked(page, lack)?,
        Row::NotLoaded => print_unasked(page, &"cannot load file")?,
    }
    page.push_str("}\n")
}
