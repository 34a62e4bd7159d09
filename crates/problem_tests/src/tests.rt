//! The rows of problem sets, as their authors see them.

mod anywhere;
mod comments;
mod counted;
mod lacks;
mod marks;
mod objects;
mod surely;
mod verdicts;

use go_base::NoMemory;
use problem_rows::{print_row, row_of};
use problem_verdicts::{Depths, Replies, Scope, Tree};
use std::alloc::{AllocError, Global};
use std::process::Abort;

/// What is special about a record, the record itself, and the columns of its row behind the name.
type Record = (&'static str, &'static str, &'static str);

/// Why a test gives up.
#[derive(Debug, Drop)]
enum Fail {
    /// The depths are out of range.
    Depths,
    /// Memory ran out.
    Memory,
}

impl From<NoMemory> for Fail {
    fn from(_: NoMemory) -> Fail {
        Fail::Memory
    }
}

impl From<AllocError> for Fail {
    fn from(_: AllocError) -> Fail {
        Fail::Memory
    }
}

/// The depths of a record that says none: three plies, two of them wide, in the stated tree.
fn usual() -> Result<Depths, Fail> {
    match Depths::new(3, 2) {
        Some(depths) => Ok(depths.in_tree(Tree::Stated)),
        None => Err(Fail::Depths),
    }
}

/// The row of `record` under the name `r`, with the moves of `scope` judged against `replies`.
fn line_of(alloc: Global, record: &str, replies: Replies, scope: Scope) -> Result<String, Fail> {
    let row = row_of(alloc, record.as_bytes(), usual()?, replies, scope, false)?;
    let mut line = String::new(alloc);
    print_row(&mut line, "r", &row)?;
    Ok(line)
}

/// Compares the rows of records with the expected ones, with the moves of `scope` judged against `replies`.
fn compare_against<R: Abort + AllocGlobal>(
    rt: &R,
    replies: Replies,
    scope: Scope,
    records: &[Record],
) -> Result<(), Fail> {
    for &(what, record, columns) in records {
        let line = line_of(rt.alloc(), record, replies, scope)?;
        let want = format!(in rt.alloc(); "r\t{columns}\n")?;
        assert!(rt; line == want, "{what}: {line}");
    }
    Ok(())
}

/// Compares the rows of records with the expected ones, with the moves of `scope` judged against the replies that the
/// tree tries.
fn compare_in<R: Abort + AllocGlobal>(
    rt: &R,
    scope: Scope,
    records: &[Record],
) -> Result<(), Fail> {
    compare_against(rt, Replies::Tried, scope, records)
}

/// Compares the rows of records with the expected ones, with the moves judged that the tree tries.
fn compare<R: Abort + AllocGlobal>(rt: &R, records: &[Record]) -> Result<(), Fail> {
    compare_in(rt, Scope::Tried, records)
}
