//! The game records of a folder.

use crate::fault::{Fault, noted};
use std::fs::{self, Files};
use std::io;

/// The ending of a record's file name.
const RECORD: &str = ".sgf";

/// The names of the records of a folder, in order.
fn names_in<R: Files + AllocGlobal + Clone + Drop>(
    rt: &R,
    folder: &str,
) -> io::Result<Vec<String>> {
    let mut names = Vec::new(rt.alloc());
    for entry in fs::read_dir(rt, folder)? {
        let entry = entry?;
        if entry.file_name().ends_with(RECORD) {
            names.push(String::from_str(rt.alloc(), entry.path().as_str())?)?;
        }
    }
    names.sort()?;
    Ok(names)
}

/// The names of the records of a folder, in order: the files whose names end in `.sgf`. Fails if there is no record, or
/// the folder cannot be listed.
pub(crate) fn records_of<R: Files + AllocGlobal + Clone + Drop>(
    rt: &R,
    folder: &str,
) -> Result<Vec<String>, Fault> {
    match names_in(rt, folder) {
        Ok(names) if names.is_empty() => Err(noted(format!(in rt.alloc(); "{folder}: no record"))),
        Ok(names) => Ok(names),
        Err(error) => Err(noted(format!(in rt.alloc(); "{folder}: {error}"))),
    }
}
