//! The records that the command line names.

use crate::options::Options;
use std::fs::{self, Files};
use std::io;

/// The ending of a record's file name in a folder.
const RECORD: &str = ".sgf";

/// Whether the file of this path is called `name`, or `name` with the ending of a record.
fn is_of_name(path: &str, name: &str) -> bool {
    let file = match path.rsplit_once('/') {
        Some((_, file)) => file,
        None => path,
    };
    file == name || file.strip_suffix(RECORD) == Some(name)
}

/// Whether `name` is the name of a folder.
fn is_folder<R: Files>(rt: &R, name: &str) -> bool {
    match fs::metadata(rt, name) {
        Ok(metadata) => metadata.is_dir(),
        Err(_) => false,
    }
}

/// The records of a folder, in the order of their names.
fn records_in<R: Files + AllocGlobal + Clone + Drop>(
    rt: &R,
    folder: &str,
) -> io::Result<Vec<String>> {
    let mut names = Vec::new(rt.alloc());
    for entry in fs::read_dir(rt, folder)? {
        let entry = entry?;
        if entry.file_name().ends_with(RECORD) {
            names.push(String::from_str(rt.alloc(), entry.path().as_str())?)?;
        }
    }
    names.sort()?;
    Ok(names)
}

/// The records that the command line asks for: the records of each folder in the order of their names, and each file
/// itself.
pub(crate) fn records_of<R: Files + AllocGlobal + Clone + Drop>(
    rt: &R,
    options: &Options,
) -> io::Result<Vec<String>> {
    let mut names = Vec::new(rt.alloc());
    for place in &options.places {
        if is_folder(rt, place.as_str()) {
            for name in records_in(rt, place.as_str())? {
                names.push(name)?;
            }
        } else {
            names.push(String::from_str(rt.alloc(), place.as_str())?)?;
        }
    }
    if let Some(only) = &options.only {
        names.retain(|name| is_of_name(name.as_str(), only.as_str()));
    }
    Ok(names)
}
