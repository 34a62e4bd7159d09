//! A loader of the system's files. No contract says what a file holds.
ghost use Rattle.std.specs.Prelude.{◌≡◌, ◌≤◌, [], None, map, string_bytes, IfOk, IfSome};
ghost use Rattle.std.specs.Io.{StartsWith};
ghost use Rattle.gtp_io.specs.Loading.{IsReadUpTo, longest_file};

use crate::loader::place_for;
use crate::{LoadError, Loader};
use std::alloc::Global;
use std::fs::OpenFile;
use std::io::Read;
use std::marker::Model;
use std::rt::Files;
use std::{fs, io};

/// The most bytes that a file may have.
const LONGEST_FILE: usize = 268_435_456;

/// Loads files by their paths. Contracts see the most bytes of a file, and the names of the loads that failed.
///
/// A load fails if the file cannot be read, or if it has more bytes than that.
#[derive(Drop)]
pub struct FileLoader<'a, R> {
    files: &'a R,
    most: usize,
    missed: Vec<String>,
}

impl<'a, R> Model for FileLoader<'a, R> {
    ghost use Rattle.std.specs.Prelude.{◌≤◌, map, string_bytes};
    ghost use Rattle.gtp_io.specs.Loading.{FilesState, longest_file};

    ghost Value = { FilesState };

    ghost view = { λ f. record { most = f.most; missed = map string_bytes f.missed.items } };

    ghost invariant = { λ f. f.most ≤ longest_file };
}

/// Appends to `into` what the reader has left, up to one byte more than `most`, and returns whether the reader's text
/// was read whole.
fn read_up_to<R: Read + Drop>(reader: R, most: usize, into: &mut Vec<u8>) -> io::Result<bool>
    requires { most ≤ longest_file }
    ensures front { StartsWith into.new.items into.old.items }
    ensures whole { IfOk result (λ whole. IfSome (R.remaining reader)
        (λ text. IsReadUpTo most text into.old.items into.new.items whole)) }
{
    let count = reader.take(most as u64 + 1).read_to_end(into)?;
    Ok(count <= most)
}

/// Appends a file to `into`, and returns whether it was read whole. Room for the length that the system tells is made
/// first, so that the bytes read so far need not move and no room is wasted.
fn read_file<R: Files>(files: &R, name: &str, most: usize, into: &mut Vec<u8>) -> io::Result<bool>
    requires { most ≤ longest_file }
    ensures { StartsWith into.new.items into.old.items }
{
    let file = fs::open(files, name)?;
    if let Ok(told) = file.metadata() {
        into.reserve_exact(told.len().min(most as u64) as usize)?;
    }
    read_up_to(file, most, into)
}

impl<'a, R: Files> FileLoader<'a, R> {
    /// A loader of the files that the handle gives, of at most 268,435,456 bytes each. No name was missed yet. Keeps
    /// the allocator, and takes no memory.
    pub fn new(alloc: Global, files: &'a R) -> FileLoader<'a, R>
        ensures { result ≡ record { most = longest_file; missed = [] } }
    {
        FileLoader::up_to(alloc, files, LONGEST_FILE)
    }

    /// A loader of the files that the handle gives, of at most `most` bytes each. No name was missed yet.
    pub fn up_to(alloc: Global, files: &'a R, most: usize) -> FileLoader<'a, R>
        requires { most ≤ longest_file }
        ensures { result ≡ record { most = most; missed = [] } }
    {
        FileLoader {
            files,
            most,
            missed: Vec::new(alloc),
        }
    }
}

impl<'a, R: Files> Loader for FileLoader<'a, R> {
    ghost contents = { λ _ _. None };

    ghost missed = { λ f. f.missed };

    fn load(&mut self, name: &str, mut into: Vec<u8>) -> Result<Vec<u8>, LoadError> {
        let place = place_for(&mut self.missed, name)?;
        match read_file(self.files, name, self.most, &mut into) {
            Ok(true) => return Ok(into),
            Err(error) if error.kind() == io::ErrorKind::OutOfMemory => {
                return Err(LoadError::NoMemory);
            }
            _ => {}
        }
        self.missed.push(place).unwrap();
        Err(LoadError::Failed)
    }
}
