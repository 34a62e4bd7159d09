//! What the programs `gopat` and `gopat_wide` share: the words of the command line.
#![tactic(auto)]

ghost use Rattle.std.specs.Prelude.{◌≡◌, ◌↔◌};
ghost use Rattle.std.specs.IoError.{error_kind};

use session::WordsError;
use std::io::ErrorKind;
use std::rt::Env;
use std::{env, io};

// Why the words are missing: for want of memory exactly if `error` says so.
fn cause(error: io::Error) -> WordsError
    ensures { (result ≡ WordsError.NoMemory) ↔ (error_kind error ≡ ErrorKind.OutOfMemory) }
{
    match error.kind() {
        ErrorKind::OutOfMemory => WordsError::NoMemory,
        _ => WordsError::NotText,
    }
}

/// The words of the command line without the program's name, or why they are missing. Takes memory.
pub fn words<R: Env + AllocGlobal>(rt: &R) -> Result<Vec<String>, WordsError> {
    let all = match env::args(rt) {
        Ok(all) => all,
        Err(error) => return Err(cause(error)),
    };
    let mut words = Vec::new(rt.alloc());
    for word in all.skip(1) {
        if words.push(word).is_err() {
            return Err(WordsError::NoMemory);
        }
    }
    Ok(words)
}
