//! Reads files.

use crate::fault::{Fault, noted};
use std::fs;
use std::fs::Files;

/// The text of a file.
pub(crate) fn text_of<R: Files + AllocGlobal>(rt: &R, file: &str) -> Result<Vec<u8>, Fault> {
    match fs::read(rt, file) {
        Ok(text) => Ok(text),
        Err(error) => Err(noted(format!(in rt.alloc(); "{file}: {error}"))),
    }
}
