//! What the readers make of texts.
mod databases;
mod expressions;
mod nesting;
mod patterns;
mod records;

use std::alloc::{AllocError, Global};

/// A text of `count` copies of `part`.
fn repeated(alloc: Global, count: usize, part: &[u8]) -> Result<Vec<u8>, AllocError> {
    let mut text = Vec::new(alloc);
    for _ in 0..count {
        text.extend_from_slice(part)?;
    }
    Ok(text)
}
