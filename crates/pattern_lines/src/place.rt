//! A place in a text.

/// A place in a text.
#[derive(Clone, Copy)]
pub struct Place<'a> {
    /// The number of the line, counted from 1.
    pub line: u64,
    /// The number of the byte in the line, counted from 1.
    pub column: usize,
    /// The line as it stands in the text; empty if the place is behind the last line.
    pub text: &'a [u8],
}
