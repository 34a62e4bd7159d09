//! A line in the form in which it is passed to the machine.

/// A line of the stream: its bytes without the line feed, or the fact that it has more than 65,536 bytes.
#[derive(Clone, Copy, Debug)]
pub enum Raw<'a> {
    /// The bytes of the line, without the line feed.
    Line(&'a [u8]),
    /// The line has more than 65,536 bytes.
    TooLong,
}
