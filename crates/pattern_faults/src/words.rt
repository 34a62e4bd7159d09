//! Words with values in them.

use crate::shown::{Shown, ShownByte};
use std::fmt::{self, Display, Formatter, Write};

/// A value that stands in words.
#[derive(Clone, Copy)]
pub enum Value<'a> {
    /// No value: it prints as nothing.
    Nothing,
    /// A number of things in a text.
    Number(usize),
    /// The least and the greatest of the allowed numbers; printed as one number if they are equal.
    Between(usize, usize),
    /// The number of a line.
    Line(u64),
    /// A byte of a text.
    Byte(u8),
    /// Bytes of a text.
    Bytes(&'a [u8]),
}

impl Display for Value<'_> {
    fn fmt<W: Write>(&self, f: &mut Formatter<W>) -> fmt::Result {
        match self {
            Value::Nothing => Ok(()),
            Value::Number(number) => number.fmt(f),
            Value::Between(least, most) if least == most => least.fmt(f),
            Value::Between(least, most) => write!(f, "{least} to {most}"),
            Value::Line(line) => line.fmt(f),
            Value::Byte(byte) => ShownByte(*byte).fmt(f),
            Value::Bytes(bytes) => Shown(bytes).fmt(f),
        }
    }
}

/// Writes `words` with the `values` in the places of their `{}`. There must be one more value than places; the last is
/// `Nothing`.
pub fn write_words<W: Write>(
    f: &mut Formatter<W>,
    words: &str,
    values: &[Value<'_>],
) -> fmt::Result {
    for (piece, value) in words.split("{}").zip(values) {
        write!(f, "{piece}{value}")?;
    }
    Ok(())
}
