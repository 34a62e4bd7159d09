//! Bytes of a text, as messages show them.

use std::fmt::{self, Display, Formatter, Write};

/// Bytes of a text. A byte that is neither printable ASCII nor a blank is shown by its number.
#[derive(Clone, Copy)]
pub struct Shown<'a>(pub &'a [u8]);

/// A byte of a text, shown by its number if it is neither printable ASCII nor a blank.
#[derive(Clone, Copy)]
pub struct ShownByte(pub u8);

impl Display for ShownByte {
    fn fmt<W: Write>(&self, f: &mut Formatter<W>) -> fmt::Result {
        let byte = self.0;
        if byte == b' ' || byte.is_ascii_graphic() {
            char::from(byte).fmt(f)
        } else {
            write!(f, "\\x{byte:02x}")
        }
    }
}

impl Display for Shown<'_> {
    fn fmt<W: Write>(&self, f: &mut Formatter<W>) -> fmt::Result {
        for byte in self.0 {
            ShownByte(*byte).fmt(f)?;
        }
        Ok(())
    }
}
