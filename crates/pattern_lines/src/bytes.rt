//! The kinds of single bytes in a pattern file.

use db_lex::is_blank;

/// Whether a byte ends a line.
pub fn is_feed(byte: &u8) -> bool {
    *byte == b'\n'
}

/// Whether a byte is forbidden in every line.
pub fn is_bad(byte: &u8) -> bool {
    matches!(*byte, 0..=8 | 11 | 14..=31 | 127)
}

/// Whether a byte does not count as a blank.
pub fn is_no_blank(byte: &u8) -> bool {
    !is_blank(*byte)
}

/// Whether a byte is a letter of a diagram.
pub fn is_letter(byte: u8) -> bool {
    matches!(byte, b'O' | b'X' | b'o' | b'x' | b'.' | b'?' | b'*')
}
