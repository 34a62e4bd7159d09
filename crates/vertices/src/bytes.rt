//! The bytes of a line that are dropped, and the bytes that separate words.

ghost use Rattle.std.specs.Prelude.{◌≡◌};
ghost use Rattle.vertices.specs.Words.{is_kept};
ghost use Rattle.vertices.specs.RawWords.{is_parting, is_skipped};

/// The byte of a line feed, which ends a line.
const LINE_FEED: u8 = b'\n';

/// The byte of a tab, which counts as a blank.
const TAB: u8 = b'\t';

/// The control byte above the letters.
const DELETE: u8 = 127;

/// Whether the byte `b` is kept: it is no control byte, or it is a tab or a line feed.
pub fn is_kept(b: u8) -> bool
    ensures { result ≡ is_kept b }
{
    b >= b' ' && b != DELETE || b == TAB || b == LINE_FEED
}

/// Whether the byte `b` separates words: it is a blank or a tab.
pub fn is_separator(b: u8) -> bool
    ensures { result ≡ is_parting b }
{
    b == b' ' || b == TAB
}

/// Whether no word begins with the byte `b`: it is dropped, or it separates words.
pub fn is_skipped(b: u8) -> bool
    ensures { result ≡ is_skipped b }
{
    !is_kept(b) || is_separator(b)
}
