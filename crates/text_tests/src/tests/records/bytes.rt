//! Records that are not plain ASCII.

use super::Record;

/// Other encodings.
pub(super) static ENCODINGS: [Record; 8] = [
    (
        "a byte order mark before the tree",
        b"\xEF\xBB\xBF(;SZ[9])",
        0,
    ),
    ("UTF-8 in a comment", b"(;C[\xE5\x9B\xB2\xE7\xA2\x81])", 0),
    ("Latin-1 in a comment", b"(;C[caf\xE9])", 0),
    ("a zero byte in a comment", b"(;C[\x00])", 0),
    ("a byte above 127 between tokens", b"(;\xA0)", 1),
    (
        "UTF-16, the lower byte first",
        b"\xFF\xFE(\x00;\x00)\x00",
        1,
    ),
    (
        "UTF-16, the higher byte first",
        b"\xFE\xFF\x00(\x00;\x00)",
        1,
    ),
    (
        "Shift-JIS, whose second byte may be a backslash",
        b"(;C[\x95\x5C])",
        1,
    ),
];
