//! Texts of pattern files: the line and the kind of their first fault.

use super::repeated;
use db_read::{DbError, read};
use std::alloc::{AllocError, Global};

/// A realistic pattern file.
const REALISTIC: &[u8] = b"# sample patterns
attribute_map general

Pattern Atari1
# take away a liberty

?O?       from the side
OX*
?.?

:8,sX,value(20)

?O?
OA*
?.?

;lib(A)==2 && !xplay_attack(*,A)

> test_attack(A)
";

/// Texts with the line and the kind of their first fault, or line 0 if they have none.
static TEXTS: [(&str, &[u8], (u64, u8)); 34] = [
    ("no text at all is a database", b"", (0, 0)),
    ("a comment alone is a database", b"# nothing", (0, 0)),
    (
        "an option before the first pattern is passed over",
        b"goal_elements x\n",
        (0, 0),
    ),
    (
        "the smallest pattern, without a last line feed",
        b"Pattern P\nO*\n:8,s",
        (0, 0),
    ),
    (
        "carriage returns are blanks",
        b"Pattern P\r\nO*\r\n:8,s\r\n",
        (0, 0),
    ),
    (
        "a realistic file, with labels and an expression",
        REALISTIC,
        (0, 0),
    ),
    ("no class letters", b"Pattern P\nO*\n:8", (0, 0)),
    (
        "a class that asks for readings",
        b"Pattern P\nO*\n:8,sn",
        (0, 0),
    ),
    ("a bad byte in a comment", b"#\x07", (1, 1)),
    ("a colon line before a pattern", b":8", (1, 2)),
    ("a byte above 127 before a pattern", b"\xff", (1, 2)),
    ("a pattern without a name", b"Pattern", (1, 3)),
    ("a pattern without a diagram", b"Pattern A\n:8", (2, 4)),
    ("a short row", b"Pattern A\nO*\nO", (3, 5)),
    ("a letter that is none", b"Pattern A\nO!*", (2, 6)),
    ("no star", b"Pattern A\nOX\n:8,s", (3, 7)),
    ("two stars", b"Pattern A\n**\n:8,s", (3, 7)),
    (
        "an edge that a later row lacks",
        b"Pattern A\n|O*\nO*",
        (3, 8),
    ),
    (
        "a row of 26 points",
        b"Pattern A\n..........................",
        (2, 9),
    ),
    ("no colon line at the end", b"Pattern A\nO*", (3, 10)),
    ("a mark that is none", b"Pattern A\nO*\n:7", (3, 11)),
    (
        "a class letter that is a digit",
        b"Pattern A\nO*\n:8,s1",
        (3, 12),
    ),
    (
        "a text that is not closed",
        b"Pattern A\nO*\n:8,s,value(",
        (3, 13),
    ),
    ("a label that repeats", b"Pattern A\nO*\n:8,s\nAA", (4, 14)),
    (
        "a constraint diagram that ends too early",
        b"Pattern A\nO*\n..\n:8,s\nA*",
        (6, 14),
    ),
    (
        "an unknown helper",
        b"Pattern P\nO*\n:8,s,far_away",
        (3, 17),
    ),
    (
        "a call without its end",
        b"Pattern P\nO*\n:8,s\nA*\n;lib(A",
        (5, 15),
    ),
    (
        "a function that is none",
        b"Pattern P\nO*\n:8,s\nA*\n;foo(A)",
        (5, 15),
    ),
    (
        "a label that is none",
        b"Pattern P\nO*\n:8,s\nA*\n;lib(B)",
        (5, 16),
    ),
    (
        "an expression without a fault",
        b"Pattern P\nO*\n:8,s\nA*\n;lib(A)>0",
        (0, 0),
    ),
    (
        "the lines are joined",
        b"Pattern P\nO*\n:8,s\nA*\n;lib(A)\n;>0\n>x",
        (0, 0),
    ),
    (
        "two lines that do not go on",
        b"Pattern P\nO*\n:8,s\nA*\n;1\n;2",
        (5, 15),
    ),
    (
        "before what the closing line has",
        b"Pattern P\nO*\n:8,s\nA*\n;lib(B)\n:8",
        (5, 16),
    ),
    (
        "behind a bad byte of the closing line",
        b"Pattern P\nO*\n:8,s\nA*\n;lib(B)\n\x07",
        (6, 1),
    ),
];

/// The line and the kind of a text's first fault, or line 0 if it has none.
fn fault_of(alloc: Global, text: &[u8]) -> (u64, u8) {
    match read(alloc, text, &[], Vec::new(alloc)) {
        Ok(_) => (0, 0),
        Err(DbError::NoMemory) => (0, 99),
        Err(DbError::Fault { line, kind }) => (line, kind),
    }
}

#[test]
fn first_faults_of_texts(rt: HostRuntime) {
    for &(what, text, want) in &TEXTS {
        assert!(rt; fault_of(rt.alloc(), text) == want, "{what}");
    }
}

/// The first fault of a text with as many entries as there may be, and with this line behind them.
fn fault_behind(alloc: Global, line: &[u8]) -> Result<(u64, u8), AllocError> {
    let mut text = repeated(alloc, 4096, b"Pattern P\nO*\n:8,s\n")?;
    text.extend_from_slice(line)?;
    Ok(fault_of(alloc, &text))
}

#[test]
fn a_text_has_at_most_4096_entries(rt: HostRuntime) {
    assert!(rt; fault_behind(rt.alloc(), b"") == Ok((0, 0)));
    assert!(rt; fault_behind(rt.alloc(), b"Pattern P") == Ok((12289, 18)));
}
