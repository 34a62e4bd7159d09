//! Commands whose words are given by their places in the line.

use super::{Asks, Row, Says, compare};
use go_base::Bytes;
use gtp_cmd::{Span, text};
use std::test::Fail;

static WORDS_ARE_TOLD_BY_THEIR_PLACES: [Row; 12] = [
    (
        "a name",
        "loadsgf game",
        Says::Command(Asks::LoadSgf(Span { from: 8, to: 12 })),
    ),
    (
        "blanks at both ends",
        "  loadsgf\t a.sgf \t",
        Says::Command(Asks::LoadSgf(Span { from: 11, to: 16 })),
    ),
    (
        "a name behind an id",
        "7 loadsgf a",
        Says::IdAndCommand(7, Asks::LoadSgf(Span { from: 10, to: 11 })),
    ),
    (
        "a name behind an id of many digits",
        "0000000007 loadsgf ab",
        Says::IdAndCommand(7, Asks::LoadSgf(Span { from: 19, to: 21 })),
    ),
    (
        "more words",
        "loadsgf a b c",
        Says::Command(Asks::LoadSgf(Span { from: 8, to: 9 })),
    ),
    (
        "a comment behind a name",
        "loadsgf ab#c",
        Says::Command(Asks::LoadSgf(Span { from: 8, to: 10 })),
    ),
    (
        "dropped bytes about a word",
        "load\u{1}sgf \u{1}a\u{2}b\u{3} c",
        Says::Command(Asks::LoadSgf(Span { from: 10, to: 13 })),
    ),
    (
        "dropped bytes alone",
        "loadsgf \u{1} \u{2}",
        Says::Malformed,
    ),
    ("no name", "loadsgf", Says::Malformed),
    ("blanks alone", "loadsgf \t ", Says::Malformed),
    ("a comment alone as a name", "loadsgf #a", Says::Malformed),
    (
        "a command that names a file in capitals",
        "LOADSGF a",
        Says::Unknown,
    ),
];

static HELPERS_THAT_ARE_NAMED: [Row; 6] = [
    (
        "one to switch off",
        "helper_off near_edge",
        Says::Command(Asks::HelperOff(Span { from: 11, to: 20 })),
    ),
    (
        "one whose calls are asked for",
        "helper_calls\tnear_edge far",
        Says::Command(Asks::HelperCalls(Span { from: 13, to: 22 })),
    ),
    (
        "one to drop",
        " helper_drop  a \t",
        Says::Command(Asks::HelperDrop(Span { from: 14, to: 15 })),
    ),
    ("no name to switch off", "helper_off", Says::Malformed),
    ("no name to ask for", "helper_calls \t", Says::Malformed),
    ("no name to drop", "helper_drop #a", Says::Malformed),
];

/// Parts of a line: what they are, their spans, and their cleaned bytes.
static SPANS: [(&str, Span, &[u8]); 3] = [
    ("some words", Span { from: 24, to: 31 }, b"W D3 ."),
    ("words and a comment", Span { from: 24, to: 41 }, b"W D3 . "),
    ("no words", Span { from: 0, to: 0 }, b""),
];

#[test]
fn span_is_cleaned(rt: HostRuntime) -> Result<(), Fail> {
    let line = b"check_proof attack D4 3 W\tD\x013 . # as read";
    for &(name, span, want) in &SPANS {
        assert!(rt; span.from <= span.to);
        assert!(rt; span.to as usize <= line.len());
        let found = text(line, span, Bytes::new(rt.alloc()))?;
        assert!(rt; found.as_slice() == want, "{name}");
    }
    Ok(())
}

#[test]
fn lines_with_words_say_what_their_rows_have(rt: HostRuntime) {
    compare(&rt, 2, &WORDS_ARE_TOLD_BY_THEIR_PLACES);
    compare(&rt, 9, &HELPERS_THAT_ARE_NAMED);
}
