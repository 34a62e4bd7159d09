//! Ids, blanks, comments, and commands of one word or number.

use super::{Asks, LONGEST_LINE, Row, Says, compare};
use go_base::Size;
use gtp_cmd::{Command, KomiText, Parsed, parse};
use std::panic::Expect;

static IDS_BLANKS_AND_COMMENTS: [Row; 10] = [
    ("no words", " \t \r", Says::Nothing),
    ("a comment alone", "# x", Says::Nothing),
    (
        "the greatest id",
        "2147483647\tname \r# hi",
        Says::IdAndCommand(2_147_483_647, Asks::Name),
    ),
    ("a larger number", "2147483648 name", Says::Unknown),
    (
        "an id with leading zeros",
        "0000000000007 quit",
        Says::IdAndCommand(7, Asks::Quit),
    ),
    ("an id alone", "5", Says::IdAlone(5)),
    ("no id", "-5 name", Says::Unknown),
    ("a command in capitals", "Name", Says::Unknown),
    (
        "control bytes in a word",
        "na\u{1}m\u{7f}e",
        Says::Command(Asks::Name),
    ),
    ("a comment in a word", "name#x", Says::Command(Asks::Name)),
];

static SIZES_KOMI_AND_KNOWN_COMMANDS: [Row; 10] = [
    ("too small", "boardsize 1", Says::Command(Asks::NoSize)),
    ("too large", "boardsize 26", Says::Command(Asks::NoSize)),
    (
        "thirty digits",
        "boardsize 100000000000000000000000000019",
        Says::Command(Asks::NoSize),
    ),
    ("no digits", "boardsize x", Says::Malformed),
    ("no size", "boardsize", Says::Malformed),
    (
        "a known command",
        "known_command undo",
        Says::Command(Asks::KnownCommand(true)),
    ),
    (
        "an unknown one",
        "known_command x",
        Says::Command(Asks::KnownCommand(false)),
    ),
    ("a word", "komi six", Says::Malformed),
    ("no digits after the point", "komi 6.", Says::Malformed),
    (
        "33 bytes",
        "komi 000000000000000000000000000000000",
        Says::Malformed,
    ),
];

/// Lines that set a size, and how many rows the board then has.
static SIZES: [(&str, &str, u8); 3] = [
    ("leading zeros", "boardsize 007", 7),
    ("the smallest size", "boardsize 2", 2),
    ("the greatest size", "boardsize 25", 25),
];

/// Words that are a komi.
static KOMI: [&str; 4] = ["6.5", "-0.75", "+12", "00000000000000000000000000000000"];

#[test]
fn sizes_and_komi_are_those_that_are_named(rt: HostRuntime) {
    let size = Size::new(19).expect(&rt, "the size is one of a board");
    for &(name, line, rows) in &SIZES {
        let want = Parsed::Command {
            id: None,
            command: Command::BoardSize(Size::new(rows)),
        };
        assert!(rt; line.len() <= LONGEST_LINE);
        assert!(rt; parse(line.as_bytes(), size) == want, "{name}");
    }
    for &text in &KOMI {
        let komi = KomiText::named(text.as_bytes()).expect(&rt, text);
        assert!(rt; komi.as_slice() == text.as_bytes(), "{text}");
    }
    assert!(rt; KomiText::zero().as_slice() == b"0.0".as_slice());
}

#[test]
fn lines_of_board_and_protocol_say_what_their_rows_have(rt: HostRuntime) {
    compare(&rt, 19, &IDS_BLANKS_AND_COMMENTS);
    compare(&rt, 19, &SIZES_KOMI_AND_KNOWN_COMMANDS);
}
