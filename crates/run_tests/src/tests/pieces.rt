//! The worked sessions, whole and cut into pieces; the longest line; and runs that are made twice.
use super::runs::{
    ExpectedResult, MEMORY, PIECE, ROOM, RunResult, WHOLE, Way, compare, repeated, run_on, words,
};
use crate::run_in_memory;
use crate::sessions::{SESSIONS, Session};
use gtp_io::{Feed, Page, Shelf};
use session::Outcome;
use std::alloc::Global;
use std::process::Abort;

/// The most bytes of a call: more than any session has, and then few.
static PIECES: [usize; 9] = [4096, 1, 2, 3, 4, 5, 6, 7, 8];

/// Runs the session with at most `piece` bytes a call, and compares all that comes of it but the number of bytes left.
fn assert_session(rt: &impl Abort, alloc: Global, session: &Session, piece: usize) {
    let words = words(rt, alloc, &[], session.files);
    let way = Way { piece, ..WHOLE };
    let ran = run_on(rt, alloc, &words, session.files, session.input, way);
    let expected = ExpectedResult {
        output: session.output,
        noted: ran.notes.bytes().is_empty(),
        status: 0,
        left: ran.left,
    };
    compare(rt, session.name, &ran, expected);
}

#[test]
fn sessions_whole_and_in_pieces(rt: HostRuntime) {
    for session in &SESSIONS {
        for &piece in &PIECES {
            assert_session(&rt, rt.alloc(), session, piece);
        }
    }
}

/// How many letters a line has, and the replies to this line and to `name`.
static LONG_LINES: [(&str, usize, &[u8]); 2] = [
    (
        "the longest line",
        65_536,
        b"? unknown command\n\n= gopat\n\n",
    ),
    ("one byte more", 65_537, b"? line too long\n\n= gopat\n\n"),
];

#[test]
fn longest_line_and_one_byte_more(rt: HostRuntime) {
    let alloc = rt.alloc();
    for &(what, letters, output) in &LONG_LINES {
        let input = repeated(&rt, alloc, &[(letters, b"x"), (1, b"\nname\n")]);
        let mut page = Page::new(alloc, ROOM, ROOM, Vec::new(alloc)).expect(&rt, MEMORY);
        let outcome = run_in_memory(
            alloc,
            &[],
            &mut Shelf::new(Vec::new(alloc), Vec::new(alloc), Vec::new(alloc)),
            &mut Feed::new(input, PIECE, Vec::new(alloc)),
            &mut page,
            Vec::new(alloc),
        );
        assert!(rt;
            outcome == Outcome::Done && page.bytes() == output,
            "{what}"
        );
    }
}

/// A run that is made twice: lines and how many times each comes, the most bytes of a call in the second run, and the
/// checksum of the output.
struct Twice {
    name: &'static str,
    options: &'static [&'static str],
    lines: &'static [(usize, &'static [u8])],
    piece: usize,
    checksum: u32,
}

/// The replies to the generated lines are those of a second program, the plain reader of tools/, which was given
/// `undo`; none of them is `out of memory`. The replies of the other run were put together from the formats. That run
/// has boards that together have more bytes than may wait, and more short replies than may wait, among others. In large
/// pieces replies wait and in pieces of nine bytes none does, and the output is the same.
static RUNS_MADE_TWICE: [Twice; 2] = [
    Twice {
        name: "a long generated run repeats",
        options: &["--stats", "--generate", "2000"],
        lines: &[],
        piece: PIECE,
        checksum: 1_523_225_176,
    },
    Twice {
        name: "replies that wait keep their order",
        options: &[],
        lines: &[
            (9, b"name\nshowboard\nplay b D4\nundo\nlist_commands\n"),
            (300, b"12 version\n"),
        ],
        piece: 9,
        checksum: 1_583_218_621,
    },
];

/// The checksum of these bytes: FNV-1a, in 32 bits.
fn checksum(bytes: &[u8]) -> u32 {
    let mut sum = 2_166_136_261_u32;
    for byte in bytes {
        sum = (sum ^ u32::from(*byte)).wrapping_mul(16_777_619);
    }
    sum
}

/// What comes of the run's lines if a call moves at most `piece` bytes.
fn ran_by(rt: &impl Abort, alloc: Global, run: &Twice, piece: usize) -> RunResult {
    let input = repeated(rt, alloc, run.lines);
    let words = words(rt, alloc, run.options, &[]);
    run_on(rt, alloc, &words, &[], &input, Way { piece, ..WHOLE })
}

/// Makes the run twice, and compares all that comes of it.
fn assert_twice(rt: &impl Abort, alloc: Global, run: &Twice) {
    let first = ran_by(rt, alloc, run, PIECE);
    let again = ran_by(rt, alloc, run, run.piece);
    let expected = ExpectedResult {
        output: first.output.bytes(),
        noted: again.notes.bytes() == first.notes.bytes(),
        status: 0,
        left: 0,
    };
    compare(rt, run.name, &again, expected);
    assert!(rt;
        first.status == 0 && first.left == 0 && checksum(first.output.bytes()) == run.checksum,
        "the first run of: {}",
        run.name
    );
}

#[test]
fn runs_come_to_the_same_again(rt: HostRuntime) {
    for run in &RUNS_MADE_TWICE {
        assert_twice(&rt, rt.alloc(), run);
    }
}
