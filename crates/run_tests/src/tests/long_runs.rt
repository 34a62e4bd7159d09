//! Runs of many lines, with long replies, or over large files. Their texts are put together from parts.
use super::runs::{ExpectedResult, RunResult, WHOLE, Way, compare, repeated, run_on, words};
use crate::sessions::File;
use std::alloc::Global;
use std::process::Abort;

/// The parts of a text, and how many times each part comes.
type Parts = &'static [(usize, &'static [u8])];

/// A run, named by what it shows: the words of the command line, the text of the file `p`, the lines, the call of the
/// output that fails, if one does, and what comes of the run.
struct Long {
    name: &'static str,
    words: &'static [&'static str],
    file: Parts,
    lines: Parts,
    sink_fails: u64,
    status: u8,
    output: Parts,
    notes: &'static [u8],
}

/// A run without words, file and lines, in which nothing fails.
const LONG: Long = Long {
    name: "",
    words: &[],
    file: &[],
    lines: &[],
    sink_fails: 0,
    status: 0,
    output: &[],
    notes: b"",
};

/// The reply to `showboard` on a board of nine rows: 214 bytes.
const BOARD: &[u8] =
    b"= \n 9 . . . . . . . . .\n 8 . . . . . . . . .\n 7 . . . . . . . . .\n 6 . . . . . . . . .\n\
    \x205 . . . . . . . . .\n 4 . . . . . . . . .\n 3 . . . . . . . . .\n 2 . . . . . . . . .\n\
    \x201 . . . . . . . . .\n   A B C D E F G H J\n\n";

/// Patterns whose list is a reply of more bytes than may wait.
const MANY_PATTERNS: &[(usize, &[u8])] = &[(
    100,
    b"Pattern one_of_many_patterns_that_have_a_rather_long_name\nO*\n:8,s\n",
)];

/// The line of each of `MANY_PATTERNS` in the list of patterns: 58 bytes.
const MANY_LISTED: &[u8] = b"one_of_many_patterns_that_have_a_rather_long_name 1x2 8 s\n";

/// At most 128 replies wait, and at most 4096 bytes. A longer reply goes out after those that wait, as many bytes a
/// call as the output takes.
static WAITING_RUNS: [Long; 11] = [
    Long {
        name: "as many replies wait as there is room for, and go out in one call",
        lines: &[(128, b"1 name\n")],
        sink_fails: 2,
        output: &[(128, b"=1 gopat\n\n")],
        ..LONG
    },
    Long {
        name: "with one reply more they go out in two calls",
        lines: &[(129, b"1 name\n")],
        sink_fails: 2,
        status: 5,
        output: &[(128, b"=1 gopat\n\n")],
        notes: b"output failed\n",
        ..LONG
    },
    Long {
        name: "replies of as many bytes as there is room for",
        lines: &[
            (1, b"boardsize 9\n"),
            (18, b"showboard\n"),
            (20, b"1 name\n"),
            (1, b"11 name\n12 name\n1111111111 name\n"),
        ],
        output: &[
            (1, b"=\n\n"),
            (18, BOARD),
            (20, b"=1 gopat\n\n"),
            (1, b"=11 gopat\n\n=12 gopat\n\n=1111111111 gopat\n\n"),
        ],
        ..LONG
    },
    Long {
        name: "they go out in one call",
        lines: &[
            (1, b"boardsize 9\n"),
            (18, b"showboard\n"),
            (20, b"1 name\n"),
            (1, b"11 name\n12 name\n1111111111 name\n"),
        ],
        sink_fails: 2,
        output: &[
            (1, b"=\n\n"),
            (18, BOARD),
            (20, b"=1 gopat\n\n"),
            (1, b"=11 gopat\n\n=12 gopat\n\n=1111111111 gopat\n\n"),
        ],
        ..LONG
    },
    Long {
        name: "replies of a byte more",
        lines: &[
            (1, b"boardsize 9\n"),
            (18, b"showboard\n"),
            (20, b"1 name\n"),
            (1, b"11 name\n123 name\n1111111111 name\n"),
        ],
        output: &[
            (1, b"=\n\n"),
            (18, BOARD),
            (20, b"=1 gopat\n\n"),
            (1, b"=11 gopat\n\n=123 gopat\n\n=1111111111 gopat\n\n"),
        ],
        ..LONG
    },
    Long {
        name: "the last of them goes out by itself",
        lines: &[
            (1, b"boardsize 9\n"),
            (18, b"showboard\n"),
            (20, b"1 name\n"),
            (1, b"11 name\n123 name\n1111111111 name\n"),
        ],
        sink_fails: 2,
        status: 5,
        output: &[
            (1, b"=\n\n"),
            (18, BOARD),
            (20, b"=1 gopat\n\n"),
            (1, b"=11 gopat\n\n=123 gopat\n\n"),
        ],
        notes: b"output failed\n",
        ..LONG
    },
    Long {
        name: "a reply that may not wait, and the first call fails",
        words: &["p"],
        file: MANY_PATTERNS,
        lines: &[(1, b"name\nlist_patterns\nversion\n")],
        sink_fails: 1,
        status: 5,
        notes: b"output failed\n",
        ..LONG
    },
    Long {
        name: "what waits goes out before it",
        words: &["p"],
        file: MANY_PATTERNS,
        lines: &[(1, b"name\nlist_patterns\nversion\n")],
        sink_fails: 2,
        status: 5,
        output: &[(1, b"= gopat\n\n")],
        notes: b"output failed\n",
        ..LONG
    },
    Long {
        name: "as many bytes of it go out in a call as the output takes",
        words: &["p"],
        file: MANY_PATTERNS,
        lines: &[(1, b"name\nlist_patterns\nversion\n")],
        sink_fails: 3,
        status: 5,
        output: &[
            (1, b"= gopat\n\n= "),
            (70, MANY_LISTED),
            (1, b"one_of_many_patterns_that_have_a_r"),
        ],
        notes: b"output failed\n",
        ..LONG
    },
    Long {
        name: "the rest of it goes out by itself",
        words: &["p"],
        file: MANY_PATTERNS,
        lines: &[(1, b"name\nlist_patterns\nversion\n")],
        sink_fails: 4,
        status: 5,
        output: &[(1, b"= gopat\n\n= "), (100, MANY_LISTED), (1, b"\n")],
        notes: b"output failed\n",
        ..LONG
    },
    Long {
        name: "and the reply to the next line after it",
        words: &["p"],
        file: MANY_PATTERNS,
        lines: &[(1, b"name\nlist_patterns\nversion\n")],
        output: &[(1, b"= gopat\n\n= "), (100, MANY_LISTED), (1, b"\n= 1\n\n")],
        ..LONG
    },
];

/// The smallest pattern.
const SMALLEST: &[u8] = b"Pattern P\nO*\n:8,s\n";

/// Moves on a board of two rows. Before them and after them Black has one stone, at A1, and White none. White takes one
/// stone and then Black takes three, first in one corner and then in the other.
const TAKEN_AGAIN: &[u8] = b"play w A2\nplay w B1\nplay w A1\nplay b B2\n\
    play w A2\nplay w B1\nplay w B2\nplay b A1\n";

/// The moves of `TAKEN_AGAIN` in a game record.
const RECORDED: &[u8] = b";W[aa];W[bb];W[ab];B[ba];W[aa];W[bb];W[ba];B[ab]";

/// No size makes a run fail: as many moves as a game may have, with captures and without, as many patterns as there may
/// be, and a game record of 20,000 moves and a megabyte.
static LARGE_RUNS: [Long; 4] = [
    Long {
        name: "behind ten thousand moves no other is added, and an illegal one is told as that",
        words: &["p"],
        file: &[(1, SMALLEST)],
        lines: &[
            (1, b"boardsize 9\nplay b D4\n"),
            (9999, b"play w pass\n"),
            (
                1,
                b"play b E5\nplay w D4\ngenmove b\nreg_genmove b\nplay b pass\n",
            ),
            (1, b"undo\ngenmove b\nplay w pass\nundo\nundo\nplay b E5\n"),
        ],
        output: &[
            (10_001, b"=\n\n"),
            (
                1,
                b"? history full\n\n? illegal move\n\n? history full\n\n= E4\n\n",
            ),
            (1, b"? history full\n\n=\n\n= E4\n\n? history full\n\n"),
            (3, b"=\n\n"),
        ],
        ..LONG
    },
    Long {
        name: "ten thousand moves take stones, and are taken back",
        lines: &[
            (1, b"boardsize 2\nplay b A1\n"),
            (1249, TAKEN_AGAIN),
            (7, b"play b pass\n"),
            (1, b"captures b\ncaptures w\nplay w A2\n"),
            (9999, b"undo\n"),
            (1, b"captures b\ncaptures w\ncountlib A1\nundo\nundo\n"),
        ],
        output: &[
            (10_001, b"=\n\n"),
            (1, b"= 7494\n\n= 2498\n\n? history full\n\n"),
            (9999, b"=\n\n"),
            (1, b"= 0\n\n= 0\n\n= 2\n\n=\n\n? cannot undo\n\n"),
        ],
        ..LONG
    },
    Long {
        name: "as many patterns as there may be are one automaton of seven states, and each matches",
        words: &["--states", "7", "p"],
        file: &[(4096, SMALLEST)],
        lines: &[(
            1,
            b"boardsize 2\nplay b A1\nplay w B1\nmatch_patterns b\nname\n",
        )],
        output: &[
            (1, b"=\n\n=\n\n=\n\n= "),
            (4096, b"P 3 A2\nP 5 A2\n"),
            (1, b"\n= gopat\n\n"),
        ],
        ..LONG
    },
    Long {
        name: "a long record is loaded",
        file: &[
            (1, b"(;SZ[2]C["),
            (100_000, b"a comment "),
            (1, b"];B[ab]"),
            (2500, RECORDED),
            (1, b")"),
        ],
        lines: &[(
            1,
            b"loadsgf p\ncountlib A1\nundo\nplay w A2\nplay w B1\ncountlib A1\n",
        )],
        output: &[(
            1,
            b"=\n\n= 2\n\n? cannot undo\n\n=\n\n=\n\n? vertex must not be empty\n\n",
        )],
        ..LONG
    },
];

/// What comes of a run whose file holds `text`.
fn ran_over(rt: &impl Abort, alloc: Global, run: &Long, text: &[u8]) -> RunResult {
    let way = Way {
        sink_fails: run.sink_fails,
        ..WHOLE
    };
    let input = repeated(rt, alloc, run.lines);
    let words = words(rt, alloc, run.words, &[]);
    run_on(rt, alloc, &words, &[File { name: "p", text }], &input, way)
}

/// Makes the run, and compares all that comes of it.
fn assert_run(rt: &impl Abort, alloc: Global, run: &Long) {
    let text = repeated(rt, alloc, run.file);
    let ran = ran_over(rt, alloc, run, &text);
    let output = repeated(rt, alloc, run.output);
    let expected = ExpectedResult {
        output: &output,
        noted: ran.notes.bytes() == run.notes,
        status: run.status,
        left: 0,
    };
    compare(rt, run.name, &ran, expected);
}

#[test]
fn as_much_waits_as_there_is_room_for(rt: HostRuntime) {
    for run in &WAITING_RUNS {
        assert_run(&rt, rt.alloc(), run);
    }
}

#[test]
fn no_size_makes_a_run_give_up(rt: HostRuntime) {
    for run in &LARGE_RUNS {
        assert_run(&rt, rt.alloc(), run);
    }
}
