//! The effects of the options on runs.
use super::runs::{CASE, Case, TWO_FILES, WHOLE, Way, assert_cases};
use crate::sessions::File;

/// The smallest pattern; its automaton has seven states.
const SMALLEST: &[File<'static>] = &[File {
    name: "p",
    text: b"Pattern P\nO*\n:8,s\n",
}];

/// A stone in atari at D4, and a question about it.
const IN_ATARI: &[u8] = b"boardsize 9\nplay b D4\nplay w C4\nplay w E4\nplay w D5\ndefend D4\n";

/// Generated runs and their first lines, the ranges of the options, the limit of states, and the output if something
/// fails.
static OPTION_RUNS: [Case<'static>; 13] = [
    Case {
        name: "one generated line, and the input is left alone",
        options: &["--generate", "1"],
        input: b"name\n",
        output: b"=\n\n=\n\n=\n\n",
        notes: b"lines 3 bytes 9\n",
        left: 5,
        ..CASE
    },
    Case {
        name: "two generated lines, with counts",
        options: &["--stats", "--generate", "2"],
        input: b"name\n",
        output: b"=\n\n=\n\n=\n\n=\n\n",
        notes: b"readings 0 fresh 0 trials 0 refused 0\nlines 4 bytes 12\n",
        left: 5,
        ..CASE
    },
    Case {
        name: "a source that would fail is not called",
        options: &["--generate", "1"],
        input: b"name\n",
        way: Way {
            source_fails: 1,
            ..WHOLE
        },
        output: b"=\n\n=\n\n=\n\n",
        notes: b"lines 3 bytes 9\n",
        left: 5,
        ..CASE
    },
    Case {
        name: "a reply that is cut off is no line that was sent",
        options: &["--generate", "1"],
        way: Way {
            piece: 1,
            sink_fails: 8,
            ..WHOLE
        },
        status: 5,
        output: b"=\n\n=\n\n=",
        notes: b"lines 2 bytes 7\noutput failed\n",
        ..CASE
    },
    Case {
        name: "notes that fail",
        options: &["--generate", "1"],
        way: Way {
            notes_fail: 1,
            ..WHOLE
        },
        output: b"=\n\n=\n\n=\n\n",
        ..CASE
    },
    Case {
        name: "no plies",
        options: &["--depth", "0"],
        input: b"name\n",
        status: 2,
        notes: b"usage: gopat [options] [file ...]\n",
        left: 5,
        ..CASE
    },
    Case {
        name: "a word that begins with a hyphen",
        options: &["-h"],
        input: b"name\n",
        status: 2,
        notes: b"usage: gopat [options] [file ...]\n",
        left: 5,
        ..CASE
    },
    Case {
        name: "as many states as there may be",
        options: &["--states", "7"],
        files: SMALLEST,
        input: b"name\n",
        output: b"= gopat\n\n",
        ..CASE
    },
    Case {
        name: "one state too many",
        options: &["--states=6"],
        files: SMALLEST,
        input: b"name\n",
        status: 7,
        notes: b"too many states: limit 6\n",
        left: 5,
        ..CASE
    },
    Case {
        name: "twelve states of two patterns",
        options: &["--states", "12"],
        files: TWO_FILES,
        input: b"name\n",
        output: b"= gopat\n\n",
        ..CASE
    },
    Case {
        name: "one of twelve too many",
        options: &["--states", "11"],
        files: TWO_FILES,
        input: b"name\n",
        status: 7,
        notes: b"too many states: limit 11\n",
        left: 5,
        ..CASE
    },
    Case {
        name: "with three plies the stone runs out",
        options: &["--depth", "3", "--branch", "2"],
        input: IN_ATARI,
        output: b"=\n\n=\n\n=\n\n=\n\n=\n\n= 3 D3\n\n",
        ..CASE
    },
    Case {
        name: "with one ply the pass is enough, however many are wide",
        options: &["--depth", "1", "--branch", "3"],
        input: IN_ATARI,
        output: b"=\n\n=\n\n=\n\n=\n\n=\n\n= 3 PASS\n\n",
        ..CASE
    },
];

#[test]
fn options_have_their_effects(rt: HostRuntime) {
    assert_cases(&rt, rt.alloc(), &OPTION_RUNS);
}
