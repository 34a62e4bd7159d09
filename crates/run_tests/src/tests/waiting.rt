//! Replies that wait: in which call they go out, and what is counted if a reply is cut.
use super::counts::STATS;
use super::runs::{
    CASE, Case, ExpectedResult, RunResult, WHOLE, Way, assert_cases, compare, repeated, run_on,
    words,
};
use crate::sessions::File;
use std::alloc::Global;
use std::process::Abort;

/// Three readings of one stone, the second and the third of them cache hits, with a quick line before the third.
const CUT_LINES: &[u8] = b"play b D4\nattack D4\nattack D4\nname\nattack D4\n";

/// If a reply is cut, the counts are those at the line of that reply. All lines come in one piece, so the later lines
/// are answered before the output fails.
static CUT_REPLIES: [Case<'static>; 10] = [
    Case {
        name: "no byte is out",
        options: STATS,
        input: CUT_LINES,
        way: Way {
            sink_takes: 1,
            sink_fails: 1,
            ..WHOLE
        },
        status: 5,
        notes: b"readings 0 fresh 0 trials ",
        behind_trials: b" refused 0\noutput failed\n",
        ..CASE
    },
    Case {
        name: "the last byte before the first reading's reply",
        options: STATS,
        input: CUT_LINES,
        way: Way {
            sink_takes: 1,
            sink_fails: 3,
            ..WHOLE
        },
        status: 5,
        output: b"=\n",
        notes: b"readings 0 fresh 0 trials ",
        behind_trials: b" refused 0\noutput failed\n",
        ..CASE
    },
    Case {
        name: "the first byte of that reply",
        options: STATS,
        input: CUT_LINES,
        way: Way {
            sink_takes: 1,
            sink_fails: 4,
            ..WHOLE
        },
        status: 5,
        output: b"=\n\n",
        notes: b"readings 1 fresh 1 trials ",
        behind_trials: b" refused 0\noutput failed\n",
        ..CASE
    },
    Case {
        name: "the last byte of it",
        options: STATS,
        input: CUT_LINES,
        way: Way {
            sink_takes: 1,
            sink_fails: 8,
            ..WHOLE
        },
        status: 5,
        output: b"=\n\n= 0\n",
        notes: b"readings 1 fresh 1 trials ",
        behind_trials: b" refused 0\noutput failed\n",
        ..CASE
    },
    Case {
        name: "the reply to the second reading",
        options: STATS,
        input: CUT_LINES,
        way: Way {
            sink_takes: 1,
            sink_fails: 9,
            ..WHOLE
        },
        status: 5,
        output: b"=\n\n= 0\n\n",
        notes: b"readings 2 fresh 1 trials ",
        behind_trials: b" refused 0\noutput failed\n",
        ..CASE
    },
    Case {
        name: "the first byte of a reply that waits behind it",
        options: STATS,
        input: CUT_LINES,
        way: Way {
            sink_takes: 1,
            sink_fails: 14,
            ..WHOLE
        },
        status: 5,
        output: b"=\n\n= 0\n\n= 0\n\n",
        notes: b"readings 2 fresh 1 trials ",
        behind_trials: b" refused 0\noutput failed\n",
        ..CASE
    },
    Case {
        name: "the last byte of that",
        options: STATS,
        input: CUT_LINES,
        way: Way {
            sink_takes: 1,
            sink_fails: 22,
            ..WHOLE
        },
        status: 5,
        output: b"=\n\n= 0\n\n= 0\n\n= gopat\n",
        notes: b"readings 2 fresh 1 trials ",
        behind_trials: b" refused 0\noutput failed\n",
        ..CASE
    },
    Case {
        name: "the first byte of the third reading's reply",
        options: STATS,
        input: CUT_LINES,
        way: Way {
            sink_takes: 1,
            sink_fails: 23,
            ..WHOLE
        },
        status: 5,
        output: b"=\n\n= 0\n\n= 0\n\n= gopat\n\n",
        notes: b"readings 3 fresh 1 trials ",
        behind_trials: b" refused 0\noutput failed\n",
        ..CASE
    },
    Case {
        name: "the last byte of all",
        options: STATS,
        input: CUT_LINES,
        way: Way {
            sink_takes: 1,
            sink_fails: 27,
            ..WHOLE
        },
        status: 5,
        output: b"=\n\n= 0\n\n= 0\n\n= gopat\n\n= 0\n",
        notes: b"readings 3 fresh 1 trials ",
        behind_trials: b" refused 0\noutput failed\n",
        ..CASE
    },
    Case {
        name: "no byte is missing",
        options: STATS,
        input: CUT_LINES,
        way: Way {
            sink_takes: 1,
            sink_fails: 28,
            ..WHOLE
        },
        output: b"=\n\n= 0\n\n= 0\n\n= gopat\n\n= 0\n\n",
        notes: b"readings 3 fresh 1 trials ",
        behind_trials: b" refused 0\n",
        ..CASE
    },
];

/// The lines of a session with connections, whose output is cut.
const CUT_JOINS: &[u8] = b"play b D4\nconnect D4 D4\nconnect D4 D4\nname\ndisconnect D4 D4\n";

/// A connection counts even if its own reply is cut; a connection that was answered after the cut reply does not count.
static CUT_CONNECTIONS: [Case<'static>; 7] = [
    Case {
        name: "the last byte before the first connection's reply",
        options: STATS,
        input: CUT_JOINS,
        way: Way {
            sink_takes: 1,
            sink_fails: 3,
            ..WHOLE
        },
        status: 5,
        output: b"=\n",
        notes: b"readings 0 fresh 0 trials 0 refused 0\noutput failed\n",
        ..CASE
    },
    Case {
        name: "the first byte of that reply",
        options: STATS,
        input: CUT_JOINS,
        way: Way {
            sink_takes: 1,
            sink_fails: 4,
            ..WHOLE
        },
        status: 5,
        output: b"=\n\n",
        notes: b"readings 0 fresh 0 trials 0 refused 0\nconnections 1 fresh 1\noutput failed\n",
        ..CASE
    },
    Case {
        name: "the last byte of it",
        options: STATS,
        input: CUT_JOINS,
        way: Way {
            sink_takes: 1,
            sink_fails: 13,
            ..WHOLE
        },
        status: 5,
        output: b"=\n\n= 1 PASS\n",
        notes: b"readings 0 fresh 0 trials 0 refused 0\nconnections 1 fresh 1\noutput failed\n",
        ..CASE
    },
    Case {
        name: "the first byte of the kept one's reply",
        options: STATS,
        input: CUT_JOINS,
        way: Way {
            sink_takes: 1,
            sink_fails: 14,
            ..WHOLE
        },
        status: 5,
        output: b"=\n\n= 1 PASS\n\n",
        notes: b"readings 0 fresh 0 trials 0 refused 0\nconnections 2 fresh 1\noutput failed\n",
        ..CASE
    },
    Case {
        name: "the first byte of a reply that waits behind it",
        options: STATS,
        input: CUT_JOINS,
        way: Way {
            sink_takes: 1,
            sink_fails: 24,
            ..WHOLE
        },
        status: 5,
        output: b"=\n\n= 1 PASS\n\n= 1 PASS\n\n",
        notes: b"readings 0 fresh 0 trials 0 refused 0\nconnections 2 fresh 1\noutput failed\n",
        ..CASE
    },
    Case {
        name: "the first byte of another connection's reply",
        options: STATS,
        input: CUT_JOINS,
        way: Way {
            sink_takes: 1,
            sink_fails: 33,
            ..WHOLE
        },
        status: 5,
        output: b"=\n\n= 1 PASS\n\n= 1 PASS\n\n= gopat\n\n",
        notes: b"readings 0 fresh 0 trials 0 refused 0\nconnections 3 fresh 2\noutput failed\n",
        ..CASE
    },
    Case {
        name: "no byte is missing",
        options: STATS,
        input: CUT_JOINS,
        way: Way {
            sink_takes: 1,
            sink_fails: 38,
            ..WHOLE
        },
        output: b"=\n\n= 1 PASS\n\n= 1 PASS\n\n= gopat\n\n= 0\n\n",
        notes: b"readings 0 fresh 0 trials 0 refused 0\nconnections 3 fresh 2\n",
        ..CASE
    },
];

/// A pattern that matches around any black stone.
const PATTERN: &[File<'static>] = &[File {
    name: "p",
    text: b"Pattern P\nO*\n:8,s\n",
}];

/// Lines that come together, the call of the output that fails, and the output then. A call that is not made cannot
/// fail, so the failing call shows how the replies were put together.
static CALLS_OF_THE_OUTPUT: [Case<'static>; 4] = [
    Case {
        name: "no call is made where nothing waits",
        files: PATTERN,
        input: b"play b D4\nattack D4\ndefend D4\nname\n",
        way: Way {
            sink_fails: 3,
            ..WHOLE
        },
        status: 5,
        output: b"=\n\n= 0\n\n",
        notes: b"output failed\n",
        ..CASE
    },
    Case {
        name: "a refused question is no reading",
        files: PATTERN,
        input: b"attack D4\nname\n",
        way: Way {
            sink_fails: 2,
            ..WHOLE
        },
        output: b"? vertex must not be empty\n\n= gopat\n\n",
        ..CASE
    },
    Case {
        name: "a question about two stones of different colours is no reading",
        files: PATTERN,
        input: b"play b D4\nplay w E4\nconnect D4 E4\nname\n",
        way: Way {
            sink_fails: 2,
            ..WHOLE
        },
        output: b"=\n\n=\n\n? colours differ\n\n= gopat\n\n",
        ..CASE
    },
    Case {
        name: "the last reply goes out before the end",
        files: PATTERN,
        input: b"name\nquit\nname\n",
        way: Way {
            sink_fails: 2,
            ..WHOLE
        },
        output: b"= gopat\n\n=\n\n",
        ..CASE
    },
];

// The runs of the three tables above.
#[test]
fn replies_that_wait_go_out_and_are_counted(rt: HostRuntime) {
    assert_cases(&rt, rt.alloc(), &CUT_REPLIES);
    assert_cases(&rt, rt.alloc(), &CUT_CONNECTIONS);
    assert_cases(&rt, rt.alloc(), &CALLS_OF_THE_OUTPUT);
}

/// Quick lines, which come before a question. They need no reading.
const FIRST_LINES: &[u8] = b"name\nplay b D4\ndepths 1 0\n";

/// The replies to `FIRST_LINES`.
const FIRST_REPLIES: &[u8] = b"= gopat\n\n=\n\n=\n\n";

/// A quick line, which comes after a question, and its reply.
const NEXT: (&[u8], &[u8]) = (b"name\n", b"= gopat\n\n");

/// A question between quick lines, and the reply to it. All lines come together.
struct Question {
    line: &'static str,
    reply: &'static str,
    /// How many times the line of the question comes again; the quick line then comes as often.
    again: usize,
}

/// Each line that may take long: the replies that wait go out before it, and its own reply goes out at once. If its
/// answer is cached, the same line is quick when it comes again.
static QUESTIONS: [Question; 11] = [
    Question {
        line: "attack D4\n",
        reply: "= 0\n\n",
        again: 1,
    },
    Question {
        line: "defend D4\n",
        reply: "= 3 PASS\n\n",
        again: 1,
    },
    Question {
        line: "connect D4 D4\n",
        reply: "= 1 PASS\n\n",
        again: 1,
    },
    Question {
        line: "disconnect D4 D4\n",
        reply: "= 0\n\n",
        again: 1,
    },
    Question {
        line: "attack_proof D4\n",
        reply: "= 0 N . N . N .\n\n",
        again: 0,
    },
    Question {
        line: "defend_proof D4\n",
        reply: "= 3 N .\n\n",
        again: 0,
    },
    Question {
        line: "check_proof defend D4 3 N .\n",
        reply: "= true\n\n",
        again: 0,
    },
    Question {
        line: "match_patterns b\n",
        reply: "= P 0 E4\nP 1 D3\nP 2 C4\nP 3 D5\nP 4 C4\nP 5 D5\nP 6 E4\nP 7 D3\n\n",
        again: 0,
    },
    Question {
        line: "genmove b\n",
        reply: "= E4\n\n",
        again: 0,
    },
    Question {
        line: "reg_genmove b\n",
        reply: "= E4\n\n",
        again: 0,
    },
    Question {
        line: "loadsgf game.sgf\n",
        reply: "? cannot load file\n\n",
        again: 0,
    },
];

/// What comes of the lines around a question, if the call `sink_fails` of the output fails.
fn ran_asking(rt: &impl Abort, alloc: Global, question: &Question, sink_fails: u64) -> RunResult {
    let (line, again) = (question.line.as_bytes(), question.again);
    let (next, _) = NEXT;
    let parts = [
        (1, FIRST_LINES),
        (1, line),
        (1, next),
        (again, line),
        (again, next),
    ];
    let input = repeated(rt, alloc, &parts);
    let words = words(rt, alloc, &[], PATTERN);
    let way = Way {
        sink_fails,
        ..WHOLE
    };
    run_on(rt, alloc, &words, PATTERN, &input, way)
}

/// Compares the output if the call `sink_fails` of the output fails. The status is 0 if that call is not made.
fn assert_out(
    rt: &impl Abort,
    alloc: Global,
    question: &Question,
    sink_fails: u64,
    status: u8,
    output: &[(usize, &[u8])],
) {
    let ran = ran_asking(rt, alloc, question, sink_fails);
    let output = repeated(rt, alloc, output);
    let notes: &[u8] = if status == 0 { b"" } else { b"output failed\n" };
    let expected = ExpectedResult {
        output: &output,
        noted: ran.notes.bytes() == notes,
        status,
        left: 0,
    };
    compare(rt, question.line, &ran, expected);
}

/// Compares the three calls of the output: the replies before the question, the question's own reply, and all others.
fn assert_three_calls(rt: &impl Abort, alloc: Global, question: &Question) {
    let (reply, again) = (question.reply.as_bytes(), question.again);
    let (_, next) = NEXT;
    let out = [
        (1, FIRST_REPLIES),
        (1, reply),
        (1, next),
        (again, reply),
        (again, next),
    ];
    assert_out(rt, alloc, question, 2, 5, &out[..1]);
    assert_out(rt, alloc, question, 3, 5, &out[..2]);
    assert_out(rt, alloc, question, 4, 0, &out);
}

#[test]
fn a_line_that_may_take_long_is_answered_in_a_call_of_its_own(rt: HostRuntime) {
    for question in &QUESTIONS {
        assert_three_calls(&rt, rt.alloc(), question);
    }
}
