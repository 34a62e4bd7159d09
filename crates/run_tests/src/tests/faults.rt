//! What happens if the loader, the source or the sink fails, and which calls are not made.
use super::runs::{
    CASE, Case, MANY_CALLS, RunResult, TWO_FILES, WHOLE, Way, assert_cases, run_on, words,
};
use crate::sessions::{File, SESSIONS, Session};
use std::alloc::Global;
use std::process::Abort;

/// A file with a fault in its third line.
const BAD_FILE: &[File<'static>] = &[File {
    name: "p",
    text: b"Pattern A\nOX\n:8,s\n",
}];

/// Runs in which the loader, the source or the sink fails.
static FAULTS: [Case<'static>; 4] = [
    Case {
        name: "the source fails",
        input: b"name\nversion\nname\n",
        way: Way {
            piece: 5,
            source_fails: 3,
            ..WHOLE
        },
        status: 4,
        output: b"= gopat\n\n",
        notes: b"input failed\n",
        left: 8,
        ..CASE
    },
    Case {
        name: "the sink fails",
        input: b"name\n",
        way: Way {
            piece: 5,
            sink_fails: 2,
            ..WHOLE
        },
        status: 5,
        output: b"= gop",
        notes: b"output failed\n",
        ..CASE
    },
    Case {
        name: "of the second line nothing is taken before the first is answered",
        input: b"name\nversion\n",
        way: Way {
            piece: 1,
            sink_fails: 1,
            ..WHOLE
        },
        status: 5,
        notes: b"output failed\n",
        left: 8,
        ..CASE
    },
    Case {
        name: "notes that fail change no outcome",
        input: b"name\n",
        way: Way {
            source_fails: 1,
            notes_fail: 1,
            ..WHOLE
        },
        status: 4,
        left: 5,
        ..CASE
    },
];

/// Runs in which a call is set to fail that must not be made.
static UNMADE_CALLS: [Case<'static>; 9] = [
    Case {
        name: "each file is loaded once",
        files: TWO_FILES,
        input: b"name\n",
        way: Way {
            loader_fails: 3,
            ..WHOLE
        },
        output: b"= gopat\n\n",
        ..CASE
    },
    Case {
        name: "no bytes are asked for after the end",
        input: b"name\n",
        way: Way {
            source_fails: 3,
            ..WHOLE
        },
        output: b"= gopat\n\n",
        ..CASE
    },
    Case {
        name: "none after a line that ends the session",
        input: b"quit\nname\n",
        way: Way {
            source_fails: 2,
            ..WHOLE
        },
        output: b"=\n\n",
        ..CASE
    },
    Case {
        name: "none after a fault of the source",
        input: b"name\nname\n",
        way: Way {
            piece: 5,
            source_fails: 2,
            ..WHOLE
        },
        status: 4,
        output: b"= gopat\n\n",
        notes: b"input failed\n",
        left: 5,
        ..CASE
    },
    Case {
        name: "none after a fault of the output",
        input: b"name\nname\n",
        way: Way {
            piece: 5,
            sink_fails: 1,
            ..WHOLE
        },
        status: 5,
        notes: b"output failed\n",
        left: 5,
        ..CASE
    },
    Case {
        name: "each reply is put once, and nothing for a line without words",
        input: b"name\n#\nname\n",
        way: Way {
            sink_fails: 3,
            ..WHOLE
        },
        output: b"= gopat\n\n= gopat\n\n",
        ..CASE
    },
    Case {
        name: "the replies of a piece are put together",
        input: b"name\nversion\nboardsize 9\ncountlib A1\nname\n",
        way: Way {
            sink_fails: 2,
            ..WHOLE
        },
        output: b"= gopat\n\n= 1\n\n=\n\n? vertex must not be empty\n\n= gopat\n\n",
        ..CASE
    },
    Case {
        name: "no bytes are asked for where the files have a fault",
        files: BAD_FILE,
        input: b"name\n",
        way: Way {
            source_fails: 1,
            ..WHOLE
        },
        status: 1,
        notes: b"bad database: line 3 kind 7\n",
        left: 5,
        ..CASE
    },
    Case {
        name: "nothing is put where the files have a fault",
        files: BAD_FILE,
        input: b"name\n",
        way: Way {
            sink_fails: 1,
            ..WHOLE
        },
        status: 1,
        notes: b"bad database: line 3 kind 7\n",
        left: 5,
        ..CASE
    },
];

// The runs of the two tables above.
#[test]
fn a_fault_ends_the_run_and_other_calls_are_not_made(rt: HostRuntime) {
    assert_cases(&rt, rt.alloc(), &FAULTS);
    assert_cases(&rt, rt.alloc(), &UNMADE_CALLS);
}

/// A run that moves seven bytes a call, and in which the call `call` fails. It is a call of the loader, the source or
/// the sink: the one whose fault ends a run with the exit status `status`.
fn failing(status: u8, call: u64) -> Way {
    let whole = Way { piece: 7, ..WHOLE };
    match status {
        4 => Way {
            source_fails: call,
            ..whole
        },
        5 => Way {
            sink_fails: call,
            ..whole
        },
        _ => Way {
            loader_fails: call,
            ..whole
        },
    }
}

/// What may fail, and the exit status that a run then has.
static OBJECTS: [(&str, u8); 3] = [("loader", 6), ("source", 4), ("sink", 5)];

/// Runs the session with this call set to fail, and returns whether the run makes the call. The output is a front of
/// the replies, and all of them if the call is not made.
fn is_made(
    rt: &impl Abort,
    alloc: Global,
    session: &Session,
    (object, status): (&str, u8),
    call: u64,
) -> bool {
    let name = session.name;
    let words = words(rt, alloc, &[], session.files);
    let ran = run_on(
        rt,
        alloc,
        &words,
        session.files,
        session.input,
        failing(status, call),
    );
    let (out, all) = (ran.output.bytes(), session.output);
    let made = ran.status == status;
    let right = if made {
        all.starts_with(out)
    } else {
        ran.status == 0 && out == all
    };
    assert!(rt; right, "{name}, {object} call {call}");
    made
}

/// Runs the session once for each call of the loader, the source or the sink, with that call set to fail.
fn assert_failing(rt: &impl Abort, alloc: Global, session: &Session, object: (&str, u8)) {
    for call in 1..MANY_CALLS {
        if !is_made(rt, alloc, session, object, call) {
            break;
        }
    }
}

// If a call fails, the output is a front of the replies, and the outcome names the fault.
#[test]
fn each_call_fails_in_turn(rt: HostRuntime) {
    for session in &SESSIONS {
        for &object in &OBJECTS {
            assert_failing(&rt, rt.alloc(), session, object);
        }
    }
}

/// The options of a run that writes its counts and has one generated line.
static NOTED: [&str; 3] = ["--stats", "--generate", "1"];

/// What comes of the run with the options `NOTED`, with seven bytes a call, if the call `call` of the notes fails.
fn noted(rt: &impl Abort, alloc: Global, call: u64) -> RunResult {
    let way = Way {
        piece: 7,
        notes_fail: call,
        ..WHOLE
    };
    run_on(rt, alloc, &words(rt, alloc, &NOTED, &[]), &[], b"", way)
}

// If a call of the notes fails, the notes are a front of their text, and nothing else changes.
#[test]
fn each_call_of_the_notes_fails_in_turn(rt: HostRuntime) {
    let all = noted(&rt, rt.alloc(), 0);
    for call in 1..MANY_CALLS {
        let ran = noted(&rt, rt.alloc(), call);
        let (notes, want) = (ran.notes.bytes(), all.notes.bytes());
        assert!(rt;
            ran.status == 0 && ran.output.bytes() == all.output.bytes() && want.starts_with(notes),
            "call {call}"
        );
        if notes == want {
            assert!(rt; call > 1, "the first call fails");
            return;
        }
    }
    panic!(rt; "some call is the last")
}
