//! A run over a feed, a page and a shelf in memory: what it is given, and what comes of it.
use crate::sessions::File;
use gtp_io::{Feed, Page, Shelf};
use helpers::{Helper, NearEdge, NoBan};
use session::run;
use std::alloc::Global;
use std::process::Abort;

/// The most bytes of one call.
pub(super) const PIECE: usize = 4096;

/// Room for the replies of every session.
pub(super) const ROOM: usize = 65_536;

/// No session has as many calls as this, even if each call moves one byte.
pub(super) const MANY_CALLS: u64 = 400;

/// The message of a test that ends for want of memory.
pub(super) const MEMORY: &str = "memory is found";

/// Two files, each without a fault.
pub(super) const TWO_FILES: &[File<'static>] = &[
    File {
        name: "p",
        text: b"Pattern P\nO*\n:8,s\n",
    },
    File {
        name: "q",
        text: b"Pattern Q\nX*\n:8,s\n",
    },
];

/// How a run is to go: the most bytes of a call, the most bytes that a call of the sink takes, and which call of the
/// loader, the source, the sink and the notes fails, counted from 1; a 0 means that none does.
#[derive(Clone, Copy)]
pub(super) struct Way {
    pub(super) piece: usize,
    pub(super) sink_takes: usize,
    pub(super) loader_fails: u64,
    pub(super) source_fails: u64,
    pub(super) sink_fails: u64,
    pub(super) notes_fail: u64,
}

/// Nothing fails, and each call moves as much as it can.
pub(super) const WHOLE: Way = Way {
    piece: PIECE,
    sink_takes: ROOM,
    loader_fails: 0,
    source_fails: 0,
    sink_fails: 0,
    notes_fail: 0,
};

/// A run, named by what it shows: what it is given, and all that must come of it.
#[derive(Clone, Copy)]
pub(super) struct Case<'a> {
    pub(super) name: &'a str,
    /// The words before the names of the files.
    pub(super) options: &'a [&'a str],
    /// The pattern files, which the words of the command line name.
    pub(super) files: &'a [File<'a>],
    /// Files that no word names, such as game records, in a run without pattern files.
    pub(super) records: &'a [File<'a>],
    pub(super) input: &'a [u8],
    pub(super) way: Way,
    /// The exit status.
    pub(super) status: u8,
    pub(super) output: &'a [u8],
    pub(super) notes: &'a [u8],
    /// If this is not empty, the notes begin with `notes`, go on with the number of trial moves, and end with this.
    pub(super) behind_trials: &'a [u8],
    /// How many bytes of the input are not taken.
    pub(super) left: usize,
}

/// A run without files and input, in which nothing fails and of which nothing comes.
pub(super) const CASE: Case<'static> = Case {
    name: "",
    options: &[],
    files: &[],
    records: &[],
    input: b"",
    way: WHOLE,
    status: 0,
    output: b"",
    notes: b"",
    behind_trials: b"",
    left: 0,
};

/// What came of a run.
#[derive(Drop)]
pub(super) struct RunResult {
    pub(super) status: u8,
    pub(super) output: Page,
    pub(super) notes: Page,
    pub(super) left: usize,
}

/// The words of a command line that has these options and names these files.
pub(super) fn words(
    rt: &impl Abort,
    alloc: Global,
    options: &[&str],
    files: &[File<'_>],
) -> Vec<String> {
    let mut words = Vec::new(alloc);
    for option in options {
        let word = String::from_str(alloc, option).expect(rt, MEMORY);
        words.push(word).expect(rt, MEMORY);
    }
    for file in files {
        let word = String::from_str(alloc, file.name).expect(rt, MEMORY);
        words.push(word).expect(rt, MEMORY);
    }
    words
}

/// The texts of the files, in order.
fn texts(rt: &impl Abort, alloc: Global, files: &[File<'_>]) -> Vec<Vec<u8>> {
    let mut texts = Vec::new(alloc);
    for file in files {
        let text = Vec::from_slice(alloc, file.text).expect(rt, MEMORY);
        texts.push(text).expect(rt, MEMORY);
    }
    texts
}

/// A shelf that holds these files, and fails at the call `fails`.
fn shelf(rt: &impl Abort, alloc: Global, files: &[File<'_>], fails: u64) -> Shelf {
    let names = words(rt, alloc, &[], files);
    let contents = texts(rt, alloc, files);
    assert!(rt; names.len() == contents.len());
    Shelf::new(names, contents, calls(rt, alloc, fails))
}

/// A list that has this call alone.
fn calls(rt: &impl Abort, alloc: Global, call: u64) -> Vec<u64> {
    Vec::from_slice(alloc, &[call]).expect(rt, MEMORY)
}

/// A feed of these bytes that gives at most `most` a call, and fails at the call `fails`.
fn feed(rt: &impl Abort, alloc: Global, input: &[u8], most: usize, fails: u64) -> Feed {
    assert!(rt; most > 0, "a call moves some bytes");
    let bytes = Vec::from_slice(alloc, input).expect(rt, MEMORY);
    Feed::new(bytes, most, calls(rt, alloc, fails))
}

/// A page that takes at most `most` bytes a call, and fails at the call `fails`.
fn page(rt: &impl Abort, alloc: Global, most: usize, fails: u64) -> Page {
    assert!(rt; most > 0, "a call takes some bytes");
    Page::new(alloc, ROOM, most, calls(rt, alloc, fails)).expect(rt, MEMORY)
}

/// The program's own helpers.
fn helpers(rt: &impl Abort, alloc: Global) -> Vec<Box<dyn Helper>> {
    let mut helpers: Vec<Box<dyn Helper>> = Vec::new(alloc);
    let near_edge = Box::new(alloc, NearEdge::new()).expect(rt, MEMORY);
    helpers.push(near_edge).expect(rt, MEMORY);
    let no_ban = Box::new(alloc, NoBan::new()).expect(rt, MEMORY);
    helpers.push(no_ban).expect(rt, MEMORY);
    helpers
}

/// What comes of a run with these words and this input, over a shelf that holds these files.
pub(super) fn run_on(
    rt: &impl Abort,
    alloc: Global,
    words: &[String],
    files: &[File<'_>],
    input: &[u8],
    way: Way,
) -> RunResult {
    let mut feed = feed(rt, alloc, input, way.piece, way.source_fails);
    let takes = way.piece.min(way.sink_takes);
    let mut output = page(rt, alloc, takes, way.sink_fails);
    let mut notes = page(rt, alloc, way.piece, way.notes_fail);
    let outcome = run(
        alloc,
        words,
        &mut shelf(rt, alloc, files, way.loader_fails),
        &mut feed,
        &mut output,
        &mut notes,
        helpers(rt, alloc),
    );
    RunResult {
        status: outcome.code(),
        output,
        notes,
        left: feed.left().len(),
    }
}

/// What comes of the run of a case.
fn run_case(rt: &impl Abort, alloc: Global, case: &Case<'_>) -> RunResult {
    let words = words(rt, alloc, case.options, case.files);
    if case.files.is_empty() {
        run_on(rt, alloc, &words, case.records, case.input, case.way)
    } else {
        run_on(rt, alloc, &words, case.files, case.input, case.way)
    }
}

/// Whether the notes are those that the case has.
fn are_notes_of(case: &Case<'_>, notes: &[u8]) -> bool {
    if case.behind_trials.is_empty() {
        notes == case.notes
    } else {
        notes.starts_with(case.notes) && notes.ends_with(case.behind_trials)
    }
}

/// What must come of a run: its output, whether its notes are right, its exit status, and how many bytes of the input
/// are left.
#[derive(Clone, Copy)]
pub(super) struct ExpectedResult<'a> {
    pub(super) output: &'a [u8],
    pub(super) noted: bool,
    pub(super) status: u8,
    pub(super) left: usize,
}

/// Compares all that came of a run with what must come of it.
pub(super) fn compare(rt: &impl Abort, name: &str, ran: &RunResult, expected: ExpectedResult<'_>) {
    let other = if ran.output.bytes() != expected.output {
        "the output"
    } else if !expected.noted {
        "the notes"
    } else if ran.status != expected.status {
        "the exit status"
    } else if ran.left != expected.left {
        "the bytes left"
    } else {
        return;
    };
    panic!(rt; "{other} of: {name}")
}

/// Runs the case, and compares all that came of it.
fn assert_case(rt: &impl Abort, alloc: Global, case: &Case<'_>) {
    let ran = run_case(rt, alloc, case);
    let expected = ExpectedResult {
        output: case.output,
        noted: are_notes_of(case, ran.notes.bytes()),
        status: case.status,
        left: case.left,
    };
    compare(rt, case.name, &ran, expected);
}

/// Runs the cases, and compares all that came of them.
pub(super) fn assert_cases(rt: &impl Abort, alloc: Global, cases: &[Case<'_>]) {
    for case in cases {
        assert_case(rt, alloc, case);
    }
}

/// These parts one after another, each repeated as often as its number says.
pub(super) fn repeated(rt: &impl Abort, alloc: Global, parts: &[(usize, &[u8])]) -> Vec<u8> {
    let mut bytes = Vec::new(alloc);
    for (times, part) in parts {
        for _ in 0..*times {
            bytes.extend_from_slice(part).expect(rt, MEMORY);
        }
    }
    bytes
}
