//! Words and files that are refused before the first line.
use super::runs::{CASE, Case, MEMORY, ROOM, WHOLE, Way, assert_cases, words};
use crate::run_surely;
use crate::sessions::File;
use gtp_io::{Page, SureFeed, SurePage, SureShelf};
use session::{WordsError, run_words};

/// Why the words of the command line are missing, the exit status, and the note.
static UNHAD_WORDS: [(WordsError, u8, &[u8]); 2] = [
    (
        WordsError::NotText,
        2,
        b"usage: gopat [options] [file ...]\n",
    ),
    (WordsError::NoMemory, 3, b"out of memory\n"),
];

#[test]
fn words_that_could_not_be_had_are_told(rt: HostRuntime) {
    let alloc = rt.alloc();
    for &(error, status, note) in &UNHAD_WORDS {
        let mut notes = Page::new(alloc, ROOM, ROOM, Vec::new(alloc)).expect(&rt, MEMORY);
        let outcome = run_words(
            alloc,
            Err(error),
            &mut SureShelf::new(Vec::new(alloc), Vec::new(alloc)),
            &mut SureFeed::new(Vec::from_slice(alloc, b"name\n").expect(&rt, MEMORY), 5),
            &mut SurePage::new(),
            &mut notes,
            Vec::new(alloc),
        );
        assert!(rt;
            outcome.code() == status && notes.bytes() == note,
            "exit status {status}"
        );
    }
}

/// What is special about the words of a run that cannot fail, the words, and the exit status.
static SURE_RUNS: [(&str, &[&str], u8); 2] = [
    ("a word that names a file", &["file"], 0),
    ("a word that begins with a hyphen", &["file", "-h"], 2),
];

#[test]
fn words_that_begin_with_a_hyphen_are_refused(rt: HostRuntime) {
    let alloc = rt.alloc();
    for &(name, options, status) in &SURE_RUNS {
        let outcome = run_surely(
            alloc,
            &words(&rt, alloc, options, &[]),
            &mut SureShelf::new(Vec::new(alloc), Vec::new(alloc)),
            &mut SureFeed::new(Vec::from_slice(alloc, b"name\n").expect(&rt, MEMORY), 5),
            &mut SurePage::new(),
            Vec::new(alloc),
        );
        assert!(rt; outcome.code() == status, "{name}");
    }
}

/// Files that are refused before the first line.
static REFUSED: [Case<'static>; 6] = [
    Case {
        name: "no star",
        files: &[File {
            name: "p",
            text: b"Pattern A\nOX\n:8,s\n",
        }],
        input: b"name\n",
        status: 1,
        notes: b"bad database: line 3 kind 7\n",
        left: 5,
        ..CASE
    },
    Case {
        name: "two stars",
        files: &[File {
            name: "p",
            text: b"Pattern A\n**\n:8,s\n",
        }],
        input: b"name\n",
        status: 1,
        notes: b"bad database: line 3 kind 7\n",
        left: 5,
        ..CASE
    },
    Case {
        name: "a helper that is not there",
        files: &[File {
            name: "p",
            text: b"Pattern P\nO*\n:8,s,far_away\n",
        }],
        input: b"name\n",
        status: 1,
        notes: b"bad database: line 3 kind 17\n",
        left: 5,
        ..CASE
    },
    Case {
        name: "a faulty expression in the second file",
        files: &[
            File {
                name: "p",
                text: b"Pattern P\nO*\n:8,s",
            },
            File {
                name: "q",
                text: b"Pattern Q\nO*\n:8,s\n;lib(*\n",
            },
        ],
        input: b"name\n",
        status: 1,
        notes: b"bad database: line 7 kind 15\n",
        left: 5,
        ..CASE
    },
    Case {
        name: "the first load fails",
        files: &[File {
            name: "p",
            text: b"",
        }],
        input: b"name\n",
        way: Way {
            loader_fails: 1,
            ..WHOLE
        },
        status: 6,
        notes: b"file failed\n",
        left: 5,
        ..CASE
    },
    Case {
        name: "the second load fails",
        files: &[
            File {
                name: "p",
                text: b"",
            },
            File {
                name: "q",
                text: b"",
            },
        ],
        input: b"name\n",
        way: Way {
            loader_fails: 2,
            ..WHOLE
        },
        status: 6,
        notes: b"file failed\n",
        left: 5,
        ..CASE
    },
];

#[test]
fn files_with_a_fault_are_refused(rt: HostRuntime) {
    assert_cases(&rt, rt.alloc(), &REFUSED);
}
