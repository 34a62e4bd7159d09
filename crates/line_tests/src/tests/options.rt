//! Words of a command line and the options that they give, as `clap` 4 reads them.
use go_options::{Files, Options, OptionsError, read_options};
use std::alloc::Global;
use std::process::Abort;
use std::test::Fail;

/// Words of a command line, named by what they show, and the options that they give.
struct Given {
    name: &'static str,
    words: &'static [&'static str],
    depth: u8,
    branch: u8,
    cache: u32,
    states: u32,
    stats: bool,
    generate: Option<u32>,
    files: &'static [&'static str],
}

/// The options that an empty command line gives.
const DEFAULTS: Given = Given {
    name: "no words give the defaults",
    words: &[],
    depth: 10,
    branch: 2,
    cache: 4096,
    states: 100_000,
    stats: false,
    generate: None,
    files: &[],
};

/// Words that the command line takes.
static GIVEN: [Given; 6] = [
    DEFAULTS,
    Given {
        name: "values stand behind an equals sign or in the next word",
        words: &[
            "--depth=3",
            "--branch",
            "0",
            "--cache=8",
            "--states",
            "1",
            "--stats",
            "--generate=100000",
        ],
        depth: 3,
        branch: 0,
        cache: 8,
        states: 1,
        stats: true,
        generate: Some(100_000),
        files: &[],
    },
    Given {
        name: "files stand anywhere and keep their order",
        words: &["b", "--stats", "a", "-", "--depth", "4", "", "b"],
        depth: 4,
        stats: true,
        files: &["b", "a", "-", "", "b"],
        ..DEFAULTS
    },
    Given {
        name: "two hyphens end the options",
        words: &["--depth=4", "--", "--stats", "-x", "--"],
        depth: 4,
        files: &["--stats", "-x", "--"],
        ..DEFAULTS
    },
    Given {
        name: "two hyphens alone give the defaults",
        words: &["--"],
        ..DEFAULTS
    },
    Given {
        name: "numbers may have a sign and zeros in front",
        words: &["--depth=+007", "--branch=-0", "--cache", "+8"],
        depth: 7,
        branch: 0,
        cache: 8,
        ..DEFAULTS
    },
];

/// Words that the command line refuses, named by what is wrong with them.
static REFUSED: [(&str, &[&str]); 43] = [
    ("a depth is given twice", &["--depth=3", "--depth=3"]),
    ("a flag is given twice", &["--stats", "--stats"]),
    (
        "an option is given twice, with two values",
        &["--generate", "1", "--generate", "2"],
    ),
    ("a flag has no number", &["--stats=1"]),
    ("a flag has no value, not even an empty one", &["--stats="]),
    ("a flag has no truth value", &["--stats=true"]),
    ("a depth below the range", &["--depth=0"]),
    ("a depth above it", &["--depth=201"]),
    ("a branch above the range", &["--branch=13"]),
    ("a branch below it", &["--branch=-1"]),
    ("a cache below the range", &["--cache=7"]),
    ("a cache above it", &["--cache=65537"]),
    ("states below the range", &["--states=0"]),
    ("states above it", &["--states=1000001"]),
    ("generated lines below the range", &["--generate=0"]),
    ("generated lines above it", &["--generate=100001"]),
    (
        "a number of twenty digits",
        &["--generate=99999999999999999999"],
    ),
    ("an empty value is no number", &["--depth="]),
    ("a letter is no number", &["--depth=x"]),
    ("a blank ends no number", &["--depth=3 "]),
    ("a fraction is no number", &["--depth=3.0"]),
    ("a number has no base", &["--depth=0x3"]),
    ("two hyphens are no sign", &["--depth=--3"]),
    ("a sign alone is no number", &["--branch=-"]),
    ("a value is missing at the end", &["--depth"]),
    ("a flag is no value", &["--depth", "--stats"]),
    ("two hyphens are no value", &["--depth", "--", "3"]),
    ("a word with a hyphen is no value", &["--depth", "-3"]),
    ("nor where it is a number in the range", &["--branch", "-0"]),
    ("a name that is cut short", &["--dep"]),
    ("one that is cut short by a letter", &["--dept=3"]),
    ("a name with a letter more", &["--depths=3"]),
    ("a name with a capital", &["--Depth=3"]),
    ("a short name", &["-d"]),
    ("there is no short help", &["-h"]),
    ("there is no help", &["--help"]),
    ("there is no short version", &["-V"]),
    ("there is no version", &["--version"]),
    ("a number with a sign is no file", &["-1"]),
    ("files have no option", &["--files=a"]),
    ("three hyphens", &["---"]),
    ("no name before a value", &["--=3"]),
    ("a flag that is cut short", &["--stat"]),
];

/// The options that some words give.
fn options_of(alloc: Global, words: &[&str]) -> Result<Options, OptionsError> {
    let mut owned = Vec::new(alloc);
    for word in words {
        let Ok(()) = owned.push(String::from_str(alloc, word)?) else {
            return Err(OptionsError::NoMemory);
        };
    }
    read_options(alloc, owned.as_slice())
}

/// Compares all options but the names of files.
fn compare_values(rt: &impl Abort, options: &Options, given: &Given) {
    let name = given.name;
    assert!(rt; options.depth == given.depth, "{name}");
    assert!(rt; options.branch == given.branch, "{name}");
    assert!(rt; options.cache == given.cache, "{name}");
    assert!(rt; options.states == given.states, "{name}");
    assert!(rt; options.stats == given.stats, "{name}");
    assert!(rt; options.generate == given.generate, "{name}");
}

#[test]
fn words_give_their_options(rt: HostRuntime) -> Result<(), Fail> {
    let alloc = rt.alloc();
    for given in &GIVEN {
        let name = given.name;
        let options = options_of(alloc, given.words)?;
        compare_values(&rt, &options, given);
        let files = options.files.as_slice();
        assert!(rt; files.len() == given.files.len(), "{name}");
        assert!(rt;
            files.join(alloc, "|")? == given.files.join(alloc, "|")?,
            "{name}"
        );
    }
    Ok(())
}

/// Whether the command line refuses the words as wrong options.
fn are_refused(alloc: Global, words: &[&str]) -> bool {
    match options_of(alloc, words) {
        Ok(_) => false,
        Err(error) => error == OptionsError::Usage,
    }
}

#[test]
fn wrong_words_are_refused(rt: HostRuntime) {
    for &(name, words) in &REFUSED {
        assert!(rt; are_refused(rt.alloc(), words), "{name}");
    }
}

#[test]
fn files_are_taken_one_by_one(rt: HostRuntime) -> Result<(), Fail> {
    let alloc = rt.alloc();
    let mut files = Files::new(alloc);
    files.push(String::from_str(alloc, "a")?)?;
    assert!(rt; files.as_slice().len() == 1);
    Ok(())
}
