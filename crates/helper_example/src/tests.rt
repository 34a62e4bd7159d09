//! A run with the caller's helper, and with a pattern file that names it.
use crate::TwoLiberties;
use gtp_io::{Feed, Page, Shelf};
use helpers::Helper;
use session::{Outcome, run};
use std::alloc::Global;
use std::process::Abort;

/// The most bytes of one call, and the room for the replies.
const ROOM: usize = 4096;

/// A pattern that asks the helper.
const PATTERNS: &[u8] = b"Pattern P\nO*\n:O,s,two_liberties\n";

/// A play at C5 leaves Black's string many liberties; a play at E1 leaves it only one, E2.
const LINES: &[u8] = b"boardsize 5\nplay b B5\nplay w D2\nplay b D1\nplay w C1\nmatch_patterns b\n";

/// The replies to `LINES`: without the helper E1 would be a match too.
const REPLIES: &[u8] = b"=\n\n=\n\n=\n\n=\n\n=\n\n= P 0 C5\n\n";

/// What the test says if memory runs out.
const MEMORY: &str = "memory is found";

/// The name of the pattern file: the only word of the command line, and the name on the shelf.
fn names(rt: &impl Abort, alloc: Global) -> Vec<String> {
    let name = String::from_str(alloc, "patterns").expect(rt, MEMORY);
    let mut names = Vec::new(alloc);
    names.push(name).expect(rt, MEMORY);
    names
}

/// A shelf that holds the pattern file.
fn shelf(rt: &impl Abort, alloc: Global) -> Shelf {
    let patterns = Vec::from_slice(alloc, PATTERNS).expect(rt, MEMORY);
    let mut contents = Vec::new(alloc);
    contents.push(patterns).expect(rt, MEMORY);
    let names = names(rt, alloc);
    assert!(rt; names.len() == contents.len());
    Shelf::new(names, contents, Vec::new(alloc))
}

/// An empty page.
fn page(rt: &impl Abort, alloc: Global) -> Page {
    Page::new(alloc, ROOM, ROOM, Vec::new(alloc)).expect(rt, MEMORY)
}

/// The caller's helper, in a box.
fn helpers(rt: &impl Abort, alloc: Global) -> Vec<Box<dyn Helper>> {
    let helper = Box::new(alloc, TwoLiberties::new()).expect(rt, MEMORY);
    let mut helpers: Vec<Box<dyn Helper>> = Vec::new(alloc);
    helpers.push(helper).expect(rt, MEMORY);
    helpers
}

#[test]
fn helper_of_the_caller_is_asked(rt: HostRuntime) {
    let alloc = rt.alloc();
    let lines = Vec::from_slice(alloc, LINES).expect(&rt, MEMORY);
    let mut output = page(&rt, alloc);
    let mut notes = page(&rt, alloc);
    let outcome = run(
        alloc,
        &names(&rt, alloc),
        &mut shelf(&rt, alloc),
        &mut Feed::new(lines, ROOM, Vec::new(alloc)),
        &mut output,
        &mut notes,
        helpers(&rt, alloc),
    );
    assert!(rt; output.bytes() == REPLIES);
    assert!(rt; outcome == Outcome::Done && notes.bytes().is_empty());
}
