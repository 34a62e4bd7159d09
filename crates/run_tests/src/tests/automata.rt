//! A session that has one pattern and the automaton of another.
use db_read::read;
use dfa_join::compile;
use go_options::read_options;
use gtp_io::SureShelf;
use gtp_lex::Raw;
use helpers::Helpers;
use pat_types::Pattern;
use session::{Matcher, Reply, Session};
use std::alloc::Global;
use std::test::Fail;

/// The patterns that a text defines.
fn patterns_of(alloc: Global, text: &[u8]) -> Result<Vec<Pattern>, Fail> {
    match read(alloc, text, &[], Vec::new(alloc)) {
        Ok(patterns) => Ok(patterns),
        Err(_) => Err(Fail::from("the text has no fault")),
    }
}

/// A session with one pattern and the automaton of another.
fn session_by_another(alloc: Global) -> Result<Session, Fail> {
    let patterns = patterns_of(alloc, b"Pattern P\nO*\n:8,s\n")?;
    let others = patterns_of(alloc, b"Pattern Q\nX*\n:8,s\n")?;
    let (count, other_count) = (patterns.len(), others.len());
    if other_count != count || other_count > 4096 {
        return Err(Fail::from("each text has one pattern"));
    }
    let Ok(automaton) = compile(alloc, &others, 100) else {
        return Err(Fail::from("the pattern has few states"));
    };
    let Ok(options) = read_options(alloc, &[]) else {
        return Err(Fail::from("no words are options"));
    };
    let matcher = Matcher::new(alloc, patterns, automaton)?;
    let helpers = Helpers::new(alloc, Vec::new(alloc))?;
    Ok(Session::new(alloc, matcher, helpers, &options)?)
}

/// Lines, and the replies to them.
static LINES: [(&str, &str); 4] = [
    ("boardsize 3", "=\n\n"),
    ("play b B2", "=\n\n"),
    ("match_patterns b", "=\n\n"),
    (
        "match_patterns w",
        "= P 0 C2\nP 1 B1\nP 2 A2\nP 3 B3\nP 4 A2\nP 5 B3\nP 6 C2\nP 7 B1\n\n",
    ),
];

// The automaton asks for an enemy's stone at the place where the pattern asks for a friend's.
#[test]
fn session_answers_by_the_automaton_given(rt: HostRuntime) -> Result<(), Fail> {
    let mut session = session_by_another(rt.alloc())?;
    let mut files = SureShelf::new(Vec::new(rt.alloc()), Vec::new(rt.alloc()));
    for &(line, want) in &LINES {
        assert!(rt; line.len() <= 65_536);
        match session.line(Raw::Line(line.as_bytes()), &mut files) {
            Reply::Short { text, .. } => assert!(rt; text.as_slice() == want.as_bytes(), "{line}"),
            Reply::Text { bytes } => assert!(rt; bytes.as_slice() == want.as_bytes(), "{line}"),
            _ => return Err(Fail::from("a line with words has a reply")),
        }
    }
    Ok(())
}
