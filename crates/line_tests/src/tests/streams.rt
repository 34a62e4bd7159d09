//! What no contract says: that the room for a line is found, and that the limit on a line is the intended number.
use gtp_lex::{Lines, Taken};
use std::process::Abort;
use std::test::Fail;

// A line of `letters` letters, fed in pieces of `piece` bytes; the line `name` follows it.
struct Case {
    what: &'static str,
    letters: usize,
    piece: usize,
    want: Taken,
}

static CASES: [Case; 4] = [
    Case {
        what: "the longest line",
        letters: 65_536,
        piece: 4096,
        want: Taken::Line,
    },
    Case {
        what: "one byte more",
        letters: 65_537,
        piece: 4096,
        want: Taken::TooLong,
    },
    Case {
        what: "one byte more, in pieces that do not divide the limit",
        letters: 65_537,
        piece: 1000,
        want: Taken::TooLong,
    },
    Case {
        what: "a line much longer than the room",
        letters: 200_000,
        piece: 70_000,
        want: Taken::TooLong,
    },
];

/// Bytes that are fed after the letters of a case, and how many of them are taken.
static ENDS: [(&str, &[u8], usize); 2] = [
    ("the line feed ends the line", b"\nname\n", 1),
    ("the line feed waits", b"name\n", 0),
];

/// Feeds the letters of a case, which end no line.
fn feed_letters(rt: &impl Abort, lines: &mut Lines, case: &Case, letters: &[u8]) {
    let what = case.what;
    assert!(rt; case.piece > 0);
    for piece in letters.chunks(case.piece) {
        assert!(rt; lines.feed(piece) == piece.len(), "{what}");
        assert!(rt; lines.take().is_none(), "{what}");
    }
}

/// Feeds the bytes of `ENDS` after the letters of a case; the first line feed ends the line of the letters.
fn feed_ends(rt: &impl Abort, lines: &mut Lines, case: &Case) {
    let what = case.what;
    for &(step, bytes, count) in &ENDS {
        assert!(rt; lines.feed(bytes) == count, "{what}: {step}");
    }
    assert!(rt; lines.take() == Some(case.want), "{what}");
    assert!(rt; lines.feed(b"name\n") == 5, "{what}");
    assert!(rt;
        lines.take() == Some(Taken::Line),
        "{what}: the next line is whole"
    );
}

#[test]
fn longest_line_and_one_byte_more(rt: HostRuntime) -> Result<(), Fail> {
    for case in &CASES {
        let letters = vec![in rt.alloc(); b'x'; case.letters]?;
        let mut lines = Lines::new(rt.alloc())?;
        feed_letters(&rt, &mut lines, case, letters.as_slice());
        feed_ends(&rt, &mut lines, case);
    }
    Ok(())
}

#[test]
fn unended_line_is_the_last(rt: HostRuntime) -> Result<(), Fail> {
    let mut lines = Lines::new(rt.alloc())?;
    assert!(rt; lines.feed(b"na") == 2);
    assert!(rt; lines.feed(b"me") == 2);
    assert!(rt; lines.take().is_none());
    assert!(rt; lines.finish() == Some(Taken::Line));
    assert!(rt; lines.bytes() == b"name".as_slice());
    assert!(rt; lines.finish().is_none(), "the line was given");
    Ok(())
}
