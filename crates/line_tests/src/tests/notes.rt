//! The notes of a run as they are printed.

use gtp_io::Page;
use run_notes::{Counts, Links, Sent, put_notes};
use std::test::Fail;
use vertices::Short;

/// Notes on a page that takes at most `most` bytes a call, and fails at the call `fails`, or at none if it is 0; and
/// what the page then holds.
struct Noted {
    name: &'static str,
    connections: u64,
    fresh: u64,
    most: usize,
    fails: u64,
    want: &'static [u8],
}

/// Notes of a run with two readings.
static NOTED: [Noted; 5] = [
    Noted {
        name: "without connections all other lines go out",
        connections: 0,
        fresh: 0,
        most: 200,
        fails: 0,
        want: b"readings 2 fresh 1 trials 18446744073709551615 refused 0\nlines 3 bytes 9\ninput failed\n",
    },
    Noted {
        name: "all lines go out in pieces",
        connections: 0,
        fresh: 0,
        most: 3,
        fails: 0,
        want: b"readings 2 fresh 1 trials 18446744073709551615 refused 0\nlines 3 bytes 9\ninput failed\n",
    },
    Noted {
        name: "a connection that was read afresh stands behind the readings",
        connections: 1,
        fresh: 1,
        most: 200,
        fails: 0,
        want: b"readings 2 fresh 1 trials 18446744073709551615 refused 0\nconnections 1 fresh 1\nlines 3 bytes 9\n\
            input failed\n",
    },
    Noted {
        name: "so do the greatest counts of connections",
        connections: 18_446_744_073_709_551_615,
        fresh: 18_446_744_073_709_551_615,
        most: 200,
        fails: 0,
        want: b"readings 2 fresh 1 trials 18446744073709551615 refused 0\nconnections 18446744073709551615 fresh \
            18446744073709551615\nlines 3 bytes 9\ninput failed\n",
    },
    Noted {
        name: "nothing is put after a failure",
        connections: 0,
        fresh: 0,
        most: 200,
        fails: 3,
        want: b"readings 2 fresh 1",
    },
];

#[test]
fn lines_go_out_in_their_order(rt: HostRuntime) -> Result<(), Fail> {
    let alloc = rt.alloc();
    let sent = Sent { lines: 3, bytes: 9 };
    for noted in &NOTED {
        let name = noted.name;
        let counts = Counts {
            readings: 2,
            fresh: 1,
            trials: 18_446_744_073_709_551_615,
            refused: 0,
            links: Links {
                connections: noted.connections,
                fresh: noted.fresh,
            },
        };
        assert!(rt; noted.most > 0);
        let mut page = Page::new(alloc, 200, noted.most, vec![in alloc; noted.fails]?)?;
        put_notes(
            &mut page,
            Some(counts),
            Some(sent),
            &[Short::of(b"input failed\n")],
        );
        assert!(rt; page.bytes() == noted.want, "{name}");
    }
    let mut page = Page::new(alloc, 200, 200, Vec::new(alloc))?;
    put_notes(&mut page, None, None, &[]);
    assert!(rt;
        page.bytes().len() == 0,
        "no line stands where none is asked for"
    );
    Ok(())
}
