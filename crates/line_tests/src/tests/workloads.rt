//! The first generated lines, and the last ones, in pieces of several lengths.
use gtp_io::{Failed, Source};
use std::alloc::{AllocError, Global};
use std::test::Fail;
use workload::Workload;

/// All bytes of a source, taken with a buffer of `room` bytes.
fn all_bytes(alloc: Global, source: &mut Workload, room: usize) -> Result<Vec<u8>, AllocError> {
    let mut bytes = Vec::new(alloc);
    let mut buffer = vec![in alloc; 0u8; room]?;
    for _ in 0..1_000 {
        match source.next(&mut buffer) {
            Ok(count) => bytes.extend_from_slice(&buffer[..count])?,
            Err(Failed) => return Ok(bytes),
        }
    }
    Ok(bytes)
}

/// A number of lines, and all bytes that come with buffers of each length from `from` to just below `to`.
struct Generated {
    lines: u32,
    from: usize,
    to: usize,
    want: &'static [u8],
}

static GENERATED: [Generated; 4] = [
    Generated {
        lines: 0,
        from: 512,
        to: 513,
        want: b"boardsize 9\ndepths 5 1\n",
    },
    Generated {
        lines: 1,
        from: 512,
        to: 513,
        want: b"boardsize 9\ndepths 5 1\nplay b J2\n",
    },
    Generated {
        lines: 2,
        from: 512,
        to: 513,
        want: b"boardsize 9\ndepths 5 1\nplay b J8\nplay w C3\n",
    },
    Generated {
        lines: 17,
        from: 1,
        to: 40,
        want: b"boardsize 9\ndepths 5 1\nplay b F4\nplay w B6\nplay b C3\nundo\nplay b D6\nplay w C3\nplay b J3\n\
            attack G2\nplay b H1\nplay w D5\nplay b G3\ndefend F3\nplay b D9\nplay w A8\nplay b C3\n\
            match_patterns w\nplay b E4\n",
    },
];

#[test]
fn lines_come_whole_in_pieces_of_any_length(rt: HostRuntime) -> Result<(), Fail> {
    for row in &GENERATED {
        let lines = row.lines;
        for room in row.from..row.to {
            let bytes = all_bytes(rt.alloc(), &mut Workload::new(lines), room)?;
            assert!(rt;
                bytes.as_slice() == row.want,
                "{lines} lines by {room} bytes"
            );
        }
    }
    Ok(())
}

#[test]
fn an_empty_buffer_takes_nothing_and_nothing_comes_after_the_end(rt: HostRuntime) {
    let mut source = Workload::new(1);
    assert!(rt; source.next(&mut []) == Ok(0));
    let mut buffer = [0; 9];
    assert!(rt; source.next(&mut buffer) == Ok(9));
    assert!(rt; buffer == *b"boardsize");
    let mut none = Workload::new(0);
    assert!(rt; none.next(&mut [0; 512]) == Ok(23));
    assert!(rt; none.next(&mut [0; 8]) == Ok(0));
}
