//! Tests of the fronts of game records.
use crate::cut_record;

/// What a row shows, a record, the most moves to keep, the front, and how many moves the front has.
type Row = (&'static str, &'static [u8], u64, &'static [u8], u64);

/// Records and their fronts.
static ROWS: [Row; 6] = [
    (
        "the position before the first move",
        b"(;SZ[9]AB[aa];B[bb];W[cc])",
        0,
        b"(;SZ[9]AB[aa])",
        0,
    ),
    (
        "one move",
        b"(;SZ[9]AB[aa];B[bb];W[cc])",
        1,
        b"(;SZ[9]AB[aa];B[bb])",
        1,
    ),
    (
        "all moves",
        b"(;SZ[9]AB[aa];B[bb];W[cc])",
        9,
        b"(;SZ[9]AB[aa];B[bb];W[cc])",
        2,
    ),
    (
        "before a variation",
        b"(;SZ[9];B[bb](;W[cc])(;W[dd]))",
        1,
        b"(;SZ[9];B[bb])",
        1,
    ),
    (
        "what looks like a node in a comment is none",
        b"(;C[a\\];B[zz]];B[aa])",
        0,
        b"(;C[a\\];B[zz]])",
        0,
    ),
    (
        "a move of the first node is no move",
        b"(;B[aa];W[bb])",
        0,
        b"(;B[aa])",
        0,
    ),
];

#[test]
fn a_front_ends_before_the_next_move(rt: HostRuntime) {
    for (name, record, most, text, moves) in &ROWS {
        let cut = cut_record(rt.alloc(), record, *most).ok();
        let found = cut
            .as_ref()
            .map(|cut| (cut.text.as_slice() == *text, cut.moves));
        assert!(rt; found == Some((true, *moves)), "{name}");
    }
}
