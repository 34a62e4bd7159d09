//! The verdicts on problems.

use super::{Fail, Record, compare};

/// Black D4 is in atari at D3, or two stones stand in the corner, or Black A1 stands between A2 and B1.
static VERDICTS: [Record; 12] = [
    (
        "the one answer",
        "(;SZ[9]AB[df]AW[cf][ef][de]C[gopat: attack D4 answer D3 only])",
        "attack D4 depths 3 2\t3\tD3\t1\tas expected",
    ),
    (
        "one of two answers, and others may be",
        "(;SZ[9]AB[bh]AW[ai]C[gopat: attack A1 answer B1])",
        "attack A1 depths 3 2\t3\tA2 B1\t3\tas expected",
    ),
    (
        "one of two answers, and no other may be",
        "(;SZ[9]AB[bh]AW[ai]C[gopat: attack A1 answer B1 only])",
        "attack A1 depths 3 2\t3\tA2 B1\t3\tother answers too",
    ),
    (
        "both answers",
        "(;SZ[9]AB[bh]AW[ai]C[gopat: attack A1 answer B1 A2 only])",
        "attack A1 depths 3 2\t3\tA2 B1\t3\tas expected",
    ),
    (
        "an answer that does not do",
        "(;SZ[9]AB[df]AW[cf][ef][de]C[gopat: attack D4 answer C3])",
        "attack D4 depths 3 2\t3\tD3\t1\tanother answer",
    ),
    (
        "an answer that does, and one that does not",
        "(;SZ[9]AB[df]AW[cf][ef][de]C[gopat: attack D4 answer D3 C3])",
        "attack D4 depths 3 2\t3\tD3\t1\tanother answer",
    ),
    (
        "a smaller code was expected",
        "(;SZ[9]AB[df]AW[cf][ef][de]C[gopat: attack D4 answer D3 code 2])",
        "attack D4 depths 3 2\t3\tD3\t1\tanother answer",
    ),
    (
        "the code alone is expected",
        "(;SZ[9]AB[bh]AW[ai]C[gopat: attack A1 code 3])",
        "attack A1 depths 3 2\t3\tA2 B1\t3\tas expected",
    ),
    (
        "too few plies",
        "(;SZ[9]AB[bh]AW[ai]C[gopat: attack A1 depths 2 0 answer A2])",
        "attack A1 depths 2 0\t0\t-\t-\tnot solved within the depths",
    ),
    (
        "a failure was expected",
        "(;SZ[9]AB[bh]AW[ai]C[gopat: attack A1 depths 2 0 code 0])",
        "attack A1 depths 2 0\t0\t-\t-\tas expected",
    ),
    (
        "a dead stone",
        "(;SZ[5]AB[ad][bd][ce]AW[ae]C[gopat: attack A1 answer B1])",
        "attack A1 depths 3 2\t3\tB1\t1\tneeds no move",
    ),
    (
        "nothing is expected",
        "(;SZ[9]AB[df]AW[cf][ef][de]C[gopat: attack D4])",
        "attack D4 depths 3 2\t3\tD3\t1\tnot told: no answer",
    ),
];

/// White has two eyes, A1 and C1; or a lone black stone stands on an empty board.
static SAFE: [Record; 3] = [
    (
        "a safe string",
        "(;SZ[9]AB[ag][bg][cg][dg][eh][ei]AW[bi][ah][bh][ch][dh][di]C[gopat: defend B2 depths 2 0 answer A1])",
        "defend B2 depths 2 0\t3\tPASS\t1\tneeds no move",
    ),
    (
        "a safe string of which the pass is expected",
        "(;SZ[9]AB[ag][bg][cg][dg][eh][ei]AW[bi][ah][bh][ch][dh][di]C[gopat: defend B2 depths 2 0 answer pass only])",
        "defend B2 depths 2 0\t3\tPASS\t1\tas expected",
    ),
    (
        "the pass is one move more",
        "(;SZ[9]AW[ee]C[gopat: defend E5 depths 2 0 answer E6 D5 F5 E4 only])",
        "defend E5 depths 2 0\t3\tPASS E6 D5 F5 E4\t1\tneeds no move",
    ),
];

#[test]
fn verdicts_of_questions(rt: HostRuntime) -> Result<(), Fail> {
    compare(&rt, &VERDICTS)?;
    compare(&rt, &SAFE)
}
