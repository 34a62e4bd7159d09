//! A marked stone, the player to move, and the right moves of the variations.

use super::{Fail, Record, compare};

/// Black D4 is in atari at D3, or two stones stand in the corner.
static MARKS: [Record; 16] = [
    (
        "the main line",
        "(;SZ[9]AB[df]AW[cf][ef][de]TR[df]PL[W];W[dg])",
        "attack D4 depths 3 2\t3\tD3\t1\tas expected",
    ),
    (
        "the stone's own player is to move",
        "(;SZ[9]AB[df]AW[cf][ef][de]SQ[df]PL[B];B[dg])",
        "defend D4 depths 3 2\t3\tD3\t1\tas expected",
    ),
    (
        "a main line among variations",
        "(;SZ[9]AB[df]AW[cf][ef][de]CR[df]PL[W](;W[cg])(;W[dg]))",
        "attack D4 depths 3 2\t3\tD3\t1\tanother answer",
    ),
    (
        "a right variation",
        "(;SZ[9]AB[df]AW[cf][ef][de]MA[df]PL[W](;W[cg];B[dg])(;W[dg]C[RIGHT]))",
        "attack D4 depths 3 2\t3\tD3\t1\tas expected",
    ),
    (
        "the word stands behind the first move",
        "(;SZ[9]AB[df]AW[cf][ef][de]TR[df]PL[W](;W[cg];B[dg](;W[aa])(;W[bb]))\
         (;W[dg];B[aa](;W[bb])(;W[cc]C[That is CORRECT.])))",
        "attack D4 depths 3 2\t3\tD3\t1\tas expected",
    ),
    (
        "a tesuji",
        "(;SZ[9]AB[df]AW[cf][ef][de]TR[df]PL[W](;W[cg])(;W[dg]TE[1]))",
        "attack D4 depths 3 2\t3\tD3\t1\tas expected",
    ),
    (
        "a word within another is no word",
        "(;SZ[9]AB[df]AW[cf][ef][de]TR[df]PL[W](;W[dg])(;W[cg]C[INCORRECT, not RIGHTLY played]))",
        "attack D4 depths 3 2\t3\tD3\t1\tas expected",
    ),
    (
        "two right variations",
        "(;SZ[9]AB[bh]AW[ai]TR[ai]PL[B](;B[bi]C[RIGHT])(;B[ah]C[RIGHT]))",
        "attack A1 depths 3 2\t3\tA2 B1\t3\tas expected",
    ),
    (
        "one right variation of two right moves",
        "(;SZ[9]AB[bh]AW[ai]TR[ai]PL[B](;B[bi]C[RIGHT])(;B[ah]))",
        "attack A1 depths 3 2\t3\tA2 B1\t3\tother answers too",
    ),
    (
        "the first move of the other side is no answer",
        "(;SZ[9]AB[bh]AW[ai]TR[ai]PL[B];W[bi];B[ah])",
        "attack A1 depths 3 2\t3\tA2 B1\t3\tnot told: no answer",
    ),
    (
        "no variation",
        "(;SZ[9]AB[bh]AW[ai]TR[ai]PL[B])",
        "attack A1 depths 3 2\t3\tA2 B1\t3\tnot told: no answer",
    ),
    (
        "a marked point without a stone",
        "(;SZ[9]AB[df]AW[cf][ef][de]TR[df][aa]SQ[ab:bc]PL[W];W[dg])",
        "attack D4 depths 3 2\t3\tD3\t1\tas expected",
    ),
    (
        "one stone is marked twice, by its point and by a rectangle",
        "(;SZ[9]AB[df]AW[cf][ef][de]TR[df]CR[df:dh]PL[W];W[dg])",
        "attack D4 depths 3 2\t3\tD3\t1\tas expected",
    ),
    (
        "the player's colour behind a backslash",
        "(;SZ[9]AB[df]AW[cf][ef][de]TR[df]PL[\\W];W[dg])",
        "attack D4 depths 3 2\t3\tD3\t1\tas expected",
    ),
    (
        "the first of two players counts",
        "(;SZ[9]AB[df]AW[cf][ef][de]TR[df]PL[W]PL[B];W[dg])",
        "attack D4 depths 3 2\t3\tD3\t1\tas expected",
    ),
    (
        "the pass is the answer of the main line",
        "(;SZ[9]AB[ag][bg][cg][dg][eh][ei]AW[bi][ah][bh][ch][dh][di]TR[bh]PL[W];W[])",
        "defend B2 depths 3 2\t3\tPASS\t1\tas expected",
    ),
];

#[test]
fn marked_stones(rt: HostRuntime) -> Result<(), Fail> {
    compare(&rt, &MARKS)
}
