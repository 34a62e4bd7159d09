//! What records lack to be problems.

use super::{Fail, Record, compare};

/// Records that ask no question.
static LACKS: [Record; 22] = [
    ("no tree", "(;SZ[9]", "-\t-\t-\t-\tnot told: bad sgf kind 1"),
    (
        "no size",
        "(;SZ[1]AB[aa])",
        "-\t-\t-\t-\tnot told: bad sgf kind 2",
    ),
    (
        "no point",
        "(;SZ[9]AB[jj])",
        "-\t-\t-\t-\tnot told: bad sgf kind 3",
    ),
    (
        "no liberty",
        "(;SZ[9]AB[aa]AW[ab][ba])",
        "-\t-\t-\t-\tnot told: bad sgf kind 4",
    ),
    (
        "no legal play",
        "(;SZ[9]AB[aa]W[aa])",
        "-\t-\t-\t-\tnot told: bad sgf kind 5",
    ),
    (
        "no mark",
        "(;SZ[9]AB[aa]PL[W];W[ab])",
        "-\t-\t-\t-\tnot told: no line gopat: and no marked stone",
    ),
    (
        "a mark on an empty point alone",
        "(;SZ[9]AB[aa]PL[W]TR[bb];W[ab])",
        "-\t-\t-\t-\tnot told: no line gopat: and no marked stone",
    ),
    (
        "two marks",
        "(;SZ[9]AB[aa][bb]PL[W]TR[aa]SQ[bb];W[ab])",
        "-\t-\t-\t-\tnot told: no line gopat: and more than one marked stone",
    ),
    (
        "no player",
        "(;SZ[9]AB[aa]TR[aa];W[ab])",
        "-\t-\t-\t-\tnot told: no player to move (PL)",
    ),
    (
        "a player who is none",
        "(;SZ[9]AB[aa]TR[aa]PL[x];W[ab])",
        "-\t-\t-\t-\tnot told: no player to move (PL)",
    ),
    (
        "two lines",
        "(;SZ[9]AB[aa]C[gopat: attack A9\ngopat: defend A9])",
        "-\t-\t-\t-\tnot told: more than one line gopat:",
    ),
    (
        "no question",
        "(;SZ[9]AB[aa]C[gopat: kill A9])",
        "-\t-\t-\t-\tnot told: no attack or defend in the line gopat:",
    ),
    (
        "no vertex",
        "(;SZ[9]AB[aa]C[gopat: attack I9])",
        "-\t-\t-\t-\tnot told: no target in the line gopat:",
    ),
    (
        "no stone",
        "(;SZ[9]AB[aa]C[gopat: attack B9])",
        "-\t-\t-\t-\tnot told: no stone at the target",
    ),
    (
        "one number of two",
        "(;SZ[9]AB[aa]C[gopat: attack A9 depths 5])",
        "-\t-\t-\t-\tnot told: no plies from 1 to 200 and wide plies from 0 to 12 behind depths",
    ),
    (
        "too many plies",
        "(;SZ[9]AB[aa]C[gopat: attack A9 depths 201 0])",
        "-\t-\t-\t-\tnot told: no plies from 1 to 200 and wide plies from 0 to 12 behind depths",
    ),
    (
        "no code",
        "(;SZ[9]AB[aa]C[gopat: attack A9 code 4])",
        "-\t-\t-\t-\tnot told: no code from 0 to 3 behind code",
    ),
    (
        "no move",
        "(;SZ[9]AB[aa]C[gopat: attack A9 answer only])",
        "-\t-\t-\t-\tnot told: no vertex behind answer",
    ),
    (
        "a pass that attacks",
        "(;SZ[9]AB[aa]C[gopat: attack A9 answer pass])",
        "-\t-\t-\t-\tnot told: no attack by a pass",
    ),
    (
        "nothing but other moves",
        "(;SZ[9]AB[aa]C[gopat: attack A9 code 3 only])",
        "-\t-\t-\t-\tnot told: no answer beside only",
    ),
    (
        "a failing move",
        "(;SZ[9]AB[aa]C[gopat: attack A9 code 0 answer B9])",
        "-\t-\t-\t-\tnot told: no answer with code 0",
    ),
    (
        "a part twice",
        "(;SZ[9]AB[aa]C[gopat: attack A9 code 3 code 3])",
        "-\t-\t-\t-\tnot told: no part of the line gopat: may stand twice",
    ),
];

/// Lines with one word too many.
static MEANINGLESS: [Record; 2] = [
    (
        "a word behind the target",
        "(;SZ[9]AB[aa]C[gopat: attack A9 B9])",
        "-\t-\t-\t-\tnot told: no meaning of a word in the line gopat:",
    ),
    (
        "a third number of depths",
        "(;SZ[9]AB[aa]C[gopat: attack A9 depths 5 2 1])",
        "-\t-\t-\t-\tnot told: no meaning of a word in the line gopat:",
    ),
];

#[test]
fn lacks_of_records(rt: HostRuntime) -> Result<(), Fail> {
    compare(&rt, &LACKS)?;
    compare(&rt, &MEANINGLESS)
}
