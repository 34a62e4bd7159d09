//! Verdicts by sure answers, beside those of the tree.

use super::{Fail, Record, compare, compare_against};
use problem_verdicts::{Replies, Scope};

/// The answer of the tree to the first question.
static BY_THE_TREE: [Record; 1] = [(
    "a capture against the replies that are tried",
    "(;SZ[5]AB[ad][be][ce]AW[ac][bc][ed][ec][ea]C[gopat: attack A2 depths 5 2 answer C2])",
    "attack A2 depths 5 2\t3\tC2\t5\tas expected",
)];

/// The sure answers. In the first question Black answers White C2 with D1, which the tree does not try.
static SURELY: [Record; 7] = [
    (
        "a capture that does not hold against every reply",
        "(;SZ[5]AB[ad][be][ce]AW[ac][bc][ed][ec][ea]C[gopat: attack A2 depths 5 2 answer C2])",
        "attack A2 depths 5 2 sure\t0\t-\t-\tnot solved within the depths",
    ),
    (
        "no sure capture was expected",
        "(;SZ[5]AB[ad][be][ce]AW[ac][bc][ed][ec][ea]C[gopat: attack A2 depths 5 2 code 0])",
        "attack A2 depths 5 2 sure\t0\t-\t-\tas expected",
    ),
    (
        "a stone in the corner is captured at both of its liberties",
        "(;SZ[5]AB[ae]AW[bd]C[gopat: attack A1 answer A2 B1 only])",
        "attack A1 depths 3 2 sure\t3\tA2 B1\t3\tas expected",
    ),
    (
        "it is surely not to be saved",
        "(;SZ[5]AB[ae]AW[bd]C[gopat: defend A1 depths 4 0 code 0])",
        "defend A1 depths 4 0 sure\t0\t-\t-\tas expected",
    ),
    (
        "one of its two captures was expected alone",
        "(;SZ[5]AB[ae]AW[bd]C[gopat: attack A1 answer A2 only])",
        "attack A1 depths 3 2 sure\t3\tA2 B1\t3\tother answers too",
    ),
    (
        "a dead stone",
        "(;SZ[5]AB[ad][bd][ce]AW[ae]C[gopat: attack A1 answer B1])",
        "attack A1 depths 3 2 sure\t3\tB1\t1\tneeds no move",
    ),
    (
        "a stone in atari is saved at one point",
        "(;SZ[9]AB[df]AW[cf][ef][de]C[gopat: defend D4 answer D3 only])",
        "defend D4 depths 3 2 sure\t3\tD3\t1\tas expected",
    ),
];

/// A net, which is found if every legal move is judged.
static SURELY_ANYWHERE: [Record; 1] = [(
    "a net does as well",
    "(;SZ[9]AB[di]AW[ci][ei][ch]C[gopat: attack D1 depths 3 0 answer D2 only])",
    "attack D1 depths 3 0 sure anywhere\t3\tD3 D2 E2\t1\tother answers too",
)];

#[test]
fn sure_verdicts(rt: HostRuntime) -> Result<(), Fail> {
    compare(&rt, &BY_THE_TREE)?;
    compare_against(&rt, Replies::Every, Scope::Tried, &SURELY)?;
    compare_against(&rt, Replies::Every, Scope::Anywhere, &SURELY_ANYWHERE)
}
