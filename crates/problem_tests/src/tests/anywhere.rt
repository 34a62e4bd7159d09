//! Verdicts if all legal moves of a question are judged, and if only those that the tree tries are.

use super::{Fail, Record, compare, compare_in};
use problem_verdicts::Scope;

/// Black D1 is in atari at D2. If White plays D3 or E2, a net, Black D2 leaves one liberty: the other of these two
/// points.
static TRIED: [Record; 1] = [(
    "a net is not tried",
    "(;SZ[9]AB[di]AW[ci][ei][ch]C[gopat: attack D1 depths 3 0 answer D2 only])",
    "attack D1 depths 3 0\t3\tD2\t1\tas expected",
)];

/// White A1 among black stones on a board of three rows is dead; a lone white stone there lives for two plies.
static ANYWHERE: [Record; 6] = [
    (
        "a net does as well",
        "(;SZ[9]AB[di]AW[ci][ei][ch]C[gopat: attack D1 depths 3 0 answer D2 only])",
        "attack D1 depths 3 0 anywhere\t3\tD3 D2 E2\t1\tother answers too",
    ),
    (
        "a net is told",
        "(;SZ[9]AB[di]AW[ci][ei][ch]C[gopat: attack D1 depths 3 0 answer D2 E2 D3 only])",
        "attack D1 depths 3 0 anywhere\t3\tD3 D2 E2\t1\tas expected",
    ),
    (
        "every move captures a dead stone",
        "(;SZ[3]AB[ab][bb][cc]AW[ac]C[gopat: attack A1 answer B1])",
        "attack A1 depths 3 2 anywhere\t3\tA3 B3 C3 C2 B1\t1\tneeds no move",
    ),
    (
        "the pass and every play defend",
        "(;SZ[3]AW[bb]C[gopat: defend B2 depths 2 0 answer pass])",
        "defend B2 depths 2 0 anywhere\t3\tPASS A3 B3 C3 A2 C2 A1 B1 C1\t1\tas expected",
    ),
    (
        "too few plies",
        "(;SZ[9]AB[bh]AW[ai]C[gopat: attack A1 depths 2 0 answer A2])",
        "attack A1 depths 2 0 anywhere\t0\t-\t-\tnot solved within the depths",
    ),
    (
        "no question",
        "(;SZ[9]AB[bh]AW[ai])",
        "-\t-\t-\t-\tnot told: no line gopat: and no marked stone",
    ),
];

#[test]
fn every_move_is_judged_if_it_is_asked_for(rt: HostRuntime) -> Result<(), Fail> {
    compare(&rt, &TRIED)?;
    compare_in(&rt, Scope::Anywhere, &ANYWHERE)
}
