//! The line `gopat:` in the comment of the first node.

use super::{Fail, Record, compare};

/// The places where the line may stand, and the forms that it may have. Black D4 is in atari at D3.
static LINES: [Record; 12] = [
    (
        "behind other lines",
        "(;SZ[9]AB[df]AW[cf][ef][de]C[Black is in atari.\nWhite to play.\n  gopat:  attack\td4  answer d3])",
        "attack D4 depths 3 2\t3\tD3\t1\tas expected",
    ),
    (
        "the parts in any order",
        "(;SZ[9]AB[df]AW[cf][ef][de]C[gopat: attack D4 only code 3 answer D3 depths 1 0])",
        "attack D4 depths 1 0\t3\tD3\t1\tas expected",
    ),
    (
        "the end of a line in another form",
        "(;SZ[9]AB[df]AW[cf][ef][de]C[gopat: attack D4 answer D3\r\nEasy.])",
        "attack D4 depths 3 2\t3\tD3\t1\tas expected",
    ),
    (
        "a comment with brackets",
        "(;SZ[9]AB[df]AW[cf][ef][de]C[Atari [a1\\]\ngopat: attack D4 answer D3])",
        "attack D4 depths 3 2\t3\tD3\t1\tas expected",
    ),
    (
        "the second comment of the node",
        "(;SZ[9]AB[df]AW[cf][ef][de]C[Easy.]GN[atari]C[gopat: attack D4 answer D3])",
        "attack D4 depths 3 2\t3\tD3\t1\tas expected",
    ),
    (
        "within a line it is no line",
        "(;SZ[9]AB[df]AW[cf][ef][de]C[See gopat: attack D4 answer D3])",
        "-\t-\t-\t-\tnot told: no line gopat: and no marked stone",
    ),
    (
        "two comments with a line each",
        "(;SZ[9]AB[df]AW[cf][ef][de]C[gopat: attack D4 answer D3]C[gopat: attack D4 answer D3])",
        "-\t-\t-\t-\tnot told: more than one line gopat:",
    ),
    (
        "a comment of a later node",
        "(;SZ[9]AB[df]AW[cf][ef][de];B[aa]C[gopat: attack D4 answer D3])",
        "-\t-\t-\t-\tnot told: no line gopat: and no marked stone",
    ),
    (
        "the line goes before the marks",
        "(;SZ[9]AB[df]AW[cf][ef][de]TR[cf]PL[B]C[gopat: attack D4 answer D3])",
        "attack D4 depths 3 2\t3\tD3\t1\tas expected",
    ),
    (
        "the solution is not played",
        "(;SZ[9]AB[df]AW[cf][ef][de]C[gopat: attack D4 answer D3];W[dg])",
        "attack D4 depths 3 2\t3\tD3\t1\tas expected",
    ),
    (
        "a play of the first node is",
        "(;SZ[9]AB[df]AW[cf][ef]W[de]C[gopat: attack D4 answer D3])",
        "attack D4 depths 3 2\t3\tD3\t1\tas expected",
    ),
    (
        "a fault of a later node does not matter",
        "(;SZ[9]AB[df]AW[cf][ef][de]C[gopat: attack D4 answer D3];W[df];W[zz])",
        "attack D4 depths 3 2\t3\tD3\t1\tas expected",
    ),
];

#[test]
fn lines_of_comments(rt: HostRuntime) -> Result<(), Fail> {
    compare(&rt, &LINES)
}
