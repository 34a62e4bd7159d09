//! Which fault is reported: by kind, by the place where it stands, and the first of several.

use super::Record;

/// Faults by kind and by place. A fault in the main line is reported, and a broken tree anywhere.
pub(super) static KINDS: [Record; 17] = [
    ("kind 1: a tree without an end", b"(;SZ[9]", 1),
    ("kind 2 in the first node", b"(;SZ[1])", 2),
    ("no kind 2 in a later node", b"(;;SZ[1])", 0),
    ("no kind 2 in a subtree", b"(;(;SZ[1]))", 0),
    ("kind 3 in the first node", b"(;SZ[9]B[jj])", 3),
    ("kind 3 in a later node", b"(;SZ[9];;B[jj])", 3),
    ("kind 3 in a first subtree", b"(;SZ[9](;(;B[jj])))", 3),
    ("no kind 3 in a second subtree", b"(;SZ[9](;)(;B[jj]))", 0),
    ("kind 4 in the first node", b"(;SZ[9]AB[aa]AW[ab][ba])", 4),
    ("kind 4 in a later node", b"(;SZ[9];B[aa];AW[ab][ba])", 4),
    (
        "kind 4 in a first subtree",
        b"(;SZ[9](;B[aa](;AW[ab][ba])))",
        4,
    ),
    (
        "no kind 4 in a second subtree",
        b"(;SZ[9];B[aa](;)(;AW[ab][ba]))",
        0,
    ),
    ("kind 5 in the first node", b"(;SZ[9]B[dd]W[dd])", 5),
    ("kind 5 in a later node", b"(;SZ[9];B[dd];W[dd])", 5),
    (
        "kind 5 in a first subtree",
        b"(;SZ[9];B[dd](;W[aa](;B[dd])))",
        5,
    ),
    (
        "no kind 5 in a second subtree",
        b"(;SZ[9];B[dd](;)(;W[dd]))",
        0,
    ),
    ("kind 1 in a second subtree", b"(;SZ[9](;)(;B))", 1),
];

/// Of several faults, the first is reported.
pub(super) static SEVERAL: [Record; 9] = [
    ("1 before 2", b"(;SZ[x]", 1),
    ("1 before 3 in an earlier node", b"(;B[x];B)", 1),
    ("2 before 3 in the same node", b"(;B[x]SZ[x])", 2),
    ("3 before 4 in a node", b"(;SZ[9]AB[aa]AW[ab][ba]B[x])", 3),
    ("3 before 5 in a node", b"(;SZ[9]B[ab]B[ab]W[x])", 3),
    (
        "4 before 5 in a node",
        b"(;SZ[9]B[ab]B[ab]AB[aa]AW[ab][ba])",
        4,
    ),
    (
        "4 of a node before 3 of a later one",
        b"(;SZ[9]AB[aa]AW[ab][ba];B[x])",
        4,
    ),
    (
        "5 of a node before 3 of a later one",
        b"(;SZ[9];B[ab]B[ab];B[x])",
        5,
    ),
    (
        "5 of a node before 4 of a later one",
        b"(;SZ[9];B[aa]B[aa];AW[ab][ba])",
        5,
    ),
];
