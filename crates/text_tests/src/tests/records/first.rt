//! The positions after the first nodes of records. In a problem, this is the position of the question.

use super::Record;
use super::positions::{KO, is_drawn};
use sgf_read::read_first_node;

/// A record, and the position after its first node.
struct FirstNode {
    /// What the row shows.
    name: &'static str,
    /// The record.
    record: &'static [u8],
    /// The position, row by row from the top.
    drawing: &'static [u8],
    /// Whether the position has a ko ban.
    banned: bool,
}

/// Two handicap stones on a board of 5.
const HANDICAP: &[u8] = b"\
    .....\
    ...X.\
    .....\
    .X...\
    .....\
    ";

/// Records with the positions of their first nodes.
static FIRST_NODES: [FirstNode; 13] = [
    FirstNode {
        name: "a setup and plays in the first node",
        record: b"(;SZ[3]AB[aa]W[bb]B[cc];W[ca])",
        drawing: b"X...O...X",
        banned: false,
    },
    FirstNode {
        name: "a play before the setup is made after it",
        record: b"(;SZ[2]B[bb]AB[aa];W[ba])",
        drawing: b"X..X",
        banned: false,
    },
    FirstNode {
        name: "a play that captures in the first node",
        record: b"(;SZ[3]AW[aa]AB[ba]B[ab];W[aa])",
        drawing: b".X.X.....",
        banned: false,
    },
    FirstNode {
        name: "nothing but a size",
        record: b"(;SZ[2];B[aa];W[bb])",
        drawing: b"....",
        banned: false,
    },
    FirstNode {
        name: "the main line goes on",
        record: b"(;SZ[2]AB[aa];W[bb];B[ba])",
        drawing: b"X...",
        banned: false,
    },
    FirstNode {
        name: "variations",
        record: b"(;SZ[2]AB[aa](;W[bb])(;W[ba]))",
        drawing: b"X...",
        banned: false,
    },
    FirstNode {
        name: "handicap stones",
        record: b"(;SZ[5]HA[2]AB[db][bd]PL[W];W[cc])",
        drawing: HANDICAP,
        banned: false,
    },
    FirstNode {
        name: "HA alone sets no stone",
        record: b"(;SZ[2]HA[2];W[aa])",
        drawing: b"....",
        banned: false,
    },
    FirstNode {
        name: "a bad value in the second node",
        record: b"(;SZ[2]AB[aa];B[jj])",
        drawing: b"X...",
        banned: false,
    },
    FirstNode {
        name: "a play that the rules refuse in the second node",
        record: b"(;SZ[2]AB[aa];W[aa])",
        drawing: b"X...",
        banned: false,
    },
    FirstNode {
        name: "a size that no board has in the second node",
        record: b"(;SZ[2]AB[aa];SZ[1])",
        drawing: b"X...",
        banned: false,
    },
    FirstNode {
        name: "another tree",
        record: b"(;SZ[2]AB[aa])(;SZ[3]AW[aa])",
        drawing: b"X...",
        banned: false,
    },
    // Black's play at C3 takes the White stone at B3, where White may not take back.
    FirstNode {
        name: "a ban is left, and the second node does not lift it",
        record: b"(;SZ[4]AB[ba][ab][bc]AW[ca][cc][db][bb]B[cb];W[])",
        drawing: KO,
        banned: true,
    },
];

/// Records whose first nodes lead to no position, each with the number of its first fault.
static FAULTS: [Record; 8] = [
    ("no text", b"", 1),
    ("no node", b"()", 1),
    (
        "the tree breaks off behind the first node",
        b"(;SZ[2]AB[aa];W[bb]",
        1,
    ),
    ("a size that no board has", b"(;SZ[1];SZ[9])", 2),
    ("a bad value", b"(;SZ[9]B[jj];B[aa])", 3),
    (
        "a bad value before a string without liberty",
        b"(;SZ[2]AB[aa]AW[ab][ba]B[jj])",
        3,
    ),
    (
        "a string without liberty",
        b"(;SZ[9]AB[aa]AW[ab][ba];AE[ab])",
        4,
    ),
    (
        "a play that the rules refuse",
        b"(;SZ[9]AB[dd]W[dd];W[aa])",
        5,
    ),
];

/// Whether the position after the first node of the record is the one of the row.
fn is_reached(first: &FirstNode) -> bool {
    match read_first_node(first.record) {
        Ok(position) => {
            is_drawn(&position, first.drawing) && position.ban().is_some() == first.banned
        }
        Err(_) => false,
    }
}

/// The number of the first fault up to the first node, or 0 if there is none.
fn fault_of(record: &[u8]) -> u8 {
    match read_first_node(record) {
        Ok(_) => 0,
        Err(kind) => kind.number(),
    }
}

#[test]
fn first_nodes_lead_to_positions(rt: HostRuntime) {
    for first in &FIRST_NODES {
        assert!(rt; is_reached(first), "{}", first.name);
    }
}

#[test]
fn first_faults_of_first_nodes(rt: HostRuntime) {
    for &(what, record, kind) in &FAULTS {
        assert!(rt; fault_of(record) == kind, "{what}");
    }
}
