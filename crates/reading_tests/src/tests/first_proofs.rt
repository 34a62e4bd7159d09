//! First proofs of small positions. They are the worked rows, or were found by hand.

use super::wider_proofs::{FOUR_LIBERTIES, THREE_LIBERTIES};
use super::{IN_ATARI, KO, OPEN_KO, Question, SNAPBACK, Stones, position, stone};
use read_rules::Depths;
use read_rules::Kind::{Attack, Defend};
use read_rules::Tree::{self, Stated, Wider};
use std::alloc::Global;
use write_proof::{Proof, ProofError, first_proof};

/// A first proof: what it shows, the stones, the question, the tree in which it is read, and its code and text, or
/// `None` if the proof is too long.
struct Row {
    name: &'static str,
    stones: Stones,
    question: Question,
    tree: Tree,
    proof: Option<(u8, &'static [u8])>,
}

/// First proofs, and one that is too long to be printed.
static FIRST_PROOFS: [Row; 13] = [
    Row {
        name: "a capture is printed",
        stones: IN_ATARI,
        question: (Attack, "D4", 3, 2),
        tree: Stated,
        proof: Some((3, b"W D3 .")),
    },
    Row {
        name: "an extension is printed",
        stones: IN_ATARI,
        question: (Defend, "D4", 3, 2),
        tree: Stated,
        proof: Some((3, b"N D3 .")),
    },
    Row {
        name: "too many liberties are printed",
        stones: (9, "D4", ""),
        question: (Attack, "D4", 3, 2),
        tree: Stated,
        proof: Some((0, b"N . N . N .")),
    },
    Row {
        name: "a capture against the ban is printed",
        stones: KO,
        question: (Attack, "C3", 3, 4),
        tree: Stated,
        proof: Some((1, b"N * N * W D3 .")),
    },
    Row {
        name: "every child has its proof with the pass first",
        stones: (5, "A1", "B1 B2"),
        question: (Defend, "A1", 2, 0),
        tree: Stated,
        proof: Some((0, b"W * A2 . A3 . W * A2 . A3 . W * A2 . A3 .")),
    },
    Row {
        name: "the pass that saves comes first",
        stones: (9, "D4", "C4 E4"),
        question: (Defend, "D4", 4, 0),
        tree: Stated,
        proof: Some((3, b"N PASS * D3 . D5 .")),
    },
    Row {
        name: "three liberties are too many in the stated tree",
        stones: (9, "D1", ""),
        question: (Attack, "D1", 5, 0),
        tree: Stated,
        proof: Some((0, b"N . N . N .")),
    },
    Row {
        name: "three liberties may be filled in the wider tree",
        stones: (9, "D1", ""),
        question: (Attack, "D1", 5, 0),
        tree: Wider,
        proof: Some((0, THREE_LIBERTIES)),
    },
    Row {
        name: "and four",
        stones: (5, "C4 C3", "E4 E3"),
        question: (Attack, "E4", 7, 0),
        tree: Wider,
        proof: Some((3, FOUR_LIBERTIES)),
    },
    Row {
        name: "a stone that takes back is taken in its turn",
        stones: SNAPBACK,
        question: (Attack, "A1", 3, 0),
        tree: Wider,
        proof: Some((3, b"W B1 A1 B1 .")),
    },
    Row {
        name: "no ply is left for taking back",
        stones: SNAPBACK,
        question: (Attack, "A1", 1, 0),
        tree: Wider,
        proof: Some((0, b"N * . N * . N * .")),
    },
    Row {
        name: "the ban forbids to take back under code 2",
        stones: OPEN_KO,
        question: (Attack, "C3", 1, 0),
        tree: Wider,
        proof: Some((2, b"N * . W D3 .")),
    },
    Row {
        // Black D2 has room on all sides, and a reading of it that is deep and wide has many moves.
        name: "a proof of more than 60,000 bytes is not told",
        stones: (9, "B2 D2", "G2 A2"),
        question: (Attack, "D2", 16, 12),
        tree: Stated,
        proof: None,
    },
];

/// Whether the proof has the code and the text that are wanted.
fn is_same(found: &Proof, want: Option<(u8, &[u8])>) -> bool {
    match want {
        Some((code, text)) => found.code == code && found.text.as_slice() == text,
        None => false,
    }
}

/// Whether the proof that is found is the row's; if the row has none, whether the proof is too long.
fn is_right(alloc: Global, row: &Row) -> Option<bool> {
    let (kind, name, plies, wide) = row.question;
    let position = position(row.stones)?;
    let target = stone(&position, name)?;
    let depths = Depths::new(plies, wide)?.in_tree(row.tree);
    match first_proof(alloc, &position, kind, target, depths) {
        Ok(found) => Some(is_same(&found, row.proof)),
        Err(why) => Some(why == ProofError::TooLong && row.proof.is_none()),
    }
}

#[test]
fn first_proofs_are_printed(rt: HostRuntime) {
    for row in &FIRST_PROOFS {
        assert!(rt; is_right(rt.alloc(), row) == Some(true), "{}", row.name);
    }
}
