//! Proofs of small positions. The true proofs are the worked rows or were found by hand.

use super::{IN_ATARI, KO, Question, Stones, position, stone};
use read_proof::check;
use read_rules::Kind::{Attack, Defend};
use read_rules::{Depths, Tree};
use std::process::Abort;

/// Texts about the code of one question: what they show, the stones, the question and the code, and each text: what is
/// special about it, and in which trees it is a proof or none.
pub(super) struct Texts {
    pub(super) name: &'static str,
    pub(super) stones: Stones,
    pub(super) question: Question,
    pub(super) code: u8,
    pub(super) rows: &'static [(&'static str, &'static [u8], In)],
}

/// In which trees a text is a proof, and in which it is none.
pub(super) type In = &'static [(Tree, bool)];

/// A proof in the stated tree.
const PROOF: In = &[(Tree::Stated, true)];

/// No proof in the stated tree.
const NONE: In = &[(Tree::Stated, false)];

/// A word of 65,000 stars.
const STARS: [u8; 65_000] = [b'*'; 65_000];

/// Texts in the stated tree.
static IN_THE_STATED_TREE: [Texts; 18] = [
    Texts {
        name: "a stone in atari is captured",
        stones: IN_ATARI,
        question: (Attack, "D4", 3, 2),
        code: 3,
        rows: &[
            ("the capture", b"W D3 .", PROOF),
            ("another point", b"W C3 .", NONE),
            ("the other claim", b"N D3 .", NONE),
            ("the attacker does not pass", b"W PASS .", NONE),
            ("the target is not captured yet", b"W .", NONE),
            ("each move at the wrong turn", b"W * .", NONE),
        ],
    },
    Texts {
        name: "a stone in atari is captured in one ply",
        stones: IN_ATARI,
        question: (Attack, "D4", 1, 0),
        code: 3,
        rows: &[
            ("one ply is enough", b"W D3 .", PROOF),
            ("no ply is left behind it", b"W D3 D3 .", NONE),
        ],
    },
    Texts {
        name: "no lower code is proved of a stone in atari",
        stones: IN_ATARI,
        question: (Attack, "D4", 3, 2),
        code: 2,
        rows: &[
            ("another code", b"W D3 .", NONE),
            ("the code below", b"N * W D3 .", NONE),
        ],
    },
    Texts {
        name: "a stone in atari is saved by its extension",
        stones: IN_ATARI,
        question: (Defend, "D4", 3, 2),
        code: 3,
        rows: &[
            ("the extension", b"N D3 .", PROOF),
            ("the pass loses the stone", b"N PASS .", NONE),
            ("a point off the liberties is tried", b"N C3 .", NONE),
            ("a reply to the extension", b"N D3 * N .", NONE),
        ],
    },
    Texts {
        name: "words stand apart, and vertices in either case",
        stones: IN_ATARI,
        question: (Attack, "D4", 3, 2),
        code: 3,
        rows: &[
            ("small letters in a vertex", b"W d3 .", PROOF),
            ("more blanks", b"  W\t D3  . ", PROOF),
            ("blanks at both ends", b" W D3 . ", PROOF),
            ("a small letter of the claim", b"w D3 .", NONE),
            ("words left over", b"W D3 . .", NONE),
            ("a word too few", b"W D3", NONE),
            ("the letter alone", b"W", NONE),
            ("no words", b"", NONE),
            ("blanks alone", b"  ", NONE),
            ("an unknown word", b"W X .", NONE),
            ("a letter that is no column", b"W I3 .", NONE),
            ("a point off the board", b"W D10 .", NONE),
        ],
    },
    Texts {
        name: "a long word says nothing about an attack",
        stones: IN_ATARI,
        question: (Attack, "D4", 200, 12),
        code: 3,
        rows: &[("65,000 stars", &STARS, NONE)],
    },
    Texts {
        name: "a long word says nothing about a defence",
        stones: IN_ATARI,
        question: (Defend, "D4", 200, 12),
        code: 3,
        rows: &[("65,000 stars", &STARS, NONE)],
    },
    Texts {
        name: "a free stone is not captured",
        stones: (9, "D4", ""),
        question: (Attack, "D4", 3, 2),
        code: 0,
        rows: &[
            ("too many liberties", b"N . N . N .", PROOF),
            ("two codes alone", b"N . N .", NONE),
            ("a code more", b"N . N . N . N .", NONE),
        ],
    },
    Texts {
        name: "a free stone has not too many liberties for seven plies",
        stones: (9, "D4", ""),
        question: (Attack, "D4", 7, 2),
        code: 0,
        rows: &[("four liberties in time", b"N . N . N .", NONE)],
    },
    Texts {
        name: "a free stone has too many liberties for seven plies without a wide one",
        stones: (9, "D4", ""),
        question: (Attack, "D4", 7, 0),
        code: 0,
        rows: &[("four liberties without a wide ply", b"N . N . N .", PROOF)],
    },
    Texts {
        name: "three liberties are enough without a wide ply",
        stones: (9, "D4", "C4"),
        question: (Attack, "D4", 9, 0),
        code: 0,
        rows: &[("three liberties without a wide ply", b"N . N . N .", PROOF)],
    },
    Texts {
        name: "three liberties are not enough with a wide ply",
        stones: (9, "D4", "C4"),
        question: (Attack, "D4", 9, 1),
        code: 0,
        rows: &[("three liberties with one", b"N . N . N .", NONE)],
    },
    Texts {
        name: "a free stone needs no defence",
        stones: (9, "D4", ""),
        question: (Defend, "D4", 3, 2),
        code: 3,
        rows: &[("the defence needs no move", b"N .", PROOF)],
    },
    Texts {
        name: "a free stone is saved by the pass",
        stones: (9, "D4", ""),
        question: (Defend, "D4", 9, 0),
        code: 3,
        rows: &[
            ("no move with many plies", b"N .", NONE),
            (
                "the pass, and too many liberties behind it",
                b"N PASS .",
                PROOF,
            ),
            ("the pass in small letters", b"N pass .", PROOF),
        ],
    },
    Texts {
        name: "an allowance permits what the ban forbids",
        stones: KO,
        question: (Attack, "C3", 3, 4),
        code: 1,
        rows: &[
            ("by the allowance of code 1", b"N * N * W D3 .", PROOF),
            ("a child that is none", b"N * . N * W D3 .", NONE),
        ],
    },
    Texts {
        name: "the ban forbids where there is no allowance",
        stones: KO,
        question: (Attack, "C3", 3, 4),
        code: 2,
        rows: &[("code 2 has none", b"N * W D3 .", NONE)],
    },
    Texts {
        name: "no code is proved where no ply is left",
        stones: KO,
        question: (Attack, "C3", 3, 4),
        code: 0,
        rows: &[("no ply is left below it", b"N * N * N *", NONE)],
    },
    Texts {
        // Black A1 has one liberty, A2, and cannot be saved: the pass and the play there lead to a capture.
        name: "each child has its proof",
        stones: (5, "A1", "B1 B2"),
        question: (Defend, "A1", 2, 0),
        code: 0,
        rows: &[
            (
                "the pass and the play",
                b"W * A2 . A3 . W * A2 . A3 . W * A2 . A3 .",
                PROOF,
            ),
            ("the pass alone", b"W * A2 . W * A2 . W * A2 .", NONE),
            (
                "in another order",
                b"W * A3 . A2 . W * A3 . A2 . W * A3 . A2 .",
                NONE,
            ),
        ],
    },
];

/// Whether the text is a proof in the tree that the question has the code.
fn is_proof(texts: &Texts, tree: Tree, text: &[u8]) -> Option<bool> {
    let (kind, name, plies, wide) = texts.question;
    let position = position(texts.stones)?;
    let target = stone(&position, name)?;
    let depths = Depths::new(plies, wide)?.in_tree(tree);
    if texts.code > 3 {
        return None;
    }
    Some(check(&position, kind, target, depths, texts.code, text))
}

/// Whether the text is a proof, or none, in each of these trees as the list says.
fn is_told(texts: &Texts, text: &[u8], trees: In) -> bool {
    for &(tree, want) in trees {
        if is_proof(texts, tree, text) != Some(want) {
            return false;
        }
    }
    true
}

/// What is special about the first text that is not what its row says; empty if each is what its row says.
fn first_wrong(texts: &Texts) -> &'static str {
    for &(special, text, trees) in texts.rows {
        if !is_told(texts, text, trees) {
            return special;
        }
    }
    ""
}

/// Each text of the table is a proof or none in each tree, as its row says.
pub(super) fn check_table(rt: &impl Abort, table: &[Texts]) {
    for texts in table {
        let wrong = first_wrong(texts);
        assert!(rt; wrong.is_empty(), "{}: {wrong}", texts.name);
    }
}

#[test]
fn texts_are_proofs_or_none_in_the_stated_tree(rt: HostRuntime) {
    check_table(&rt, &IN_THE_STATED_TREE);
}
