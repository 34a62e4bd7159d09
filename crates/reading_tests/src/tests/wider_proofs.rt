//! Proofs of small positions in the stated tree and in the wider one, found by hand.

use super::proofs::{In, Texts, check_table};
use super::{OPEN_KO, SNAPBACK};
use read_rules::Kind::{Attack, Defend};
use read_rules::Tree;

/// A proof in the stated tree alone.
const STATED: In = &[(Tree::Stated, true), (Tree::Wider, false)];

/// A proof in the wider tree alone.
const WIDER: In = &[(Tree::Stated, false), (Tree::Wider, true)];

/// A proof in each tree.
const BOTH: In = &[(Tree::Stated, true), (Tree::Wider, true)];

/// No proof in either tree.
const NEITHER: In = &[(Tree::Stated, false), (Tree::Wider, false)];

/// The first proof in the wider tree that three liberties are enough without a wide ply, under one code: the defender
/// passes, and fills the last liberty at his second turn. The attacker strengthens a stone of his that has two
/// liberties.
pub(super) const THREE_LIBERTIES: &[u8] = b"\
    N * PASS * E1 . C1 . PASS * . E1 . . D2 . PASS * C1 . . D2 . . \
    N * PASS * E1 . C1 . PASS * . E1 . . D2 . PASS * C1 . . D2 . . \
    N * PASS * E1 . C1 . PASS * . E1 . . D2 . PASS * C1 . . D2 . .";

/// A proof in the stated tree along the line of `THREE_LIBERTIES`, with words that go on although a dot would do.
const THREE_LIBERTIES_IN_WORDS: &[u8] = b"\
    N * PASS * E1 . C1 . PASS * E1 . D2 . PASS * C1 . D2 . \
    N * PASS * E1 . C1 . PASS * E1 . D2 . PASS * C1 . D2 . \
    N * PASS * E1 . C1 . PASS * E1 . D2 . PASS * C1 . D2 .";

/// The first proof in the wider tree that black fills the four liberties of E4 and E3 without a wide ply.
pub(super) const FOUR_LIBERTIES: &[u8] = b"\
    W E2 * D4 * D3 * E5 . D5 . D5 * D3 . D2 . D2 * E5 . D5 . D5 * D4 * D3 . D2 . C5 * D3 . D2 . D2 * D4 . \
    D5 * D3 * E5 . C5 * D3 . D2 . D2 * E5 . D2 * D4 * E5 . D5 . D5 * D4 . D5 * E5 .";

/// Texts in both trees. If one ply and one wide ply are left, any candidate of the defender's proves that the attacker
/// does not win, and `*` is followed by a dot for each candidate of the attacker's.
static IN_BOTH_TREES: [Texts; 27] = [
    Texts {
        name: "the defender has the liberties of stones beside the target",
        stones: (5, "B2 B3", "C2"),
        question: (Defend, "B2", 1, 1),
        code: 3,
        rows: &[
            (
                "a liberty of a stone with three that is next to the target",
                b"N D2 .",
                WIDER,
            ),
            ("a point off all sets", b"N E5 .", NEITHER),
        ],
    },
    Texts {
        name: "the defender has no liberty of stones with many beside the target",
        stones: (5, "B2 B3", "C2 D2"),
        question: (Defend, "B2", 1, 1),
        code: 3,
        rows: &[("a liberty of two stones that have five", b"N D3 .", NEITHER)],
    },
    Texts {
        name: "the defender has no net",
        stones: (5, "D1", "E2"),
        question: (Defend, "E2", 1, 1),
        code: 3,
        rows: &[(
            "no point of a net at the defender's turn",
            b"N D3 .",
            NEITHER,
        )],
    },
    Texts {
        name: "the defender joins where a wide ply is left",
        stones: (5, "B5 D5 A4", "C4 B3"),
        question: (Defend, "A4", 1, 1),
        code: 3,
        rows: &[("a liberty of a linked string", b"N C5 .", WIDER)],
    },
    Texts {
        name: "the defender does not join where no wide ply is left",
        stones: (5, "B5 D5 A4", "C4 B3"),
        question: (Defend, "A4", 1, 0),
        code: 3,
        rows: &[("none of them without a wide ply", b"N C5 .", NEITHER)],
    },
    Texts {
        name: "the defender takes a stone that would cut in every ply",
        stones: (5, "A5 C5 A3", "A4 D4 C3"),
        question: (Defend, "C5", 1, 0),
        code: 3,
        rows: &[(
            "the last liberty of a stone that would cut",
            b"N B4 .",
            WIDER,
        )],
    },
    Texts {
        name: "the defender saves a string beside the weak attackers in every ply",
        stones: (5, "B3 D3 C2", "C3 D2"),
        question: (Defend, "D2", 1, 0),
        code: 3,
        rows: &[("the last liberty of C3", b"N C4 .", WIDER)],
    },
    Texts {
        name: "the defender does not save a string with two liberties",
        stones: (5, "B3 C2", "C3 D2"),
        question: (Defend, "D2", 1, 0),
        code: 3,
        rows: &[("a liberty of C3, which has two", b"N C4 .", NEITHER)],
    },
    Texts {
        name: "the defender covers the liberties of a stone with two",
        stones: (5, "A1", "B1"),
        question: (Defend, "A1", 1, 1),
        code: 3,
        rows: &[("a neighbour of the liberty C1", b"N D1 .", WIDER)],
    },
    Texts {
        name: "the defender does not cover where no wide ply is left",
        stones: (5, "A1", "B1"),
        question: (Defend, "A1", 1, 0),
        code: 3,
        rows: &[("a neighbour of the liberty C1", b"N D1 .", NEITHER)],
    },
    Texts {
        name: "the defender does not cover the liberties of stones with four",
        stones: (5, "A1", "B1 C1 D1"),
        question: (Defend, "A1", 1, 1),
        code: 3,
        rows: &[("a neighbour of the liberty B2", b"N B3 .", NEITHER)],
    },
    Texts {
        name: "the defender approaches a point at which he would be cramped",
        stones: (5, "C5 A4 C4 A3 D3 E3 A2 A1 D1", "D5 E4 C3 B2 D2 E2 B1"),
        question: (Defend, "D1", 4, 1),
        code: 3,
        rows: &[("the approach at B3", b"N B3 * . . C2 . C2 .", WIDER)],
    },
    Texts {
        name: "the defender does not approach where nothing is in the way",
        stones: (5, "C5 A4 C4 A3 D3 E3 A2 A1 D1", "D5 E4 C3 D2 E2 B1"),
        question: (Defend, "D1", 1, 1),
        code: 3,
        rows: &[("B3, which is no candidate", b"N B3 .", NEITHER)],
    },
    Texts {
        name: "the attacker has a net around three liberties",
        stones: (5, "D1", "E2"),
        question: (Attack, "E2", 1, 1),
        code: 0,
        rows: &[
            (
                "three liberties, and no net",
                b"N * . . . N * . . . N * . . .",
                STATED,
            ),
            (
                "the same with a net of D3, E4 and C2",
                b"N * . . . . . . N * . . . . . . N * . . . . . .",
                WIDER,
            ),
        ],
    },
    Texts {
        name: "the attacker has no net where no wide ply is left",
        stones: (5, "D1", "E2"),
        question: (Attack, "E2", 1, 0),
        code: 0,
        rows: &[(
            "three liberties alone",
            b"N * . . . N * . . . N * . . .",
            BOTH,
        )],
    },
    Texts {
        name: "the attacker has the liberties of a string with two that might be joined",
        stones: (5, "A2 A4", "B4"),
        question: (Attack, "A2", 1, 1),
        code: 0,
        rows: &[
            (
                "three liberties, and the backfilling moves B1 and B3",
                b"N * . . . . . N * . . . . . N * . . . . .",
                STATED,
            ),
            (
                "the same with a net, which has C2 besides, and A5 beside A4",
                b"N * . . . . . . . N * . . . . . . . N * . . . . . . .",
                WIDER,
            ),
        ],
    },
    Texts {
        name: "the attacker has no liberty of a string with three that might be joined",
        stones: (5, "A2 A4", ""),
        question: (Attack, "A2", 1, 1),
        code: 0,
        rows: &[(
            "the liberties, the backfilling moves, and C2 alone",
            b"N * . . . . . . N * . . . . . . N * . . . . . .",
            WIDER,
        )],
    },
    Texts {
        name: "the attacker has the liberties of stones beside the target in every ply",
        stones: (5, "B2 B3", "B1"),
        question: (Attack, "B2", 1, 0),
        code: 0,
        rows: &[
            (
                "five liberties of the target",
                b"N * . . . . . N * . . . . . N * . . . . .",
                STATED,
            ),
            (
                "the same with the liberties of a stone next to it that has two",
                b"N * . . . . . . . N * . . . . . . . N * . . . . . . .",
                WIDER,
            ),
        ],
    },
    Texts {
        name: "the attacker has no liberty of stones with three beside the target",
        stones: (5, "B2 B3", "C2"),
        question: (Attack, "B2", 1, 1),
        code: 0,
        rows: &[(
            "no liberty of a stone next to the target that has three",
            b"N * . . . . . N * . . . . . N * . . . . .",
            BOTH,
        )],
    },
    Texts {
        name: "the attacker has beside and rescue",
        stones: (5, "B3 D3 C2", "C3 D2"),
        question: (Attack, "D2", 1, 1),
        code: 0,
        rows: &[
            (
                "two liberties and three empty points next to them",
                b"N * . . . . . N * . . . . . N * . . . . .",
                STATED,
            ),
            (
                "the same with B2 and D4 beside weak stones, and C4, which takes C3",
                b"N * . . . . . . . . N * . . . . . . . . N * . . . . . . . .",
                WIDER,
            ),
        ],
    },
    Texts {
        name: "three liberties may be filled in the wider tree",
        stones: (9, "D1", ""),
        question: (Attack, "D1", 5, 0),
        code: 0,
        rows: &[
            ("three liberties without a wide ply", b"N . N . N .", STATED),
            (
                "words that go on, where a dot would do",
                THREE_LIBERTIES_IN_WORDS,
                STATED,
            ),
            (
                "words that go on beside a stone with two",
                THREE_LIBERTIES,
                WIDER,
            ),
        ],
    },
    Texts {
        name: "four liberties may be filled in the wider tree",
        stones: (5, "C4 C3", "E4 E3"),
        question: (Attack, "E4", 7, 0),
        code: 3,
        rows: &[("the capture at E2", FOUR_LIBERTIES, WIDER)],
    },
    Texts {
        name: "four liberties may not be filled in the stated tree",
        stones: (5, "C4 C3", "E4 E3"),
        question: (Attack, "E4", 7, 0),
        code: 0,
        rows: &[("four liberties without a wide ply", b"N . N . N .", STATED)],
    },
    Texts {
        name: "five liberties may not be filled in either tree",
        stones: (9, "D4 D5", "E4"),
        question: (Attack, "D4", 11, 0),
        code: 0,
        rows: &[("five liberties without a wide ply", b"N . N . N .", BOTH)],
    },
    Texts {
        // White B1 takes black A1, black A1 takes B1 and C1, and white B1 takes A1 again.
        name: "a stone that takes back is taken in its turn",
        stones: SNAPBACK,
        question: (Attack, "A1", 3, 0),
        code: 3,
        rows: &[
            ("the capture alone", b"W B1 .", STATED),
            (
                "the play that takes back, and the second capture",
                b"W B1 A1 B1 .",
                WIDER,
            ),
            ("the pass in place of it", b"W B1 PASS B1 .", NEITHER),
            ("a star in place of it", b"W B1 * B1 .", NEITHER),
            (
                "a dot behind it, where the target stands",
                b"W B1 A1 .",
                NEITHER,
            ),
            ("no child behind it", b"W B1 A1", NEITHER),
        ],
    },
    Texts {
        name: "a stone is not captured where no ply is left for taking it back",
        stones: SNAPBACK,
        question: (Attack, "A1", 1, 0),
        code: 0,
        rows: &[("a dot after the capture", b"N * . N * . N * .", WIDER)],
    },
    Texts {
        // Black D3 takes C3, and the ban forbids white to take back.
        name: "a stone is taken back against the ban by the defender's allowance alone",
        stones: OPEN_KO,
        question: (Attack, "C3", 1, 0),
        code: 2,
        rows: &[("the capture stands under code 2", b"N * . W D3 .", WIDER)],
    },
];

#[test]
fn texts_are_proofs_or_none_in_each_tree(rt: HostRuntime) {
    check_table(&rt, &IN_BOTH_TREES);
}
