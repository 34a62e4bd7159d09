//! Connections of small positions. The answers are those of the worked rows, counted by hand, or found by a second
//! plain program.

use super::{LinkQuestion, Stones, position, spot, two_stones};
use connect_rules::LinkKind::{self, Connect, Disconnect};
use connect_rules::Linkage;
use go_base::{Position, Size, Watch};
use read_connect::{connect, disconnect};

/// Connections of one position: what they show, the stones, and each question: what is special about it, and the move
/// of its answer. The move is empty if the side that is asked about has not its way.
struct Connections {
    name: &'static str,
    stones: Stones,
    rows: &'static [(&'static str, LinkQuestion, &'static str)],
}

/// Connections by what they show.
static CONNECTIONS: [Connections; 8] = [
    Connections {
        name: "a one-point jump connects",
        stones: (9, "C5 E5", ""),
        rows: &[
            ("the point between joins", (Connect, "C5", "E5", 3), "D5"),
            ("and in one ply", (Connect, "C5", "E5", 1), "D5"),
            (
                "a white stone there parts them",
                (Disconnect, "C5", "E5", 3),
                "D5",
            ),
            (
                "no ply is left after the pass",
                (Disconnect, "C5", "E5", 1),
                "PASS",
            ),
        ],
    },
    Connections {
        name: "a cut jump does not connect",
        stones: (9, "C5 E5", "D5"),
        rows: &[
            ("no move is left", (Connect, "C5", "E5", 3), ""),
            ("no stone is needed", (Disconnect, "C5", "E5", 3), "PASS"),
        ],
    },
    Connections {
        name: "one string is connected by the pass",
        stones: (9, "C5 D5", ""),
        rows: &[
            ("a stone with itself", (Connect, "C5", "C5", 3), "PASS"),
            ("neighbours", (Connect, "C5", "D5", 1), "PASS"),
            ("they cannot be parted", (Disconnect, "C5", "D5", 3), ""),
        ],
    },
    Connections {
        name: "diagonal stones are connected by two points",
        stones: (9, "C5 D4", ""),
        rows: &[
            (
                "either point joins, the upper first",
                (Connect, "C5", "D4", 2),
                "D5",
            ),
            (
                "white takes one, black the other",
                (Disconnect, "C5", "D4", 2),
                "",
            ),
        ],
    },
    Connections {
        name: "facing liberties join in three plies",
        stones: (9, "C5 E4 H4", ""),
        rows: &[
            ("one stone does not join", (Connect, "C5", "E4", 2), ""),
            (
                "the first of two points that face",
                (Connect, "C5", "E4", 3),
                "D5",
            ),
            ("white comes first", (Disconnect, "C5", "E4", 4), "D5"),
            ("no liberty faces another", (Connect, "C5", "H4", 6), ""),
        ],
    },
    Connections {
        name: "a cutting stone in atari is taken",
        stones: (9, "C5 E5 D6", "D5"),
        rows: &[
            (
                "the capture alone does not join",
                (Connect, "C5", "E5", 2),
                "",
            ),
            (
                "the point is filled after it",
                (Connect, "C5", "E5", 3),
                "D4",
            ),
            ("white extends", (Disconnect, "C5", "E5", 4), "D4"),
            ("and has time to pass", (Disconnect, "C5", "E5", 3), "PASS"),
        ],
    },
    Connections {
        name: "a string in atari is parted by its capture",
        stones: (9, "A1 C1", "A2"),
        rows: &[
            ("the last liberty joins", (Connect, "A1", "C1", 1), "B1"),
            (
                "white takes the corner there",
                (Disconnect, "A1", "C1", 6),
                "B1",
            ),
        ],
    },
    Connections {
        // White D5 has just taken black D4, and the ban keeps black from taking back there.
        name: "a ban is never dropped",
        stones: (9, "C5 E5 D6 D4", "C4 E4 D3 D5"),
        rows: &[
            ("the only capture is banned", (Connect, "C5", "E5", 6), ""),
            (
                "white's pass lifts the ban, so he fills the ko",
                (Disconnect, "C5", "E5", 4),
                "D4",
            ),
            ("or has time to pass", (Disconnect, "C5", "E5", 3), "PASS"),
        ],
    },
];

/// The linkage with this move; without a move, the linkage that says no.
pub(super) fn linkage(size: Size, want: &str) -> Linkage {
    Linkage {
        yes: !want.is_empty(),
        at: spot(size, want),
    }
}

/// The answer to a question on the position.
fn read(position: &Position, question: LinkQuestion) -> Option<Linkage> {
    let (kind, a, b, plies) = question;
    let (a, b) = two_stones(position, a, b)?;
    if plies == 0 || plies > 200 {
        return None;
    }
    let look = Watch::new(position);
    let told = match kind {
        LinkKind::Connect => connect(look, a, b, plies),
        LinkKind::Disconnect => disconnect(look, a, b, plies),
    };
    Some(told.linkage)
}

/// Whether a question on the position of these stones has the answer with the move `want`, or without a move.
fn is_answered(stones: Stones, question: LinkQuestion, want: &str) -> Option<bool> {
    let position = position(stones)?;
    let found = read(&position, question)?;
    Some(found == linkage(position.size(), want))
}

/// What is special about the first question that has another answer; empty if each has its answer.
fn first_wrong(connections: &Connections) -> &'static str {
    for &(special, question, want) in connections.rows {
        if is_answered(connections.stones, question, want) != Some(true) {
            return special;
        }
    }
    ""
}

#[test]
fn connections_have_their_answers(rt: HostRuntime) {
    for connections in &CONNECTIONS {
        let wrong = first_wrong(connections);
        assert!(rt; wrong.is_empty(), "{}, {wrong}", connections.name);
    }
}
