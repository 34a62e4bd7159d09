//! Which questions are answered from the cache, on a board of 9 by 9. The answers are those of the worked rows.

use super::connections::linkage;
use super::{LinkQuestion, Stones, position, two_stones};
use connect_rules::LinkKind::{Connect, Disconnect};
use kept_connections::Connections;

/// A step: what is special about it, the stones, the question, whose plies are set before it, whether only the cache
/// may answer it, the move of the answer, and how many answers were fresh by then. The move is empty if the side that
/// is asked about has not its way, and `None` if the cache has no answer. No answer is refused for want of memory.
struct Step {
    name: &'static str,
    stones: Stones,
    question: LinkQuestion,
    kept_alone: bool,
    want: Option<&'static str>,
    fresh: u64,
}

/// Black stones at C5 and E5.
const JUMP: Stones = (9, "C5 E5", "");

/// Black stones at C5 and E5, and another far away, at J1.
const DISTANT: Stones = (9, "C5 E5 J1", "");

/// Black stones at C5 and E5, and a white stone between them, at D5.
const CUT: Stones = (9, "C5 E5", "D5");

/// Steps that follow on one another. Each session begins with an empty cache.
static SESSIONS: [&[Step]; 5] = [
    &[
        Step {
            name: "the point between joins",
            stones: JUMP,
            question: (Connect, "C5", "E5", 3),
            kept_alone: false,
            want: Some("D5"),
            fresh: 1,
        },
        Step {
            name: "the point between parts",
            stones: JUMP,
            question: (Disconnect, "C5", "E5", 3),
            kept_alone: false,
            want: Some("D5"),
            fresh: 2,
        },
    ],
    &[
        Step {
            name: "no move is left where a jump is cut",
            stones: CUT,
            question: (Connect, "C5", "E5", 3),
            kept_alone: false,
            want: Some(""),
            fresh: 1,
        },
        Step {
            name: "no stone is needed where a jump is cut",
            stones: CUT,
            question: (Disconnect, "C5", "E5", 3),
            kept_alone: false,
            want: Some("PASS"),
            fresh: 2,
        },
    ],
    &[
        Step {
            name: "a connection is kept: the first time",
            stones: JUMP,
            question: (Connect, "C5", "E5", 3),
            kept_alone: false,
            want: Some("D5"),
            fresh: 1,
        },
        Step {
            name: "a connection is kept: after a distant move",
            stones: DISTANT,
            question: (Connect, "C5", "E5", 3),
            kept_alone: false,
            want: Some("D5"),
            fresh: 1,
        },
        Step {
            name: "a connection is kept: after a move in the area",
            stones: CUT,
            question: (Connect, "C5", "E5", 3),
            kept_alone: false,
            want: Some(""),
            fresh: 2,
        },
        Step {
            name: "a connection is kept: after undo",
            stones: JUMP,
            question: (Connect, "C5", "E5", 3),
            kept_alone: false,
            want: Some("D5"),
            fresh: 2,
        },
        Step {
            name: "a connection is kept: and again after that move",
            stones: CUT,
            question: (Connect, "C5", "E5", 3),
            kept_alone: false,
            want: Some(""),
            fresh: 2,
        },
    ],
    &[
        Step {
            name: "each question is kept for itself: the first",
            stones: JUMP,
            question: (Connect, "C5", "E5", 3),
            kept_alone: false,
            want: Some("D5"),
            fresh: 1,
        },
        Step {
            name: "each question is kept for itself: the other kind",
            stones: JUMP,
            question: (Disconnect, "C5", "E5", 3),
            kept_alone: false,
            want: Some("D5"),
            fresh: 2,
        },
        Step {
            name: "each question is kept for itself: another second point",
            stones: JUMP,
            question: (Connect, "C5", "C5", 3),
            kept_alone: false,
            want: Some("PASS"),
            fresh: 3,
        },
        Step {
            name: "each question is kept for itself: another first point",
            stones: JUMP,
            question: (Connect, "E5", "C5", 3),
            kept_alone: false,
            want: Some("D5"),
            fresh: 4,
        },
        Step {
            name: "each question is kept for itself: other plies",
            stones: JUMP,
            question: (Connect, "C5", "E5", 2),
            kept_alone: false,
            want: Some("D5"),
            fresh: 5,
        },
        Step {
            name: "each question is kept for itself: the first again",
            stones: JUMP,
            question: (Connect, "C5", "E5", 3),
            kept_alone: false,
            want: Some("D5"),
            fresh: 5,
        },
    ],
    &[
        Step {
            name: "nothing was asked, so nothing is found",
            stones: JUMP,
            question: (Connect, "C5", "E5", 3),
            kept_alone: true,
            want: None,
            fresh: 0,
        },
        Step {
            name: "it is asked",
            stones: JUMP,
            question: (Connect, "C5", "E5", 3),
            kept_alone: false,
            want: Some("D5"),
            fresh: 1,
        },
        Step {
            name: "what was asked is found",
            stones: JUMP,
            question: (Connect, "C5", "E5", 3),
            kept_alone: true,
            want: Some("D5"),
            fresh: 1,
        },
        Step {
            name: "it is not found after a play in the area",
            stones: CUT,
            question: (Connect, "C5", "E5", 3),
            kept_alone: true,
            want: None,
            fresh: 1,
        },
        Step {
            name: "it is not found at other plies",
            stones: JUMP,
            question: (Connect, "C5", "E5", 2),
            kept_alone: true,
            want: None,
            fresh: 1,
        },
    ],
];

/// Whether a step has the result that it says.
fn is_right(links: &mut Connections, step: &Step) -> Option<bool> {
    let (kind, a, b, plies) = step.question;
    let position = position(step.stones)?;
    let (a, b) = two_stones(&position, a, b)?;
    if plies == 0 || plies > 200 {
        return None;
    }
    links.set(plies);
    let found = if step.kept_alone {
        links.find_kept(kind, &position, a, b)
    } else {
        Some(links.ask(kind, &position, a, b))
    };
    let want = match step.want {
        Some(at) => Some(linkage(position.size(), at)),
        None => None,
    };
    Some(found == want && links.fresh() == step.fresh && links.refused() == 0)
}

#[test]
fn connections_are_answered_from_what_is_kept(rt: HostRuntime) {
    for &steps in &SESSIONS {
        let mut links = Connections::new(rt.alloc(), 3, 8)
            .ok()
            .expect(&rt, "there is memory");
        for step in steps {
            assert!(rt; is_right(&mut links, step) == Some(true), "{}", step.name);
        }
    }
}
