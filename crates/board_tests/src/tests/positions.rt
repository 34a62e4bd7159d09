//! What the rules give on drawn positions: `.` is empty, `X` black, `O` white, and the rows are drawn from the top.

use super::{Play, after, on};
use go_base::Colour::{self, Black, White};
use go_base::{
    Bytes, Cell, Facts, Illegal, Look, Point, PointSet, Position, Size, Transform, Watch,
};
use std::panic::Expect;

/// Why the play on the position is refused; `None` if it is legal or its place is off the board.
fn refusal(position: &Position, play: Play) -> Option<Illegal> {
    let (colour, row, column) = play;
    let p = on(position, row, column)?;
    position.play(colour, p).err()
}

/// What stands on a point, as it is drawn.
fn drawn(cell: Cell) -> u8 {
    match cell {
        Cell::Empty => b'.',
        Cell::Black => b'X',
        Cell::White => b'O',
    }
}

/// Whether `drawing` has the rows of the position, one after another.
fn shows(position: &Position, drawing: &[u8]) -> bool {
    let points = position.size().points();
    for p in 0..points {
        if drawing.get(p as usize) != Some(&drawn(position.cell(p))) {
            return false;
        }
    }
    drawing.len() == usize::from(points)
}

/// The transformations by their numbers, and where each puts the offset (1, 2).
static TRANSFORMATIONS: [(u8, (i8, i8)); 8] = [
    (0, (1, 2)),
    (1, (2, -1)),
    (2, (-1, -2)),
    (3, (-2, 1)),
    (4, (1, -2)),
    (5, (-2, -1)),
    (6, (-1, 2)),
    (7, (2, 1)),
];

#[test]
fn the_transformations_are_the_table(rt: HostRuntime) {
    for &(number, want) in &TRANSFORMATIONS {
        let t = Transform::new(number).expect(&rt, "a number below 8");
        assert!(rt; t.get() == number);
        assert!(rt; t.apply(1, 2) == want, "transformation {number} of (1, 2)");
    }
    assert!(rt; Transform::new(8).is_none());
}

/// Plays on a board of `rows` rows, the drawing after the last play, and the ban that it leaves.
struct Drawing {
    name: &'static str,
    rows: u8,
    plays: &'static [Play],
    want: &'static [u8],
    ban: Option<(Point, Colour)>,
}

// . X O .        Black takes the white stone by playing at the third point of the second row.
// X O . O
// . X O .
// . . . .
/// The plays of a ko on a board of four rows.
const KO_OF_FOUR_ROWS: [Play; 8] = [
    (Black, 0, 1),
    (White, 0, 2),
    (Black, 1, 0),
    (White, 1, 3),
    (Black, 2, 1),
    (White, 2, 2),
    (White, 1, 1),
    (Black, 1, 2),
];

/// Drawings after plays. A stone leaves no ban if it takes one stone and has more than one liberty, or if it takes two.
static DRAWINGS: [Drawing; 12] = [
    Drawing {
        name: "a stone in the corner is taken",
        rows: 3,
        plays: &[(White, 0, 0), (Black, 0, 1), (Black, 1, 0)],
        want: b".X.X.....",
        ban: None,
    },
    Drawing {
        name: "a string of two on the edge is taken",
        rows: 4,
        plays: &[
            (White, 0, 1),
            (White, 0, 2),
            (Black, 0, 0),
            (Black, 1, 1),
            (Black, 1, 2),
            (Black, 0, 3),
        ],
        want: b"X..X.XX.........",
        ban: None,
    },
    Drawing {
        name: "two strings are taken at once, by a stone between them",
        rows: 5,
        plays: &[
            (White, 0, 1),
            (White, 0, 3),
            (Black, 0, 0),
            (Black, 1, 1),
            (Black, 0, 4),
            (Black, 1, 3),
            (Black, 0, 2),
        ],
        want: b"X.X.X.X.X................",
        ban: None,
    },
    Drawing {
        name: "a stone that has no liberty before it takes three",
        rows: 3,
        plays: &[
            (Black, 0, 1),
            (Black, 1, 0),
            (White, 0, 2),
            (White, 1, 1),
            (White, 2, 0),
            (White, 0, 0),
        ],
        want: b"O.O.O.O..",
        ban: None,
    },
    Drawing {
        name: "a string is taken that the stone touches on two sides",
        rows: 3,
        plays: &[
            (White, 0, 0),
            (White, 0, 1),
            (White, 1, 0),
            (Black, 0, 2),
            (Black, 2, 0),
            (Black, 1, 1),
        ],
        want: b"..X.X.X..",
        ban: None,
    },
    Drawing {
        name: "a stone is taken on the smallest board",
        rows: 2,
        plays: &[(White, 0, 0), (Black, 0, 1), (Black, 1, 0)],
        want: b".XX.",
        ban: None,
    },
    // . . O X .        Black throws in at the second point of the first row, and White takes it from the corner.
    // O O O X .
    // X X X . .
    Drawing {
        name: "a stone that takes one and belongs to a string leaves no ban",
        rows: 5,
        plays: &[
            (White, 0, 2),
            (White, 1, 0),
            (White, 1, 1),
            (White, 1, 2),
            (Black, 0, 3),
            (Black, 1, 3),
            (Black, 2, 0),
            (Black, 2, 1),
            (Black, 2, 2),
            (Black, 0, 1),
            (White, 0, 0),
        ],
        want: b"O.OX.OOOX.XXX............",
        ban: None,
    },
    Drawing {
        name: "so a snapback takes the whole string back",
        rows: 5,
        plays: &[
            (White, 0, 2),
            (White, 1, 0),
            (White, 1, 1),
            (White, 1, 2),
            (Black, 0, 3),
            (Black, 1, 3),
            (Black, 2, 0),
            (Black, 2, 1),
            (Black, 2, 2),
            (Black, 0, 1),
            (White, 0, 0),
            (Black, 0, 1),
        ],
        want: b".X.X....X.XXX............",
        ban: None,
    },
    Drawing {
        name: "a stone that takes one and has one liberty leaves a ban",
        rows: 4,
        plays: &KO_OF_FOUR_ROWS,
        want: b".XO.X.XO.XO.....",
        ban: Some((5, White)),
    },
    Drawing {
        name: "the other colour may fill the ko",
        rows: 4,
        plays: &[
            (Black, 0, 1),
            (White, 0, 2),
            (Black, 1, 0),
            (White, 1, 3),
            (Black, 2, 1),
            (White, 2, 2),
            (White, 1, 1),
            (Black, 1, 2),
            (Black, 1, 1),
        ],
        want: b".XO.XXXO.XO.....",
        ban: None,
    },
    Drawing {
        name: "a ban ends with a play elsewhere",
        rows: 4,
        plays: &[
            (Black, 0, 1),
            (White, 0, 2),
            (Black, 1, 0),
            (White, 1, 3),
            (Black, 2, 1),
            (White, 2, 2),
            (White, 1, 1),
            (Black, 1, 2),
            (White, 3, 0),
            (White, 1, 1),
        ],
        want: b".XO.XO.O.XO.O...",
        ban: Some((6, Black)),
    },
    Drawing {
        name: "and with one of the other colour",
        rows: 4,
        plays: &[
            (Black, 0, 1),
            (White, 0, 2),
            (Black, 1, 0),
            (White, 1, 3),
            (Black, 2, 1),
            (White, 2, 2),
            (White, 1, 1),
            (Black, 1, 2),
            (Black, 3, 3),
            (White, 1, 1),
        ],
        want: b".XO.XO.O.XO....X",
        ban: Some((6, Black)),
    },
];

#[test]
fn plays_give_the_drawings_and_the_bans(rt: HostRuntime) {
    for row in &DRAWINGS {
        let name = row.name;
        let position = after(row.rows, row.plays).expect(&rt, "each play is legal");
        assert!(rt; shows(&position, row.want), "{name}");
        assert!(rt; position.ban() == row.ban, "{name}");
    }
}

/// A play after others on a board of `rows` rows, and why it is refused.
struct Refused {
    name: &'static str,
    rows: u8,
    plays: &'static [Play],
    last: Play,
    why: Illegal,
}

static REFUSED: [Refused; 5] = [
    Refused {
        name: "suicide of one stone in the corner",
        rows: 3,
        plays: &[(Black, 0, 1), (Black, 1, 0)],
        last: (White, 0, 0),
        why: Illegal::Suicide,
    },
    Refused {
        name: "suicide of a string of two",
        rows: 3,
        plays: &[(White, 0, 0), (Black, 0, 2), (Black, 1, 0), (Black, 1, 1)],
        last: (White, 0, 1),
        why: Illegal::Suicide,
    },
    Refused {
        name: "suicide on the smallest board",
        rows: 2,
        plays: &[(Black, 0, 1), (Black, 1, 0)],
        last: (White, 0, 0),
        why: Illegal::Suicide,
    },
    Refused {
        name: "a stone on another",
        rows: 4,
        plays: &KO_OF_FOUR_ROWS,
        last: (White, 1, 2),
        why: Illegal::Occupied,
    },
    Refused {
        name: "a play at the banned point",
        rows: 4,
        plays: &KO_OF_FOUR_ROWS,
        last: (White, 1, 1),
        why: Illegal::Ko,
    },
];

#[test]
fn plays_are_refused(rt: HostRuntime) {
    for row in &REFUSED {
        let name = row.name;
        let position = after(row.rows, row.plays).expect(&rt, "each play is legal");
        assert!(rt; refusal(&position, row.last) == Some(row.why), "{name}");
    }
}

/// The plays of the ko on four rows, after which white may not play at the second point of the second row, point 5.
static BANNED: [Play; 8] = KO_OF_FOUR_ROWS;

#[test]
fn a_ban_ends_with_a_pass_and_can_be_dropped(rt: HostRuntime) {
    let position = after(4, &BANNED).expect(&rt, "each play is legal");
    assert!(rt; 5 < position.size().points());
    assert!(rt; position.play_free(White, 5).is_ok(), "the ban dropped");
    assert!(rt; position.pass().play(White, 5).is_ok(), "after a pass");
}

/// Whether the set has the points of `points` and no other. They are given in reading order.
fn has_just(set: &PointSet, points: &[Point]) -> bool {
    let mut least = 0;
    for &p in points {
        if set.first_from(least) != Some(p) {
            return false;
        }
        least = p.saturating_add(1);
    }
    usize::from(set.count()) == points.len() && set.first_from(least).is_none()
}

// X X . .
// O X . .
/// The plays of a string of three stones beside one of the other colour.
static BESIDE: [Play; 4] = [(Black, 0, 0), (Black, 0, 1), (Black, 1, 1), (White, 1, 0)];

#[test]
fn strings_and_liberties_are_told(rt: HostRuntime) {
    let position = after(4, &BESIDE).expect(&rt, "each play is legal");
    assert!(rt; 5 < position.size().points());
    assert!(rt; has_just(&position.string(5), &[0, 1, 5]));
    assert!(rt; position.liberties(5) == 3);
    assert!(rt; position.liberties(3) == 0, "an empty point has none");
}

/// The plays before the watch was asked.
static WATCHED: [Play; 1] = [(Black, 0, 0)];

/// Plays on a board of a number of rows, and whether the facts of the watch hold after them.
static CHANGED: [(&str, u8, &[Play], bool); 4] = [
    ("the position itself", 3, &[(Black, 0, 0)], true),
    (
        "a point that was not asked for may change",
        3,
        &[(Black, 0, 0), (White, 2, 2)],
        true,
    ),
    (
        "a point that was asked for may not",
        3,
        &[(Black, 0, 1)],
        false,
    ),
    ("nor the size", 4, &[(Black, 0, 0)], false),
];

#[test]
fn a_watch_records_what_it_was_asked(rt: HostRuntime) {
    let before = after(3, &WATCHED).expect(&rt, "each play is legal");
    let mut watch = Watch::new(&before);
    assert!(rt; 4 < watch.size().points());
    let seen = watch.cell(0);
    let banned = watch.ko(4, White);
    assert!(rt; seen == Cell::Black);
    assert!(rt; !banned);
    let facts: Facts = watch.facts();
    assert!(rt; facts.points().count() == 2);
    for &(name, rows, plays, stands) in &CHANGED {
        let position = after(rows, plays).expect(&rt, "each play is legal");
        assert!(rt; facts.stands(&position) == stands, "{name}");
    }
}

#[test]
fn bytes_grow(rt: HostRuntime) {
    let mut bytes = Bytes::new(rt.alloc());
    assert!(rt; bytes.push(b'D').is_ok());
    assert!(rt; bytes.extend(b"4 E5").is_ok());
    assert!(rt; bytes.as_slice() == b"D4 E5".as_slice());
}

#[test]
fn sets_of_points_grow_meet_and_differ(rt: HostRuntime) {
    let mut points = PointSet::new();
    points.add(624);
    points.add(64);
    points.add(64);
    assert!(rt; has_just(&points, &[64, 624]));
    assert!(rt; !points.has(63));
    let mut others = PointSet::new();
    others.add(64);
    others.add(65);
    assert!(rt; has_just(&points.intersection(&others), &[64]));
    assert!(rt; has_just(&points.difference(&others), &[624]));
}

/// Plays on a board of `rows` rows, and how many points a colour may play at after them.
struct Legal {
    name: &'static str,
    rows: u8,
    plays: &'static [Play],
    colour: Colour,
    count: u16,
}

// . X O .        Black has just taken a white stone at the second point of the second row, so white may not play there,
// X . X O        and in the upper left corner white's stone would have no liberty. In the upper right one black's stone
// . X O .        would have none either, but it takes one.
// . . . .
static LEGAL: [Legal; 3] = [
    Legal {
        name: "all empty points for black, also where the stone has a liberty only after it takes one",
        rows: 4,
        plays: &KO_OF_FOUR_ROWS,
        colour: Black,
        count: 9,
    },
    Legal {
        name: "neither the banned point nor suicide for white",
        rows: 4,
        plays: &KO_OF_FOUR_ROWS,
        colour: White,
        count: 7,
    },
    Legal {
        name: "each point of an empty board",
        rows: 2,
        plays: &[],
        colour: White,
        count: 4,
    },
];

#[test]
fn legal_points_are_those_that_can_be_played(rt: HostRuntime) {
    for row in &LEGAL {
        let name = row.name;
        let position = after(row.rows, row.plays).expect(&rt, "each play is legal");
        let legal = position.legal_points(row.colour);
        for p in 0..position.size().points() {
            let is_legal = position.play(row.colour, p).is_ok();
            assert!(rt; legal.has(p) == is_legal, "{name}: {p}");
        }
        assert!(rt; legal.count() == row.count, "{name}");
    }
}
