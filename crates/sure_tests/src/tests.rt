//! Sure answers on small positions, beside the answers of the plain game tree. Both are from a second plain program,
//! which tries every move by the definition alone, as the reader `read_sure` does; the reader `read_zones` reads by
//! zones, and can read deeper.

ghost use Rattle.std.specs.Prelude.{◌≡◌, ◌≢◌, ◌*◌, ◌<◌, IfSome};
ghost use Rattle.go_rules.specs.Strings.{cell_at};

use go_base::{Cell, Colour, Point, Position, Size, Watch};
use read_rules::Kind::{self, Attack, Defend};
use read_rules::Tree::{self, Stated, Wider};
use read_rules::{Answer, Depths, Spot};
use read_tree::{attack, defend};
use vertices::vertex_named;

/// A question on a position, and its two answers.
struct Row {
    /// What the row shows.
    name: &'static str,
    /// The size of the board.
    size: u8,
    /// Black's stones.
    black: &'static str,
    /// White's stones, played after black's; the last one may leave a ko ban.
    white: &'static str,
    /// What is asked.
    kind: Kind,
    /// The vertex of the target.
    target: &'static str,
    /// The plies, and how many of them are wide.
    depths: (u8, u8),
    /// The tree that names the candidates.
    tree: Tree,
    /// The code of the plain reading in that tree.
    code: u8,
    /// The sure code.
    sure: u8,
    /// The move of the sure code, empty if there is none.
    at: &'static str,
}

/// Rows, each named by what it shows.
static ROWS: [Row; 23] = [
    Row {
        name: "a stone in the corner is taken whatever black plays",
        size: 5,
        black: "A1",
        white: "B2",
        kind: Attack,
        target: "A1",
        depths: (3, 0),
        tree: Stated,
        code: 3,
        sure: 3,
        at: "A2",
    },
    Row {
        name: "two plies are too few for it",
        size: 5,
        black: "A1",
        white: "B2",
        kind: Attack,
        target: "A1",
        depths: (2, 0),
        tree: Stated,
        code: 0,
        sure: 0,
        at: "",
    },
    Row {
        name: "with four plies it is surely not to be saved",
        size: 5,
        black: "A1",
        white: "B2",
        kind: Defend,
        target: "A1",
        depths: (4, 0),
        tree: Stated,
        code: 0,
        sure: 0,
        at: "",
    },
    Row {
        name: "with three plies black may pass",
        size: 5,
        black: "A1",
        white: "B2",
        kind: Defend,
        target: "A1",
        depths: (3, 0),
        tree: Stated,
        code: 3,
        sure: 3,
        at: "PASS",
    },
    Row {
        name: "on a board of nine it is the same",
        size: 9,
        black: "A1",
        white: "B2",
        kind: Attack,
        target: "A1",
        depths: (3, 0),
        tree: Stated,
        code: 3,
        sure: 3,
        at: "A2",
    },
    Row {
        name: "a stone in atari is captured at once",
        size: 9,
        black: "D4",
        white: "C4 E4 D5",
        kind: Attack,
        target: "D4",
        depths: (1, 0),
        tree: Stated,
        code: 3,
        sure: 3,
        at: "D3",
    },
    Row {
        name: "black answers C2 at D1, where the tree does not look",
        size: 5,
        black: "A2 B1 C1",
        white: "A3 B3 E2 E3 E5",
        kind: Attack,
        target: "A2",
        depths: (5, 2),
        tree: Stated,
        code: 3,
        sure: 0,
        at: "",
    },
    Row {
        name: "the wider tree looks there",
        size: 5,
        black: "A2 B1 C1",
        white: "A3 B3 E2 E3 E5",
        kind: Attack,
        target: "A2",
        depths: (5, 2),
        tree: Wider,
        code: 0,
        sure: 0,
        at: "",
    },
    Row {
        name: "the pass is enough where the tree wants a move",
        size: 5,
        black: "A2 B1 C1",
        white: "A3 B3 E2 E3 E5",
        kind: Defend,
        target: "A2",
        depths: (6, 3),
        tree: Stated,
        code: 3,
        sure: 3,
        at: "PASS",
    },
    Row {
        name: "black answers C4 away from the two stones",
        size: 5,
        black: "D4 E4 C5 D2 A1",
        white: "D3 E3 E1",
        kind: Attack,
        target: "D4",
        depths: (5, 2),
        tree: Stated,
        code: 3,
        sure: 0,
        at: "",
    },
    Row {
        name: "a net holds against every reply",
        size: 5,
        black: "C3",
        white: "B3 C4 D4 E2 B2",
        kind: Attack,
        target: "C3",
        depths: (5, 2),
        tree: Stated,
        code: 3,
        sure: 3,
        at: "D3",
    },
    Row {
        name: "two eyes are not captured",
        size: 5,
        black: "A2 B2 C2 D2 B1 D1",
        white: "A3 B3 C3 D3 E2 E1",
        kind: Attack,
        target: "A2",
        depths: (5, 2),
        tree: Stated,
        code: 0,
        sure: 0,
        at: "",
    },
    Row {
        name: "the retake of a ko needs the attacker's allowance",
        size: 5,
        black: "B3 C4 C2 D3",
        white: "D4 E3 D2 C3",
        kind: Attack,
        target: "C3",
        depths: (3, 4),
        tree: Stated,
        code: 1,
        sure: 1,
        at: "D3",
    },
    Row {
        name: "the defender who may ignore the ban saves his stones",
        size: 5,
        black: "A1 B2 C1 A3",
        white: "A4 B3 C2 D1",
        kind: Attack,
        target: "A1",
        depths: (3, 2),
        tree: Stated,
        code: 2,
        sure: 2,
        at: "A2",
    },
    Row {
        name: "without it they are not to be saved",
        size: 5,
        black: "A1 B2 C1 A3",
        white: "A4 B3 C2 D1",
        kind: Defend,
        target: "A1",
        depths: (4, 2),
        tree: Stated,
        code: 1,
        sure: 1,
        at: "PASS",
    },
    Row {
        name: "a stone in atari extends",
        size: 9,
        black: "D4",
        white: "C4 E4 D5",
        kind: Defend,
        target: "D4",
        depths: (3, 2),
        tree: Stated,
        code: 3,
        sure: 3,
        at: "D3",
    },
    Row {
        name: "in the stated tree a stone that a snapback takes back is captured",
        size: 5,
        black: "D4 E4 D2 C1",
        white: "B3 D3 C2 E1",
        kind: Attack,
        target: "D2",
        depths: (5, 2),
        tree: Stated,
        code: 3,
        sure: 3,
        at: "E2",
    },
    Row {
        name: "in the wider tree it is not",
        size: 5,
        black: "D4 E4 D2 C1",
        white: "B3 D3 C2 E1",
        kind: Attack,
        target: "D2",
        depths: (5, 2),
        tree: Wider,
        code: 0,
        sure: 0,
        at: "",
    },
    Row {
        name: "in the stated tree a stone that only a ko takes back is captured",
        size: 5,
        black: "B5 E2",
        white: "B4 C4",
        kind: Defend,
        target: "B5",
        depths: (4, 1),
        tree: Stated,
        code: 0,
        sure: 0,
        at: "",
    },
    Row {
        name: "in the wider tree it is not if black may ignore the ban",
        size: 5,
        black: "B5 E2",
        white: "B4 C4",
        kind: Defend,
        target: "B5",
        depths: (4, 1),
        tree: Wider,
        code: 1,
        sure: 1,
        at: "PASS",
    },
    Row {
        name: "black answers A4, where the wider tree does not look, and may then take back in the ko",
        size: 5,
        black: "B5 E2",
        white: "B4 C4",
        kind: Attack,
        target: "B5",
        depths: (3, 1),
        tree: Wider,
        code: 3,
        sure: 2,
        at: "C5",
    },
    Row {
        name: "white takes again the stone by which two stones were taken back",
        size: 5,
        black: "E3 D5 D4",
        white: "E5 D3 E2",
        kind: Attack,
        target: "E3",
        depths: (3, 0),
        tree: Wider,
        code: 3,
        sure: 3,
        at: "E4",
    },
    Row {
        name: "two plies are too few to be taken back and take again",
        size: 5,
        black: "E3 D5 D4",
        white: "E5 D3 E2",
        kind: Attack,
        target: "E3",
        depths: (2, 0),
        tree: Wider,
        code: 0,
        sure: 0,
        at: "",
    },
];

/// Rows that are too deep for a program that tries every reply. Their codes are from a second plain program that finds
/// zones by another rule; each move is from its answers after every play.
static DEEP_ROWS: [Row; 5] = [
    Row {
        name: "a net holds for nine plies",
        size: 9,
        black: "D6",
        white: "C6 D7 E7 C5",
        kind: Attack,
        target: "D6",
        depths: (9, 2),
        tree: Stated,
        code: 3,
        sure: 3,
        at: "E5",
    },
    Row {
        name: "behind the net black is surely not to be saved",
        size: 9,
        black: "D6",
        white: "C6 D7 E7 C5 E5",
        kind: Defend,
        target: "D6",
        depths: (8, 2),
        tree: Stated,
        code: 0,
        sure: 0,
        at: "",
    },
    Row {
        name: "black saves his stone from afar, where the tree wants a liberty",
        size: 9,
        black: "C3",
        white: "C2 B3 D2 B4",
        kind: Defend,
        target: "C3",
        depths: (6, 2),
        tree: Stated,
        code: 3,
        sure: 3,
        at: "C5",
    },
    Row {
        name: "three liberties are too many for the stated tree",
        size: 9,
        black: "E5",
        white: "E6 D5 F3 D3 H5",
        kind: Attack,
        target: "E5",
        depths: (7, 2),
        tree: Stated,
        code: 0,
        sure: 0,
        at: "",
    },
    Row {
        name: "the wider tree captures there",
        size: 9,
        black: "E5",
        white: "E6 D5 F3 D3 H5",
        kind: Attack,
        target: "E5",
        depths: (7, 2),
        tree: Wider,
        code: 3,
        sure: 3,
        at: "F5",
    },
];

/// The point of a vertex.
fn vertex(size: Size, name: &str) -> Option<Point>
    ensures { IfSome result (λ p. p < size * size) }
{
    let p = vertex_named(name.as_bytes(), size)?;
    if p < size.points() { Some(p) } else { None }
}

/// The point of a vertex, if a stone stands there.
fn stone(position: &Position, name: &str) -> Option<Point>
    ensures on_board { IfSome result (λ p. p < position.now.size * position.now.size) }
    ensures stone { IfSome result (λ p. cell_at position.now.cells p ≢ Cell.Empty) }
{
    let p = vertex(position.size(), name)?;
    if position.cell(p) == Cell::Empty {
        return None;
    }
    Some(p)
}

/// The position after plays of this colour at the vertices `names`.
fn with_stones(position: Position, colour: Colour, names: &str) -> Option<Position> {
    let mut position = position;
    for name in names.split_whitespace() {
        let p = vertex(position.size(), name)?;
        position = position.play(colour, p).ok()?;
    }
    Some(position)
}

/// The position of a row.
fn position(row: &Row) -> Option<Position> {
    let position = Position::new(Size::new(row.size)?);
    with_stones(
        with_stones(position, Colour::Black, row.black)?,
        Colour::White,
        row.white,
    )
}

/// The move that `name` writes, a vertex or `PASS`; `None` if it writes no move.
fn spot(size: Size, name: &str) -> Option<Spot> {
    if name == "PASS" {
        return Some(Spot::Pass);
    }
    Some(Spot::At(vertex(size, name)?))
}

/// The target and the depths of a row.
fn asked(row: &Row, position: &Position) -> Option<(Point, Depths)>
    ensures on_board { IfSome result (λ asked. asked.0 < position.now.size * position.now.size) }
    ensures stone { IfSome result (λ asked. cell_at position.now.cells asked.0 ≢ Cell.Empty) }
{
    let target = stone(position, row.target)?;
    let (plies, wide) = row.depths;
    let depths = Depths::new(plies, wide)?.in_tree(row.tree);
    Some((target, depths))
}

/// The sure answer that a row expects.
fn wanted(row: &Row, size: Size) -> Answer {
    Answer {
        code: row.sure,
        at: spot(size, row.at),
    }
}

/// Whether the plain reading in the row's tree has the row's code.
fn is_told(row: &Row, position: &Position) -> Option<bool> {
    let (target, depths) = asked(row, position)?;
    let told = match row.kind {
        Kind::Attack => attack(Watch::new(position), target, depths).answer,
        Kind::Defend => defend(Watch::new(position), target, depths).answer,
    };
    Some(told.code == row.code)
}

/// Whether `read_sure`, which tries every reply, finds the row's sure answer.
fn is_found_by_every_reply(row: &Row, position: &Position) -> Option<bool> {
    let (target, depths) = asked(row, position)?;
    let sure = match row.kind {
        Kind::Attack => read_sure::sure_attack(Watch::new(position), target, depths).answer,
        Kind::Defend => read_sure::sure_defend(Watch::new(position), target, depths).answer,
    };
    Some(sure == wanted(row, position.size()))
}

/// Whether `read_zones` finds the row's sure answer.
fn is_found_by_zones(row: &Row, position: &Position) -> Option<bool> {
    let (target, depths) = asked(row, position)?;
    let sure = match row.kind {
        Kind::Attack => read_zones::sure_attack(position, target, depths),
        Kind::Defend => read_zones::sure_defend(position, target, depths),
    };
    Some(sure == wanted(row, position.size()))
}

/// Whether the row's question has both of its answers, and both readers find the sure one.
fn is_right(row: &Row) -> Option<bool> {
    let position = position(row)?;
    Some(
        is_told(row, &position)?
            && is_found_by_every_reply(row, &position)?
            && is_found_by_zones(row, &position)?,
    )
}

/// Whether a deep row's question has both of its answers; only `read_zones` reads the sure one.
fn is_right_deep(row: &Row) -> Option<bool> {
    let position = position(row)?;
    Some(is_told(row, &position)? && is_found_by_zones(row, &position)?)
}

#[test]
fn sure_answers_stand_beside_those_of_the_tree(rt: HostRuntime) {
    for row in &ROWS {
        let right = is_right(row);
        assert!(rt; right == Some(true), "{}", row.name);
    }
}

#[test]
fn zones_answer_where_every_reply_is_too_much(rt: HostRuntime) {
    for row in &DEEP_ROWS {
        let right = is_right_deep(row);
        assert!(rt; right == Some(true), "{}", row.name);
    }
}
