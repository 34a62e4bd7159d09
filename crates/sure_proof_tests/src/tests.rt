//! Texts on small positions. Each proof is from a second plain program, which finds strings, replies and points by
//! itself; the texts that are refused are these proofs with one thing changed.

ghost use Rattle.std.specs.Prelude.{◌≡◌, ◌≢◌, ◌*◌, ◌<◌, IfSome};
ghost use Rattle.go_rules.specs.Strings.{cell_at};

use go_base::{Cell, Colour, Point, Position, Size};
use read_rules::Kind::{self, Attack, Defend};
use read_rules::{Depths, Tree};
use sure_proof::checks_surely;
use vertices::vertex_named;

/// A text about a question on a position.
struct Row {
    /// What the row shows.
    name: &'static str,
    /// The size of the board.
    size: u8,
    /// Black's stones.
    black: &'static str,
    /// White's stones, played after black's; the last one may leave a ko ban.
    white: &'static str,
    /// The kind of question: the attacker plays first for `Attack`, the defender for `Defend`.
    of: Kind,
    /// The vertex of the target.
    target: &'static str,
    /// The plies, and how many of them are wide.
    depths: (u8, u8),
    /// The code under whose ko allowances the proof is read.
    code: u8,
    /// The text that is checked.
    text: &'static str,
    /// Whether the text is a proof.
    proves: bool,
}

/// Rows, each named by what it shows.
static ROWS: [Row; 23] = [
    Row {
        name: "a stone in the corner is taken",
        size: 5,
        black: "A1",
        white: "B2",
        of: Attack,
        target: "A1",
        depths: (3, 0),
        code: 3,
        text: "A2 * B1 . B1 C1 . C1 B1 . ;",
        proves: true,
    },
    Row {
        name: "lower case and tabs are read too",
        size: 5,
        black: "A1",
        white: "B2",
        of: Attack,
        target: "A1",
        depths: (3, 0),
        code: 3,
        text: "a2\t*  b1 . B1 c1 . C1 b1 . ;",
        proves: true,
    },
    Row {
        name: "a ply less is too few",
        size: 5,
        black: "A1",
        white: "B2",
        of: Attack,
        target: "A1",
        depths: (2, 0),
        code: 3,
        text: "A2 * B1 . B1 C1 . C1 B1 . ;",
        proves: false,
    },
    Row {
        name: "a ply more does no harm",
        size: 5,
        black: "A1",
        white: "B2",
        of: Attack,
        target: "A1",
        depths: (4, 0),
        code: 3,
        text: "A2 * B1 . B1 C1 . C1 B1 . ;",
        proves: true,
    },
    Row {
        name: "a word is left",
        size: 5,
        black: "A1",
        white: "B2",
        of: Attack,
        target: "A1",
        depths: (3, 0),
        code: 3,
        text: "A2 * B1 . B1 C1 . C1 B1 . ; .",
        proves: false,
    },
    Row {
        name: "the last word is missing",
        size: 5,
        black: "A1",
        white: "B2",
        of: Attack,
        target: "A1",
        depths: (3, 0),
        code: 3,
        text: "A2 * B1 . B1 C1 . C1 B1 .",
        proves: false,
    },
    Row {
        name: "a reply is missing",
        size: 5,
        black: "A1",
        white: "B2",
        of: Attack,
        target: "A1",
        depths: (3, 0),
        code: 3,
        text: "A2 * B1 . C1 B1 . ;",
        proves: false,
    },
    Row {
        name: "a reply that is not asked for",
        size: 5,
        black: "A1",
        white: "B2",
        of: Attack,
        target: "A1",
        depths: (3, 0),
        code: 3,
        text: "A2 * B1 . C3 B1 . B1 C1 . C1 B1 . ;",
        proves: false,
    },
    Row {
        name: "a reply at a liberty that only guards",
        size: 5,
        black: "A1",
        white: "B2",
        of: Attack,
        target: "A1",
        depths: (3, 0),
        code: 3,
        text: "A2 * B1 . A3 B1 . B1 C1 . C1 B1 . ;",
        proves: false,
    },
    Row {
        name: "replies in another order",
        size: 5,
        black: "A1",
        white: "B2",
        of: Attack,
        target: "A1",
        depths: (3, 0),
        code: 3,
        text: "A2 * B1 . C1 B1 . B1 C1 . ;",
        proves: false,
    },
    Row {
        name: "the proof after the pass is missing",
        size: 5,
        black: "A1",
        white: "B2",
        of: Attack,
        target: "A1",
        depths: (3, 0),
        code: 3,
        text: "A2 * B1 C1 . C1 B1 . ;",
        proves: false,
    },
    Row {
        name: "the end comes for the replies",
        size: 5,
        black: "A1",
        white: "B2",
        of: Attack,
        target: "A1",
        depths: (3, 0),
        code: 3,
        text: "A2 * B1 . ;",
        proves: false,
    },
    Row {
        name: "the target stands",
        size: 5,
        black: "A1",
        white: "B2",
        of: Attack,
        target: "A1",
        depths: (3, 0),
        code: 3,
        text: ".",
        proves: false,
    },
    Row {
        name: "an attacker has no star",
        size: 5,
        black: "A1",
        white: "B2",
        of: Attack,
        target: "A1",
        depths: (3, 0),
        code: 3,
        text: "* A2 * B1 . B1 C1 . C1 B1 . ; ;",
        proves: false,
    },
    Row {
        name: "an attacker has no pass",
        size: 5,
        black: "A1",
        white: "B2",
        of: Attack,
        target: "A1",
        depths: (3, 0),
        code: 3,
        text: "PASS A2 * B1 . B1 C1 . C1 B1 . ;",
        proves: false,
    },
    Row {
        name: "a point that is no candidate",
        size: 5,
        black: "A1",
        white: "B2",
        of: Attack,
        target: "A1",
        depths: (3, 0),
        code: 3,
        text: "D4 * B1 . ;",
        proves: false,
    },
    Row {
        name: "no word",
        size: 5,
        black: "A1",
        white: "B2",
        of: Attack,
        target: "A1",
        depths: (3, 0),
        code: 3,
        text: "",
        proves: false,
    },
    Row {
        name: "at the edge the second liberty is the last",
        size: 2,
        black: "A1",
        white: "B1",
        of: Attack,
        target: "A1",
        depths: (1, 0),
        code: 2,
        text: "A2 .",
        proves: true,
    },
    Row {
        name: "after the pass no ply is left for the play",
        size: 2,
        black: "A1",
        white: "B1",
        of: Defend,
        target: "A1",
        depths: (1, 0),
        code: 2,
        text: "* A2 . ;",
        proves: false,
    },
    Row {
        name: "a stone in atari in the open",
        size: 5,
        black: "C3",
        white: "C2 B3 D3",
        of: Attack,
        target: "C3",
        depths: (1, 0),
        code: 2,
        text: "C4 .",
        proves: true,
    },
    Row {
        name: "the corner stone cannot be saved",
        size: 5,
        black: "A1",
        white: "B2",
        of: Defend,
        target: "A1",
        depths: (4, 0),
        code: 3,
        text: "* A2 * B1 . B1 C1 . C1 B1 . ; A3 A2 * B1 . B1 C1 . C1 B1 . ; A2 A3 * B1 . B1 C1 . C1 B1 . ; C2 A2 * B1 . B1 C1 . C1 B1 . ; B1 C1 * A2 . A3 A2 . A2 A3 . ; C1 B1 * A2 . A3 A2 . A2 A3 . ; D1 A2 * B1 . B1 C1 . C1 B1 . ; ;",
        proves: true,
    },
    Row {
        name: "only the pass of it is proved",
        size: 5,
        black: "A1",
        white: "B2",
        of: Defend,
        target: "A1",
        depths: (4, 0),
        code: 3,
        text: "* A2 * B1 . B1 C1 . C1 B1 . ; ;",
        proves: false,
    },
    Row {
        name: "a snapback captures in the stated tree",
        size: 5,
        black: "D4 E4 D2 C1",
        white: "B3 D3 C2 E1",
        of: Attack,
        target: "D2",
        depths: (5, 2),
        code: 2,
        text: "E2 * D1 . E3 D1 . B1 D1 . D1 B1 . ;",
        proves: true,
    },
];

/// Rows in the wider tree, in which a lone stone that is taken may be taken back.
static WIDER_ROWS: [Row; 11] = [
    Row {
        name: "a lone stone is taken back and captured again",
        size: 3,
        black: "B3 A2 B2 C1",
        white: "C2 A1",
        of: Attack,
        target: "C1",
        depths: (3, 2),
        code: 3,
        text: "B1 C1 B1 .",
        proves: true,
    },
    Row {
        name: "no ply is left to capture it again",
        size: 3,
        black: "B3 A2 B2 C1",
        white: "C2 A1",
        of: Attack,
        target: "C1",
        depths: (2, 2),
        code: 3,
        text: "B1 C1 B1 .",
        proves: false,
    },
    Row {
        name: "the stone can be taken back",
        size: 3,
        black: "B3 A2 B2 C1",
        white: "C2 A1",
        of: Attack,
        target: "C1",
        depths: (3, 2),
        code: 3,
        text: "B1 .",
        proves: false,
    },
    Row {
        name: "another play does not take back",
        size: 3,
        black: "B3 A2 B2 C1",
        white: "C2 A1",
        of: Attack,
        target: "C1",
        depths: (3, 2),
        code: 3,
        text: "B1 C3 B1 .",
        proves: false,
    },
    Row {
        name: "the ko ban forbids to take back",
        size: 5,
        black: "B5 A4",
        white: "C5 B4 E1",
        of: Attack,
        target: "B5",
        depths: (4, 1),
        code: 2,
        text: "A5 .",
        proves: true,
    },
    Row {
        name: "he takes back though the ko ban forbids it",
        size: 5,
        black: "B5 A4",
        white: "C5 B4 E1",
        of: Attack,
        target: "B5",
        depths: (4, 1),
        code: 3,
        text: "A5 .",
        proves: false,
    },
    Row {
        name: "the ko ban forbids to capture it again",
        size: 5,
        black: "B5 A4",
        white: "C5 B4 E1",
        of: Attack,
        target: "B5",
        depths: (4, 1),
        code: 3,
        text: "A5 B5 A5 .",
        proves: false,
    },
    Row {
        name: "he does not take back where the ko ban forbids it",
        size: 5,
        black: "B5 A4",
        white: "C5 B4 E1",
        of: Attack,
        target: "B5",
        depths: (4, 1),
        code: 2,
        text: "A5 B5 A5 .",
        proves: false,
    },
    Row {
        name: "a snapback does not capture",
        size: 5,
        black: "D4 E4 D2 C1",
        white: "B3 D3 C2 E1",
        of: Attack,
        target: "D2",
        depths: (5, 2),
        code: 2,
        text: "E2 * D1 . E3 D1 . B1 D1 . D1 B1 . ;",
        proves: false,
    },
    Row {
        name: "a string without a ko allowance is surely not to be saved",
        size: 5,
        black: "B5 E2",
        white: "B4 C4",
        of: Defend,
        target: "B5",
        depths: (4, 1),
        code: 2,
        text: "* C5 * A5 . A5 A4 . D5 A5 . A4 A5 . ; A5 C5 * A4 . A4 A3 . A3 A4 . ; C5 D5 * A5 . A5 A4 . A4 A5 . ; D5 C5 * A5 . A5 A4 . A4 A5 . ; E5 C5 * A5 . A5 A4 . D5 A5 . A4 A5 . ; A4 C5 * A5 . A5 A3 . D5 A5 . A3 A5 . ; D4 C5 * A5 . A5 A4 . D5 A5 . A4 A5 . ; A3 C5 * A5 . A5 A4 . D5 A5 . A4 A5 . ; ;",
        proves: true,
    },
    Row {
        name: "with one it may be saved by a ko",
        size: 5,
        black: "B5 E2",
        white: "B4 C4",
        of: Defend,
        target: "B5",
        depths: (4, 1),
        code: 1,
        text: "* C5 * A5 . A5 A4 . D5 A5 . A4 A5 . ; A5 C5 * A4 . A4 A3 . A3 A4 . ; C5 D5 * A5 . A5 A4 . A4 A5 . ; D5 C5 * A5 . A5 A4 . A4 A5 . ; E5 C5 * A5 . A5 A4 . D5 A5 . A4 A5 . ; A4 C5 * A5 . A5 A3 . D5 A5 . A3 A5 . ; D4 C5 * A5 . A5 A4 . D5 A5 . A4 A5 . ; A3 C5 * A5 . A5 A4 . D5 A5 . A4 A5 . ; ;",
        proves: false,
    },
];

/// The point of a vertex.
fn vertex(size: Size, name: &str) -> Option<Point>
    ensures { IfSome result (λ p. p < size * size) }
{
    let p = vertex_named(name.as_bytes(), size)?;
    if p < size.points() { Some(p) } else { None }
}

/// The point of a vertex, if a stone stands there.
fn stone(position: &Position, name: &str) -> Option<Point>
    ensures on_board { IfSome result (λ p. p < position.now.size * position.now.size) }
    ensures stone { IfSome result (λ p. cell_at position.now.cells p ≢ Cell.Empty) }
{
    let p = vertex(position.size(), name)?;
    if position.cell(p) == Cell::Empty {
        return None;
    }
    Some(p)
}

/// The position after plays of this colour at the vertices `names`.
fn with_stones(position: Position, colour: Colour, names: &str) -> Option<Position> {
    let mut position = position;
    for name in names.split_whitespace() {
        let p = vertex(position.size(), name)?;
        position = position.play(colour, p).ok()?;
    }
    Some(position)
}

/// The position of a row.
fn position(row: &Row) -> Option<Position> {
    let position = Position::new(Size::new(row.size)?);
    with_stones(
        with_stones(position, Colour::Black, row.black)?,
        Colour::White,
        row.white,
    )
}

/// Whether the checker, in this tree, answers about the row's text what the row says.
fn is_right(row: &Row, tree: Tree) -> Option<bool> {
    let position = position(row)?;
    let target = stone(&position, row.target)?;
    let (plies, wide) = row.depths;
    let depths = Depths::new(plies, wide)?.in_tree(tree);
    let told = checks_surely(
        &position,
        row.of,
        target,
        depths,
        row.code,
        row.text.as_bytes(),
    );
    Some(told == row.proves)
}

#[test]
fn texts_are_told_from_proofs(rt: HostRuntime) {
    for row in &ROWS {
        let right = is_right(row, Tree::Stated);
        assert!(rt; right == Some(true), "{}", row.name);
    }
}

#[test]
fn texts_are_told_from_proofs_in_the_wider_tree(rt: HostRuntime) {
    for row in &WIDER_ROWS {
        let right = is_right(row, Tree::Wider);
        assert!(rt; right == Some(true), "{}", row.name);
    }
}
