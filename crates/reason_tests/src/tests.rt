//! Positions drawn by hand, and why a pattern does not match there. A point is its number in reading order; on a board
//! of 9, the points of the first row are 0 to 8, and E5 in the centre is 40.
use db_read::read;
use go_base::{Cell, Colour, Illegal, NoMemory, Point, Position, Size, Transform};
use helpers::{Helper, Helpers, NearEdge, NoBan};
use match_reasons::{Misfit, Reason, first_reason};
use pat_types::{Drawn, Letter, Pattern};
use read_rules::{Answer, Depths, Spot};
use std::alloc::Global;

/// A row: a pattern that is tried at a point of a board of 9.
#[derive(Clone, Copy)]
struct Row {
    /// What the row shows.
    name: &'static str,
    /// The text of the pattern.
    text: &'static [u8],
    /// The black plays, before the white ones.
    black: &'static [Point],
    /// The white plays.
    white: &'static [Point],
    /// The colour for which the pattern is tried.
    friend: Colour,
    /// The number of the transformation.
    transform: u8,
    /// The point of the pattern's star.
    at: Point,
    /// The expected reason.
    want: Option<Reason>,
    /// How often the try asks `near_edge` and `no_ban`.
    calls: (u64, u64),
}

/// What most rows have: no stones, black as the friend, the diagram as drawn, and no call of a helper.
const MOST: Row = Row {
    name: "",
    text: b"",
    black: &[],
    white: &[],
    friend: Colour::Black,
    transform: 0,
    at: 0,
    want: None,
    calls: (0, 0),
};

/// A row for each part of the definition that fails first.
static ROWS: [Row; 21] = [
    Row {
        name: "a match has no reason, and asks each helper",
        text: b"Pattern P\nO*\n:8,s,near_edge,no_ban",
        black: &[38],
        transform: 2,
        at: 37,
        calls: (1, 1),
        ..MOST
    },
    Row {
        name: "a stone is missing",
        text: b"Pattern P\nO*\n:8,s",
        at: 40,
        want: Some(Reason::Misfit(Misfit {
            row: 0,
            column: 0,
            drawn: Drawn::Shows(Letter::Friend),
            there: Some((39, Cell::Empty)),
        })),
        ..MOST
    },
    Row {
        name: "a stone has the other colour",
        text: b"Pattern P\nO*\n:8,s",
        black: &[39],
        friend: Colour::White,
        at: 40,
        want: Some(Reason::Misfit(Misfit {
            row: 0,
            column: 0,
            drawn: Drawn::Shows(Letter::Friend),
            there: Some((39, Cell::Black)),
        })),
        ..MOST
    },
    Row {
        name: "the first cell in reading order is told",
        text: b"Pattern P\n?O\n*X\n:8,s",
        at: 40,
        want: Some(Reason::Misfit(Misfit {
            row: 0,
            column: 1,
            drawn: Drawn::Shows(Letter::Friend),
            there: Some((32, Cell::Empty)),
        })),
        ..MOST
    },
    // Turned a quarter clockwise, `O*X` stands from above to below: A9 is black, and A7 ought to be white.
    Row {
        name: "the cell is one of the drawing, and its point is that of the turned diagram",
        text: b"Pattern P\nO*X\n:8,s",
        black: &[0],
        transform: 1,
        at: 9,
        want: Some(Reason::Misfit(Misfit {
            row: 0,
            column: 2,
            drawn: Drawn::Shows(Letter::Enemy),
            there: Some((18, Cell::Empty)),
        })),
        ..MOST
    },
    Row {
        name: "a letter lies off the board",
        text: b"Pattern P\nO*\n:8,s",
        at: 0,
        want: Some(Reason::Misfit(Misfit {
            row: 0,
            column: 0,
            drawn: Drawn::Shows(Letter::Friend),
            there: None,
        })),
        ..MOST
    },
    Row {
        name: "a stone stands where the move is to be played",
        text: b"Pattern P\nO*\n:8,s",
        black: &[40],
        white: &[41],
        at: 41,
        want: Some(Reason::Misfit(Misfit {
            row: 0,
            column: 1,
            drawn: Drawn::Shows(Letter::Star),
            there: Some((41, Cell::White)),
        })),
        ..MOST
    },
    Row {
        name: "the board goes on behind an edge on the right",
        text: b"Pattern P\nO*|\n:8,s",
        black: &[40],
        at: 41,
        want: Some(Reason::Misfit(Misfit {
            row: 0,
            column: 2,
            drawn: Drawn::OffBoard,
            there: Some((42, Cell::Empty)),
        })),
        ..MOST
    },
    Row {
        name: "the board goes on over an edge above",
        text: b"Pattern P\n--\nO*\n:O,s",
        black: &[40],
        at: 41,
        want: Some(Reason::Misfit(Misfit {
            row: -1,
            column: 0,
            drawn: Drawn::OffBoard,
            there: Some((31, Cell::Empty)),
        })),
        ..MOST
    },
    Row {
        name: "the move is suicide, and class s does not help",
        text: b"Pattern P\n*X\nX?\n:O,s",
        white: &[1, 9],
        at: 0,
        want: Some(Reason::Illegal(Illegal::Suicide)),
        ..MOST
    },
    // White takes C8 from B8, and Black may not take back at once.
    //   . X O .
    //   X O * O
    //   . X O .
    Row {
        name: "the ko ban forbids the move",
        text: b"Pattern P\nX*X\n:O,s",
        black: &[1, 9, 19, 11],
        white: &[2, 12, 20, 10],
        at: 11,
        want: Some(Reason::Illegal(Illegal::Ko)),
        ..MOST
    },
    // White stands on C4, D5 and E4: a stone on D4 has one liberty, D3.
    Row {
        name: "the stone that is played is captured at its last liberty",
        text: b"Pattern P\n?X?\nX*X\n:|",
        white: &[47, 49, 39],
        at: 48,
        want: Some(Reason::Unsafe(Answer {
            code: 3,
            at: Some(Spot::At(57)),
        })),
        ..MOST
    },
    // Black stands on A2 and B1: a white stone on A1 has no liberty.
    Row {
        name: "class n asks for a play that the enemy may make",
        text: b"Pattern P\n*O\n:O,ns",
        black: &[73, 63],
        at: 72,
        want: Some(Reason::EnemyIllegal(Illegal::Suicide)),
        ..MOST
    },
    // Black stands on B1: a white stone on A1 has one liberty, A2. The first point in reading order that captures it is
    // A3, since a stone on A2 would have one liberty, B2.
    Row {
        name: "class n asks for a play by which the enemy is safe",
        text: b"Pattern P\n*O\n:O,ns",
        black: &[73],
        at: 72,
        want: Some(Reason::EnemyUnsafe(Answer {
            code: 3,
            at: Some(Spot::At(54)),
        })),
        ..MOST
    },
    // A stone on A5 has three liberties.
    Row {
        name: "the constraint is 0",
        text: b"Pattern P\nO*\n:O,s\nA*\n;lib(A)>3",
        black: &[36],
        at: 37,
        want: Some(Reason::Constraint),
        ..MOST
    },
    // D5 and E5 lie in the middle of the board.
    Row {
        name: "the first helper says no, and the second is not asked",
        text: b"Pattern P\nO*\n:8,s,near_edge,no_ban",
        black: &[39],
        at: 40,
        want: Some(Reason::Helper(0)),
        calls: (1, 0),
        ..MOST
    },
    Row {
        name: "a field with a text in parentheses is no helper, but is counted",
        text: b"Pattern P\nO*\n:8,s,value(5),near_edge",
        black: &[39],
        at: 40,
        want: Some(Reason::Helper(1)),
        calls: (1, 0),
        ..MOST
    },
    Row {
        name: "a helper whose name stands twice is asked once",
        text: b"Pattern P\nO*\n:8,s,no_ban,no_ban,near_edge",
        black: &[39],
        at: 40,
        want: Some(Reason::Helper(2)),
        calls: (1, 1),
        ..MOST
    },
    Row {
        name: "the diagram is told before the constraint and the helper",
        text: b"Pattern P\nO*\n:8,-,near_edge\nA*\n;lib(A)>3",
        at: 40,
        want: Some(Reason::Misfit(Misfit {
            row: 0,
            column: 0,
            drawn: Drawn::Shows(Letter::Friend),
            there: Some((39, Cell::Empty)),
        })),
        ..MOST
    },
    Row {
        name: "the stone's safety is told before the constraint",
        text: b"Pattern P\n?X?\nX*X\n:|\n?A?\nX*X\n;lib(A)>9",
        white: &[47, 49, 39],
        at: 48,
        want: Some(Reason::Unsafe(Answer {
            code: 3,
            at: Some(Spot::At(57)),
        })),
        ..MOST
    },
    Row {
        name: "the constraint is told before the helper, which is not asked",
        text: b"Pattern P\nO*\n:8,s,near_edge\nA*\n;lib(A)==9",
        black: &[39],
        at: 40,
        want: Some(Reason::Constraint),
        ..MOST
    },
];

/// The helpers `near_edge` and `no_ban`.
pub(crate) fn new_helpers(alloc: Global) -> Result<Helpers, NoMemory> {
    let mut list: Vec<Box<dyn Helper>> = Vec::new(alloc);
    list.push(Box::new(alloc, NearEdge::new())?)?;
    list.push(Box::new(alloc, NoBan::new())?)?;
    Helpers::new(alloc, list)
}

/// The patterns that `text` spells.
pub(crate) fn patterns_of(alloc: Global, text: &[u8]) -> Option<Vec<Pattern>> {
    let names = new_helpers(alloc).ok()?.names(alloc).ok()?;
    read(alloc, text, names.as_slice(), Vec::new(alloc)).ok()
}

/// The position after more plays of one colour.
pub(crate) fn with_more(position: Position, colour: Colour, plays: &[Point]) -> Option<Position> {
    let mut position = position;
    for p in plays {
        if *p >= position.size().points() {
            return None;
        }
        position = position.play(colour, *p).ok()?;
    }
    Some(position)
}

/// The position of `row`.
fn position_of(row: &Row) -> Option<Position> {
    let position = Position::new(Size::new(9)?);
    let position = with_more(position, Colour::Black, row.black)?;
    with_more(position, Colour::White, row.white)
}

/// The reason in `row`, and how often its helpers were asked. Readings go three plies deep, two of them wide.
fn answer_to(alloc: Global, row: &Row) -> Option<(Option<Reason>, (u64, u64))> {
    let position = position_of(row)?;
    if row.at >= position.size().points() {
        return None;
    }
    let patterns = patterns_of(alloc, row.text)?;
    let mut helpers = new_helpers(alloc).ok()?;
    let reason = first_reason(
        patterns.first()?,
        &position,
        row.friend,
        Transform::new(row.transform)?,
        row.at,
        Depths::new(3, 2)?,
        &mut helpers,
    );
    let calls = (helpers.calls(b"near_edge")?, helpers.calls(b"no_ban")?);
    Some((reason, calls))
}

#[test]
fn the_first_part_that_fails_is_told(rt: HostRuntime) {
    for row in &ROWS {
        let answer = answer_to(rt.alloc(), row);
        assert!(rt; answer == Some((row.want, row.calls)), "{}", row.name);
    }
}
