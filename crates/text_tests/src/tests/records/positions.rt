//! The positions that records lead to.

use go_base::{Point, Position};
use go_rules::{Cell, Colour};
use sgf_read::read;

/// A record, and the position that its main line leads to.
struct Line {
    /// What the row shows.
    name: &'static str,
    /// The record.
    record: &'static [u8],
    /// The position, row by row from the top.
    drawing: &'static [u8],
    /// Whether the position has a ko ban.
    banned: bool,
    /// The point of a stone of the position; White may not play there.
    stone: Point,
    /// How many liberties the string of this stone has.
    liberties: u16,
}

/// A ko on a board of 4.
pub(super) const KO: &[u8] = b".XO.X.XO.XO.....";

/// The position of a record that was worked by hand.
const WORKED: &[u8] = b"\
    O........\
    .........\
    .........\
    ...XX....\
    ....XX...\
    .........\
    .........\
    .........\
    .........\
    ";

/// Records with the positions that they lead to.
static LINES: [Line; 20] = [
    Line {
        name: "a play",
        record: b"(;SZ[2];B[ba])",
        drawing: b".X..",
        banned: false,
        stone: 1,
        liberties: 2,
    },
    Line {
        name: "the column comes first",
        record: b"(;SZ[3];B[ca];W[ab])",
        drawing: b"..XO.....",
        banned: false,
        stone: 2,
        liberties: 2,
    },
    Line {
        name: "a rectangle",
        record: b"(;SZ[3]AB[ba:cb])",
        drawing: b".XX.XX...",
        banned: false,
        stone: 5,
        liberties: 4,
    },
    Line {
        name: "a later value overrides",
        record: b"(;SZ[3]AB[aa:ca]AW[ba]AE[ca])",
        drawing: b"XO.......",
        banned: false,
        stone: 0,
        liberties: 1,
    },
    Line {
        name: "the later of two properties",
        record: b"(;SZ[2]AW[aa]AB[aa])",
        drawing: b"X...",
        banned: false,
        stone: 0,
        liberties: 2,
    },
    Line {
        name: "AE takes stones away",
        record: b"(;SZ[2]AB[aa][ba];AE[aa])",
        drawing: b".X..",
        banned: false,
        stone: 1,
        liberties: 2,
    },
    Line {
        name: "the old names",
        record: b"(;SiZe[2]AddBlack[aa];White[bb])",
        drawing: b"X..O",
        banned: false,
        stone: 0,
        liberties: 2,
    },
    Line {
        name: "a capture",
        record: b"(;SZ[3]AW[aa]AB[ba];B[ab])",
        drawing: b".X.X.....",
        banned: false,
        stone: 1,
        liberties: 3,
    },
    Line {
        name: "a capture of two stones",
        record: b"(;SZ[3]AW[aa][ba]AB[ca][ab];B[bb])",
        drawing: b"..XXX....",
        banned: false,
        stone: 4,
        liberties: 5,
    },
    Line {
        name: "a string loses its stone again",
        record: b"(;SZ[3]AB[aa]AW[ab][ba]AE[aa])",
        drawing: b".O.O.....",
        banned: false,
        stone: 3,
        liberties: 3,
    },
    Line {
        name: "variations are passed over",
        record: b"(;SZ[2](;B[aa](;W[bb])(;W[ab]))(;B[ba]))",
        drawing: b"X..O",
        banned: false,
        stone: 3,
        liberties: 2,
    },
    Line {
        name: "setup and a play in one node",
        record: b"(;SZ[2]B[bb]AB[aa])",
        drawing: b"X..X",
        banned: false,
        stone: 0,
        liberties: 2,
    },
    Line {
        name: "several moves in one node",
        record: b"(;SZ[2]B[bb]W[aa])",
        drawing: b"O..X",
        banned: false,
        stone: 0,
        liberties: 2,
    },
    Line {
        name: "two plays of a colour in a row",
        record: b"(;SZ[2];B[aa];B[bb])",
        drawing: b"X..X",
        banned: false,
        stone: 3,
        liberties: 2,
    },
    // Black's play at C3 takes the White stone at B3, where White may not take back.
    Line {
        name: "a ban is left",
        record: b"(;SZ[4]AB[ba][ab][bc]AW[ca][cc][db][bb];B[cb])",
        drawing: KO,
        banned: true,
        stone: 6,
        liberties: 1,
    },
    Line {
        name: "a pass lifts the ban",
        record: b"(;SZ[4]AB[ba][ab][bc]AW[ca][cc][db][bb];B[cb];W[])",
        drawing: KO,
        banned: false,
        stone: 6,
        liberties: 1,
    },
    Line {
        name: "a setup lifts the ban",
        record: b"(;SZ[4]AB[ba][ab][bc]AW[ca][cc][db][bb];B[cb];AE[dd])",
        drawing: KO,
        banned: false,
        stone: 6,
        liberties: 1,
    },
    Line {
        name: "another node does not lift the ban",
        record: b"(;SZ[4]AB[ba][ab][bc]AW[ca][cc][db][bb];B[cb];C[dd])",
        drawing: KO,
        banned: true,
        stone: 6,
        liberties: 1,
    },
    // Black plays F5 beside three stones that were set up or played.
    Line {
        name: "the main line of a worked record leads to a string of eight liberties",
        record: b"(;GM[1]FF[4]SZ[9]AB[dd:ed]AW[aa];B[ee](;W[];B[fe])(;W[ab]))",
        drawing: WORKED,
        banned: false,
        stone: 40,
        liberties: 8,
    },
    Line {
        name: "and leaves the stone in the corner",
        record: b"(;GM[1]FF[4]SZ[9]AB[dd:ed]AW[aa];B[ee](;W[];B[fe])(;W[ab]))",
        drawing: WORKED,
        banned: false,
        stone: 0,
        liberties: 2,
    },
];

/// The mark of a cell in a drawing.
fn mark(cell: Cell) -> u8 {
    match cell {
        Cell::Empty => b'.',
        Cell::Black => b'X',
        Cell::White => b'O',
    }
}

/// Whether the position is the one that is drawn, row by row from the top.
pub(super) fn is_drawn(position: &Position, drawing: &[u8]) -> bool {
    let points = position.size().points();
    if drawing.len() != points as usize {
        return false;
    }
    for p in 0..points {
        if drawing[p as usize] != mark(position.cell(p)) {
            return false;
        }
    }
    true
}

/// Whether White may not play at the point `stone`, and the string there has this many liberties.
fn is_string(position: &Position, stone: Point, liberties: u16) -> bool {
    if stone >= position.size().points() {
        return false;
    }
    let refused = position.play(Colour::White, stone).is_err();
    refused && position.liberties(stone) == liberties
}

/// Whether the position is the one of the row.
fn is_reached(position: &Position, line: &Line) -> bool {
    let banned = position.ban().is_some();
    is_drawn(position, line.drawing)
        && banned == line.banned
        && is_string(position, line.stone, line.liberties)
}

#[test]
fn records_lead_to_positions(rt: HostRuntime) {
    for line in &LINES {
        let position = read(line.record).ok();
        assert!(rt;
            position.is_some_and(|p| is_reached(&p, line)),
            "{}",
            line.name
        );
    }
}
