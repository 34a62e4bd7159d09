//! Colours and vertices.

use super::{Asks, Row, Says, compare};
use go_base::{Colour, Size};
use gtp_cmd::vertex_text;
use std::panic::Expect;

static COLOURS_AND_VERTICES: [Row; 14] = [
    (
        "the corner at the top left",
        "play b A9",
        Says::Command(Asks::Play(Colour::Black, Some(0))),
    ),
    (
        "no column is called I",
        "play w J1",
        Says::Command(Asks::Play(Colour::White, Some(80))),
    ),
    (
        "either case, leading zero",
        "play WhitE d04",
        Says::Command(Asks::Play(Colour::White, Some(48))),
    ),
    (
        "a pass",
        "is_legal BLACK PaSS",
        Says::Command(Asks::IsLegal(Colour::Black, None)),
    ),
    (
        "words after the arguments",
        "countlib D4 E5",
        Says::Command(Asks::CountLib(48)),
    ),
    ("the column I", "play b I5", Says::Malformed),
    ("a column past the board", "play b K1", Says::Malformed),
    ("row 0", "play b A0", Says::Malformed),
    ("a row past the board", "play b A10", Says::Malformed),
    ("three digits", "play b A001", Says::Malformed),
    ("no row", "play b A", Says::Malformed),
    ("no vertex", "play b", Says::Malformed),
    ("no colour", "all_legal grey", Says::Malformed),
    ("a pass where none may be", "findlib pass", Says::Malformed),
];

static VERTICES_OF_THE_LARGEST_BOARD: [Row; 5] = [
    (
        "the corner at the top right",
        "countlib Z25",
        Says::Command(Asks::CountLib(24)),
    ),
    (
        "the corner at the bottom right",
        "countlib z1",
        Says::Command(Asks::CountLib(624)),
    ),
    (
        "no column of the largest board is called I",
        "countlib J25",
        Says::Command(Asks::CountLib(8)),
    ),
    (
        "the column I of the largest board",
        "countlib I25",
        Says::Malformed,
    ),
    (
        "a row past the largest board",
        "countlib A26",
        Says::Malformed,
    ),
];

/// Lines on the smallest board, which has two rows.
static TWO_POINTS_TO_CONNECT: [Row; 7] = [
    (
        "two points",
        "connect A2 B1",
        Says::Command(Asks::Connect(0, 3)),
    ),
    (
        "two points in their order",
        "disconnect b1 a2",
        Says::Command(Asks::Disconnect(3, 0)),
    ),
    (
        "one point twice",
        "connect A1 A1",
        Says::Command(Asks::Connect(2, 2)),
    ),
    (
        "the first is off the board",
        "connect C1 A1",
        Says::Malformed,
    ),
    (
        "the second is off the board",
        "connect A1 A3",
        Says::Malformed,
    ),
    ("one point", "connect A1", Says::Malformed),
    ("no point", "disconnect", Says::Malformed),
];

static TWO_POINTS_OF_THE_LARGEST_BOARD: [Row; 3] = [
    (
        "two points of the largest board",
        "connect Z1 J25 A1",
        Says::Command(Asks::Connect(624, 8)),
    ),
    (
        "a first point in the column I",
        "disconnect I1 A1",
        Says::Malformed,
    ),
    (
        "a pass as the second point",
        "disconnect A1 pass",
        Says::Malformed,
    ),
];

static MOVES_THAT_ARE_CHOSEN: [Row; 5] = [
    (
        "a colour",
        "genmove b",
        Says::Command(Asks::GenMove(Colour::Black)),
    ),
    (
        "a colour in capitals",
        "reg_genmove WHITE",
        Says::Command(Asks::RegGenMove(Colour::White)),
    ),
    (
        "words after the colour",
        "genmove w b",
        Says::Command(Asks::GenMove(Colour::White)),
    ),
    ("no colour to choose for", "genmove", Says::Malformed),
    (
        "a word that is no colour",
        "reg_genmove green",
        Says::Malformed,
    ),
];

#[test]
fn corners_of_the_largest_board_are_told(rt: HostRuntime) {
    let size = Size::new(25).expect(&rt, "the size is one of a board");
    assert!(rt; vertex_text(size, 24).as_slice() == b"Z25".as_slice());
    assert!(rt; vertex_text(size, 624).as_slice() == b"Z1".as_slice());
}

#[test]
fn lines_of_moves_and_points_say_what_their_rows_have(rt: HostRuntime) {
    compare(&rt, 9, &COLOURS_AND_VERTICES);
    compare(&rt, 25, &VERTICES_OF_THE_LARGEST_BOARD);
    compare(&rt, 2, &TWO_POINTS_TO_CONNECT);
    compare(&rt, 25, &TWO_POINTS_OF_THE_LARGEST_BOARD);
    compare(&rt, 9, &MOVES_THAT_ARE_CHOSEN);
}
