//! The matches of diagrams: under which transformations, and at which edges.
use super::rows::{MOST, Row};
use super::{
    AT_THE_EDGE, FROM_THE_LEFT, Found, IN_THE_CORNER, OVER_THE_BOTTOM, SMALLEST, UNDER_THE_TOP,
};
use go_base::Colour;

/// The smallest pattern with an enemy's stone instead of the friend's.
const AGAINST: &[u8] = b"Pattern Q\nX*\n:8,s";

/// The longest row: a move in the last column of the largest board, and empty points before it.
const LONGEST_ROW: &[u8] = b"Pattern L\n........................*\n:O,s";

/// The matches of the smallest pattern around a stone in the middle of a board of 3.
const AROUND_THE_MIDDLE: [Found; 8] = [
    (0, 0, 5),
    (0, 1, 7),
    (0, 2, 3),
    (0, 3, 1),
    (0, 4, 3),
    (0, 5, 1),
    (0, 6, 5),
    (0, 7, 7),
];

/// The matches of the longest row, in the last column of the largest board.
const LAST_COLUMN: [Found; 25] = [
    (0, 0, 24),
    (0, 0, 49),
    (0, 0, 74),
    (0, 0, 99),
    (0, 0, 124),
    (0, 0, 149),
    (0, 0, 174),
    (0, 0, 199),
    (0, 0, 224),
    (0, 0, 249),
    (0, 0, 274),
    (0, 0, 299),
    (0, 0, 324),
    (0, 0, 349),
    (0, 0, 374),
    (0, 0, 399),
    (0, 0, 424),
    (0, 0, 449),
    (0, 0, 474),
    (0, 0, 499),
    (0, 0, 524),
    (0, 0, 549),
    (0, 0, 574),
    (0, 0, 599),
    (0, 0, 624),
];

/// Matches of diagrams. No class letter, constraint or item of these patterns asks for more.
pub(super) static DIAGRAMS: [Row; 21] = [
    Row {
        name: "the smallest pattern has eight placements around a stone in the middle",
        text: SMALLEST,
        side: 3,
        black: &[4],
        want: &AROUND_THE_MIDDLE,
        ..MOST
    },
    Row {
        name: "four around a stone in the corner",
        text: SMALLEST,
        black: &[0],
        want: &[(0, 0, 1), (0, 1, 9), (0, 6, 1), (0, 7, 9)],
        ..MOST
    },
    Row {
        name: "and none without a stone of the friend",
        text: SMALLEST,
        side: 3,
        black: &[4],
        friend: Colour::White,
        ..MOST
    },
    Row {
        name: "a mark of four limits the transformations",
        text: b"Pattern P\nO*\n:-,s",
        side: 3,
        black: &[4],
        want: &[(0, 0, 5), (0, 1, 7), (0, 2, 3), (0, 3, 1)],
        ..MOST
    },
    Row {
        name: "and so does a mark of one",
        text: b"Pattern P\nO*\n:O,s",
        side: 3,
        black: &[4],
        want: &[(0, 0, 5)],
        ..MOST
    },
    Row {
        name: "a drawn edge is found beside the move",
        text: AT_THE_EDGE,
        black: &[43],
        want: &[(0, 0, 44), (0, 6, 44)],
        ..MOST
    },
    Row {
        name: "and none in the middle",
        text: AT_THE_EDGE,
        black: &[40],
        ..MOST
    },
    // The list has a friend's stone in its diagram, and the automaton one of the enemy.
    Row {
        name: "diagrams are found by the automaton given: nothing for black",
        text: SMALLEST,
        others: Some(AGAINST),
        side: 3,
        black: &[4],
        ..MOST
    },
    Row {
        name: "and all eight for white",
        text: SMALLEST,
        others: Some(AGAINST),
        side: 3,
        black: &[4],
        friend: Colour::White,
        want: &AROUND_THE_MIDDLE,
        ..MOST
    },
    Row {
        name: "an edge is found under the top edge",
        text: UNDER_THE_TOP,
        black: &[4],
        want: &[(0, 0, 5)],
        ..MOST
    },
    Row {
        name: "not over the bottom edge",
        text: UNDER_THE_TOP,
        black: &[76],
        ..MOST
    },
    Row {
        name: "and not in the second row",
        text: UNDER_THE_TOP,
        black: &[13],
        ..MOST
    },
    Row {
        name: "an edge is found over the bottom edge",
        text: OVER_THE_BOTTOM,
        black: &[76],
        want: &[(0, 0, 77)],
        ..MOST
    },
    Row {
        name: "not under the top edge",
        text: OVER_THE_BOTTOM,
        black: &[4],
        ..MOST
    },
    Row {
        name: "an edge is found beside the left edge",
        text: FROM_THE_LEFT,
        black: &[36],
        want: &[(0, 0, 37)],
        ..MOST
    },
    Row {
        name: "not in the second column",
        text: FROM_THE_LEFT,
        black: &[37],
        ..MOST
    },
    Row {
        name: "a corner is found in the lower right corner",
        text: IN_THE_CORNER,
        black: &[79],
        want: &[(0, 0, 80)],
        ..MOST
    },
    Row {
        name: "not in the upper right corner",
        text: IN_THE_CORNER,
        black: &[7],
        ..MOST
    },
    Row {
        name: "not in the lower left corner",
        text: IN_THE_CORNER,
        black: &[72],
        ..MOST
    },
    Row {
        name: "and not above the corner",
        text: IN_THE_CORNER,
        black: &[70],
        ..MOST
    },
    Row {
        name: "the longest row ends in the last column, once in each row of the board",
        text: LONGEST_ROW,
        side: 25,
        want: &LAST_COLUMN,
        ..MOST
    },
];
