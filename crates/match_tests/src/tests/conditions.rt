//! What a match needs beside its diagram: legal moves, safe stones, a true constraint, and helpers that say yes.
use super::rows::{MOST, Row};

/// A move between two white stones under a third, and what is around it.
const UNDER_THREE: &[u8] = b"Pattern P\n?X?\nX*X\n:|";

/// A move on the left of a friend's stone. The played stone need not be safe, but an enemy's stone there has to be.
const SAFE_FOR_BOTH: &[u8] = b"Pattern N\n*O\n:O,ns";

/// A move on the right of a friend's stone that has more than three liberties.
const MANY_LIBERTIES: &[u8] = b"Pattern C\nO*\n:O,s\nA*\n;lib(A)>3";

/// The sample database.
const SAMPLE: &[u8] = b"# sample patterns
attribute_map general

Pattern Atari1
# take away a liberty

?O?       from the side
OX*
?.?

:8,sX,value(20)

?O?
OA*
?.?

;lib(A)==2 && !xplay_attack(*,A)

> test_attack(A)

Pattern Edge1

O*|       first line
..|

:8,D

Pattern Block

?o?
X*X
...

:|,s,value(5)
";

/// Conditions of matches, on boards of 9 with black as the friend.
pub(super) static CONDITIONS: [Row; 15] = [
    Row {
        name: "a stone that can be captured there is read, and refused",
        text: UNDER_THREE,
        white: &[47, 49, 39],
        readings: 1,
        ..MOST
    },
    Row {
        name: "class s skips the reading",
        text: b"Pattern P\n?X?\nX*X\n:|,s",
        white: &[47, 49, 39],
        want: &[(0, 0, 48)],
        ..MOST
    },
    Row {
        name: "whatever letter comes before it",
        text: b"Pattern P\n?X?\nX*X\n:|,Xs",
        white: &[47, 49, 39],
        want: &[(0, 0, 48)],
        ..MOST
    },
    Row {
        name: "class n asks for a safe stone of the enemy: one that lives there",
        text: b"Pattern N\nO*\n:O,ns",
        black: &[40],
        want: &[(0, 0, 41)],
        readings: 1,
        ..MOST
    },
    Row {
        name: "one that can be captured",
        text: SAFE_FOR_BOTH,
        black: &[73],
        readings: 1,
        ..MOST
    },
    Row {
        name: "one that may not be played",
        text: SAFE_FOR_BOTH,
        black: &[73, 63],
        ..MOST
    },
    Row {
        name: "and none without class n",
        text: b"Pattern N\n*O\n:O,s",
        black: &[73, 63],
        want: &[(0, 0, 72)],
        ..MOST
    },
    Row {
        name: "a constraint that is true allows a match",
        text: MANY_LIBERTIES,
        black: &[40],
        want: &[(0, 0, 41)],
        ..MOST
    },
    Row {
        name: "a false constraint refuses a match",
        text: MANY_LIBERTIES,
        black: &[36],
        ..MOST
    },
    Row {
        name: "the labels of a constraint are moved with the diagram",
        text: b"Pattern C\nO*X\n:8,s\nA*B\n;lib(A)<lib(B)",
        black: &[0],
        white: &[18],
        want: &[(0, 1, 9), (0, 7, 9)],
        ..MOST
    },
    // The constraint needs a reading for each of its two moves, and `Edge1` one for the stone of each of its two moves.
    Row {
        name: "the sample database",
        text: SAMPLE,
        black: &[31, 39, 70],
        white: &[40, 10, 12],
        want: &[
            (0, 0, 41),
            (0, 7, 49),
            (1, 0, 71),
            (1, 1, 79),
            (1, 6, 71),
            (1, 7, 79),
            (2, 0, 11),
            (2, 2, 11),
        ],
        readings: 4,
        ..MOST
    },
    // Black stands on C5: of the eight matches of the diagram, the two with the move at B5 are near the edge.
    Row {
        name: "the second helper is asked where the first says yes",
        text: b"Pattern P\nO*\n:8,s,near_edge,no_ban",
        black: &[38],
        want: &[(0, 2, 37), (0, 4, 37)],
        calls: (8, 2),
        ..MOST
    },
    Row {
        name: "a helper whose name stands twice is asked once",
        text: b"Pattern P\nO*\n:8,s,no_ban,near_edge,no_ban",
        black: &[38],
        want: &[(0, 2, 37), (0, 4, 37)],
        calls: (8, 8),
        ..MOST
    },
    Row {
        name: "a constraint is asked before helpers",
        text: b"Pattern P\nO*\n:8,s,near_edge\nA*\n;lib(A)==3",
        black: &[38],
        ..MOST
    },
    Row {
        name: "another pattern's helpers are not asked for a match",
        text: b"Pattern P\nO*\n:O,s,near_edge\nPattern Q\nO*\n:O,s",
        black: &[38],
        want: &[(1, 0, 39)],
        calls: (1, 0),
        ..MOST
    },
];
