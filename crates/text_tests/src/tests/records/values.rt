//! What values say: sizes, points, rectangles and moves.

use super::Record;

/// Sizes are digits, from 2 to 25.
pub(super) static SIZES: [Record; 17] = [
    (
        "a size of leading zeros",
        b"(;SZ[0000000000000000000000009];B[ii])",
        0,
    ),
    ("a size with a blank", b"(;SZ[ 9])", 2),
    ("an empty size", b"(;SZ[])", 2),
    ("a size of two numbers", b"(;SZ[19:19])", 2),
    ("size 0", b"(;SZ[0])", 2),
    ("size 1", b"(;SZ[1])", 2),
    ("size 2", b"(;SZ[2])", 0),
    ("size 25", b"(;SZ[25])", 0),
    ("size 26", b"(;SZ[26])", 2),
    (
        "a size of many digits",
        b"(;SZ[100000000000000000000000000009])",
        2,
    ),
    ("a digit behind a backslash", b"(;SZ[\\9];B[ii])", 0),
    ("two sizes, the second faulty", b"(;SZ[9]SZ[x])", 0),
    ("two sizes, the first counts", b"(;SZ[9]SZ[19];B[jj])", 3),
    ("two values of SZ, the second faulty", b"(;SZ[9][x])", 0),
    ("no size is 19", b"(;B[ss])", 0),
    (
        "a size in the second node is not used",
        b"(;;SZ[9];B[ss])",
        0,
    ),
    ("a size behind the points of its node", b"(;AB[ss]SZ[9])", 3),
];

/// Points are two letters on the board.
pub(super) static POINTS: [Record; 18] = [
    ("a point of one letter", b"(;B[a])", 3),
    ("a point of three letters", b"(;B[aaa])", 3),
    ("a capital in a point", b"(;B[Aa])", 3),
    ("a blank before a point", b"(;B[ aa])", 3),
    ("a column off the board", b"(;SZ[9];B[ja])", 3),
    ("a row off the board", b"(;SZ[9];B[aj])", 3),
    ("the last point", b"(;SZ[9];B[ii])", 0),
    ("the last point of the largest board", b"(;SZ[25];B[yy])", 0),
    ("a letter behind a backslash", b"(;SZ[9];B[\\i\\i])", 0),
    ("an empty point of AB", b"(;AB[])", 3),
    ("tt of AB", b"(;SZ[9]AB[tt])", 3),
    ("a rectangle of one point", b"(;AB[cc:cc])", 0),
    ("rows out of order", b"(;AB[cd:dc])", 3),
    ("columns out of order", b"(;AB[dc:cd])", 3),
    ("a rectangle that is not ended", b"(;AB[cc:d])", 3),
    ("a rectangle with another sign", b"(;AB[cc;dd])", 3),
    ("a rectangle off the board", b"(;SZ[9]AE[aa:jj])", 3),
    ("a rectangle as a move", b"(;B[cc:dd])", 3),
];

/// `tt` is a pass up to 19 lines.
pub(super) static PASSES: [Record; 6] = [
    ("tt at 9", b"(;SZ[9];B[tt])", 0),
    ("tt at 19 twice", b"(;B[tt];W[tt];B[tt])", 0),
    ("tt at 20 twice", b"(;SZ[20];B[tt];W[tt])", 5),
    ("the empty value at 20 twice", b"(;SZ[20];B[];W[])", 0),
    ("Tt", b"(;SZ[9];B[Tt])", 3),
    ("ts", b"(;SZ[9];B[ts])", 3),
];
