//! Which texts begin with a tree.

use super::Record;

/// Texts that begin with a tree, and texts that do not.
pub(super) static TREES: [Record; 25] = [
    ("no text", b"", 1),
    ("no bracket", b";B[aa]", 1),
    ("a tree without a node", b"()", 1),
    ("the smallest record", b"(;)", 0),
    ("text before the first tree", b"a;)[(;)", 0),
    ("bytes after the first tree", b"(;)))](;SZ[1", 0),
    ("a second tree with a fault", b"(;SZ[9])(;SZ[1])", 0),
    ("a name without a value", b"(;B)", 1),
    ("a name without a capital", b"(;b[])", 1),
    ("a value without a name", b"(;[])", 1),
    (
        "blanks between tokens",
        b" ( ; \t\r\n B [aa] \x0B [bb] \x0C ; ( ; ) ) ",
        0,
    ),
    (
        "lines that end in CR LF",
        b"(;FF[4]\r\nSZ[9]\r\n;B[aa]\r\n;W[bb]\r\n)\r\n",
        0,
    ),
    ("a blank inside a name", b"(;A B[aa])", 1),
    ("a byte that is no token", b"(;1)", 1),
    ("a node behind a subtree", b"(;(;);)", 1),
    ("a subtree that is broken", b"(;(;B[aa])(;B))", 1),
    ("a subtree that is not ended", b"(;(;)", 1),
    ("a value that is not ended", b"(;C[", 1),
    ("a backslash before the last bracket", b"(;C[\\])", 1),
    ("a backslash at the end", b"(;C[\\", 1),
    ("a backslash outside values", b"(;\\)", 1),
    ("a bracket behind a backslash", b"(;C[\\]])", 0),
    ("two backslashes", b"(;C[\\\\])", 0),
    ("brackets of trees in a value", b"(;C[)(;])", 0),
    (
        "a property that is passed over",
        b"(;KM[x]LB[aa:1]ABC[zz]TB[zz])",
        0,
    ),
];
