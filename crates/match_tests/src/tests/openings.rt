//! A list whose automaton is large enough for a table of openings, and its patterns alone, whose automata have none.
use super::{Found, MOST_ROWS, matches_in, patterns_of, with_both};
use dfa_join::compile;
use dfa_shortcuts::Shortcuts;
use go_base::{Colour, Point};
use pat_types::Pattern;
use std::alloc::Global;
use std::panic::Expect;
use std::process::Abort;

/// How many openings there are: words of nine letters out of four.
const OPENINGS: u32 = 262_144;

/// A pattern of the long list. A plain program, which compares each diagram with the board, counted how often it
/// matches in the game.
struct Shape {
    /// The text of the pattern.
    text: &'static [u8],
    /// How many rows the pattern's own automaton has: two more than the letters of the words that it accepts. If there
    /// are eleven rows or fewer, it accepts within an opening.
    rows: u32,
    /// How often it matches for black under each transformation.
    black: [usize; 8],
    /// How often it matches for white under each transformation.
    white: [usize; 8],
}

// A game: `X` is black and `O` is white.
//
// . . O . X . . . .
// . . . X . O . . .
// . . X . . O . O .
// . . . . O X . . .
// X . . . X O . . .
// . . . X . O X O .
// . X O . . . X . .
// O X . O X O . . X
// . . O X . . O . .

/// The black stones of the game.
static BLACK: [Point; 14] = [4, 12, 20, 32, 36, 40, 48, 51, 55, 60, 64, 67, 71, 75];

/// The white stones of the game.
static WHITE: [Point; 14] = [2, 14, 23, 25, 31, 41, 50, 52, 56, 63, 66, 68, 74, 78];

/// The long list. `Edge` and `Corner` draw an edge beside the stone that is read first, so the edge lies within an
/// opening.
static SHAPES: [Shape; 18] = [
    Shape {
        text: b"Pattern Hane\nOX\n*?\n:8,s\n",
        rows: 9,
        black: [2, 0, 2, 2, 2, 1, 3, 1],
        white: [2, 3, 3, 1, 3, 0, 4, 1],
    },
    Shape {
        text: b"Pattern Cut\nXO\nO*\n:8,s\n",
        rows: 9,
        black: [1, 0, 0, 0, 0, 0, 0, 1],
        white: [0, 0, 2, 0, 0, 2, 0, 0],
    },
    Shape {
        text: b"Pattern Attach\nX*\n.O\n:8,s\n",
        rows: 9,
        black: [1, 0, 2, 2, 0, 2, 2, 1],
        white: [2, 2, 1, 0, 2, 1, 0, 2],
    },
    Shape {
        text: b"Pattern Diagonal\n?.?\n?O?\n*?X\n:8,s\n",
        rows: 11,
        black: [0, 1, 0, 1, 2, 0, 1, 0],
        white: [0, 2, 1, 0, 1, 1, 2, 1],
    },
    Shape {
        text: b"Pattern Shoulder\n?*.\nX.?\n:8,s\n",
        rows: 18,
        black: [3, 1, 4, 4, 0, 4, 1, 2],
        white: [1, 2, 1, 2, 3, 3, 3, 1],
    },
    Shape {
        text: b"Pattern Peep\nX*X\n??.\n:8,s\n",
        rows: 19,
        black: [1, 1, 0, 1, 0, 1, 1, 1],
        white: [0, 0, 0, 0, 0, 0, 0, 0],
    },
    Shape {
        text: b"Pattern Edge\n?*O|\n?..|\n:8,s\n",
        rows: 26,
        black: [1, 0, 1, 0, 1, 0, 1, 0],
        white: [0, 0, 0, 0, 0, 1, 0, 1],
    },
    Shape {
        text: b"Pattern Corner\n*.O?|\n----+\n:8,s\n",
        rows: 26,
        black: [0, 0, 0, 0, 0, 0, 0, 1],
        white: [0, 1, 0, 0, 0, 0, 0, 0],
    },
    Shape {
        text: b"Pattern Jump\n*.O\n:8,s\n",
        rows: 26,
        black: [6, 6, 6, 5, 6, 5, 6, 6],
        white: [5, 5, 5, 2, 5, 2, 5, 5],
    },
    Shape {
        text: b"Pattern DiagonalJump\n??O\n?.?\n*??\n:8,s\n",
        rows: 26,
        black: [0, 3, 3, 1, 1, 0, 3, 3],
        white: [4, 3, 3, 2, 2, 4, 3, 3],
    },
    Shape {
        text: b"Pattern LargeKnight\n???O\n*..?\n:8,s\n",
        rows: 49,
        black: [1, 0, 1, 1, 1, 1, 1, 3],
        white: [1, 2, 4, 2, 1, 1, 0, 3],
    },
    Shape {
        text: b"Pattern TwoPointJump\n*..O\n:8,s\n",
        rows: 49,
        black: [4, 5, 3, 2, 3, 2, 4, 5],
        white: [1, 1, 3, 1, 3, 1, 1, 1],
    },
    Shape {
        text: b"Pattern Stand\n??Ox\n?*OX\n:8,s\n",
        rows: 26,
        black: [0, 0, 0, 0, 1, 0, 0, 0],
        white: [1, 0, 1, 0, 0, 0, 0, 0],
    },
    Shape {
        text: b"Pattern Row\n*??OO\n:8,s\n",
        rows: 49,
        black: [0, 2, 0, 0, 0, 0, 0, 2],
        white: [0, 0, 0, 1, 0, 1, 0, 0],
    },
    Shape {
        text: b"Pattern Tower\n???x\n???O\n*??O\n:8,s\n",
        rows: 50,
        black: [1, 0, 1, 0, 0, 0, 0, 0],
        white: [1, 0, 2, 0, 2, 0, 2, 0],
    },
    Shape {
        text: b"Pattern Open\n??...\n???O?\n*????\n:8,s\n",
        rows: 50,
        black: [1, 0, 0, 0, 1, 1, 0, 0],
        white: [1, 1, 0, 2, 0, 1, 1, 1],
    },
    Shape {
        text: b"Pattern Base\n???o\n???O\n*?.?\n:8,s\n",
        rows: 50,
        black: [2, 1, 3, 1, 2, 1, 2, 1],
        white: [1, 2, 3, 2, 2, 1, 1, 1],
    },
    Shape {
        text: b"Pattern Cap\n?????o\n*??O??\n?????X\n:8,s\n",
        rows: 50,
        black: [1, 1, 0, 0, 0, 0, 2, 1],
        white: [0, 0, 3, 0, 1, 1, 0, 1],
    },
];

/// The patterns of the long list.
fn long_list(alloc: Global) -> Option<Vec<Pattern>> {
    let mut text = Vec::new(alloc);
    for shape in &SHAPES {
        text.extend_from_slice(shape.text).ok()?;
    }
    patterns_of(alloc, &text)
}

/// How many rows the automaton of a list has, and its shortcuts.
fn rows_and_shortcuts(alloc: Global, patterns: &[Pattern]) -> Option<(u32, Shortcuts)> {
    if patterns.len() > 4096 {
        return None;
    }
    let automaton = compile(alloc, patterns, MOST_ROWS).ok()?;
    let shortcuts = Shortcuts::of(alloc, &automaton).ok()?;
    Some((automaton.rows(), shortcuts))
}

/// How many openings have a known row after them.
fn known_openings(shortcuts: &Shortcuts) -> u32 {
    let mut known = 0_u32;
    for number in 0..OPENINGS {
        known = known.saturating_add(u32::from(shortcuts.opening(number).is_some()));
    }
    known
}

/// The matches of `patterns` in the game.
fn found_in_the_game(alloc: Global, patterns: &[Pattern], friend: Colour) -> Option<Vec<Found>> {
    let position = with_both(9, &BLACK, &WHITE)?;
    matches_in(alloc, patterns, &position, friend)
}

/// How many of the matches in `found` belong to the pattern `number`, under each transformation.
fn counted(found: &[Found], number: usize) -> [usize; 8] {
    let mut counts = [0_usize; 8];
    for (pattern, transform, _) in found {
        match counts.get_mut(usize::from(*transform)) {
            Some(count) if usize::from(*pattern) == number => *count = count.saturating_add(1),
            _ => {}
        }
    }
    counts
}

/// How often the pattern of `shape` matches for a friend under each transformation.
fn wanted(shape: &Shape, friend: Colour) -> [usize; 8] {
    match friend {
        Colour::Black => shape.black,
        Colour::White => shape.white,
    }
}

/// Checks that the patterns match for the friend as often as the plain program counted.
fn check_counts(rt: &impl Abort, found: &[Found], friend: Colour) {
    for (number, shape) in SHAPES.iter().enumerate() {
        assert!(rt;
            counted(found, number) == wanted(shape, friend),
            "pattern {number}"
        );
    }
}

#[test]
fn openings_lead_to_the_matches_of_a_plain_program(rt: HostRuntime) {
    let patterns = long_list(rt.alloc()).expect(&rt, "the list is one of patterns");
    let black = found_in_the_game(rt.alloc(), &patterns, Colour::Black).expect(&rt, "black");
    check_counts(&rt, &black, Colour::Black);
    let white = found_in_the_game(rt.alloc(), &patterns, Colour::White).expect(&rt, "white");
    check_counts(&rt, &white, Colour::White);
}

/// How many rows the automaton of the long list has, and how many openings have a known row after them.
fn rows_and_openings(alloc: Global) -> Option<(u32, u32)> {
    let (rows, shortcuts) = rows_and_shortcuts(alloc, &long_list(alloc)?)?;
    Some((rows, known_openings(&shortcuts)))
}

// 5,336 of the 262,144 openings are not known: the list accepts a word of two letters or more that begins them.
#[test]
fn openings_of_the_long_list_are_known(rt: HostRuntime) {
    assert!(rt; rows_and_openings(rt.alloc()) == Some((4923, 256_808)));
}

/// How many rows the automaton of one pattern has, or `None` if it has a table of openings.
fn rows_alone(alloc: Global, text: &[u8]) -> Option<u32> {
    let (rows, shortcuts) = rows_and_shortcuts(alloc, &patterns_of(alloc, text)?)?;
    if shortcuts.openings.is_empty() {
        Some(rows)
    } else {
        None
    }
}

#[test]
fn a_pattern_alone_has_no_table_of_openings(rt: HostRuntime) {
    for (number, shape) in SHAPES.iter().enumerate() {
        assert!(rt;
            rows_alone(rt.alloc(), shape.text) == Some(shape.rows),
            "pattern {number}"
        );
    }
}
