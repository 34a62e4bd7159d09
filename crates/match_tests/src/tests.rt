//! Rows worked by hand. A point is its number in reading order: on a board of 3, B3 is 1, A2 is 3, C2 is 5 and B1 is 7.
mod automata;
mod choices;
mod conditions;
mod diagrams;
mod openings;
mod readings;
mod rows;
mod sizes;
mod spirals;

use db_read::read;
use dfa_join::{JoinError, compile};
use dfa_match::Scanner;
use go_base::{Colour, NoMemory, Point, Position, Size};
use helpers::{Helper, Helpers, NearEdge, NoBan};
use match_engine::{Match, Readings, matches};
use pat_types::Pattern;
use read_rules::Depths;
use std::alloc::{AllocError, Global};

/// The smallest pattern: a friend's stone, and the move beside it.
const SMALLEST: &[u8] = b"Pattern P\nO*\n:8,s";

/// The smallest pattern with an edge on its right.
const AT_THE_EDGE: &[u8] = b"Pattern R\nO*|\n:8,s";

/// The smallest pattern in the lower right corner.
const IN_THE_CORNER: &[u8] = b"Pattern C\nO*|\n--+\n:O,s";

/// The smallest pattern with an edge above it.
const UNDER_THE_TOP: &[u8] = b"Pattern T\n--\nO*\n:O,s";

/// The smallest pattern with an edge below it.
const OVER_THE_BOTTOM: &[u8] = b"Pattern B\nO*\n--\n:O,s";

/// The smallest pattern with an edge on its left.
const FROM_THE_LEFT: &[u8] = b"Pattern L\n|O*\n:O,s";

/// The greatest number of rows that an automaton of these tests may have.
const MOST_ROWS: u32 = 10_000;

/// A match: the pattern's place in its list, the number of the transformation, and the point of the move.
type Found = (u16, u8, Point);

/// What a search for matches asks beside diagrams.
#[derive(Drop)]
struct Asked {
    /// Readings, three plies deep, two of them wide.
    readings: Readings,
    /// The helpers `near_edge` and `no_ban`.
    helpers: Helpers,
}

/// New readings, three plies deep, two of them wide.
fn new_readings(alloc: Global) -> Option<Readings> {
    Readings::new(alloc, Depths::new(3, 2)?, 4096).ok()
}

/// The helpers `near_edge` and `no_ban`.
fn new_helpers(alloc: Global) -> Result<Helpers, NoMemory> {
    let mut list: Vec<Box<dyn Helper>> = Vec::new(alloc);
    list.push(Box::new(alloc, NearEdge::new())?)?;
    list.push(Box::new(alloc, NoBan::new())?)?;
    Helpers::new(alloc, list)
}

/// New readings and new helpers, which were not asked yet.
fn new_asked(alloc: Global) -> Option<Asked> {
    Some(Asked {
        readings: new_readings(alloc)?,
        helpers: new_helpers(alloc).ok()?,
    })
}

/// The patterns that `text` spells.
fn patterns_of(alloc: Global, text: &[u8]) -> Option<Vec<Pattern>> {
    let names = new_helpers(alloc).ok()?.names(alloc).ok()?;
    read(alloc, text, names.as_slice(), Vec::new(alloc)).ok()
}

/// The position with one more stone, of this colour at the point `p`.
fn with_stone(position: &Position, colour: Colour, p: Point) -> Option<Position> {
    if p >= position.size().points() {
        return None;
    }
    position.play(colour, p).ok()
}

/// The position with more stones of one colour.
fn with_more(position: Position, colour: Colour, stones: &[Point]) -> Option<Position> {
    let mut position = position;
    for p in stones {
        position = with_stone(&position, colour, *p)?;
    }
    Some(position)
}

/// A board with stones of both colours.
fn with_both(side: u8, black: &[Point], white: &[Point]) -> Option<Position> {
    let position = Position::new(Size::new(side)?);
    with_more(
        with_more(position, Colour::Black, black)?,
        Colour::White,
        white,
    )
}

/// The matches in `found`, in the form that rows have.
fn listed(alloc: Global, found: &[Match]) -> Result<Vec<Found>, AllocError> {
    let mut list = Vec::new(alloc);
    for z in found {
        list.push((z.pattern, z.transform.get(), z.at))?;
    }
    Ok(list)
}

/// The matches of `patterns` for a friend, in their order, by the automaton of `others`. If `others` is longer than
/// `patterns`, no automaton is made.
fn matches_reading(
    alloc: Global,
    patterns: &[Pattern],
    others: &[Pattern],
    position: &Position,
    friend: Colour,
    asked: &mut Asked,
) -> Result<Vec<Found>, JoinError> {
    if others.len() > patterns.len() || others.len() > 4096 {
        return Err(JoinError::TooManyStates { limit: 0 });
    }
    let automaton = compile(alloc, others, MOST_ROWS)?;
    let scanner = Scanner::new(alloc, automaton)?;
    let found = matches(
        alloc,
        patterns,
        &scanner,
        position,
        friend,
        &mut asked.readings,
        &mut asked.helpers,
    )?;
    Ok(listed(alloc, &found)?)
}

/// The matches of `patterns` for a friend, by the automaton of `patterns`.
fn matches_in(
    alloc: Global,
    patterns: &[Pattern],
    position: &Position,
    friend: Colour,
) -> Option<Vec<Found>> {
    let mut asked = new_asked(alloc)?;
    matches_reading(alloc, patterns, patterns, position, friend, &mut asked).ok()
}
