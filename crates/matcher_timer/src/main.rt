//! A program that finds the matches of patterns on drawn boards again and again and prints only how many there are, so
//! that the time of one call can be measured. `tools/time_matches.py` starts it.
//!
//! Its arguments are a file of patterns, a file of boards, and how often each board is asked for each colour. A board
//! is a line with a mark for each point in reading order: `X` for black, `O` for white, and any other mark for an empty
//! point.
#![tactic(auto)]

ghost use Rattle.std.specs.Prelude.{ℕ, ◌<◌, ◌≤◌, length, Contains};
ghost use Rattle.dfa_core.specs.Automata.{accepted};
ghost use Rattle.dfa_core.specs.Words.{Word};

use db_read::read;
use dfa_join::{JoinError, compile};
use dfa_match::Scanner;
use go_base::{Colour, NoMemory, Position, Size};
use helpers::Helpers;
use match_engine::{Readings, matches};
use pat_types::Pattern;
use read_rules::Depths;
use std::alloc::Global;
use std::fs::Files;
use std::process::ExitCode;
use std::rt::Env;
use std::{env, fs};

/// The longest list of patterns that has an automaton.
const MOST_PATTERNS: usize = 4096;

/// The most states that the automaton of the patterns may have.
const MOST_STATES: u32 = 1_000_000;

/// The greatest number of rows of a board.
const LARGEST_SIZE: u8 = 25;

/// The size of a board with this many `points`, if there is one.
fn size_with(points: usize) -> Option<Size> {
    'sides: for side in 0..=LARGEST_SIZE {
        if side as usize * side as usize == points {
            return Size::new(side);
        }
    }
    None
}

/// The position that `marks` draw, or `None` if no board has that many points or a drawn stone cannot be played.
fn drawn(marks: &[u8]) -> Option<Position> {
    let mut position = Position::new(size_with(marks.len())?);
    'marks: for at in 0..marks.len() {
        if at >= position.size().points() as usize {
            return None;
        }
        let colour = match marks[at] {
            b'X' => Colour::Black,
            b'O' => Colour::White,
            _ => continue,
        };
        position = position.play(colour, at as u16).ok()?;
    }
    Some(position)
}

/// The positions that the lines of `text` draw, without the lines that draw none. Each line ends in a line feed. Takes
/// memory.
fn all_drawn(alloc: Global, text: &[u8]) -> Result<Vec<Position>, NoMemory> {
    let mut all = Vec::new(alloc);
    let mut line = Vec::new(alloc);
    for mark in text {
        if *mark != b'\n' {
            line.push(*mark)?;
            continue;
        }
        if let Some(position) = drawn(&line) {
            all.push(position)?;
        }
        line.clear();
    }
    Ok(all)
}

/// What each search for matches needs.
#[derive(Drop)]
struct Asking<'a> {
    /// The allocator that memory is taken from.
    alloc: Global,
    /// The patterns.
    patterns: &'a [Pattern],
    /// The positions.
    positions: &'a [Position],
    /// How often each position is asked for each colour.
    times: u32,
}

/// How many matches all searches find together, by the automaton of `scanner`.
fn count_matches(
    asking: &Asking,
    scanner: &Scanner,
    readings: &mut Readings,
    helpers: &mut Helpers,
) -> Result<u64, NoMemory>
    requires { (w : Word) (n : ℕ) → Contains (accepted scanner.now w) n → n < length asking.now.patterns.now }
{
    let Asking {
        alloc,
        patterns,
        positions,
        times,
    } = asking;
    let mut count: u64 = 0;
    'positions: for position in *positions {
        'colours: for colour in [Colour::Black, Colour::White] {
            'times: for _ in 0..*times {
                let found = matches(
                    *alloc, patterns, scanner, position, colour, readings, helpers,
                )?;
                count = count.saturating_add(found.len() as u64);
            }
        }
    }
    Ok(count)
}

/// How many matches all searches find together, by the automaton of the patterns.
fn matches_by_their_automaton(
    asking: &Asking,
    readings: &mut Readings,
    helpers: &mut Helpers,
) -> Result<u64, JoinError>
    requires { length asking.now.patterns.now ≤ 4096 }
{
    let automaton = compile(asking.alloc, asking.patterns, MOST_STATES)?;
    let scanner = Scanner::new(asking.alloc, automaton)?;
    Ok(count_matches(asking, &scanner, readings, helpers)?)
}

/// What the arguments of the command line say.
#[derive(Drop)]
struct Words {
    /// The file of patterns.
    patterns: String,
    /// The file of boards.
    boards: String,
    /// How often each board is asked for each colour.
    times: u32,
}

/// The arguments of the command line, or `None` if they are not two files and a number.
fn words_of<R: Env + AllocGlobal>(rt: &R) -> Option<Words> {
    let mut words = env::args(rt).ok()?.skip(1);
    let patterns = words.next()?;
    let boards = words.next()?;
    let times = words.next()?.parse().ok()?;
    match words.next() {
        Some(_) => None,
        None => Some(Words {
            patterns,
            boards,
            times,
        }),
    }
}

/// How many patterns, positions and matches there are.
#[derive(Drop)]
struct Counts {
    /// How many patterns were read.
    patterns: usize,
    /// How many positions were drawn.
    positions: usize,
    /// How many matches all searches found together.
    matches: u64,
}

/// Reads the files and makes all searches, or answers why it cannot.
fn count_all<R: Files + AllocGlobal>(rt: &R, words: &Words) -> Result<Counts, &'static str> {
    let alloc = rt.alloc();
    let (Ok(text), Ok(boards)) = (
        fs::read(rt, words.patterns.as_str()),
        fs::read(rt, words.boards.as_str()),
    ) else {
        return Err("a file cannot be read");
    };
    let Ok(patterns) = read(alloc, &text, &[], Vec::new(alloc)) else {
        return Err("the patterns have a fault");
    };
    if patterns.len() > MOST_PATTERNS {
        return Err("there are too many patterns");
    }
    let (Ok(positions), Some(depths)) = (all_drawn(alloc, &boards), Depths::new(10, 2)) else {
        return Err("out of memory");
    };
    let none = Helpers::new(alloc, Vec::new(alloc));
    let (Ok(mut readings), Ok(mut helpers)) = (Readings::new(alloc, depths, 4096), none) else {
        return Err("out of memory");
    };
    let asking = Asking {
        alloc,
        patterns: &patterns,
        positions: &positions,
        times: words.times,
    };
    match matches_by_their_automaton(&asking, &mut readings, &mut helpers) {
        Ok(matches) => Ok(Counts {
            patterns: patterns.len(),
            positions: positions.len(),
            matches,
        }),
        Err(JoinError::NoMemory) => Err("out of memory"),
        Err(JoinError::TooManyStates { limit: _ }) => Err("the patterns have too many states"),
    }
}

fn main(rt: HostRuntime) -> ExitCode {
    let Some(words) = words_of(&rt) else {
        let _ = eprintln!(rt; "usage: matcher_timer PATTERNS BOARDS TIMES");
        return ExitCode::from(2);
    };
    let told = match count_all(&rt, &words) {
        Ok(counts) => println!(rt;
            "{} patterns, {} positions, {} matches",
            counts.patterns, counts.positions, counts.matches
        ),
        Err(why) => {
            let _ = eprintln!(rt; "{why}");
            return ExitCode::from(1);
        }
    };
    ExitCode::from(told.is_err() as u8)
}
