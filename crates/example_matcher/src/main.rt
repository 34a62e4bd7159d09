//! A program that uses the matcher as a library: patterns from a text, their automaton, a position, and the matches.
#![tactic(auto)]

ghost use Rattle.std.specs.Prelude.{◌≡◌, ◌≤◌, IfOk, length};
ghost use Rattle.helpers.specs.HelperStates.{says_yes};
ghost use Rattle.helpers.specs.Slots.{states_of};
ghost use Rattle.match_engine.specs.Readings.{codes_of};
ghost use Rattle.match_rules.specs.Match.{matches_of};

use db_read::read;
use dfa_join::{JoinError, compile};
use dfa_match::Scanner;
use go_base::{Colour, Position, Size};
use helpers::Helpers;
use match_engine::{Match, Readings, matches};
use pat_types::Pattern;
use read_rules::Depths;
use std::alloc::Global;
use std::io;

/// The longest list of patterns that has an automaton.
const MOST_PATTERNS: usize = 4096;

/// A friend's stone beside the move, and the edge behind the move; the stone that is played has to be safe.
const TEXT: &[u8] = b"Pattern Edge\nO*|\n:8";

/// The matches of `patterns` for a friend on a position.
fn found(
    alloc: Global,
    patterns: &[Pattern],
    position: &Position,
    friend: Colour,
    readings: &mut Readings,
    helpers: &mut Helpers,
) -> Result<Vec<Match>, JoinError>
    requires { length patterns.now ≤ 4096 }
    ensures { IfOk result (λ v. v.items ≡ matches_of (codes_of readings.old) (says_yes (states_of state helpers.old))
        patterns.now position.now friend) }
{
    let automaton = compile(alloc, patterns, 100_000)?;
    let scanner = Scanner::new(alloc, automaton)?;
    Ok(matches(
        alloc, patterns, &scanner, position, friend, readings, helpers,
    )?)
}

/// A board of 9 rows with a black stone in the second column from the right.
fn board() -> Option<Position> {
    let size = Size::new(9)?;
    let position = Position::new(size);
    position.play(Colour::Black, 5 * 9 + 7).ok()
}

fn main(rt: HostRuntime) -> io::Result<()> {
    let alloc = rt.alloc();
    let patterns = match read(alloc, TEXT, &[], Vec::new(alloc)) {
        Ok(patterns) => patterns,
        Err(why) => return println!(rt; "{why}"),
    };
    let (Some(position), Some(depths)) = (board(), Depths::new(10, 2)) else {
        return println!(rt; "no position");
    };
    if patterns.len() > MOST_PATTERNS {
        return println!(rt; "too many patterns");
    }
    let none = Helpers::new(alloc, Vec::new(alloc));
    let (Ok(mut readings), Ok(mut helpers)) = (Readings::new(alloc, depths, 4096), none) else {
        return println!(rt; "out of memory");
    };
    match found(
        alloc,
        &patterns,
        &position,
        Colour::Black,
        &mut readings,
        &mut helpers,
    ) {
        Ok(list) => {
            for m in &list {
                println!(rt;
                    "pattern {} transformation {} point {}",
                    m.pattern,
                    m.transform.get(),
                    m.at
                )?;
            }
            println!(rt; "readings {}", readings.fresh())
        }
        Err(why) => println!(rt; "{why}"),
    }
}
