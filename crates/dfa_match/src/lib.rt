//! The scan of a board: an automaton is run from each point under each transformation.
//!
//! A hit is a number that the automaton accepts at the end of a word, which is what is seen along the moved spiral from
//! an anchor. `scan` finds exactly the hits, each once; it does not look at diagrams. The walks from all anchors stand
//! in one list: each walk reads one letter, and only then do they read the next. The anchor's own letter is read once
//! for all transformations, the first nine letters in one look if nothing is accepted among them, and letters at which
//! no pattern looks are passed over. Two laws say that a word that is read from an anchor matches a pattern exactly if
//! the pattern fits there.
//!
//! After GNU Go Manual, "The DFA pattern matcher".
#![tactic(auto)]

ghost use Rattle.std.specs.Prelude.{◌≡◌, ◌+◌, ◌<◌, ◌++◌, [], map, All, IfOk, OnOk};
ghost use Rattle.go_rules.specs.Position.{BoardState};
ghost use Rattle.go_rules.specs.Transform.{transformations};
ghost use Rattle.dfa_match.specs.SeenLetters.{IsPaddedBoard};
ghost use Rattle.go_rules.specs.declared.Colour.{Colour as ColourSeen};
ghost use Rattle.dfa_shortcuts.specs.Openings.{AreOpenings};
ghost use Rattle.dfa_shortcuts.specs.Shortcuts.{AreShortcuts};
ghost use Rattle.dfa_match.specs.Hits.{hits_at, AreHits, AreHitsBefore, nothing_read};
ghost use Rattle.dfa_match.specs.Rings.{ring_of};
ghost use Rattle.dfa_match.specs.Steps.{AreSteps};
ghost use Rattle.dfa_match.specs.Walks.{IsStanding, first_walks_of, second_walks_of};

mod cursor;
pub mod laws;
mod padded_board;
mod rings;
mod scanner;
mod steps;
mod walks;

use crate::padded_board::PaddedBoard;
use crate::rings::{Ring, rings};
use crate::steps::steps_under;
use crate::walks::{
    Walk, drop_ended, first_walks, give_all, give_start, opened_walks, read_letters, second_walks,
};
use dfa_core::Automaton;
use dfa_shortcuts::Shortcuts;
use go_base::transform::TRANSFORMATIONS;
use go_base::{Colour, Look, NoMemory, Point, Transform};
pub use scanner::Scanner;
use spiral::OFFSETS;

/// A pattern that an automaton accepts from an anchor under a transformation.
#[derive(Clone, Copy, Debug, PartialEq, Eq)]
pub struct Hit {
    /// The number that the automaton accepts.
    pub pattern: u16,
    /// The transformation that the spiral is moved by.
    pub transform: Transform,
    /// The point from which the word is read.
    pub anchor: Point,
}

/// Adds the hits of the patterns with these `numbers`, at `anchor` under `t`.
fn add(out: &mut Vec<Hit>, numbers: &[u16], t: Transform, anchor: Point) -> Result<(), NoMemory>
    ensures { OnOk result (out.new.items ≡ out.old.items ++ hits_at t anchor numbers.now) }
{
    for n in numbers {
        out.push(Hit {
            pattern: *n,
            transform: t,
            anchor,
        })?;
    }
    Ok(())
}

/// How many letters are read on each walk before the walks that have ended are dropped.
const PASSES: u16 = 4;

/// Runs the automaton from all anchors under the transformation `t`, until no walk is left. `first` are the walks
/// before the first letter, `second` the walks after it, and `rings` the rings around the anchors of `second`; they are
/// the same under each transformation.
fn sweep(
    automaton: &Automaton,
    shortcuts: &Shortcuts,
    padded: &PaddedBoard,
    steps: &[u16],
    t: Transform,
    first: &[Walk],
    second: &[Walk],
    rings: &[Ring],
    out: &mut Vec<Hit>,
) -> Result<(), NoMemory>
    requires shortcuts { AreShortcuts automaton.now shortcuts.now.entries.items shortcuts.now.passed.items }
    requires openings { AreOpenings automaton.now shortcuts.now.openings.items }
    requires steps { AreSteps t steps.now }
    requires transform { t < transformations }
    requires first { first.now ≡ first_walks_of automaton.now padded.now.size }
    requires second { second.now ≡ second_walks_of automaton.now padded.now.letters padded.now.size }
    requires rings { rings.now ≡ map (ring_of padded.now.letters) second.now }
    requires standing { All (IsStanding automaton.now) first.now }
    ensures ok { (at : BoardState) (friend : ColourSeen) → IsPaddedBoard at friend padded.now.size padded.now.letters
        → AreHitsBefore automaton.now at friend t nothing_read out.old.items
        → OnOk result (AreHitsBefore automaton.now at friend (t + 1) nothing_read out.new.items) }
{
    let _ = automaton.rows();
    give_start(automaton, padded.size, t, first, out)?;
    give_all(automaton, padded.size, t, second, out)?;
    let mut walks = opened_walks(*out.allocator(), shortcuts, padded, t, second, rings)?;
    'letters: for pass in 0..OFFSETS {
        if walks.is_empty() {
            return Ok(());
        }
        read_letters(automaton, shortcuts, padded, steps, t, &mut walks, out)?;
        if pass % PASSES == PASSES - 1 {
            drop_ended(&mut walks);
        }
    }
    Ok(())
}

/// The hits of an automaton on the position of `look`: each number that it accepts along the spiral from some anchor
/// under some transformation, once. `out` must be empty and supplies the allocator. Takes memory.
pub fn scan<L: Look>(
    scanner: &Scanner,
    look: &mut L,
    friend: Colour,
    out: Vec<Hit>,
) -> Result<Vec<Hit>, NoMemory>
    requires { out.items ≡ [] }
    ensures hits { IfOk result (λ hits. AreHits scanner.now (L.shows look.old) friend hits.items) }
    ensures same { L.shows look.new ≡ L.shows look.old }
{
    let Scanner {
        automaton,
        shortcuts,
        steps,
    } = scanner;
    let _ = automaton.rows();
    let mut out = out;
    let padded = PaddedBoard::of(look, friend);
    let first = first_walks(*out.allocator(), automaton, padded.size)?;
    let second = second_walks(*out.allocator(), automaton, &padded, &first)?;
    let plain = steps_under(steps, Transform::new(0).unwrap());
    let mirrored = steps_under(steps, Transform::new(4).unwrap());
    let rings = rings(*out.allocator(), &padded, plain, mirrored, &second)?;
    'transforms: for n in 0..TRANSFORMATIONS {
        if let Some(t) = Transform::new(n) {
            let under = steps_under(steps, t);
            sweep(
                automaton, shortcuts, &padded, under, t, &first, &second, &rings, &mut out,
            )?;
        }
    }
    Ok(out)
}
