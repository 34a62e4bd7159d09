//! Bare patterns: they have only the diagram of a pattern, and ask for nothing else but a legal move.
ghost use Rattle.std.specs.Prelude.{◌≡◌, [], ◌∷◌, ◌≤◌, length, IfOk};
ghost use Rattle.match_rules.specs.Conditions.{unsafe_class};
ghost use Rattle.pattern_coverage.specs.Bare.{IsBare, AreBare, AreDiagramsOf};

use dfa_join::{JoinError, compile};
use dfa_match::Scanner;
use go_base::{Bytes, NoMemory};
use pat_types::{Items, Labels, Letter, Letters, Pattern};
use std::alloc::Global;

/// The class letter for a move whose stone need not be safe.
const UNSAFE_CLASS: u8 = b's';

/// A copy of the letters of a diagram.
fn letters_of(alloc: Global, letters: &[Letter]) -> Result<Letters, NoMemory>
    ensures { IfOk result (λ copy. copy ≡ letters.now) }
{
    let mut copy = Letters::new(alloc);
    for letter in letters {
        copy.push(*letter)?;
    }
    Ok(copy)
}

/// The class letters of a bare pattern.
fn bare_classes(alloc: Global) -> Result<Bytes, NoMemory>
    ensures { IfOk result (λ classes. classes ≡ unsafe_class ∷ []) }
{
    let mut classes = Bytes::new(alloc);
    classes.push(UNSAFE_CLASS)?;
    Ok(classes)
}

/// The bare pattern of `p`.
fn bare_of(alloc: Global, p: &Pattern) -> Result<Pattern, NoMemory>
    ensures { IfOk result (IsBare p.now) }
{
    let letters = letters_of(alloc, p.letters.as_slice())?;
    let classes = bare_classes(alloc)?;
    Ok(Pattern {
        name: Bytes::new(alloc),
        rows: p.rows,
        cols: p.cols,
        letters,
        top: p.top,
        bottom: p.bottom,
        left: p.left,
        right: p.right,
        star: p.star,
        mark: p.mark,
        classes,
        items: Items::new(alloc),
        labels: Labels::new(alloc),
        constraint: None,
    })
}

/// The bare patterns of a list of patterns, in its order.
fn bare_list(alloc: Global, patterns: &[Pattern]) -> Result<Vec<Pattern>, NoMemory>
    ensures { IfOk result (λ bare. AreBare patterns.now bare.items) }
{
    let mut bare = Vec::with_capacity(alloc, patterns.len())?;
    for p in patterns {
        bare.push(bare_of(alloc, p)?)?;
    }
    Ok(bare)
}

/// The diagrams of a list of patterns, ready to be found on positions.
#[derive(Drop)]
pub struct Diagrams {
    /// The bare patterns, in the order of the list.
    pub bare: Vec<Pattern>,
    /// The automaton of the bare patterns.
    pub scanner: Scanner,
}

impl Diagrams {
    /// Makes the diagrams of a list ready. Fails if their automaton has more than `limit` states, or memory runs out.
    /// Takes memory.
    pub fn new(alloc: Global, patterns: &[Pattern], limit: u32) -> Result<Diagrams, JoinError>
        requires { length patterns.now ≤ 4096 }
        ensures { IfOk result (AreDiagramsOf patterns.now) }
    {
        let bare = bare_list(alloc, patterns)?;
        let automaton = compile(alloc, bare.as_slice(), limit)?;
        let scanner = Scanner::new(alloc, automaton)?;
        Ok(Diagrams { bare, scanner })
    }
}
