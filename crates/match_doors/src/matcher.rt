//! Patterns with the automaton that finds them.

ghost use Rattle.std.specs.Prelude.{◌≡◌, [], length, IfOk, IfErr};
ghost use Rattle.helpers.specs.HelperStates.{says_yes};
ghost use Rattle.match_engine.specs.ReadingDepths.{depths_of};
ghost use Rattle.match_engine.specs.Readings.{codes_at};
ghost use Rattle.match_rules.specs.Match.{matches_of};
ghost use Rattle.match_doors.specs.Patterns.{AreOpened, IsRefused};

use crate::patterns::{PatternFault, Patterns, read_patterns};
use dfa_match::Scanner;
use go_base::{Colour, NoMemory, Position};
use helpers::Helpers;
use match_engine::{Match, Readings, matches};
use pat_types::Pattern;
use read_rules::{Depths, MIN_PLIES};
use std::alloc::Global;
use std::marker::Model;

/// The most states of the automaton, as in the program if the option `states` is not given.
const MOST_STATES: u32 = 100_000;

/// How many questions a matcher may cache, as in the program if the option `cache` is not given.
const KEPT: u32 = 4096;

/// Patterns, their automaton, and the cached readings that their matches asked for. Contracts see the patterns alone:
/// the cache changes no match.
#[derive(Drop)]
pub struct Matcher {
    patterns: Vec<Pattern>,
    scanner: Scanner,
    readings: Readings,
}

impl Model for Matcher {
    ghost use Rattle.std.specs.Prelude.{List};
    ghost use Rattle.std.specs.Coded.{codes};
    ghost use Rattle.pat_types.specs.declared.pattern.Pattern.{Pattern};
    ghost use Rattle.pat_types.specs.contracts.expr.Expr as expr;
    ghost use Rattle.dfa_core.specs.States.{IsAutomatonOf};
    ghost use Rattle.match_doors.specs.Patterns.{NumbersPatterns};

    ghost Value = { List Pattern };

    ghost coded = { Prim.hlevel (codes, expr.the_row.coded) };

    ghost view = { λ m. m.patterns.items };

    ghost invariant = { λ m. record {
      automaton : IsAutomatonOf m.patterns.items m.scanner;
      numbers : NumbersPatterns m.scanner m.patterns.items;
    } };
}

impl Matcher {
    /// The matcher for the patterns of a text, or why there is none. Takes memory.
    pub fn open(alloc: Global, text: &[u8]) -> Result<Matcher, PatternFault>
        ensures ok { IfOk result (AreOpened text.now MOST_STATES) }
        ensures err { IfErr result (IsRefused text.now MOST_STATES) }
    {
        let Patterns { list, automaton } = read_patterns(alloc, text, MOST_STATES)?;
        let scanner = Scanner::new(alloc, automaton)?;
        let depths = Depths::new(MIN_PLIES, 0).unwrap();
        Ok(Matcher {
            patterns: list,
            scanner,
            readings: Readings::new(alloc, depths, KEPT)?,
        })
    }

    /// How many patterns there are.
    pub fn count(&self) -> usize
        ensures { result ≡ length self.now }
    {
        self.patterns.len()
    }

    /// The matches for `friend` on `position`, with readings of these `depths`, in order: by the pattern's number, the
    /// transformation and the point. Takes memory.
    pub fn find(
        &mut self,
        alloc: Global,
        position: &Position,
        friend: Colour,
        depths: Depths,
    ) -> Result<Vec<Match>, NoMemory>
        ensures found { IfOk result (λ zs. zs.items ≡ matches_of (codes_at (depths_of depths)) (says_yes []) self.old
            position.now friend) }
        ensures same { self.new ≡ self.old }
    {
        let mut none = Helpers::new(alloc, Vec::new(alloc))?;
        let Matcher {
            patterns,
            scanner,
            readings,
        } = self;
        readings.set(depths);
        matches(
            alloc, &*patterns, &*scanner, position, friend, readings, &mut none,
        )
    }
}
