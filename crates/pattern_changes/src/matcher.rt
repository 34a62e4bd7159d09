//! Patterns that are ready to be matched.
ghost use Rattle.std.specs.Prelude.{◌≡◌, ◌≤◌, length, IfOk, OnOk};
ghost use Rattle.helpers.specs.HelperStates.{says_yes};
ghost use Rattle.helpers.specs.Slots.{states_of};
ghost use Rattle.match_engine.specs.Readings.{codes_of};
ghost use Rattle.match_rules.specs.Match.{matches_of};

use dfa_join::{JoinError, compile};
use dfa_match::Scanner;
use go_base::{Colour, NoMemory, Position};
use helpers::Helpers;
use match_engine::{Match, Readings, matches};
use pat_types::Pattern;
use std::alloc::Global;
use std::marker::Model;

/// A list of patterns and their automaton. Clauses see it as the list of patterns.
#[derive(Drop)]
pub struct Matcher {
    patterns: Vec<Pattern>,
    scanner: Scanner,
}

impl Model for Matcher {
    ghost use Rattle.std.specs.Prelude.{List};
    ghost use Rattle.std.specs.Coded.{codes};
    ghost use Rattle.pat_types.specs.declared.pattern.Pattern.{Pattern};
    ghost use Rattle.pat_types.specs.contracts.expr.Expr as expr;
    ghost use Rattle.dfa_core.specs.States.{IsAutomatonOf};
    ghost use Rattle.pattern_changes.specs.Numbers.{NumbersPatterns};

    ghost Value = { List Pattern };

    ghost coded = { Prim.hlevel (codes, expr.the_row.coded) };

    ghost view = { λ m. m.patterns.items };

    ghost invariant = { λ m. record {
      automaton : IsAutomatonOf m.patterns.items m.scanner;
      numbers : NumbersPatterns m.scanner m.patterns.items;
    } };
}

impl Matcher {
    /// Makes patterns ready to be matched. Fails if their automaton has more than `limit` states, or memory runs out.
    /// Takes memory.
    pub fn new(alloc: Global, patterns: Vec<Pattern>, limit: u32) -> Result<Matcher, JoinError>
        requires { length patterns.items ≤ 4096 }
        ensures { IfOk result (λ matcher. matcher ≡ patterns.items) }
    {
        let automaton = compile(alloc, patterns.as_slice(), limit)?;
        let scanner = Scanner::new(alloc, automaton)?;
        Ok(Matcher { patterns, scanner })
    }

    /// The patterns, in order.
    pub fn patterns(&self) -> &[Pattern]
        ensures { result.now ≡ self.now }
    {
        self.patterns.as_slice()
    }

    /// The matches for a friend on a position. The readings keep their depths; the helpers answer afterwards as before.
    /// Takes memory.
    pub(crate) fn find(
        &self,
        alloc: Global,
        position: &Position,
        friend: Colour,
        readings: &mut Readings,
        helpers: &mut Helpers,
    ) -> Result<Vec<Match>, NoMemory>
        ensures found { IfOk result (λ zs. zs.items ≡ matches_of (codes_of readings.old)
            (says_yes (states_of state helpers.old)) self.now position.now friend) }
        ensures codes { OnOk result (codes_of readings.new ≡ codes_of readings.old) }
        ensures advice { OnOk result (says_yes (states_of state helpers.new) ≡ says_yes (states_of state helpers.old)) }
    {
        matches(
            alloc,
            self.patterns.as_slice(),
            &self.scanner,
            position,
            friend,
            readings,
            helpers,
        )
    }
}
