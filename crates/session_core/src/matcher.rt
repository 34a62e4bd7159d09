//! Patterns, and the automaton that finds their matches. No line changes them.
ghost use Rattle.std.specs.Prelude.{◌≡◌, IfOk};
ghost use Rattle.session_core.specs.MatcherView.{NumbersPatterns};

use dfa_core::Automaton;
use dfa_match::Scanner;
use go_base::NoMemory;
use pat_types::Pattern;
use std::alloc::Global;
use std::marker::Model;

/// Patterns, and the automaton that finds their matches. Contracts see it as a `MatcherView`.
#[derive(Drop)]
pub struct Matcher {
    /// The patterns.
    patterns: Vec<Pattern>,
    /// The automaton, ready for scans: each number that it accepts is the place of one of the patterns.
    scanner: Scanner,
}

impl Model for Matcher {
    ghost use Rattle.pat_types.specs.contracts.expr.Expr as expr;
    ghost use Rattle.session_core.specs.MatcherView.{MatcherView, NumbersPatterns};
    ghost use Rattle.std.specs.Coded.{codes};

    ghost Value = { MatcherView };

    ghost coded = { Prim.hlevel (codes, expr.the_row.coded) };

    ghost view = { λ m. record { patterns = m.patterns.items; automaton = m.scanner } };

    ghost invariant = { λ m. NumbersPatterns m.scanner m.patterns.items };
}

impl Matcher {
    /// The matcher of `patterns`, whose matches `automaton` finds. Takes memory.
    pub fn new(
        alloc: Global,
        patterns: Vec<Pattern>,
        automaton: Automaton,
    ) -> Result<Matcher, NoMemory>
        requires numbers { NumbersPatterns automaton patterns.items }
        ensures { IfOk result (λ matcher. matcher ≡ record { patterns = patterns.items; automaton = automaton }) }
    {
        let scanner = Scanner::new(alloc, automaton)?;
        Ok(Matcher { patterns, scanner })
    }

    /// The patterns in their order.
    pub(crate) fn patterns(&self) -> &[Pattern]
        ensures { result.now ≡ self.now.patterns }
    {
        &self.patterns
    }

    /// The automaton, ready for scans.
    pub(crate) fn scanner(&self) -> &Scanner
        ensures value { result.now ≡ self.now.automaton }
        ensures numbers { NumbersPatterns result.now self.now.patterns }
    {
        &self.scanner
    }
}
