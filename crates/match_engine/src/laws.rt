//! What the matches by an automaton mean. Each function is a law: its contract states it, and its body is empty.
ghost use Rattle.std.specs.Prelude.{◌≡◌, List};
ghost use Rattle.go_rules.specs.declared.Colour.{Colour};
ghost use Rattle.go_rules.specs.Position.{BoardState};
ghost use Rattle.pat_types.specs.declared.pattern.Pattern.{Pattern};
ghost use Rattle.dfa_core.specs.Automata.{Row};
ghost use Rattle.dfa_core.specs.States.{IsAutomatonOf};
ghost use Rattle.cons_eval.specs.Readings.{Codes};
ghost use Rattle.match_rules.specs.Conditions.{Advice};
ghost use Rattle.match_rules.specs.Match.{matches_of};
ghost use Rattle.match_engine.specs.AutomatonMatches.{automaton_matches};

/// The matches by the automaton of the patterns are exactly the matches of the patterns.
pub fn automaton_of_the_patterns_finds_their_matches()
    ensures { (code : Codes) (advice : Advice) (patterns : List Pattern) (automaton : List Row) (board : BoardState)
        (friend : Colour) → IsAutomatonOf patterns automaton
        → automaton_matches code advice automaton patterns board friend ≡ matches_of code advice patterns board friend }
{}
