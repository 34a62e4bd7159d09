//! What the hits of a scan are. Each function is a law: its contract states it, and its body is empty.

ghost use Rattle.std.specs.Prelude.{◌≡◌, ◌↔◌, true, List, ℕ};
ghost use Rattle.go_rules.specs.Position.{BoardState};
ghost use Rattle.dfa_core.specs.Automata.{Row};
ghost use Rattle.dfa_match.specs.SeenLetters.{word_at};
ghost use Rattle.go_rules.specs.declared.Colour.{Colour as ColourSeen};
ghost use Rattle.pat_types.specs.declared.pattern.Pattern.{Pattern};
ghost use Rattle.dfa_core.specs.Fits.{pattern_length};
ghost use Rattle.dfa_core.specs.States.{is_matched, IsAutomatonOf};
ghost use Rattle.dfa_match.specs.Fitting.{FitsAt, IsFit};
ghost use Rattle.dfa_match.specs.declared.Hit.{Hit as HitSeen};
ghost use Rattle.dfa_match.specs.Hits.{IsHit};

/// A word that is read from an anchor matches a pattern exactly if the pattern fits there, with its own anchor's cell.
pub fn matched_words_are_fits()
    ensures { (p : Pattern) (pos : BoardState) (friend : ColourSeen) (t m : ℕ) →
        (is_matched (word_at pos friend t m (pattern_length p)) p ≡ true) ↔ FitsAt p pos friend t m }
{}

/// The automaton of a list of patterns has a hit exactly if the pattern with its number fits at the hit's anchor.
pub fn hits_of_patterns_are_fits()
    ensures { (patterns : List Pattern) (automaton : List Row) (pos : BoardState) (friend : ColourSeen)
        (hit : HitSeen) →
        IsAutomatonOf patterns automaton → IsHit automaton pos friend hit ↔ IsFit patterns pos friend hit }
{}
