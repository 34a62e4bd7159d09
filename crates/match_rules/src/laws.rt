//! What the definitions of specs/ mean, in the words of Go. Each function is a law: its contract states it, and its
//! body is empty.
ghost use Rattle.std.specs.Prelude.{◌≡◌, ◌↔◌, ℕ, List, IsTrue};
ghost use Rattle.go_rules.specs.declared.Colour.{Colour};
ghost use Rattle.go_rules.specs.Position.{BoardState};
ghost use Rattle.pat_types.specs.declared.pattern.Pattern.{Pattern};
ghost use Rattle.cons_eval.specs.Readings.{Codes};
ghost use Rattle.match_rules.specs.Conditions.{Advice};
ghost use Rattle.match_rules.specs.declared.found.Match.{Match};
ghost use Rattle.match_rules.specs.Fits.{fits, Fits};
ghost use Rattle.match_rules.specs.Match.{matches_of, AreMatches};

/// The test `fits` is true exactly if the pattern fits: every letter lies on the board and admits what stands there,
/// and every edge cell lies off the board.
pub fn fits_are_in_words()
    ensures { (p : Pattern) (board : BoardState) (friend : Colour) (t m : ℕ)
        → IsTrue (fits p board friend t m) ↔ Fits p board friend t m }
{}

/// The list of matches has exactly the matches, each once and in order, and no other list does.
pub fn matches_are_in_words()
    ensures matches { (code : Codes) (advice : Advice) (patterns : List Pattern) (board : BoardState) (friend : Colour)
        → AreMatches code advice patterns board friend (matches_of code advice patterns board friend) }
    ensures only { (code : Codes) (advice : Advice) (patterns : List Pattern) (board : BoardState) (friend : Colour)
        (zs : List Match) → AreMatches code advice patterns board friend zs
        → zs ≡ matches_of code advice patterns board friend }
{}
