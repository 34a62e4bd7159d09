//! What the definitions of specs/ mean, in the words of Go. Each function is a law: its contract states it, and its
//! body is empty.
ghost use Rattle.std.specs.Prelude.{◌≡◌, ℕ, Some};
ghost use Rattle.go_rules.specs.declared.Colour.{Colour};
ghost use Rattle.go_rules.specs.Position.{BoardState};
ghost use Rattle.pat_types.specs.declared.pattern.Pattern.{Pattern};
ghost use Rattle.read_rules.specs.declared.depths.Depths.{Depths};
ghost use Rattle.match_rules.specs.Conditions.{Advice};
ghost use Rattle.match_reasons.specs.declared.reason.Reason.{Reason};
ghost use Rattle.match_reasons.specs.FirstReasons.{IsFirst};
ghost use Rattle.match_reasons.specs.Reasons.{first_reason};

/// The answered reason is the first: the parts of a match before it hold, and its own part fails as the reason says.
pub fn reasons_are_in_words()
    ensures { (d : Depths) (advice : Advice) (p : Pattern) (board : BoardState) (friend : Colour) (t m : ℕ)
        (reason : Reason) → first_reason d advice p board friend t m ≡ Some reason
        → IsFirst d advice p board friend t m reason }
{}
