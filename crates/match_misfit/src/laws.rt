//! What the definitions of specs/ mean, in the words of Go. Each function is a law: its contract states it, and its
//! body is empty.
ghost use Rattle.std.specs.Prelude.{◌≡◌, ℕ, Some};
ghost use Rattle.go_rules.specs.declared.Colour.{Colour};
ghost use Rattle.go_rules.specs.Position.{BoardState};
ghost use Rattle.pat_types.specs.declared.pattern.Pattern.{Pattern};
ghost use Rattle.match_misfit.specs.declared.diagram.Misfit.{Misfit};
ghost use Rattle.match_misfit.specs.Misfits.{first_misfit, IsMisfit};

/// The report on a first misfit is true: a letter lies off the board or over something that it does not admit, or an
/// edge lies on the board.
pub fn misfits_are_in_words()
    ensures { (p : Pattern) (board : BoardState) (friend : Colour) (t m : ℕ) (z : Misfit)
        → first_misfit p board friend t m ≡ Some z → IsMisfit p board friend t m z }
{}
