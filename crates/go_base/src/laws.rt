//! What the definitions of specs/ mean, in Go's own words. Each function here is a law: its contract is what is proved,
//! and it does nothing.

ghost use Rattle.std.specs.Prelude.{◌≡◌, ℕ, ◌*◌, ◌<◌, ◌↔◌, IsTrue, Some, None, false};
ghost use Rattle.std.specs.Ordering.{nat_cmp};
ghost use Rattle.std.specs.FinSet as set;
ghost use Rattle.go_rules.specs.declared.Cell.{Cell};
ghost use Rattle.go_rules.specs.Board.{IsSize};
ghost use Rattle.go_rules.specs.Strings.{cell_at};
ghost use Rattle.go_rules.specs.Position.{BoardState, IsPosition};
ghost use Rattle.go_base.specs.Setups.{setup_of, CannotBeSetUp};

/// If stones can be set up, each stands on its point and nothing stands elsewhere, no play is banned, and the board is
/// a position. They cannot be set up exactly if a point has stones of both colours or some string has no liberty.
pub fn setups_are_in_words()
    ensures black { (s : ℕ) (black white : set.FinSet nat_cmp) (pos : BoardState) (p : ℕ) → p < s * s
        → setup_of s black white ≡ Some pos → IsTrue (set.contains black p) → cell_at pos.cells p ≡ Cell.Black }
    ensures white { (s : ℕ) (black white : set.FinSet nat_cmp) (pos : BoardState) (p : ℕ) → p < s * s
        → setup_of s black white ≡ Some pos → IsTrue (set.contains white p) → cell_at pos.cells p ≡ Cell.White }
    ensures elsewhere { (s : ℕ) (black white : set.FinSet nat_cmp) (pos : BoardState) (p : ℕ) → p < s * s
        → setup_of s black white ≡ Some pos → set.contains black p ≡ false → set.contains white p ≡ false
        → cell_at pos.cells p ≡ Cell.Empty }
    ensures no_ban { (s : ℕ) (black white : set.FinSet nat_cmp) (pos : BoardState) → setup_of s black white ≡ Some pos
        → pos.ban ≡ None }
    ensures position { (s : ℕ) (black white : set.FinSet nat_cmp) (pos : BoardState) → IsSize s
        → setup_of s black white ≡ Some pos → (pos.size ≡ s) × IsPosition pos }
    ensures refused { (s : ℕ) (black white : set.FinSet nat_cmp)
        → (setup_of s black white ≡ None) ↔ CannotBeSetUp s black white }
{}
