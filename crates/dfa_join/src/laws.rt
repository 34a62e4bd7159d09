//! The rows of a product. Each function is a law: its contract states it, and its body is empty.

ghost use Rattle.std.specs.Prelude.{◌≡◌, List};
ghost use Rattle.pat_types.specs.declared.pattern.Pattern.{Pattern};
ghost use Rattle.dfa_core.specs.Automata.{Row};
ghost use Rattle.dfa_join.specs.Pairs.{IsCanonical, AreNumberedAsMet};
ghost use Rattle.dfa_join.specs.Compiled.{IsTableOf};

/// In the canonical order, each row but the start is a target of an earlier row, and rows are numbered as they are
/// first met.
pub fn rows_are_numbered_as_they_are_met()
    ensures { (rows : List Row) → IsCanonical rows → AreNumberedAsMet rows }
{}

/// A list of patterns has one table: two automata that were compiled from it have the same rows.
pub fn a_list_has_one_table()
    ensures { (patterns : List Pattern) (a b : List Row) → IsTableOf patterns a → IsTableOf patterns b → a ≡ b }
{}
