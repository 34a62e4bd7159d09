//! The main laws of the definitions, in the words of the grammar.

ghost use Rattle.std.specs.Prelude.{◌≡◌, ◌↔◌, ℕ, List, None, map};
ghost use Rattle.db_rules.specs.Entries.{entry_of_block};
ghost use Rattle.db_rules.specs.Database.{IsDatabase};
ghost use Rattle.db_rules.specs.Faults.{entries, first_fault};

/// A text has no fault exactly if it is a front and then at most 4,096 whole blocks without a fault.
pub fn databases_have_no_fault()
    ensures { (helpers : List (List ℕ)) (text : List ℕ) → first_fault helpers text ≡ None ↔ IsDatabase helpers text }
{}

/// However a database is cut into whole blocks, its entries are those of these blocks, in order.
pub fn entries_are_those_of_the_blocks()
    ensures { (helpers : List (List ℕ)) (text : List ℕ) (d : IsDatabase helpers text) →
        entries text ≡ map entry_of_block d.blocks }
{}
