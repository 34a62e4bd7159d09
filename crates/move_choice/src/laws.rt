//! What the definitions of specs/ mean, in words. Each function is a law: its contract states it, and its body is
//! empty.

ghost use Rattle.std.specs.Prelude.{◌≡◌, ◌↔◌, ℕ, List, [], Some, None};
ghost use Rattle.pat_types.specs.declared.pattern.Pattern.{Pattern};
ghost use Rattle.match_rules.specs.declared.found.Match.{Match};
ghost use Rattle.move_choice.specs.Worth.{worth_of, IsWorth};
ghost use Rattle.move_choice.specs.Choice.{worth_at, choice_of, IsChoice};

/// The worth of a pattern is the number of the first of its items that says a number, and 0 if no item does.
pub fn worth_is_in_words()
    ensures { (pattern : Pattern) (n : ℕ) → (worth_of pattern ≡ n) ↔ IsWorth pattern.items n }
{}

/// The choice is a match of the list: no match of the list is worth more, and none that is worth as much comes before
/// it in the order of matches. Only one match has this property. There is a choice exactly if the list is not empty.
pub fn choice_is_in_words()
    ensures choice { (patterns : List Pattern) (zs : List Match) (z : Match)
        → (choice_of patterns zs ≡ Some z) ↔ IsChoice (worth_at patterns) zs z }
    ensures none { (patterns : List Pattern) (zs : List Match) → (choice_of patterns zs ≡ None) ↔ (zs ≡ []) }
{}
