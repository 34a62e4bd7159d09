//! What the definitions of specs/ mean, in the words of Go. Each function here is a law: its contract states what is
//! proved, and its body does nothing.
ghost use Rattle.std.specs.Prelude.{◌↔◌, List, Contains};
ghost use Rattle.go_rules.specs.declared.Colour.{Colour};
ghost use Rattle.go_rules.specs.Position.{BoardState};
ghost use Rattle.pat_types.specs.declared.pattern.Pattern.{Pattern};
ghost use Rattle.cons_eval.specs.Readings.{Codes};
ghost use Rattle.match_rules.specs.Conditions.{Advice};
ghost use Rattle.pattern_changes.specs.declared.change.Change.{Change as ChangeSeen};
ghost use Rattle.pattern_changes.specs.Changes.{changes_over, IsChange};

/// The changes over the positions of a game are exactly these: on some position, a match of one list for one of the
/// friends, if the other list has no match there at the same point, under the same transformation and by a pattern of
/// the same name.
pub fn changes_are_in_words()
    ensures { (code : Codes) (advice : Advice) (old new : List Pattern) (friends : List Colour)
        (boards : List BoardState) (c : ChangeSeen)
        → Contains (changes_over code advice old new friends boards) c
        ↔ IsChange code advice old new friends boards c }
{}
