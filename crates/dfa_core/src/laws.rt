//! The number of states of a list of patterns. Each function is a law: its contract states it, and its body is empty.

ghost use Rattle.std.specs.Prelude.{◌≡◌, ℕ, ◌<◌, List};
ghost use Rattle.pat_types.specs.declared.pattern.Pattern.{Pattern};
ghost use Rattle.dfa_core.specs.States.{HasStates, HasMoreStates};

/// A list of patterns has one number of states, and has more than `limit` states exactly if this number is greater.
pub fn states_are_counted()
    ensures some { (patterns : List Pattern) → (n : ℕ) × HasStates patterns n }
    ensures one { (patterns : List Pattern) (m n : ℕ) → HasStates patterns m → HasStates patterns n → m ≡ n }
    ensures more { (patterns : List Pattern) (n limit : ℕ) → HasStates patterns n → HasMoreStates patterns limit
        → limit < n }
    ensures less { (patterns : List Pattern) (n limit : ℕ) → HasStates patterns n → limit < n
        → HasMoreStates patterns limit }
{}
