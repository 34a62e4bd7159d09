//! How many states the automaton of a list of patterns takes, and how many of them each pattern adds.
//!
//! A pattern adds as many states as the list has beyond the same list without this pattern. All these counts come from
//! the one automaton of the list, without another automaton for each pattern. Tests in `report_tests` compare both ways
//! of counting; no clause says that they agree.
#![tactic(auto)]

mod added;
mod states;

pub use added::added_by_each;
pub use states::{Added, States, states_of};
