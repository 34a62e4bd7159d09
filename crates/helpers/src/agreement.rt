//! Asking the helpers that a pattern names about one play, in turn.

ghost use Rattle.std.specs.Prelude.{◌≡◌, ◌<◌, ◌*◌, ◌&&◌, ◌++◌, [], ◌∷◌, List, not, true};
ghost use Rattle.std.specs.List.{list_any, position_from};
ghost use Rattle.std.specs.Str.{bytes_eq};
ghost use Rattle.helpers.specs.HelperStates.{SlotState, says_yes};
ghost use Rattle.helpers.specs.Slots.{listed};
ghost use Rattle.helpers.specs.Fields.{names_helper as is_helper_name, helper_names, refuses};
ghost use Rattle.helpers.specs.Agreement.{all_say_yes, asks_of, raised, IsAskedFor};

use crate::Helpers;
use go_base::{Colour, Point, Position};
use pat_types::Item;

/// The index in `items` of the first field whose helper says no to a play of `friend` at `at`; `None` exactly if no
/// helper says no.
///
/// The helpers are asked in the order of `items`, until one says no. A helper that several fields name is asked once.
pub fn first_refusal(
    helpers: &mut Helpers,
    items: &[Item],
    pos: &Position,
    at: Point,
    friend: Colour,
) -> Option<usize>
    requires { at < pos.now.size * pos.now.size }
    ensures first { result
        ≡ position_from (refuses (λ name. says_yes (listed state helpers.old) name pos.now at friend)) 0 items.now }
    ensures calls { listed state helpers.new
        ≡ raised
        (asks_of (listed state helpers.old) (helper_names items.now) pos.now at friend)
        (listed state helpers.old) }
{
    for (i, item) in items.iter().enumerate() {
        if !agrees(helpers, &items[..i], item, pos, at, friend) {
            return Some(i);
        }
    }
    None
}

/// Whether the helpers that `items` name all say yes to a play of `friend` at `at`. They are asked in order until one
/// says no, as in `first_refusal`.
pub fn all_agree(
    helpers: &mut Helpers,
    items: &[Item],
    pos: &Position,
    at: Point,
    friend: Colour,
) -> bool
    requires { at < pos.now.size * pos.now.size }
    ensures answer { result ≡ all_say_yes (listed state helpers.old) (helper_names items.now) pos.now at friend }
    ensures calls { listed state helpers.new
        ≡ raised
        (asks_of (listed state helpers.old) (helper_names items.now) pos.now at friend)
        (listed state helpers.old) }
{
    first_refusal(helpers, items, pos, at, friend).is_none()
}

/// What the helper that `item` names says; yes if `item` names no helper, or if a field in `before` names the same one.
fn agrees(
    helpers: &mut Helpers,
    before: &[Item],
    item: &Item,
    pos: &Position,
    at: Point,
    friend: Colour,
) -> bool
    requires { at < pos.now.size * pos.now.size }
    ensures { (slots : List SlotState)
        → listed state helpers.old ≡ raised (asks_of slots (helper_names before.now) pos.now at friend) slots
        → all_say_yes slots (helper_names before.now) pos.now at friend ≡ true
        → IsAskedFor slots (helper_names (before.now ++ item.now ∷ [])) pos.now at friend result
        (listed state helpers.new) }
{
    if names_anew(before, item) {
        helpers.decide(item.name.as_slice(), pos, at, friend)
    } else {
        true
    }
}

/// Whether `item` names a helper that no field in `before` names.
fn names_anew(before: &[Item], item: &Item) -> bool
    ensures { result ≡ (is_helper_name item.now
        && not (list_any (λ k. bytes_eq k item.now.name) (helper_names before.now))) }
{
    names_helper(item) && !is_named_in(before, item.name.as_slice())
}

/// Whether one of the fields `items` names the helper called `name`.
fn is_named_in(items: &[Item], name: &[u8]) -> bool
    ensures { result ≡ list_any (λ k. bytes_eq k name.now) (helper_names items.now) }
{
    for item in items {
        if names(item, name) {
            return true;
        }
    }
    false
}

/// Whether the field `item` names the helper called `name`.
fn names(item: &Item, name: &[u8]) -> bool
    ensures { result ≡ (is_helper_name item.now && bytes_eq item.now.name name.now) }
{
    names_helper(item) && item.name.as_slice() == name
}

/// Whether a field names a helper.
fn names_helper(item: &Item) -> bool
    ensures { result ≡ is_helper_name item.now }
{
    item.text.is_none() && item.name.as_slice() != b"NULL".as_slice()
}
