//! Finds items of a colon line that give no value, though they seem to.

use crate::caution::Caution;
use pat_types::Item;
use pattern_lines::Field;

/// The name of an item that gives a value.
const VALUE: &[u8] = b"value";

/// The most digits that a value may have.
const MOST_DIGITS: usize = 6;

/// The length of the common front of `word` and `other`, if the case of letters does not count.
pub(crate) fn same_front(word: &[u8], other: &[u8]) -> usize {
    let mut count: usize = 0;
    for (letter, same) in word.iter().zip(other) {
        if !letter.eq_ignore_ascii_case(same) {
            break;
        }
        count = count.saturating_add(1);
    }
    count
}

/// The length of the common end of `word` and `other`, if the case of letters does not count.
pub(crate) fn same_end(word: &[u8], other: &[u8]) -> usize {
    let mut count: usize = 0;
    for (letter, same) in word.iter().rev().zip(other.iter().rev()) {
        if !letter.eq_ignore_ascii_case(same) {
            break;
        }
        count = count.saturating_add(1);
    }
    count
}

/// Whether a name is `value`, apart from the case or from a letter or two.
fn is_near_value(name: &[u8]) -> bool {
    let alike = same_front(name, VALUE).saturating_add(same_end(name, VALUE));
    3 <= name.len() && name.len() <= 6 && alike >= 3
}

/// Whether a text is a number that a value may have: one to six digits.
fn is_number(text: &[u8]) -> bool {
    !text.is_empty() && text.len() <= MOST_DIGITS && text.iter().all(|byte| byte.is_ascii_digit())
}

/// Whether an item gives a value.
pub(crate) fn says_value(item: &Item) -> bool {
    match &item.text {
        Some(text) => item.name.as_slice() == VALUE && is_number(text.as_slice()),
        None => false,
    }
}

/// A warning about the item in this `field`. `is_said` tells whether an item before it gives a value.
pub(crate) fn of_item<'a>(item: &Item, field: Field<'a>, is_said: bool) -> Option<Caution<'a>> {
    let name = item.name.as_slice();
    if item.text.is_none() {
        return None;
    }
    if name != VALUE {
        return if is_near_value(name) {
            Some(Caution::NearValue(field.bytes))
        } else {
            None
        };
    }
    if !says_value(item) {
        return Some(Caution::NoValue(field.bytes));
    }
    if is_said {
        return Some(Caution::SecondValue(field.bytes));
    }
    None
}
