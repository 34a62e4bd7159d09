//! The worth of a pattern.

ghost use Rattle.std.specs.Prelude.{◌≡◌, ◌<◌, ◌≤◌, ℕ, true, length, slice_index};
ghost use Rattle.std.specs.List.{list_all};
ghost use Rattle.std.specs.Char.{is_ascii_digit};
ghost use Rattle.std.specs.Str.Parse.{digits_value};
ghost use Rattle.move_choice.specs.Worth.{most_digits, is_short_number as are_few_digits, worth_said as worth_in};
ghost use Rattle.move_choice.specs.Worth.{worth_of};

use pat_types::{Item, Pattern};

/// The most digits that a worth may have.
const MOST_DIGITS: usize = 6;

/// Whether each byte of `text` is a digit.
fn are_digits(text: &[u8]) -> bool
    ensures { result ≡ list_all is_ascii_digit text.now }
{
    text.iter().all(|b| b.is_ascii_digit())
}

/// Whether `text` is one to six digits.
fn is_short_number(text: &[u8]) -> bool
    ensures { result ≡ are_few_digits text.now }
{
    !text.is_empty() && text.len() <= MOST_DIGITS && are_digits(text)
}

/// The number that `digits` write. There must be no more than six.
fn number(digits: &[u8]) -> u32
    requires few { length digits.now ≤ most_digits }
    requires digits { (i : ℕ) → i < length digits.now → is_ascii_digit (slice_index digits.now i) ≡ true }
    ensures { result ≡ digits_value 10 digits.now }
{
    let mut n: u32 = 0;
    for d in digits {
        n = n * 10 + u32::from(*d - b'0');
    }
    n
}

/// The worth that `item` says, or `None` if it says none.
fn worth_said(item: &Item) -> Option<u32>
    ensures { result ≡ worth_in item.now }
{
    let Some(text) = &item.text else {
        return None;
    };
    let text = text.as_slice();
    if item.name.as_slice() == b"value".as_slice() && is_short_number(text) {
        Some(number(text))
    } else {
        None
    }
}

/// The worth of `pattern`: the number of its first item `value(N)` in which N is one to six digits, and 0 if it has no
/// such item. It takes no memory.
#[tactic(auto, unfolding(crate::specs::Worth::worth_of))]
pub fn worth_of(pattern: &Pattern) -> u32
    ensures { result ≡ worth_of pattern.now }
{
    for item in pattern.items.as_slice() {
        if let Some(worth) = worth_said(item) {
            return worth;
        }
    }
    0
}
