//! Numbers of digits alone, of any length.

ghost use Rattle.std.specs.Prelude.{◌≡◌, ◌+◌, ◌-◌, ◌*◌, ◌≤◌, true, min, unwrap_or, IfSome};
ghost use Rattle.std.specs.Char.{is_ascii_digit};
ghost use Rattle.vertices.specs.Words.{kept, number_of};
ghost use Rattle.vertices.specs.RawWords.{large, capped};

use crate::bytes::is_kept;

/// The number that stands for itself and every larger number, as no number that is asked for is as large.
const LARGE: u64 = 2_147_483_648;

/// The number `value` with one more digit, or `LARGE` if that is smaller.
fn with_digit(value: Option<u32>, digit: u8) -> u32
    requires digit { is_ascii_digit digit ≡ true }
    requires small { IfSome value (λ n. n ≤ large) }
    ensures { result ≡ min (10 * unwrap_or value 0 + (digit - 48)) large }
{
    let grown = 10 * u64::from(value.unwrap_or(0)) + u64::from(digit - b'0');
    grown.min(LARGE) as u32
}

/// The number that a word of digits writes; `None` if the word is empty or has another byte. A number above 2147483648
/// is returned as 2147483648.
pub fn number(word: &[u8]) -> Option<u32>
    ensures { result ≡ capped (number_of (kept word.now)) }
{
    let mut value = None;
    for b in word {
        if !is_kept(*b) {
            continue;
        }
        if !b.is_ascii_digit() {
            return None;
        }
        value = Some(with_digit(value, *b));
    }
    value
}
