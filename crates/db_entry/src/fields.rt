//! The fields of a colon line.

ghost use Rattle.std.specs.Prelude.{◌≡◌, ◌≤◌, ◌<◌, ◌^◌, ◌+◌, ◌-◌, ◌==◌, ◌&&◌, ◌||◌, nat_lt, []};
ghost use Rattle.std.specs.Prelude.{◌∷◌, length, take, drop, if◌then◌else◌};
ghost use Rattle.std.specs.List.{list_all, position_or_len};
ghost use Rattle.db_rules.specs.Colon.{split_at_commas, depth_after as next_depth};
ghost use Rattle.db_rules.specs.Colon.{is_digit as digit, is_name_byte as name_byte, is_name as name};
ghost use Rattle.db_rules.specs.Colon.{is_text_byte as text_byte, is_closed_text as closed_text, is_item as item};
ghost use Rattle.db_rules.specs.Colon.{name_part, after_open, comma, mark_by_byte, are_classes as classes};
ghost use Rattle.db_rules.specs.Colon.{is_class_byte as class_byte, open_paren};

use crate::words::is_ascii_letter;
use db_lex::trim;
use pat_types::{Mark, NoMemory};
use std::alloc::Global;

fn depth_after(depth: usize, b: u8) -> usize
    requires { depth < 2 ^ 63 }
    ensures value { result ≡ next_depth depth b }
    ensures most { result ≤ depth + 1 }
{
    match b {
        b'(' => depth + 1,
        b')' => depth.saturating_sub(1),
        _ => depth,
    }
}

fn ends_field(b: u8, depth: usize) -> bool
    ensures { result ≡ (b == comma && depth == 0) }
{
    b == b',' && depth == 0
}

/// The length of the text up to the first comma outside parentheses, or of the whole text if there is none.
pub fn field_len(text: &[u8]) -> usize
    ensures within { result ≤ length text.now }
    ensures first { split_at_commas 0 text.now ≡ take result text.now ∷
        (if nat_lt result (length text.now) then split_at_commas 0 (drop (result + 1) text.now) else []) }
{
    let mut depth = 0;
    for (i, b) in text.iter().enumerate() {
        if ends_field(*b, depth) {
            return i;
        }
        depth = depth_after(depth, *b);
    }
    text.len()
}

fn is_digit(b: u8) -> bool
    ensures { result ≡ digit b }
{
    48 <= b && b <= 57
}

fn is_name_byte(b: u8) -> bool
    ensures { result ≡ name_byte b }
{
    is_ascii_letter(b) || is_digit(b) || b == b'_'
}

fn are_name_bytes(bytes: &[u8]) -> bool
    ensures { result ≡ list_all name_byte bytes.now }
{
    bytes.iter().all(|b| is_name_byte(*b))
}

/// Whether a field is an ASCII letter and up to 63 letters, digits or `_`.
pub fn is_name(field: &[u8]) -> bool
    ensures { result ≡ name field.now }
{
    match field {
        [] => false,
        [first, rest @ ..] => is_ascii_letter(*first) && are_name_bytes(rest) && rest.len() <= 63,
    }
}

fn is_text_byte(b: u8) -> bool
    ensures { result ≡ text_byte b }
{
    b < 128 && b != b'(' && b != b')'
}

fn are_text_bytes(bytes: &[u8]) -> bool
    ensures { result ≡ list_all text_byte bytes.now }
{
    bytes.iter().all(|b| is_text_byte(*b))
}

fn is_closed_text(rest: &[u8]) -> bool
    ensures { result ≡ closed_text rest.now }
{
    match rest {
        [] => false,
        [text @ .., last] => *last == b')' && are_text_bytes(text),
    }
}

/// The index of the first opening parenthesis, or the length of the field if there is none.
fn open_at(field: &[u8]) -> usize
    ensures value { result ≡ position_or_len (λ b. b == open_paren) field.now }
    ensures within { result ≤ length field.now }
{
    for (i, b) in field.iter().enumerate() {
        if *b == b'(' {
            return i;
        }
    }
    field.len()
}

/// What follows the first opening parenthesis; empty if there is none.
pub fn text_after(field: &[u8]) -> &[u8]
    ensures { result.now ≡ after_open field.now }
{
    let open = open_at(field);
    if open < field.len() {
        &field[open + 1..]
    } else {
        &[]
    }
}

/// The front of a field up to its first opening parenthesis; the whole field if there is none.
pub fn name_before(field: &[u8]) -> &[u8]
    ensures { result.now ≡ name_part field.now }
{
    &field[..open_at(field)]
}

/// Whether a field is a name, or a name with a text in parentheses that ends the field.
pub fn is_item(field: &[u8]) -> bool
    ensures { result ≡ item field.now }
{
    is_name(field) || (is_name(name_before(field)) && is_closed_text(text_after(field)))
}

/// The mark that the byte `b` stands for, if there is one.
pub fn mark_by(b: u8) -> Option<Mark>
    ensures { result ≡ mark_by_byte b }
{
    match b {
        b'8' => Some(Mark::Eight),
        b'|' => Some(Mark::Bar),
        b'-' => Some(Mark::Dash),
        b'/' => Some(Mark::Slash),
        b'\\' => Some(Mark::Backslash),
        b'+' => Some(Mark::Plus),
        b'X' => Some(Mark::Ex),
        b'O' => Some(Mark::Oh),
        _ => None,
    }
}

fn is_class_byte(b: u8) -> bool
    ensures { result ≡ class_byte b }
{
    is_ascii_letter(b) || b == b'-'
}

fn are_class_bytes(bytes: &[u8]) -> bool
    ensures { result ≡ list_all class_byte bytes.now }
{
    bytes.iter().all(|b| is_class_byte(*b))
}

/// Whether a field is at most 32 bytes, each an ASCII letter or `-`.
pub fn are_classes(field: &[u8]) -> bool
    ensures { result ≡ classes field.now }
{
    field.len() <= 32 && are_class_bytes(field)
}
