//! The words of diagram lines: letters, rows and edge lines.

ghost use Rattle.std.specs.Prelude.{◌≡◌, ◌≤◌, ◌-◌, ◌==◌, ◌&&◌, nat_lt, length, slice_index, Some, None, if◌then◌else◌};
ghost use Rattle.std.specs.List.{list_all};
ghost use Rattle.db_rules.specs.Colon.{is_ascii_letter as ascii_letter};
ghost use Rattle.db_rules.specs.Diagram.{letter_of, is_dash, is_letter as is_one_letter, begins, inner as inside};
ghost use Rattle.db_rules.specs.Diagram.{is_edge_line as edge_line, is_row as row, shape_of, bar, plus};

use db_rules::Shape;
use pat_types::Letter;

/// The letter that the byte `b` stands for, if there is one.
pub fn letter(b: u8) -> Option<Letter>
    ensures { result ≡ letter_of b }
{
    match b {
        b'O' => Some(Letter::Friend),
        b'X' => Some(Letter::Enemy),
        b'.' => Some(Letter::Empty),
        b'o' => Some(Letter::FriendOrEmpty),
        b'x' => Some(Letter::EnemyOrEmpty),
        b'?' => Some(Letter::Any),
        b'*' => Some(Letter::Star),
        _ => None,
    }
}

fn is_letter(b: u8) -> bool
    ensures { result ≡ is_one_letter b }
{
    letter(b).is_some()
}

/// Whether `word` begins with the byte `b`, which is not 0.
fn starts(b: u8, word: &[u8]) -> bool
    requires { 1 ≤ b }
    ensures { result ≡ begins b word.now }
{
    match word {
        [] => false,
        [first, ..] => *first == b,
    }
}

/// Whether `word` ends with the byte `b`, which is not 0.
fn stops(b: u8, word: &[u8]) -> bool
    requires { 1 ≤ b }
    ensures { result ≡ (slice_index word.now (length word.now - 1) == b) }
{
    match word {
        [] => false,
        [.., last] => *last == b,
    }
}

/// The shape and the inner part of `word`, which may have the byte `b` at either end.
#[tactic(auto, unfolding(db_rules::specs::Diagram::shape_of))]
fn parts(b: u8, word: &[u8]) -> (Shape, &[u8])
    requires { 1 ≤ b }
    ensures shape { result.0 ≡ shape_of b word.now }
    ensures inner { result.1.now ≡ inside b word.now }
{
    let left = starts(b, word);
    let rest = if left { &word[1..] } else { word };
    let right = stops(b, rest);
    let inner = if right { &rest[..rest.len() - 1] } else { rest };
    let width = inner.len();
    (Shape { left, right, width }, inner)
}

fn are_dashes(bytes: &[u8]) -> bool
    ensures { result ≡ list_all is_dash bytes.now }
{
    bytes.iter().all(|b| *b == b'-')
}

fn are_letters(bytes: &[u8]) -> bool
    ensures { result ≡ list_all is_one_letter bytes.now }
{
    bytes.iter().all(|b| is_letter(*b))
}

fn is_dashed(inner: &[u8]) -> bool
    ensures { result ≡ (nat_lt 0 (length inner.now) && list_all is_dash inner.now) }
{
    0 < inner.len() && are_dashes(inner)
}

fn is_lettered(inner: &[u8]) -> bool
    ensures { result ≡ (nat_lt 0 (length inner.now) && list_all is_one_letter inner.now) }
{
    0 < inner.len() && are_letters(inner)
}

/// The shape of `word` if it is an edge line: an optional `+`, one or more `-`, and an optional `+`.
#[tactic(auto, unfolding(db_rules::specs::Diagram::is_edge_line))]
pub fn edge_shape(word: &[u8]) -> Option<Shape>
    ensures { result ≡ (if edge_line word.now then Some (shape_of plus word.now) else None) }
{
    let (shape, inner) = parts(b'+', word);
    if is_dashed(inner) { Some(shape) } else { None }
}

/// The shape of `word` if it is a row: an optional `|`, one or more letters, and an optional `|`.
#[tactic(auto, unfolding(db_rules::specs::Diagram::is_row))]
pub fn row_shape(word: &[u8]) -> Option<Shape>
    ensures { result ≡ (if row word.now then Some (shape_of bar word.now) else None) }
{
    let (shape, inner) = parts(b'|', word);
    if is_lettered(inner) {
        Some(shape)
    } else {
        None
    }
}

/// The letters of a row, without the `|` at its ends.
pub fn row_letters(word: &[u8]) -> &[u8]
    ensures { result.now ≡ inside bar word.now }
{
    parts(b'|', word).1
}

/// Whether a byte is an ASCII letter.
pub fn is_ascii_letter(b: u8) -> bool
    ensures { result ≡ ascii_letter b }
{
    (65 <= b && b <= 90) || (97 <= b && b <= 122)
}
