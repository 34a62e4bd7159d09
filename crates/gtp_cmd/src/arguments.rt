//! What the words after a command's name say: colours, vertices, moves and numbers.

ghost use Rattle.std.specs.Prelude.{◌≡◌};
ghost use Rattle.gtp_cmd.specs.Words.{kept, plain, words_of, number_of};
ghost use Rattle.vertices.specs.RawWords.{capped};
ghost use Rattle.gtp_cmd.specs.Colours.{colour_of};
ghost use Rattle.gtp_cmd.specs.Vertices.{vertex_of};
ghost use Rattle.gtp_cmd.specs.Commands.{first_argument, size_of, move_of, number_between, depths_of, is_attack_of};
ghost use Rattle.gtp_cmd.specs.Commands.{code_of, claim_of, points_of};

use go_base::size::MAX_SIZE;
use go_base::{Colour, Point, Size};
use read_rules::{MAX_PLIES, MAX_WIDE, MIN_PLIES};
use vertices::{
    byte_count, next_word, number, spells, spells_in_either_case, target_named, vertex_named,
};

/// The greatest code that a reading answers.
const GREATEST_CODE: u8 = 3;

/// The colour that a word names.
fn colour_named(word: &[u8]) -> Option<Colour>
    ensures { result ≡ colour_of (kept word.now) }
{
    if spells_in_either_case(word, b"b") || spells_in_either_case(word, b"black") {
        Some(Colour::Black)
    } else if spells_in_either_case(word, b"w") || spells_in_either_case(word, b"white") {
        Some(Colour::White)
    } else {
        None
    }
}

/// The colour that the first word of `text` names.
pub fn colour(text: &[u8]) -> Option<Colour>
    ensures { result ≡ first_argument colour_of (words_of (plain text.now)) }
{
    match next_word(text) {
        Some((word, _)) => colour_named(word),
        None => None,
    }
}

/// The point that the first word of `text` names.
pub fn vertex(text: &[u8], size: Size) -> Option<Point>
    ensures { result ≡ first_argument (vertex_of size) (words_of (plain text.now)) }
{
    match next_word(text) {
        Some((word, _)) => vertex_named(word, size),
        None => None,
    }
}

/// The colour and the target of a move, as the first two words say.
pub fn colour_and_target(text: &[u8], size: Size) -> Option<(Colour, Option<Point>)>
    ensures { result ≡ move_of size (words_of (plain text.now)) }
{
    let (first, more) = next_word(text)?;
    let (second, _) = next_word(more)?;
    let colour = colour_named(first)?;
    let target = target_named(second, size)?;
    Some((colour, target))
}

/// The number that a word writes, if it is at least `low` and at most `high`.
fn number_between(low: u8, high: u8, word: &[u8]) -> Option<u8>
    ensures { result ≡ number_between low high (kept word.now) }
{
    let n = number(word)?;
    if u32::from(low) <= n && n <= u32::from(high) {
        Some(n as u8)
    } else {
        None
    }
}

/// The plies and the wide plies of readings, if the first two words write both in their ranges.
pub fn depths(text: &[u8]) -> Option<(u8, u8)>
    ensures { result ≡ depths_of (words_of (plain text.now)) }
{
    let (first, more) = next_word(text)?;
    let (second, _) = next_word(more)?;
    let plies = number_between(MIN_PLIES, MAX_PLIES, first)?;
    let wide = number_between(0, MAX_WIDE, second)?;
    Some((plies, wide))
}

/// The number that the first word of `text` writes.
pub fn first_number(text: &[u8]) -> Option<u32>
    ensures { result ≡ capped (first_argument number_of (words_of (plain text.now))) }
{
    match next_word(text) {
        Some((word, _)) => number(word),
        None => None,
    }
}

/// The size of a board with this number, if a board may have it.
pub fn size_numbered(number: u32) -> Option<Size>
    ensures { result ≡ size_of number }
{
    if number > u32::from(MAX_SIZE) {
        return None;
    }
    Size::new(number as u8)
}

/// What a proof claims to show: the code of an attack on the string at a point, or of its defence.
#[derive(Clone, Copy)]
pub struct Claim {
    /// The code is of an attack, and else of a defence.
    pub attack: bool,
    /// The point whose string is attacked or defended.
    pub target: Point,
    /// The code, from 0 to 3.
    pub code: u8,
}

/// Whether a proof is of an attack: `attack` says so, `defend` says that it is of a defence, and any other word is
/// `None`.
fn is_attack(word: &[u8]) -> Option<bool>
    ensures { result ≡ is_attack_of (kept word.now) }
{
    if spells(word, b"attack") {
        Some(true)
    } else if spells(word, b"defend") {
        Some(false)
    } else {
        None
    }
}

/// The code that a word writes: one digit from 0 to 3.
fn code(word: &[u8]) -> Option<u8>
    ensures { result ≡ code_of (kept word.now) }
{
    if byte_count(word) == 1 {
        number_between(0, GREATEST_CODE, word)
    } else {
        None
    }
}

/// What a proof claims to show, as the first three words say.
pub fn claim_made(text: &[u8], size: Size) -> Option<Claim>
    ensures { result ≡ claim_of size (words_of (plain text.now)) }
{
    let (first, more) = next_word(text)?;
    let (second, more) = next_word(more)?;
    let (third, _) = next_word(more)?;
    let attack = is_attack(first)?;
    let target = vertex_named(second, size)?;
    let code = code(third)?;
    Some(Claim {
        attack,
        target,
        code,
    })
}

/// The two points that the first two words of `text` name.
pub fn points(text: &[u8], size: Size) -> Option<(Point, Point)>
    ensures { result ≡ points_of size (words_of (plain text.now)) }
{
    let (first, more) = next_word(text)?;
    let (second, _) = next_word(more)?;
    let a = vertex_named(first, size)?;
    let b = vertex_named(second, size)?;
    Some((a, b))
}
