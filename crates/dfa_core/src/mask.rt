//! The letters that a pattern admits at an index of the spiral, as a mask of four bits.
ghost use Rattle.std.specs.Prelude.{◌≡◌, ◌&&◌, false};
ghost use Rattle.dfa_core.specs.declared.automaton.Seen.{Seen};
ghost use Rattle.dfa_core.specs.Fits.{letter_admits, drawn_admits};
ghost use Rattle.dfa_core.specs.Masks.{has_letter};

use crate::automaton::Seen;
use pat_types::{Drawn, Letter};

/// A set of letters: some of the four that a walk reads, with one bit for each letter.
#[derive(Clone, Copy)]
pub struct LetterMask {
    /// The bit at the index of a letter's number is 1 exactly if the set has the letter.
    pub bits: u8,
}

/// The bit of a friend's stone.
const FRIEND: u8 = 1;
/// The bit of an enemy's stone.
const ENEMY: u8 = 2;
/// The bit of an empty point.
const EMPTY: u8 = 4;
/// The bit of a place off the board.
const OFF: u8 = 8;

impl LetterMask {
    /// The mask without letters.
    pub fn none() -> LetterMask
        ensures { (x : Seen) → has_letter result x ≡ false }
    {
        LetterMask { bits: 0 }
    }

    /// Whether the mask has the letter `x`.
    pub fn has(self, x: Seen) -> bool
        ensures { result ≡ has_letter self x }
    {
        self.bits >> x as u8 & 1 == 1
    }

    /// Whether the mask has all four letters.
    pub fn has_all(self) -> bool
        ensures { result ≡ has_letter self Seen.Friend && has_letter self Seen.Enemy && has_letter self Seen.Empty
            && has_letter self Seen.Off }
    {
        self.has(Seen::Friend)
            && self.has(Seen::Enemy)
            && self.has(Seen::Empty)
            && self.has(Seen::Off)
    }
}

/// The mask of what the letter `l` of a diagram admits.
fn mask_of_letter(l: Letter) -> LetterMask
    ensures { (x : Seen) → has_letter result x ≡ letter_admits l x }
{
    let bits = match l {
        Letter::Friend => FRIEND,
        Letter::Enemy => ENEMY,
        Letter::Empty => EMPTY,
        Letter::FriendOrEmpty => FRIEND | EMPTY,
        Letter::EnemyOrEmpty => ENEMY | EMPTY,
        Letter::Any => FRIEND | ENEMY | EMPTY,
        Letter::Star => EMPTY,
    };
    LetterMask { bits }
}

/// The mask of what may be seen at a place, if `drawn` is what the pattern draws there.
pub fn mask_of(drawn: Drawn) -> LetterMask
    ensures { (x : Seen) → has_letter result x ≡ drawn_admits drawn x }
{
    match drawn {
        Drawn::Nothing => LetterMask {
            bits: FRIEND | ENEMY | EMPTY | OFF,
        },
        Drawn::OffBoard => LetterMask { bits: OFF },
        Drawn::Shows(l) => mask_of_letter(l),
    }
}
