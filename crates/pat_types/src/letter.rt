//! The letters of a diagram.

ghost use Rattle.std.specs.Prelude.{◌≡◌};
ghost use Rattle.pat_types.specs.Letters.{admits};

use go_base::{Cell, Colour};

/// What a cell of a diagram asks of the cell of the board under it.
#[derive(Clone, Copy, Debug, PartialEq, Eq)]
pub enum Letter {
    /// `O`: a stone of the colour for which the pattern is asked.
    Friend,
    /// `X`: a stone of the other colour.
    Enemy,
    /// `.`: no stone.
    Empty,
    /// `o`: a stone of the colour for which the pattern is asked, or none.
    FriendOrEmpty,
    /// `x`: a stone of the other colour, or none.
    EnemyOrEmpty,
    /// `?`: anything.
    Any,
    /// `*`: no stone; the move is played here.
    Star,
}

/// Whether a letter admits a cell. `friend` is the colour for which the pattern is asked.
pub fn letter_fits(letter: Letter, cell: Cell, friend: Colour) -> bool
    ensures { result ≡ admits letter cell friend }
{
    let mine = cell == friend.cell();
    let yours = cell == friend.other().cell();
    let empty = cell == Cell::Empty;
    match letter {
        Letter::Friend => mine,
        Letter::Enemy => yours,
        Letter::Empty | Letter::Star => empty,
        Letter::FriendOrEmpty => mine || empty,
        Letter::EnemyOrEmpty => yours || empty,
        Letter::Any => true,
    }
}
