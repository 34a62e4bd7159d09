//! What a friend sees on a position, on a board that is padded so that no step from a point leaves it.
ghost use Rattle.std.specs.Prelude.{◌≡◌, ◌+◌, ◌*◌, ◌<◌, ◌≤◌, replicate, pos, neg_ℤ, ◌≤ℤ◌, slice_index_or};
ghost use Rattle.std.specs.Prelude.{length};
ghost use Rattle.go_rules.specs.Transform.{largest_offset, IsNear};
ghost use Rattle.go_rules.specs.Strings.{cell_at};
ghost use Rattle.dfa_match.specs.SeenLetters.{seen_of, padded_side, IsPaddedBoard};
ghost use Rattle.dfa_match.specs.Steps.{strip_by, step_by, no_step, last_corner, last_step};

use crate::cursor::Cursor;
use dfa_core::Seen;
use go_base::size::MAX_OFFSET;
use go_base::{Cell, Colour, Look, Point, Size};

/// How many rows and columns the padded board has.
pub const SIDE: usize = 73;

/// The step from the beginning of the square of all offsets around a point to the point itself.
const CENTRE: usize = MAX_OFFSET as usize * SIDE + MAX_OFFSET as usize;

/// The letters that a friend sees, row by row. The board is padded by the largest offset before its first row and
/// column, and by at least as much after its last ones.
#[derive(Drop)]
pub struct PaddedBoard {
    /// The size of the board.
    pub size: Size,
    /// The letters; `Off` at each place that is no point of the board.
    pub letters: [Seen; SIDE * SIDE],
    ghost whole: { length letters ≡ padded_side * padded_side },
}

/// What `cell` is for a friend of the colour `friend`.
fn seen(friend: Colour, cell: Cell) -> Seen
    ensures { result ≡ seen_of friend cell }
{
    match friend {
        Colour::Black => match cell {
            Cell::Black => Seen::Friend,
            Cell::White => Seen::Enemy,
            Cell::Empty => Seen::Empty,
        },
        Colour::White => match cell {
            Cell::Black => Seen::Enemy,
            Cell::White => Seen::Friend,
            Cell::Empty => Seen::Empty,
        },
    }
}

/// What a friend of the colour `friend` sees at the point `p`.
fn sight<L: Look>(look: &mut L, friend: Colour, p: Point) -> Seen
    requires { p < (L.shows look.old).size * (L.shows look.old).size }
    ensures value { result ≡ seen_of friend (cell_at (L.shows look.old).cells p) }
    ensures same { L.shows look.new ≡ L.shows look.old }
{
    seen(friend, look.cell(p))
}

/// A padded board on which every place is off the board.
fn no_letters() -> [Seen; SIDE * SIDE]
    ensures { result ≡ replicate (padded_side * padded_side) Seen.Off }
{
    [Seen::Off; SIDE * SIDE]
}

/// The row or the column of the square of all offsets that `by`, one part of an offset, leads to.
fn strip_in_square(by: i8) -> u16
    requires low { neg_ℤ (pos largest_offset) ≤ℤ by }
    requires high { by ≤ℤ pos largest_offset }
    ensures value { result ≡ strip_by by }
    ensures bound { result ≤ 2 * largest_offset }
{
    (MAX_OFFSET as i16 + by as i16) as u16
}

/// The step from the beginning of the square of all offsets to the place of the offset `by`. It is the same for each
/// anchor.
pub fn step_of(by: (i8, i8)) -> u16
    requires { IsNear by }
    ensures value { result ≡ step_by by }
    ensures bound { result ≤ last_step }
{
    strip_in_square(by.0) * SIDE as u16 + strip_in_square(by.1)
}

impl PaddedBoard {
    /// What a friend of the colour `friend` sees on the position of `look`. Each point is looked at once.
    pub fn of<L: Look>(look: &mut L, friend: Colour) -> PaddedBoard
        ensures padded { IsPaddedBoard (L.shows look.old) friend result.size result.letters }
        ensures same { L.shows look.new ≡ L.shows look.old }
    {
        let size = look.size();
        let _ = size.get();
        let mut letters = no_letters();
        let mut at = Cursor::first();
        'points: for p in 0..size.points() {
            letters[at.corner as usize + CENTRE] = sight(look, friend, p);
            at = at.next(size);
        }
        PaddedBoard { size, letters }
    }

    /// The letter of the anchor whose square begins at `corner`.
    #[inline(always)]
    pub fn anchor(&self, corner: u16) -> Seen
        requires { corner ≤ last_corner }
        ensures { result ≡ slice_index_or self.now.letters (corner + no_step) Seen.Off }
    {
        self.letters[corner as usize + CENTRE]
    }

    /// The letter that a walk reads at `step`, if the square of its anchor begins at `corner`.
    pub fn letter(&self, corner: u16, step: u16) -> Seen
        requires corner { corner ≤ last_corner }
        requires step { step ≤ last_step }
        ensures { result ≡ slice_index_or self.now.letters (corner + step) Seen.Off }
    {
        self.letters[corner as usize + step as usize]
    }
}
