//! The cells of a diagram.
ghost use Rattle.std.specs.Prelude.{◌≡◌, ◌<◌, length, position, IfSome};
ghost use Rattle.pat_types.specs.Cells.{strip_at, IsWithin, drawn_by, drawn_at, is_stone, anchor_of};

use crate::letter::Letter;
use crate::pattern::Pattern;

/// A row or a column: it crosses the letters, is an edge, or neither.
#[derive(Clone, Copy, Debug, PartialEq, Eq)]
pub enum Strip {
    /// The strip crosses the letters, in this row or column of the rectangle.
    Crosses(u8),
    /// The strip is an edge that is drawn.
    Edge,
    /// The strip lies outside the letters and the drawn edges.
    Beyond,
}

/// What a pattern draws in a cell.
#[derive(Clone, Copy, Debug, PartialEq, Eq)]
pub enum Drawn {
    /// Nothing: the cell is not part of the pattern.
    Nothing,
    /// An edge: the cell lies off the board.
    OffBoard,
    /// A letter.
    Shows(Letter),
}

/// What strip `z` is, if `n` strips cross the letters; `before` and `after` tell whether an edge is drawn before and
/// after them.
fn strip_with(n: u8, before: bool, after: bool, z: i16) -> Strip
    ensures value { result ≡ strip_at n before after z }
    ensures within { IsWithin n result }
{
    if z < 0 {
        if z == -1 && before {
            Strip::Edge
        } else {
            Strip::Beyond
        }
    } else if z < n as i16 {
        Strip::Crosses(z as u8)
    } else if z == n as i16 && after {
        Strip::Edge
    } else {
        Strip::Beyond
    }
}

/// What pattern `p` draws in the cell where a row and a column meet.
fn meet(p: &Pattern, row: Strip, column: Strip) -> Drawn
    requires row { IsWithin p.now.rows row }
    requires column { IsWithin p.now.cols column }
    ensures { result ≡ drawn_by p.now row column }
{
    match row {
        Strip::Beyond => Drawn::Nothing,
        Strip::Edge => match column {
            Strip::Beyond => Drawn::Nothing,
            Strip::Edge => Drawn::OffBoard,
            Strip::Crosses(_) => Drawn::OffBoard,
        },
        Strip::Crosses(r) => match column {
            Strip::Beyond => Drawn::Nothing,
            Strip::Edge => Drawn::OffBoard,
            Strip::Crosses(c) => {
                Drawn::Shows(p.letters.as_slice()[r as usize * p.cols as usize + c as usize])
            }
        },
    }
}

/// What a pattern draws in row `r` and column `c`, both counted from its first letter.
#[tactic(auto, unfolding(crate::specs::Cells::drawn_at))]
pub fn drawn_in(p: &Pattern, r: i16, c: i16) -> Drawn
    ensures { result ≡ drawn_at p.now r c }
{
    let row = strip_with(p.rows, p.top, p.bottom, r);
    let column = strip_with(p.cols, p.left, p.right, c);
    meet(p, row, column)
}

/// Whether a letter is `O` or `X`.
fn is_stone(l: Letter) -> bool
    ensures { result ≡ is_stone l }
{
    match l {
        Letter::Friend => true,
        Letter::Enemy => true,
        _ => false,
    }
}

fn first_stone(letters: &[Letter]) -> Option<usize>
    ensures value { result ≡ position is_stone letters.now }
    ensures within { IfSome result (λ i. i < length letters.now) }
{
    letters.iter().position(|l| is_stone(*l))
}

/// The row and the column of the first `O` or `X` in reading order, or of the star if there is none.
#[tactic(auto, unfolding(crate::specs::Cells::anchor_of))]
pub fn anchor(p: &Pattern) -> (u8, u8)
    ensures value { result ≡ anchor_of p.now }
    ensures row { result.0 < p.now.rows }
    ensures column { result.1 < p.now.cols }
{
    match first_stone(p.letters.as_slice()) {
        Some(i) => ((i / p.cols as usize) as u8, (i % p.cols as usize) as u8),
        None => p.star,
    }
}
