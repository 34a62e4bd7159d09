//! The first cell of a diagram that does not fit.
ghost use Rattle.std.specs.Prelude.{◌≡◌, ◌≢◌, ◌↔◌, ◌+◌, ◌*◌, ◌<◌, false, pos, ◌-ℤ◌, IfSome, IsNone, IsTrue, find};
ghost use Rattle.std.specs.Prelude.{option_map};
ghost use Rattle.pat_types.specs.Cells.{drawn_at};
ghost use Rattle.match_rules.specs.Fits.{place_of_cell, cell_fits, fits};
ghost use Rattle.match_misfit.specs.Misfits.{cell_with, cells_of_row, is_misfit, first_cell as first_of_all};
ghost use Rattle.match_misfit.specs.Misfits.{misfit_of, first_misfit as first_told};

use go_base::{Cell, Colour, Point, Position, Size, Transform};
use pat_types::{Drawn, Pattern, drawn_in, letter_fits};
use spiral::place_from;

/// A cell of a diagram that does not fit: a letter off the board or over something that it does not admit, or an edge
/// on the board.
#[derive(Clone, Copy, Debug, PartialEq, Eq)]
pub struct Misfit {
    /// The cell's row in the drawing. The first row of letters is 0, and an edge above it is -1.
    pub row: i8,
    /// The cell's column in the drawing. The first column of letters is 0, and an edge on the left is -1.
    pub column: i8,
    /// What is drawn in the cell: a letter or an edge.
    pub drawn: Drawn,
    /// The point at which the cell lies and what stands there; `None` off the board.
    pub there: Option<(Point, Cell)>,
}

/// The point at which the drawn cell in row `i` and column `j` lies, with the star at `at` under the transformation
/// `t`, or `None` off the board. `i` and `j` are counted from the edges, one before the letters.
fn place_of(p: &Pattern, t: Transform, at: Point, size: Size, i: u8, j: u8) -> Option<Point>
    requires on_board { at < size * size }
    requires row { i < p.now.rows + 2 }
    requires column { j < p.now.cols + 2 }
    requires drawn { drawn_at p.now (pos i -ℤ pos 1) (pos j -ℤ pos 1) ≢ Drawn.Nothing }
    ensures value { result ≡ place_of_cell p.now size t at (pos i -ℤ pos 1) (pos j -ℤ pos 1) }
    ensures on_board { IfSome result (λ q. q < size * size) }
{
    let dr = i as i8 - 1 - p.star.0 as i8;
    let dc = j as i8 - 1 - p.star.1 as i8;
    place_from(at, t, dr, dc, size)
}

/// What is drawn in the cell in row `i` and column `j`, counted from the edges.
fn drawn_there(p: &Pattern, i: u8, j: u8) -> Drawn
    ensures { result ≡ drawn_at p.now (pos i -ℤ pos 1) (pos j -ℤ pos 1) }
{
    drawn_in(p, i as i16 - 1, j as i16 - 1)
}

/// Whether the cell in row `i` and column `j`, counted from the edges, fits with the star at `at` under `t`.
fn does_fit(
    p: &Pattern,
    position: &Position,
    friend: Colour,
    t: Transform,
    at: Point,
    i: u8,
    j: u8,
) -> bool
    requires on_board { at < position.now.size * position.now.size }
    requires row { i < p.now.rows + 2 }
    requires column { j < p.now.cols + 2 }
    ensures { result ≡ cell_fits p.now position.now friend t at (cell_with i j) }
{
    match drawn_there(p, i, j) {
        Drawn::Nothing => true,
        Drawn::OffBoard => place_of(p, t, at, position.size(), i, j).is_none(),
        Drawn::Shows(letter) => match place_of(p, t, at, position.size(), i, j) {
            Some(q) => letter_fits(letter, position.cell(q), friend),
            None => false,
        },
    }
}

/// The column of the first cell of row `i` that does not fit, if there is one; both are counted from the edges.
fn misfit_in_row(
    p: &Pattern,
    position: &Position,
    friend: Colour,
    t: Transform,
    at: Point,
    i: u8,
) -> Option<u8>
    requires on_board { at < position.now.size * position.now.size }
    requires row { i < p.now.rows + 2 }
    ensures first { option_map (λ j. cell_with i j) result
        ≡ find (is_misfit p.now position.now friend t at) (cells_of_row p.now (pos i -ℤ pos 1)) }
    ensures column { IfSome result (λ j. (j < p.now.cols + 2)
        × (cell_fits p.now position.now friend t at (cell_with i j) ≡ false)) }
{
    for j in 0..p.cols + 2 {
        if !does_fit(p, position, friend, t, at, i, j) {
            return Some(j);
        }
    }
    None
}

/// The row and the column of the first cell that does not fit, in reading order and counted from the edges, if there is
/// one.
fn first_cell(
    p: &Pattern,
    position: &Position,
    friend: Colour,
    t: Transform,
    at: Point,
) -> Option<(u8, u8)>
    requires on_board { at < position.now.size * position.now.size }
    ensures first { option_map (λ m. cell_with m.0 m.1) result ≡ first_of_all p.now position.now friend t at }
    ensures within { IfSome result (λ m. (m.0 < p.now.rows + 2) × (m.1 < p.now.cols + 2)
        × (cell_fits p.now position.now friend t at (cell_with m.0 m.1) ≡ false)) }
{
    for i in 0..p.rows + 2 {
        if let Some(j) = misfit_in_row(p, position, friend, t, at, i) {
            return Some((i, j));
        }
    }
    None
}

/// The report on the cell in row `i` and column `j`, counted from the edges, which has something drawn in it.
fn told_of(p: &Pattern, position: &Position, t: Transform, at: Point, i: u8, j: u8) -> Misfit
    requires on_board { at < position.now.size * position.now.size }
    requires row { i < p.now.rows + 2 }
    requires column { j < p.now.cols + 2 }
    requires drawn { drawn_at p.now (pos i -ℤ pos 1) (pos j -ℤ pos 1) ≢ Drawn.Nothing }
    ensures { result ≡ misfit_of p.now position.now t at (cell_with i j) }
{
    let there = match place_of(p, t, at, position.size(), i, j) {
        Some(q) => Some((q, position.cell(q))),
        None => None,
    };
    Misfit {
        row: i as i8 - 1,
        column: j as i8 - 1,
        drawn: drawn_there(p, i, j),
        there,
    }
}

/// The first cell of the diagram of `p`, in reading order, that does not fit with the star at `at` under the
/// transformation `t`, or `None` if the diagram fits there. Takes no memory.
///
/// After GNU Go Manual, "The Pattern Code".
pub fn first_misfit(
    p: &Pattern,
    position: &Position,
    friend: Colour,
    t: Transform,
    at: Point,
) -> Option<Misfit>
    requires { at < position.now.size * position.now.size }
    ensures first { result ≡ first_told p.now position.now friend t at }
    ensures none { IsNone result ↔ IsTrue (fits p.now position.now friend t at) }
{
    let (i, j) = first_cell(p, position, friend, t, at)?;
    Some(told_of(p, position, t, at, i, j))
}
