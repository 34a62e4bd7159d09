//! Draws a diagram as it was turned, beside the part of the board on which it was laid.
use crate::placing::{Spot, point_from, turned};
use crate::tries::{Setting, Try};
use crate::words::letter_of;
use go_base::{Cell, Colour};
use match_reasons::{Misfit, Reason};
use pat_types::{Drawn, NoMemory, drawn_in};
use std::alloc::{AllocError, Global};

/// A cell of the turned drawing.
#[derive(Clone, Copy)]
struct Square {
    /// The offset of the cell from the star.
    spot: Spot,
    /// The letter of the diagram; `#` for an edge.
    drawn: char,
    /// What the board has at the cell: `O` a stone of the friend, `X` a stone of the enemy, `.` no stone, `#` off the
    /// board.
    there: char,
    /// Whether this is the cell that does not fit.
    fails: bool,
}

/// The rectangle around the turned drawing, as offsets from the star.
#[derive(Clone, Copy)]
struct Frame {
    top: i16,
    left: i16,
    bottom: i16,
    right: i16,
}

/// A cell of the board as a letter of a diagram.
fn stone_letter(cell: Cell, friend: Colour) -> char {
    if cell == Cell::Empty {
        '.'
    } else if cell == friend.cell() {
        'O'
    } else {
        'X'
    }
}

/// What the board has at the offset `spot` from the star of a try, as a letter; `#` off the board.
fn there(setting: Setting<'_>, tried: &Try<'_>, spot: Spot) -> char {
    let size = setting.position.size();
    match point_from(size, tried.at, spot) {
        Some(at) if at < size.points() => { stone_letter(setting.position.cell(at), tried.colour) }
        _ => '#',
    }
}

/// Whether the cell in this `row` and `column` of the drawing is the cell that does not fit.
fn is_misfit(misfit: Option<Misfit>, row: i16, column: i16) -> bool {
    match misfit {
        Some(misfit) => i16::from(misfit.row) == row && i16::from(misfit.column) == column,
        None => false,
    }
}

/// The cell that does not fit, if this is the reason of the try.
fn misfit_of(tried: &Try<'_>) -> Option<Misfit> {
    match tried.reason {
        Some(Reason::Misfit(misfit)) => Some(misfit),
        _ => None,
    }
}

/// The cell in this `row` and `column` of the drawing, after turning; `None` if nothing is drawn there.
fn square_of(setting: Setting<'_>, tried: &Try<'_>, row: i16, column: i16) -> Option<Square> {
    let pattern = tried.entry.pattern;
    let drawn = match drawn_in(pattern, row, column) {
        Drawn::Nothing => return None,
        Drawn::OffBoard => '#',
        Drawn::Shows(letter) => letter_of(letter),
    };
    let spot = turned(pattern, tried.transform, row, column);
    Some(Square {
        spot,
        drawn,
        there: there(setting, tried, spot),
        fails: is_misfit(misfit_of(tried), row, column),
    })
}

/// The cells of the drawing, after turning, in the reading order of the file.
fn squares(
    alloc: Global,
    setting: Setting<'_>,
    tried: &Try<'_>,
) -> Result<Vec<Square>, AllocError> {
    let pattern = tried.entry.pattern;
    let mut all = Vec::new(alloc);
    for row in 0..u16::from(pattern.rows).saturating_add(2) {
        for column in 0..u16::from(pattern.cols).saturating_add(2) {
            if row < 300
                && column < 300
                && let Some(square) = square_of(setting, tried, row as i16 - 1, column as i16 - 1)
            {
                all.push(square)?;
            }
        }
    }
    Ok(all)
}

/// The smallest rectangle with the star and these cells.
fn frame_of(squares: &[Square]) -> Frame {
    let mut frame = Frame {
        top: 0,
        left: 0,
        bottom: 0,
        right: 0,
    };
    for square in squares {
        frame = Frame {
            top: frame.top.min(square.spot.row),
            left: frame.left.min(square.spot.column),
            bottom: frame.bottom.max(square.spot.row),
            right: frame.right.max(square.spot.column),
        };
    }
    frame
}

/// The cell at this offset from the star, if one is drawn there.
fn square_at(squares: &[Square], row: i16, column: i16) -> Option<Square> {
    for square in squares {
        if square.spot.row == row && square.spot.column == column {
            return Some(*square);
        }
    }
    None
}

/// Prints a row of the diagram, or of the board if `is_board`. Before each cell is a blank, or a bracket next to the
/// cell that fails. Behind the last cell is a closing bracket if it fails; else a blank in a row of the diagram.
fn put_row(
    page: &mut String,
    squares: &[Square],
    frame: Frame,
    row: i16,
    is_board: bool,
) -> Result<(), AllocError> {
    let mut closes = false;
    for column in frame.left..frame.right.saturating_add(1) {
        let square = square_at(squares, row, column);
        let fails = square.is_some_and(|square| square.fails);
        let letter = match square {
            Some(square) if is_board => square.there,
            Some(square) => square.drawn,
            None => ' ',
        };
        let mark = if fails {
            '['
        } else if closes {
            ']'
        } else {
            ' '
        };
        page.push(mark)?;
        page.push(letter)?;
        closes = fails;
    }
    page.push_str(if closes {
        "]"
    } else if is_board {
        ""
    } else {
        " "
    })
}

/// Prints the diagram as it was turned, and to its right the same part of the board, in the letters of diagrams: `O`
/// for the friend's stones, `X` for the enemy's; `#` is off the board. Brackets enclose the cell that does not fit.
pub fn put_drawing(
    page: &mut String,
    alloc: Global,
    setting: Setting<'_>,
    tried: &Try<'_>,
) -> Result<(), NoMemory> {
    let squares = squares(alloc, setting, tried)?;
    let frame = frame_of(squares.as_slice());
    for row in frame.top..frame.bottom.saturating_add(1) {
        page.push_str("   ")?;
        put_row(page, squares.as_slice(), frame, row, false)?;
        page.push_str("   |  ")?;
        put_row(page, squares.as_slice(), frame, row, true)?;
        page.push_str("\n")?;
    }
    Ok(())
}
