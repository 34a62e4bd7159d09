//! The board as a text.
ghost use Rattle.std.specs.Prelude.{◌≡◌, ◌<◌, ◌++◌, ◌∷◌, [], OnOk, IfOk};
ghost use Rattle.std.specs.List.{flat_map, range_with_len};
ghost use Rattle.machine_rules.specs.BoardText.{mark_of, row_number_text, cell_text, row_text, letter_text, board_text};

use crate::point_lists::{push_letter, push_number};
use go_base::{Bytes, Cell, NoMemory, Position, Size};
use std::alloc::Global;

/// The character that shows a cell.
fn mark(cell: Cell) -> u8
    ensures { mark_of cell ≡ result ∷ [] }
{
    match cell {
        Cell::Empty => b'.',
        Cell::Black => b'X',
        Cell::White => b'O',
    }
}

/// Appends the number of a row, right-aligned in two characters.
fn push_row_number(text: &mut Bytes, n: u8) -> Result<(), NoMemory>
    ensures { OnOk result (text.new ≡ text.old ++ row_number_text n) }
{
    if n < 10 {
        text.push(b' ')?;
    }
    push_number(text, n)
}

/// Appends a row, counted from the top, with its number and line feed.
fn push_row(text: &mut Bytes, position: &Position, row: u8) -> Result<(), NoMemory>
    requires { row < position.now.size }
    ensures { OnOk result (text.new ≡ text.old ++ row_text position.now.size position.now.cells row) }
{
    let rows = position.size().get();
    push_row_number(text, rows - row)?;
    for column in 0..rows {
        push_cell(text, position, row, column)?;
    }
    text.push(b'\n')
}

/// Appends the character of a point of a row, after a blank.
fn push_cell(text: &mut Bytes, position: &Position, row: u8, column: u8) -> Result<(), NoMemory>
    requires row { row < position.now.size }
    requires column { column < position.now.size }
    ensures { OnOk result (text.new ≡ text.old ++ cell_text position.now.size position.now.cells row column) }
{
    let at = u16::from(row) * u16::from(position.size().get()) + u16::from(column);
    text.push(b' ')?;
    text.push(mark(position.cell(at)))
}

/// Appends the letters of the columns.
fn push_letters(text: &mut Bytes, size: Size) -> Result<(), NoMemory>
    ensures { OnOk result (text.new ≡ text.old ++ flat_map letter_text (range_with_len 0 size)) }
{
    for column in 0..size.get() {
        text.push(b' ')?;
        push_letter(text, column)?;
    }
    Ok(())
}

/// The board as it is printed. Takes memory.
pub(crate) fn board_text(alloc: Global, position: &Position) -> Result<Bytes, NoMemory>
    ensures { IfOk result (λ text. text ≡ board_text position.now) }
{
    let size = position.size();
    let mut text = Bytes::new(alloc);
    text.push(b'\n')?;
    for row in 0..size.get() {
        push_row(&mut text, position, row)?;
    }
    text.extend(b"  ")?;
    push_letters(&mut text, size)?;
    Ok(text)
}
