//! Notes of the cell and the name that points had before a change. Taking the notes back, the last one first, restores
//! what stood before them.

ghost use Rattle.std.specs.Prelude.{◌≡◌, ◌*◌, ◌<◌, ◌++◌, ◌∷◌, [], slice_set, slice_index_or};
ghost use Rattle.std.specs.Prelude.{take, drop, OnOk, OnErr};
ghost use Rattle.go_rules.specs.declared.Cell.{Cell};
ghost use Rattle.go_rules.specs.Board.{largest_points};
ghost use Rattle.go_base.specs.Flats.{KeepsRest};
ghost use Rattle.go_strings.specs.Named.{Renamed};
ghost use Rattle.go_strings.specs.Notes.{cells_before, names_before, IsNoted};
ghost use Rattle.go_strings.specs.Stands.{cells_of, IsBoard};

use crate::bit_set::BitSet;
use crate::strings::StringNames;
use go_base::size::MAX_POINTS;
use go_base::view::Flat;
use go_base::{Cell, NoMemory, Point};

/// The cells of a board, and the cells past it.
type Cells = [Cell; MAX_POINTS];

/// What a point had before it was changed: its cell, and the place of its string.
#[derive(Clone, Copy)]
pub struct Note {
    /// The point that was changed.
    pub at: Point,
    /// The cell of the point before the change.
    pub cell: Cell,
    /// The place of the point's string in the list before the change.
    pub name: u32,
}

/// Notes the cell and the name that `p` has.
fn keep_note(
    board: &Flat,
    names: &StringNames,
    notes: &mut Vec<Note>,
    p: Point,
) -> Result<(), NoMemory>
    requires { p < largest_points }
    ensures ok { OnOk result (notes.new.items ≡ notes.old.items ++ record {
      at = p;
      cell = slice_index_or board.now.cells p Cell.Empty;
      name = slice_index_or names.now p 0;
    } ∷ []) }
    ensures err { OnErr result (notes.new.items ≡ notes.old.items) }
{
    let now = Note {
        at: p,
        cell: board.cells[p as usize],
        name: names[p as usize],
    };
    match notes.push(now) {
        Ok(()) => Ok(()),
        Err(_) => Err(NoMemory),
    }
}

/// Puts `cell` on `p`, and notes what `p` had before.
pub fn put_cell(
    board: &mut Flat,
    names: &StringNames,
    notes: &mut Vec<Note>,
    p: Point,
    cell: Cell,
) -> Result<(), NoMemory>
    requires held { IsBoard board.old }
    requires on_board { p < board.old.size * board.old.size }
    ensures noted { IsNoted board.old.cells board.new.cells names.now names.now notes.old.items notes.new.items }
    ensures keeps { KeepsRest board.old board.new }
    ensures ok { OnOk result (cells_of board.new ≡ slice_set (cells_of board.old) p cell) }
{
    let _ = board.size.points();
    keep_note(board, names, notes, p)?;
    board.cells[p as usize] = cell;
    Ok(())
}

/// Gives each point of `stones` the name `name`, and notes what it had before.
pub fn rename_noted(
    board: &Flat,
    names: &mut StringNames,
    notes: &mut Vec<Note>,
    stones: &BitSet,
    name: u32,
) -> Result<(), NoMemory>
    ensures noted { IsNoted board.now.cells board.now.cells names.old names.new notes.old.items notes.new.items }
    ensures ok { OnOk result (Renamed names.old names.new stones.now name) }
{
    let mut next = 0;
    while let Some(q) = stones.first_from(next) {
        keep_note(board, names, notes, q)?;
        names[q as usize] = name;
        next = q + 1;
    }
    Ok(())
}

/// Gives the point of `note` its noted cell and name back.
fn put_back(cells: &mut Cells, names: &mut StringNames, note: Note)
    ensures cells { cells.new ≡ slice_set cells.old note.at note.cell }
    ensures names { names.new ≡ slice_set names.old note.at note.name }
{
    if (note.at as usize) < MAX_POINTS {
        cells[note.at as usize] = note.cell;
        names[note.at as usize] = note.name;
    }
}

/// Takes back all notes but the first `mark`, the last one first.
pub fn unwind(board: &mut Flat, names: &mut StringNames, notes: &mut Vec<Note>, mark: usize)
    ensures board { board.new
        ≡ record { size = board.old.size; cells = cells_before (drop mark notes.old.items) board.old.cells } }
    ensures names { names.new ≡ names_before (drop mark notes.old.items) names.old }
    ensures notes { notes.new.items ≡ take mark notes.old.items }
{
    while notes.len() > mark {
        let last = notes.len() - 1;
        let note = notes[last];
        notes.truncate(last);
        put_back(&mut board.cells, names, note);
    }
}
