//! The setup of a node: the cells that its values set.

ghost use Rattle.std.specs.Prelude.{◌≡◌, ◌≤◌, ◌<◌, ◌*◌, MatchOption, Ok, Err, length, false, ℕ, if◌then◌else◌};
ghost use Rattle.std.specs.List.{list_all, list_any};
ghost use Rattle.go_rules.specs.Board.{largest_points};
ghost use Rattle.go_rules.specs.Below.{set_below};
ghost use Rattle.go_rules.specs.Position.{stone_of};
ghost use Rattle.go_rules.specs.Strings.{cell_at, same_cell};
ghost use Rattle.sgf_rules.specs.Tokens.{said};
ghost use Rattle.sgf_rules.specs.Game.{is_readable as readable, is_setup as sets_points, with_area, cells_after_use};
ghost use Rattle.sgf_rules.specs.Game.{cells_after_uses, position_with as position_of_cells, after_setup};
ghost use Rattle.sgf_read.specs.Reads.{uses_at, Leads};
ghost use Rattle.sgf_read.specs.Rows.{is_between};

use crate::points::{area_of, move_of};
use crate::uses::next_use;
use go_base::{PointSet, Position, Size};
use go_rules::{Cell, Colour};
use sgf_rules::{Area, FaultKind, Meaning};

/// Whether `value` can be read: a setup has to say a rectangle, and a play a move.
fn is_readable(size: Size, meaning: Meaning, value: &[u8]) -> bool
    ensures { result ≡ readable size (meaning, said false value.now) }
{
    match meaning {
        Meaning::Size => true,
        Meaning::Setup(_) => area_of(size, value).is_some(),
        Meaning::Play(_) => move_of(size, value).is_some(),
    }
}

/// Whether each used value of the node at the index `node` can be read.
pub fn is_all_readable(text: &[u8], node: usize, size: Size) -> bool
    requires { node ≤ length text.now }
    ensures { result ≡ list_all (readable size) (uses_at text.now node) }
{
    let mut at = node;
    let mut meaning = None;
    'uses: while let Some(u) = next_use(text, at, meaning) {
        if !is_readable(size, u.meaning, &text[u.from..u.to]) {
            return false;
        }
        at = u.next;
        meaning = Some(u.meaning);
    }
    true
}

/// Whether a value of the node at the index `node` sets points.
fn has_setup(text: &[u8], node: usize) -> bool
    requires { node ≤ length text.now }
    ensures { result ≡ list_any sets_points (uses_at text.now node) }
{
    let mut at = node;
    let mut meaning = None;
    'uses: while let Some(u) = next_use(text, at, meaning) {
        if let Meaning::Setup(_) = u.meaning {
            return true;
        }
        at = u.next;
        meaning = Some(u.meaning);
    }
    false
}

/// Sets the cells of the points from `from` to just before `to`.
fn fill_part(cells: &mut [Cell], from: usize, to: usize, cell: Cell)
    requires in_order { from ≤ to }
    requires inside { to ≤ length cells.old }
    ensures { (p : ℕ) → cell_at cells.new p ≡ (if is_between from to p then cell else cell_at cells.old p) }
{
    for k in from..to {
        cells[k] = cell;
    }
}

/// Sets the cells of the rectangle `area` to `cell`.
fn fill(size: Size, cells: &mut [Cell], area: Area, cell: Cell)
    requires whole { length cells.old ≡ size * size }
    requires rows { (area.top ≤ area.bottom) × (area.bottom < size) }
    requires columns { (area.left ≤ area.right) × (area.right < size) }
    ensures { cells.new ≡ with_area size cells.old cell area }
{
    let width = size.get() as usize;
    for row in area.top as usize..area.bottom as usize + 1 {
        let first = row * width;
        fill_part(
            cells,
            first + area.left as usize,
            first + area.right as usize + 1,
            cell,
        );
    }
}

/// Sets the cells of the rectangle that `value` says, if `meaning` is a setup and the value says a rectangle.
fn set_by(size: Size, cells: &mut [Cell], meaning: Meaning, value: &[u8])
    requires { length cells.old ≡ size * size }
    ensures { cells.new ≡ cells_after_use size cells.old (meaning, said false value.now) }
{
    if let Meaning::Setup(cell) = meaning {
        if let Some(area) = area_of(size, value) {
            fill(size, cells, area, cell);
        }
    }
}

/// Sets the cells that the values of the node at the index `node` set.
fn set_all(text: &[u8], node: usize, size: Size, cells: &mut [Cell])
    requires whole { length cells.old ≡ size * size }
    requires node { node ≤ length text.now }
    ensures { cells.new ≡ cells_after_uses size cells.old (uses_at text.now node) }
{
    let mut at = node;
    let mut meaning = None;
    'uses: while let Some(u) = next_use(text, at, meaning) {
        set_by(size, cells, u.meaning, &text[u.from..u.to]);
        at = u.next;
        meaning = Some(u.meaning);
    }
}

/// The points where stones of a colour stand.
fn stones_of(cells: &[Cell], c: Colour) -> PointSet
    requires { length cells.now ≤ largest_points }
    ensures { result ≡ set_below (length cells.now) (λ p. same_cell (cell_at cells.now p) (stone_of c)) }
{
    let mut found = PointSet::new();
    for (p, cell) in cells.iter().enumerate() {
        if *cell == c.cell() {
            found.add(p as u16);
        }
    }
    found
}

/// The position with these cells and no ko ban, or `None` if some string has no liberty.
fn position_with(size: Size, cells: &[Cell]) -> Option<Position>
    requires { length cells.now ≡ size * size }
    ensures { MatchOption result (position_of_cells size cells.now ≡ Err FaultKind.NoLiberty)
        (λ pos. position_of_cells size cells.now ≡ Ok pos) }
{
    let _ = size.points();
    let black = stones_of(cells, Colour::Black);
    let white = stones_of(cells, Colour::White);
    Position::setup(size, &black, &white)
}

/// Sets up the position as the node at the index `node` says. The position stays as it is if the node has no value of
/// AB, AW or AE; else it has the new cells and no ko ban.
pub fn set_up(text: &[u8], node: usize, pos: &mut Position) -> Result<(), FaultKind>
    requires { node ≤ length text.now }
    ensures { Leads result pos.new (after_setup pos.old (uses_at text.now node)) }
{
    if !has_setup(text, node) {
        return Ok(());
    }
    let size = pos.size();
    let mut board = pos.board();
    let cells = &mut board.cells[..size.points() as usize];
    set_all(text, node, size, cells);
    match position_with(size, cells) {
        Some(next) => *pos = next,
        None => return Err(FaultKind::NoLiberty),
    }
    Ok(())
}
