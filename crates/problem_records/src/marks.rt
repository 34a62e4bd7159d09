//! The question of a record without a line: the player to move attacks or defends the only marked stone.

ghost use Rattle.std.specs.Prelude.{◌≡◌, ◌&&◌, IfOk, false};
ghost use Rattle.std.specs.List.{filter};
ghost use Rattle.go_rules.specs.Strings.{cell_at};
ghost use Rattle.sgf_rules.specs.Points.{is_in_area};
ghost use Rattle.sgf_rules.specs.Tokens.{is_capital};
ghost use Rattle.problem_records.specs.Nodes.{all_shown, shown};
ghost use Rattle.problem_records.specs.Marks.{is_mark, is_marked, is_stone_at, marked_stones, colour_said, player_of};
ghost use Rattle.problem_records.specs.Marks.{kind_for, asked_by_marks, marks};

use crate::lack::Lack;
use crate::node::{NamedValue, are_same, is_named, said};
use go_base::{Cell, Colour, NoMemory, Point, Position, Size};
use problem_verdicts::Kind;
use sgf_read::area_of;
use sgf_rules::Area;
use std::alloc::{AllocError, Global};

/// Whether a property with these letters marks points: TR, SQ, CR or MA.
fn is_mark(letters: &[u8]) -> bool
    ensures { result ≡ is_mark (filter is_capital letters.now) }
{
    is_named(letters, b"TR")
        || is_named(letters, b"SQ")
        || is_named(letters, b"CR")
        || is_named(letters, b"MA")
}

/// Whether the point `p` lies in the rectangle `area`.
fn is_in_area(size: Size, area: Area, p: Point) -> bool
    ensures { result ≡ is_in_area size area p }
{
    let side = u16::from(size.get());
    let (row, column) = (p / side, p % side);
    u16::from(area.top) <= row
        && row <= u16::from(area.bottom)
        && u16::from(area.left) <= column
        && column <= u16::from(area.right)
}

/// Whether `value` marks the point `p`.
fn marks(value: &NamedValue<'_>, size: Size, p: Point) -> bool
    ensures { result ≡ marks size p (shown value.now) }
{
    if !is_mark(value.name) {
        return false;
    }
    match area_of(size, value.value) {
        Some(area) => is_in_area(size, area, p),
        None => false,
    }
}

/// Whether one of `values` marks the point `p`.
fn is_marked(values: &[NamedValue<'_>], size: Size, p: Point) -> bool
    ensures { result ≡ is_marked size p (all_shown values.now) }
{
    for value in values {
        if marks(value, size, p) {
            return true;
        }
    }
    false
}

/// The cell at a point; empty off the board.
fn cell_at(position: &Position, p: Point) -> Cell
    ensures { result ≡ cell_at position.now.cells p }
{
    if p < position.size().points() {
        position.cell(p)
    } else {
        Cell::Empty
    }
}

/// Whether a marked stone stands at the point `p`.
fn is_marked_stone(position: &Position, values: &[NamedValue<'_>], p: Point) -> bool
    ensures { result ≡ (is_stone_at position.now.cells p && is_marked position.now.size p (all_shown values.now)) }
{
    cell_at(position, p) != Cell::Empty && is_marked(values, position.size(), p)
}

/// The marked stones in reading order.
pub(crate) fn marked_stones(
    alloc: Global,
    position: &Position,
    values: &[NamedValue<'_>],
) -> Result<Vec<Point>, AllocError>
    ensures { IfOk result (λ stones. stones.items ≡ marked_stones position.now (all_shown values.now)) }
{
    let mut stones = Vec::new(alloc);
    'points: for p in 0..position.size().points() {
        if is_marked_stone(position, values, p) {
            stones.push(p)?;
        }
    }
    Ok(stones)
}

/// The colour that a value of PL says.
fn colour_said(value: &[u8]) -> Option<Colour>
    ensures { result ≡ colour_said value.now }
{
    if are_same(value, b"B")
        || are_same(value, b"b")
        || are_same(value, b"black")
        || are_same(value, b"Black")
    {
        Some(Colour::Black)
    } else if are_same(value, b"W")
        || are_same(value, b"w")
        || are_same(value, b"white")
        || are_same(value, b"White")
    {
        Some(Colour::White)
    } else {
        None
    }
}

/// The player to move: the colour that the first PL among `values` says.
pub(crate) fn player(alloc: Global, values: &[NamedValue<'_>]) -> Result<Option<Colour>, NoMemory>
    ensures { IfOk result (λ player. player ≡ player_of (all_shown values.now)) }
{
    for value in values {
        if is_named(value.name, b"PL") {
            let bytes = said(alloc, value.value)?;
            return Ok(colour_said(bytes.as_slice()));
        }
    }
    Ok(None)
}

/// The question about a stone: `player` defends a stone of this colour, and attacks any other.
fn kind_for(player: Colour, cell: Cell) -> Kind
    ensures { result ≡ kind_for player cell }
{
    match (player, cell) {
        (Colour::Black, Cell::Black) | (Colour::White, Cell::White) => Kind::Defend,
        _ => Kind::Attack,
    }
}

/// The question about the only one of `stones`, or what is lacking.
pub(crate) fn asked_by_marks(
    position: &Position,
    stones: &[Point],
    player: Option<Colour>,
) -> Result<(Kind, Point), Lack>
    ensures { result ≡ asked_by_marks position.now.cells stones.now player }
{
    match stones {
        [] => Err(Lack::NoMark),
        [p] => match player {
            Some(player) => Ok((kind_for(player, cell_at(position, *p)), *p)),
            None => Err(Lack::NoPlayer),
        },
        _ => Err(Lack::ManyMarks),
    }
}
