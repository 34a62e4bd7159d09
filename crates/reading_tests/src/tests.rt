//! Small positions, and what is read on them. The modules follow the crates, lowest first.
mod all_moves;
mod candidates;
mod connections;
mod connections_kept;
mod depths;
mod first_proofs;
mod further;
mod kept_answers;
mod nodes;
mod proofs;
mod readings;
mod wider_proofs;

ghost use Rattle.std.specs.Prelude.{◌≡◌, ◌≢◌, ◌*◌, ◌<◌, IfSome};
ghost use Rattle.go_rules.specs.Strings.{cell_at};

use connect_rules::LinkKind;
use go_base::{Cell, Colour, Point, Position, Size};
use read_rules::{Kind, Spot};
use vertices::vertex_named;

/// A small position: its size, black's stones, and then white's. A `PASS` may stand for a stone.
type Stones = (u8, &'static str, &'static str);

/// A question of a reading: what is asked, the vertex of its stone, the plies, and the wide plies.
type Question = (Kind, &'static str, u8, u8);

/// A question about a connection: what is asked, the vertices of its two stones, and the plies.
type LinkQuestion = (LinkKind, &'static str, &'static str, u8);

/// Black D4 has one liberty, D3.
const IN_ATARI: Stones = (9, "D4", "C4 E4 D5");

/// White C3 stands in a ko: it has taken D3, and the ban forbids black to play at D3 at once.
const KO: Stones = (5, "B3 C4 C2 D3", "D4 E3 D2 C3");

/// White C3 is in atari in a ko, which black takes with D3.
const OPEN_KO: Stones = (5, "B2 B3 B4 C4 C2", "D4 E3 D2 C3");

/// Black A1 is in atari, and after its capture by white B1 black takes B1 and C1 by a play at A1.
const SNAPBACK: Stones = (5, "A1 B2 C2 D1", "A2 A3 B3 C1");

/// The point of a vertex.
fn vertex(size: Size, name: &str) -> Option<Point>
    ensures { IfSome result (λ p. p < size * size) }
{
    let p = vertex_named(name.as_bytes(), size)?;
    if p < size.points() { Some(p) } else { None }
}

/// The point of a vertex where a stone stands.
fn stone(position: &Position, name: &str) -> Option<Point>
    ensures on_board { IfSome result (λ p. p < position.now.size * position.now.size) }
    ensures stone { IfSome result (λ p. cell_at position.now.cells p ≢ Cell.Empty) }
{
    let p = vertex(position.size(), name)?;
    if position.cell(p) == Cell::Empty {
        return None;
    }
    Some(p)
}

/// The points of two stones of one colour.
fn two_stones(position: &Position, a: &str, b: &str) -> Option<(Point, Point)>
    ensures a_on { IfSome result (λ points. points.0 < position.now.size * position.now.size) }
    ensures b_on { IfSome result (λ points. points.1 < position.now.size * position.now.size) }
    ensures stone { IfSome result (λ points. cell_at position.now.cells points.0 ≢ Cell.Empty) }
    ensures one_colour { IfSome result (λ points.
        cell_at position.now.cells points.1 ≡ cell_at position.now.cells points.0) }
{
    let a = stone(position, a)?;
    let b = vertex(position.size(), b)?;
    if position.cell(b) != position.cell(a) {
        return None;
    }
    Some((a, b))
}

/// The move of an answer from its text, a vertex or `PASS`; `None` if the text is neither.
fn spot(size: Size, name: &str) -> Option<Spot> {
    if name == "PASS" {
        return Some(Spot::Pass);
    }
    Some(Spot::At(vertex(size, name)?))
}

/// The position after a stone at this vertex, or after a `PASS`.
fn with_stone(position: &Position, colour: Colour, name: &str) -> Option<Position> {
    if name == "PASS" {
        return Some(position.pass());
    }
    position.play(colour, vertex(position.size(), name)?).ok()
}

/// The position after these stones are added to it.
fn with_stones(position: Position, colour: Colour, names: &str) -> Option<Position> {
    let mut position = position;
    for name in names.split_whitespace() {
        position = with_stone(&position, colour, name)?;
    }
    Some(position)
}

/// The position of these stones.
fn position((size, black, white): Stones) -> Option<Position> {
    let position = Position::new(Size::new(size)?);
    with_stones(
        with_stones(position, Colour::Black, black)?,
        Colour::White,
        white,
    )
}
