//! A program that uses the reader as a library: whether a stone in a ladder can be captured, and whether it can be
//! saved.
#![tactic(auto)]

ghost use Rattle.std.specs.Prelude.{◌≡◌, ◌≢◌, ◌*◌, ◌<◌, ◌↔◌, IsSome, IfSome};
ghost use Rattle.go_rules.specs.Strings.{cell_at};
ghost use Rattle.read_rules.specs.Answer.{answer_of, asked_in};

use go_base::{Cell, Colour, Point, Position, Size, Watch};
use read_tree::{Answer, Depths, Kind, attack, defend};
use std::io;

/// The point of the vertex `name`, in columns A to H. Points are counted from the upper left corner, row by row.
fn vertex(size: Size, name: &str) -> Option<Point>
    ensures { IfSome result (λ p. p < size * size) }
{
    let [column @ b'A'..=b'H', row @ b'1'..=b'9'] = name.as_bytes() else {
        return None;
    };
    let p = size.point(size.get().checked_sub(*row - b'0')?, *column - b'A')?;
    if p < size.points() { Some(p) } else { None }
}

/// The position after the stones at the vertices in `names` were played, all of one colour.
fn with_stones(mut position: Position, colour: Colour, names: &str) -> Option<Position> {
    for name in names.split_whitespace() {
        position = position.play(colour, vertex(position.size(), name)?).ok()?;
    }
    Some(position)
}

/// The answer to a question of this `kind` about the stone at `target`, or `None` if no stone stands there.
fn asked(position: &Position, kind: Kind, target: Point, depths: Depths) -> Option<Answer>
    ensures stone { IsSome result
        ↔ ((target < position.now.size * position.now.size) × (cell_at position.now.cells target ≢ Cell.Empty)) }
    ensures answer { IfSome result
        (λ a. a ≡ answer_of (asked_in depths.tree position.now kind target depths.plies depths.wide) position.now) }
{
    if target >= position.size().points() || position.cell(target) == Cell::Empty {
        return None;
    }
    let look = Watch::new(position);
    Some(match kind {
        Kind::Attack => attack(look, target, depths).answer,
        Kind::Defend => defend(look, target, depths).answer,
    })
}

/// Whether the stone at D4 can be captured, and whether it can be saved, 20 plies deep, on a board of 9 rows with these
/// stones.
fn ladder(black: &str, white: &str) -> Option<(Answer, Answer)> {
    let position = with_stones(Position::new(Size::new(9)?), Colour::Black, black)?;
    let position = with_stones(position, Colour::White, white)?;
    let target = vertex(position.size(), "D4")?;
    let depths = Depths::new(20, 0)?;
    let attacked = asked(&position, Kind::Attack, target, depths)?;
    Some((attacked, asked(&position, Kind::Defend, target, depths)?))
}

fn main(rt: HostRuntime) -> io::Result<()> {
    for white in ["D4", "D4 G7"] {
        let Some((attacked, defended)) = ladder("C4 C3 D5 D3 E3", white) else {
            return println!(rt; "no stone to ask about");
        };
        println!(rt;
            "white {white}: attack {} {:?}, defend {} {:?}",
            attacked.code, attacked.at, defended.code, defended.at
        )?;
    }
    Ok(())
}
