//! Whether the rules allow a play, judged by its four sides, without joining strings.

ghost use Rattle.std.specs.Prelude.{◌≡◌, ◌*◌, ◌<◌, true, false};
ghost use Rattle.go_rules.specs.Board.{are_neighbours};
ghost use Rattle.go_rules.specs.Play.{is_legal};
ghost use Rattle.go_base.specs.Positions.{HoldsWith};
ghost use Rattle.go_strings.specs.Living.{IsAlive, IsDead, IsDeadSide};
ghost use Rattle.go_strings.specs.Puts.{Puts};
ghost use Rattle.go_strings.specs.Stands.{cells_of, IsBoard, Stands};
ghost use Rattle.go_strings.specs.Trails.{position_in};

use crate::gather::{cell_on, is_only};
use crate::standing::Standing;
use crate::strings::{KeptString, StringNames};
use go_base::ban::is_banned;
use go_base::sides::neighbour;
use go_base::view::Flat;
use go_base::{Cell, Colour, Point};

/// Whether `q`, a neighbour of `p` where `c` plays, gives the stone life: `q` is empty, or holds a friend with a
/// liberty other than `p`, or an enemy with no other liberty.
#[inline(always)]
fn gives_life(
    board: &Flat,
    names: &StringNames,
    strings: &[KeptString],
    c: Colour,
    p: Point,
    q: Point,
) -> bool
    requires stands { Stands board.now names.now strings.now }
    requires put { Puts board.now.size (cells_of board.now) c p }
    requires on_board { q < board.now.size * board.now.size }
    requires near { are_neighbours board.now.size p q ≡ true }
    ensures yes { result ≡ true → IsAlive board.now.size (cells_of board.now) c p }
    ensures no { result ≡ false → IsDeadSide board.now.size (cells_of board.now) c p q }
{
    let _ = board.size.points();
    let cell = cell_on(board, q);
    if cell == Cell::Empty {
        return true;
    }
    let string = &strings[names[q as usize] as usize];
    let last = is_only(&string.liberties, p);
    if cell == c.cell() {
        return !last;
    }
    last
}

/// Whether a stone of `c` at the empty point `p` would have a liberty or take a stone.
fn is_alive(board: &Flat, names: &StringNames, strings: &[KeptString], c: Colour, p: Point) -> bool
    requires stands { Stands board.now names.now strings.now }
    requires put { Puts board.now.size (cells_of board.now) c p }
    ensures yes { result ≡ true → IsAlive board.now.size (cells_of board.now) c p }
    ensures no { result ≡ false → IsDead board.now.size (cells_of board.now) c p }
{
    let _ = board.size.points();
    for side in 0..4 {
        if let Some(q) = neighbour(board.size, p, side) {
            if gives_life(board, names, strings, c, p, q) {
                return true;
            }
        }
    }
    false
}

/// Whether `c` may play at `p`.
pub fn is_allowed(now: &Standing, strings: &[KeptString], c: Colour, p: Point) -> bool
    requires stands { Stands now.now.board now.now.names strings.now }
    requires holds { HoldsWith now.now.board now.now.ban }
    requires on_board { p < now.now.board.size * now.now.board.size }
    ensures { result ≡ is_legal (position_in now.now) c p }
{
    if cell_on(&now.board, p) != Cell::Empty {
        return false;
    }
    if is_banned(now.ban, c, p) {
        return false;
    }
    is_alive(&now.board, &now.names, strings, c, p)
}
