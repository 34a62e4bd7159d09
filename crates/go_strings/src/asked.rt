//! Questions about a point, answered from the kept strings.

ghost use Rattle.std.specs.Prelude.{◌≡◌, ◌*◌, ◌<◌, MatchOption};
ghost use Rattle.go_rules.specs.Strings.{cell_at, string_at, liberty_points, liberties};
ghost use Rattle.go_strings.specs.Named.{IsStringOf};
ghost use Rattle.go_strings.specs.Stands.{cells_of, Stands};

use crate::capture::points_of;
use crate::gather::cell_on;
use crate::standing::Standing;
use crate::strings::KeptString;
use go_base::points::PointSet;
use go_base::{Cell, Point};

/// The kept string of the stone at `p`; `None` if `p` is empty.
fn kept_string_at<'a>(now: &Standing, strings: &'a [KeptString], p: Point) -> Option<&'a KeptString>
    requires stands { Stands now.now.board now.now.names strings.now }
    requires on_board { p < now.now.board.size * now.now.board.size }
    ensures { MatchOption result (cell_at (cells_of now.now.board) p ≡ Cell.Empty)
        (λ string. IsStringOf now.now.board.size (cells_of now.now.board) p string.now) }
{
    let _ = now.board.size.points();
    if cell_on(&now.board, p) == Cell::Empty {
        return None;
    }
    Some(&strings[now.names[p as usize] as usize])
}

/// The stones of the string at `p`; none if `p` is empty.
pub fn stones_at(now: &Standing, strings: &[KeptString], p: Point) -> PointSet
    requires stands { Stands now.now.board now.now.names strings.now }
    requires on_board { p < now.now.board.size * now.now.board.size }
    ensures { result ≡ string_at now.now.board.size (cells_of now.now.board) p }
{
    match kept_string_at(now, strings, p) {
        Some(string) => points_of(&string.stones),
        None => PointSet::new(),
    }
}

/// The liberties of the string at `p`; none if `p` is empty.
pub fn liberties_at(now: &Standing, strings: &[KeptString], p: Point) -> PointSet
    requires stands { Stands now.now.board now.now.names strings.now }
    requires on_board { p < now.now.board.size * now.now.board.size }
    ensures { result ≡ liberty_points now.now.board.size (cells_of now.now.board) p }
{
    match kept_string_at(now, strings, p) {
        Some(string) => points_of(&string.liberties),
        None => PointSet::new(),
    }
}

/// How many liberties the string at `p` has; 0 if `p` is empty. They are counted in place.
pub fn liberty_count(now: &Standing, strings: &[KeptString], p: Point) -> u16
    requires stands { Stands now.now.board now.now.names strings.now }
    requires on_board { p < now.now.board.size * now.now.board.size }
    ensures { result ≡ liberties now.now.board.size (cells_of now.now.board) p }
{
    match kept_string_at(now, strings, p) {
        Some(string) => string.liberties.count(),
        None => 0,
    }
}
