//! The letters of the columns.

ghost use Rattle.std.specs.Prelude.{◌≡◌, ◌<◌, ◌==◌, slice_index};
ghost use Rattle.std.specs.List.{position};
ghost use Rattle.go_rules.specs.Board.{largest_size};
ghost use Rattle.vertices.specs.Vertices.{column_letters, column_named};

use go_base::size::MAX_SIZE;

/// The letters of the columns from the left.
const COLUMN_LETTERS: [u8; MAX_SIZE as usize] = *b"ABCDEFGHJKLMNOPQRSTUVWXYZ";

/// The letter of the column `column`, counted from 0 at the left.
pub fn column_letter(column: u8) -> u8
    requires { column < largest_size }
    ensures { result ≡ slice_index column_letters column }
{
    COLUMN_LETTERS[column as usize]
}

/// The place of a capital letter among the columns; `None` if it names no column.
fn column_lettered(letter: u8) -> Option<usize>
    ensures { result ≡ position (λ l. l == letter) column_letters }
{
    COLUMN_LETTERS.iter().position(|l| *l == letter)
}

/// The column that `letter` names in either case, counted from 0; `None` if it names no column.
pub fn column_named(letter: u8) -> Option<u8>
    ensures { result ≡ column_named letter }
{
    let place = column_lettered(letter.to_ascii_uppercase())?;
    Some(place as u8)
}
