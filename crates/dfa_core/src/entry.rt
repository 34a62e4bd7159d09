//! Entries: a row and its kind in one number, which a walk reads in one look.
ghost use Rattle.std.specs.Prelude.{◌≡◌, ◌<◌};
ghost use Rattle.dfa_core.specs.RowKinds.{most_rows};
ghost use Rattle.dfa_core.specs.Entries.{entry_with, row_of};

use crate::kind::RowKind;

/// The entry of `row`, if `kind` is its kind.
pub fn entry_of(kind: RowKind, row: u32) -> u32
    requires { row < most_rows }
    ensures { result ≡ entry_with kind row }
{
    4 * row + kind as u32
}

/// The row of `entry`.
pub fn row_in(entry: u32) -> u32
    ensures { result ≡ row_of entry }
{
    entry / 4
}
