//! What an entry says of its row.
ghost use Rattle.std.specs.Prelude.{◌≡◌, ◌%◌, ◌==◌};
ghost use Rattle.dfa_shortcuts.specs.Shortcuts.{is_accepting_entry, is_dead_entry};

use dfa_core::RowKind;

/// How many kinds of rows an entry can tell apart.
const KINDS: u32 = 4;

/// Whether the row of `entry` accepts something.
#[inline(always)]
pub fn is_accepting(entry: u32) -> bool
    ensures { result ≡ is_accepting_entry entry }
{
    entry % KINDS == RowKind::Accepting as u32
}

/// Whether the row of `entry` is dead.
#[inline(always)]
pub fn is_dead(entry: u32) -> bool
    ensures { result ≡ is_dead_entry entry }
{
    entry % KINDS == RowKind::Dead as u32
}
