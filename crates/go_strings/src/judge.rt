//! Whether the rules allow a play, judged by the kept strings.

ghost use Rattle.std.specs.Prelude.{◌≡◌, ℕ, ◌*◌, ◌<◌, ◌⊎◌, true, false, IfOk, IfErr, Err};
ghost use Rattle.std.specs.FinSet as set;
ghost use Rattle.go_rules.specs.Play.{play};
ghost use Rattle.go_base.specs.Positions.{HoldsWith};
ghost use Rattle.go_strings.specs.Stands.{Stands};
ghost use Rattle.go_strings.specs.Trails.{position_in};
ghost use Rattle.go_strings.specs.Allowed.{IsAllowed};

use crate::bit_set::BitSet;
use crate::gather::{MetStrings, cell_on, gather};
use crate::standing::Standing;
use crate::strings::KeptString;
use go_base::ban::is_banned;
use go_base::{Cell, Colour, Illegal, Point};

/// What a play of `c` at `p` meets, or the first of `Occupied`, `Ko` and `Suicide` that forbids the play.
pub fn judge(
    now: &Standing,
    strings: &[KeptString],
    c: Colour,
    p: Point,
) -> Result<MetStrings, Illegal>
    requires stands { Stands now.now.board now.now.names strings.now }
    requires holds { HoldsWith now.now.board now.now.ban }
    requires on_board { p < now.now.board.size * now.now.board.size }
    ensures allowed { IfOk result (λ met. IsAllowed now.now c p met) }
    ensures refused { IfErr result (λ e. play (position_in now.now) c p ≡ Err e) }
{
    if cell_on(&now.board, p) != Cell::Empty {
        return Err(Illegal::Occupied);
    }
    if is_banned(now.ban, c, p) {
        return Err(Illegal::Ko);
    }
    let met = gather(&now.board, &now.names, strings, c, p);
    if is_suicide(&met.own, &met.taken) {
        return Err(Illegal::Suicide);
    }
    Ok(met)
}

/// Whether a play is suicide: the string `own` of its stone has no liberty, and it takes no stone.
fn is_suicide(own: &KeptString, taken: &BitSet) -> bool
    ensures yes { result ≡ true → (own.now.liberties ≡ set.empty) × (taken.now ≡ set.empty) }
    ensures more { result ≡ false
        → ((l : ℕ) × (set.contains own.now.liberties l ≡ true)) ⊎ ((q : ℕ) × (set.contains taken.now q ≡ true)) }
{
    own.liberties.is_empty() && taken.is_empty()
}
