//! The question that a call asks, made from the stone at its target.

ghost use Rattle.std.specs.Prelude.{◌≡◌, ◌≢◌, ◌*◌, ◌<◌};
ghost use Rattle.go_rules.specs.Strings.{cell_at};
ghost use Rattle.go_base.specs.Facts.{Grows};
ghost use Rattle.read_rules.specs.Answer.{asked_in};

use go_base::{Cell, Look, Point};
use read_rules::{Depths, Kind, ReadingQuestion};

/// The question of this kind about the stone at `target`.
pub fn question_on<L: Look>(
    look: &mut L,
    kind: Kind,
    target: Point,
    depths: Depths,
) -> ReadingQuestion
    requires on_board { target < (L.shows look.old).size * (L.shows look.old).size }
    requires stone { cell_at (L.shows look.old).cells target ≢ Cell.Empty }
    ensures shown { L.shows look.new ≡ L.shows look.old }
    ensures grows { Grows (L.seen look.old) (L.seen look.new) }
    ensures question { result ≡ asked_in depths.tree (L.shows look.old) kind target depths.plies depths.wide }
{
    ReadingQuestion {
        tree: depths.tree,
        size: look.size(),
        kind,
        target,
        colour: look.cell(target).colour(),
        plies: depths.plies,
        wide: depths.wide,
    }
}
