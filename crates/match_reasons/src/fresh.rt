//! Fresh readings, each made for one question.
ghost use Rattle.std.specs.Prelude.{◌≡◌, ◌≢◌, ◌*◌, ◌<◌};
ghost use Rattle.go_rules.specs.Strings.{cell_at};
ghost use Rattle.match_reasons.specs.FreshReadings.{fresh_answer, fresh_codes, capture_of};

use go_base::{Cell, Point, Position, Watch};
use read_rules::{Answer, Depths, Kind};
use read_tree::{attack, defend};

/// The answer to a question of this `kind` about the string at `target`, where a stone stands.
pub(crate) fn answer(kind: Kind, on: &Position, target: Point, depths: Depths) -> Answer
    requires on_board { target < on.now.size * on.now.size }
    requires stone { cell_at on.now.cells target ≢ Cell.Empty }
    ensures { result ≡ fresh_answer depths kind on.now target }
{
    match kind {
        Kind::Attack => attack(Watch::new(on), target, depths).answer,
        Kind::Defend => defend(Watch::new(on), target, depths).answer,
    }
}

/// The code of the answer to a question of this `kind` about the string at `target`, where a stone stands.
pub(crate) fn code(kind: Kind, on: &Position, target: Point, depths: Depths) -> u8
    requires on_board { target < on.now.size * on.now.size }
    requires stone { cell_at on.now.cells target ≢ Cell.Empty }
    ensures { result ≡ fresh_codes depths kind on.now target }
{
    answer(kind, on, target, depths).code
}

/// The attack that captures the stone at `at`, or `None` if no attack captures it.
pub(crate) fn capture(on: &Position, at: Point, depths: Depths) -> Option<Answer>
    requires { at < on.now.size * on.now.size }
    ensures { result ≡ capture_of depths on.now at }
{
    if on.cell(at) == Cell::Empty {
        return None;
    }
    let attack = answer(Kind::Attack, on, at, depths);
    if attack.code == 0 {
        return None;
    }
    Some(attack)
}
