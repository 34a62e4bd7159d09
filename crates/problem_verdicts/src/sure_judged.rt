//! What is found of a problem's question by sure answers.

ghost use Rattle.std.specs.Prelude.{◌≡◌, ◌≢◌, ◌*◌, ◌<◌, ◌≤◌, None};
ghost use Rattle.go_rules.specs.Strings.{cell_at};
ghost use Rattle.read_rules.specs.Answer.{asked_in};
ghost use Rattle.read_rules.specs.Ranges.{least_plies, most_plies};
ghost use Rattle.problem_verdicts.specs.Questions.{other_kind};
ghost use Rattle.problem_verdicts.specs.SureQuestions.{sure_code, is_surely_needless, AreFewestSurely, IsSurelyFound};

use crate::judged::{Found, other_kind};
use crate::scope::Scope;
use crate::sure_moves::sure_moves;
use go_base::{Cell, Point, Position};
use read_proof::codes::question_on;
use read_rules::{Depths, Kind};
use read_zones::{sure_attack, sure_defend};

/// The sure code of a question.
fn sure_code(position: &Position, kind: Kind, target: Point, depths: Depths) -> u8
    requires on_board { target < position.now.size * position.now.size }
    requires stone { cell_at position.now.cells target ≢ Cell.Empty }
    ensures { result ≡ sure_code position.now kind target depths }
{
    match kind {
        Kind::Attack => sure_attack(position, target, depths).code,
        Kind::Defend => sure_defend(position, target, depths).code,
    }
}

/// Whether the question has a sure code above 0, and the question of the other side has none.
fn is_surely_needless(
    position: &Position,
    kind: Kind,
    target: Point,
    depths: Depths,
    code: u8,
) -> bool
    requires on_board { target < position.now.size * position.now.size }
    requires stone { cell_at position.now.cells target ≢ Cell.Empty }
    requires code { code ≡ sure_code position.now kind target depths }
    ensures { result ≡ is_surely_needless position.now kind target depths }
{
    code > 0 && sure_code(position, other_kind(kind), target, depths) == 0
}

/// These `depths` with `plies` in place of their own plies.
fn with_plies(depths: Depths, plies: u8) -> Depths
    requires some { least_plies ≤ plies }
    requires few { plies ≤ most_plies }
    ensures plies { result.plies ≡ plies }
    ensures rest { (result.tree ≡ depths.tree) × (result.wide ≡ depths.wide) }
{
    Depths::new(plies, depths.wide)
        .unwrap()
        .in_tree(depths.tree)
}

/// The fewest plies, up to `depths.plies`, with which the question has the sure code `code` or a greater one.
fn fewest_surely(
    position: &Position,
    kind: Kind,
    target: Point,
    depths: Depths,
    code: u8,
) -> Option<u8>
    requires on_board { target < position.now.size * position.now.size }
    requires stone { cell_at position.now.cells target ≢ Cell.Empty }
    ensures { AreFewestSurely position.now kind target depths code result }
{
    'depths: for plies in 1..=depths.plies {
        if sure_code(position, kind, target, with_plies(depths, plies)) >= code {
            return Some(plies);
        }
    }
    None
}

/// The fewest plies with which a question has the sure code `code` or a greater one; `None` for code 0.
fn fewest_of(position: &Position, kind: Kind, target: Point, depths: Depths, code: u8) -> Option<u8>
    requires on_board { target < position.now.size * position.now.size }
    requires stone { cell_at position.now.cells target ≢ Cell.Empty }
    ensures some { code ≢ 0 → AreFewestSurely position.now kind target depths code result }
    ensures none { code ≡ 0 → result ≡ None }
{
    if code == 0 {
        return None;
    }
    fewest_surely(position, kind, target, depths, code)
}

/// What sure answers find of a question about the string at `target`, with the moves of `scope`.
pub(crate) fn find_surely(
    position: &Position,
    kind: Kind,
    target: Point,
    depths: Depths,
    scope: Scope,
) -> Found
    requires on_board { target < position.now.size * position.now.size }
    requires stone { cell_at position.now.cells target ≢ Cell.Empty }
    ensures { IsSurelyFound scope position.now kind target depths result }
{
    let code = sure_code(position, kind, target, depths);
    let question = question_on(position, kind, target, depths);
    Found {
        code,
        moves: sure_moves(position, &question, code, scope),
        fewest: fewest_of(position, kind, target, depths, code),
        needless: is_surely_needless(position, kind, target, depths, code),
    }
}
