//! The functions that look at positions and plays alone.

ghost use Rattle.std.specs.Prelude.{◌≡◌, ◌*◌, ◌<◌, IfSome};
ghost use Rattle.go_rules.specs.Play.{is_legal as may_play};
ghost use Rattle.cons_eval.specs.Functions.{liberties_after as liberties_then, leaves_ban as bans_then, ko, same_worm};
ghost use Rattle.cons_eval.specs.Functions.{after_move as move_from};

use go_base::{Point, Position};
use go_rules::{Cell, Colour};

/// How many liberties the stone that `colour` plays at `at` has with its string; 0 if the play is illegal.
#[tactic(auto, unfolding(crate::specs::Functions::liberties_after))]
pub fn liberties_after(position: &Position, colour: Colour, at: Point) -> u16
    requires { at < position.now.size * position.now.size }
    ensures { result ≡ liberties_then position.now colour at }
{
    match position.play(colour, at) {
        Ok(next) => next.liberties(at),
        Err(_) => 0,
    }
}

/// Whether `colour` may play at `at`.
pub fn is_legal(position: &Position, colour: Colour, at: Point) -> bool
    requires { at < position.now.size * position.now.size }
    ensures { result ≡ may_play position.now colour at }
{
    position.play(colour, at).is_ok()
}

/// Whether `colour` may play at `at` with the ko ban dropped, and the play leaves a ko ban.
#[tactic(auto, unfolding(crate::specs::Functions::leaves_ban))]
fn leaves_ban(position: &Position, colour: Colour, at: Point) -> bool
    requires { at < position.now.size * position.now.size }
    ensures { result ≡ bans_then position.now colour at }
{
    match position.play_free(colour, at) {
        Ok(next) => next.ban().is_some(),
        Err(_) => false,
    }
}

/// Whether `at` is empty, and one of the colours may play there with the ko ban dropped and leaves a ko ban.
pub fn is_ko(position: &Position, at: Point) -> bool
    requires { at < position.now.size * position.now.size }
    ensures { result ≡ ko position.now at }
{
    position.cell(at) == Cell::Empty
        && (leaves_ban(position, Colour::Black, at) || leaves_ban(position, Colour::White, at))
}

/// Whether `a` and `b` hold stones of one string.
pub fn is_same_string(position: &Position, a: Point, b: Point) -> bool
    requires a_on_board { a < position.now.size * position.now.size }
    requires b_on_board { b < position.now.size * position.now.size }
    ensures { result ≡ same_worm position.now a b }
{
    let _ = position.size().points();
    position.string(a).has(b)
}

/// The position after a move: a play at a point, or a pass if there is no point or the play is illegal.
#[tactic(auto, unfolding(crate::specs::Functions::after_move))]
pub fn after_move(position: &Position, colour: Colour, at: Option<Point>) -> Position
    requires { IfSome at (λ p. p < position.now.size * position.now.size) }
    ensures value { result ≡ move_from position.now colour at }
    ensures same_size { result.size ≡ position.now.size }
{
    match at {
        Some(at) => match position.play(colour, at) {
            Ok(next) => next,
            Err(_) => position.pass(),
        },
        None => position.pass(),
    }
}
