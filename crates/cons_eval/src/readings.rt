//! The functions whose values rest on readings.

ghost use Rattle.std.specs.Prelude.{◌≡◌, ◌*◌, ◌<◌};
ghost use Rattle.cons_eval.specs.Meanings.{KeepsMeanings};
ghost use Rattle.cons_eval.specs.Readings.{code_at as code_there};
ghost use Rattle.go_rules.specs.Strings.{cell_at};
ghost use Rattle.cons_eval.specs.Bounds.{IsWithin};
ghost use Rattle.cons_eval.specs.Questions.{counted, readings_at as readings_there, readings_after as readings_then};
ghost use Rattle.cons_eval.specs.Questions.{readings_against as readings_then_against, attack_readings};
ghost use Rattle.cons_eval.specs.Questions.{defence_readings};
ghost use Rattle.cons_eval.specs.Functions.{colour_of, is_safe_move as safe_move, lack_after as lack_then};
ghost use Rattle.cons_eval.specs.Functions.{is_refuted as refuted, does_attack as attacks, does_defend as defends};
ghost use Rattle.cons_eval.specs.Functions.{is_defended_against as defended};

use crate::env::Env;
use go_base::{Point, Position};
use go_rules::{Cell, Colour};
use read_rules::Kind;

/// The code of a reading at `at`; 0 if this point is empty.
#[tactic(auto, using(crate::proofs::CallCounts::stays_same))]
pub fn code_at<E: Env>(env: &mut E, kind: Kind, on: &Position, at: Point) -> u8
    requires { at < on.now.size * on.now.size }
    ensures value { result ≡ code_there (E.view env.old).meanings.code kind on.now at }
    ensures asked { (E.view env.new).asked ≡ counted (readings_there on.now at) (E.view env.old).asked }
    ensures stays { KeepsMeanings (E.view env.old) (E.view env.new) }
{
    match on.cell(at) {
        Cell::Empty => 0,
        _ => env.code(kind, on, at),
    }
}

/// Whether `colour` may play at `at` and cannot be captured there afterwards.
#[tactic(auto, using(crate::proofs::CallCounts::stays_same), unfolding(crate::specs::Functions::is_safe_move, crate::specs::Questions::readings_after))]
pub fn is_safe_move<E: Env>(env: &mut E, position: &Position, colour: Colour, at: Point) -> bool
    requires { at < position.now.size * position.now.size }
    ensures value { result ≡ safe_move (E.view env.old).meanings.code position.now colour at }
    ensures asked { (E.view env.new).asked ≡ counted (readings_then position.now colour at at) (E.view env.old).asked }
    ensures stays { KeepsMeanings (E.view env.old) (E.view env.new) }
{
    match position.play(colour, at) {
        Ok(next) => code_at(env, Kind::Attack, &next, at) == 0,
        Err(_) => false,
    }
}

/// The colour of the stone at a point, if one stands there.
fn colour_at(position: &Position, at: Point) -> Option<Colour>
    requires { at < position.now.size * position.now.size }
    ensures { result ≡ colour_of (cell_at position.now.cells at) }
{
    match position.cell(at) {
        Cell::Empty => None,
        Cell::Black => Some(Colour::Black),
        Cell::White => Some(Colour::White),
    }
}

/// 3 minus the code of a reading at `target` after `colour` plays at `at`; 0 if the play is illegal.
#[tactic(auto, using(crate::proofs::CallCounts::stays_same), unfolding(crate::specs::Functions::lack_after, crate::specs::Questions::readings_after))]
fn lack_after<E: Env>(
    env: &mut E,
    kind: Kind,
    position: &Position,
    colour: Colour,
    at: Point,
    target: Point,
) -> i64
    requires at_on_board { at < position.now.size * position.now.size }
    requires target_on_board { target < position.now.size * position.now.size }
    ensures value { result ≡ lack_then (E.view env.old).meanings.code kind position.now colour at target }
    ensures small { IsWithin 255 result }
    ensures asked { (E.view env.new).asked
        ≡ counted (readings_then position.now colour at target) (E.view env.old).asked }
    ensures stays { KeepsMeanings (E.view env.old) (E.view env.new) }
{
    match position.play(colour, at) {
        Ok(next) => 3 - i64::from(code_at(env, kind, &next, target)),
        Err(_) => 0,
    }
}

/// How much a play at `at` attacks the string at `target`; 0 if `target` is empty or the play is illegal.
#[tactic(auto, using(crate::proofs::CallCounts::stays_same))]
pub fn does_attack<E: Env>(env: &mut E, position: &Position, at: Point, target: Point) -> i64
    requires at_on_board { at < position.now.size * position.now.size }
    requires target_on_board { target < position.now.size * position.now.size }
    ensures value { result ≡ attacks (E.view env.old).meanings.code position.now at target }
    ensures small { IsWithin 255 result }
    ensures asked { (E.view env.new).asked ≡ counted (attack_readings position.now at target) (E.view env.old).asked }
    ensures stays { KeepsMeanings (E.view env.old) (E.view env.new) }
{
    match colour_at(position, target) {
        Some(colour) => lack_after(env, Kind::Defend, position, colour.other(), at, target),
        None => 0,
    }
}

/// How much a play at `at` defends the string at `target`; 0 if `target` is empty or the play is illegal.
#[tactic(auto, using(crate::proofs::CallCounts::stays_same))]
pub fn does_defend<E: Env>(env: &mut E, position: &Position, at: Point, target: Point) -> i64
    requires at_on_board { at < position.now.size * position.now.size }
    requires target_on_board { target < position.now.size * position.now.size }
    ensures value { result ≡ defends (E.view env.old).meanings.code position.now at target }
    ensures small { IsWithin 255 result }
    ensures asked { (E.view env.new).asked ≡ counted (defence_readings position.now at target) (E.view env.old).asked }
    ensures stays { KeepsMeanings (E.view env.old) (E.view env.new) }
{
    match colour_at(position, target) {
        Some(colour) => lack_after(env, Kind::Attack, position, colour, at, target),
        None => 0,
    }
}

/// Whether `colour` may play at `at`, and the other colour then may not play at `against` or can be captured there.
#[tactic(auto, using(crate::proofs::CallCounts::stays_same), unfolding(crate::specs::Functions::is_defended_against, crate::specs::Questions::readings_against))]
pub fn is_defended_against<E: Env>(
    env: &mut E,
    position: &Position,
    colour: Colour,
    at: Point,
    against: Point,
) -> bool
    requires at_on_board { at < position.now.size * position.now.size }
    requires against_on_board { against < position.now.size * position.now.size }
    ensures value { result ≡ defended (E.view env.old).meanings.code position.now colour at against }
    ensures asked { (E.view env.new).asked
        ≡ counted (readings_then_against position.now colour at against) (E.view env.old).asked }
    ensures stays { KeepsMeanings (E.view env.old) (E.view env.new) }
{
    match position.play(colour, at) {
        Ok(next) => is_refuted(env, &next, colour.other(), against),
        Err(_) => false,
    }
}

/// Whether `colour` may not play at `at`, or can be captured there afterwards.
#[tactic(auto, using(crate::proofs::CallCounts::stays_same), unfolding(crate::specs::Functions::is_refuted, crate::specs::Questions::readings_after))]
fn is_refuted<E: Env>(env: &mut E, position: &Position, colour: Colour, at: Point) -> bool
    requires { at < position.now.size * position.now.size }
    ensures value { result ≡ refuted (E.view env.old).meanings.code position.now colour at }
    ensures asked { (E.view env.new).asked ≡ counted (readings_then position.now colour at at) (E.view env.old).asked }
    ensures stays { KeepsMeanings (E.view env.old) (E.view env.new) }
{
    match position.play(colour, at) {
        Ok(next) => code_at(env, Kind::Attack, &next, at) > 0,
        Err(_) => true,
    }
}
