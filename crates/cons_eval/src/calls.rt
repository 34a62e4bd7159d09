//! The values of calls.

ghost use Rattle.std.specs.Prelude.{◌≡◌, ◌*◌, ◌<◌, true, false, map};
ghost use Rattle.std.specs.List.{list_any};
ghost use Rattle.cons_eval.specs.Bounds.{IsWithin, most};
ghost use Rattle.cons_eval.specs.Meanings.{KeepsMeanings, is_on_board, are_on_board};
ghost use Rattle.cons_eval.specs.Readings.{code_at as code_there};
ghost use Rattle.cons_eval.specs.Functions.{holds_stone as holds, after_moves as moves_then};
ghost use Rattle.cons_eval.specs.Values.{worth, only_point as only, two_points as two, point_value, pair_value};
ghost use Rattle.cons_eval.specs.Values.{points_value, moves_value, call_value, if_there, moves_and_point};
ghost use Rattle.cons_eval.specs.Asking.{is_reading, is_point_reading, is_pair_reading};
ghost use Rattle.cons_eval.specs.Questions.{counted, readings_at as readings_there, many_there, point_readings};
ghost use Rattle.cons_eval.specs.Questions.{pair_readings, moves_readings, call_readings};

use crate::env::Env;
use crate::readings::{code_at, does_attack, does_defend, is_defended_against, is_safe_move};
use crate::rules::{after_move, is_ko, is_legal, is_same_string, liberties_after};
use go_base::{Point, Position};
use go_rules::Colour;
use pat_types::{Arg, Function, MovesFunction, PairFunction, PointFunction, PointsFunction};
use read_rules::Kind;

/// What a test is worth: 1 if it holds, else 0.
pub fn worth_of(test: bool) -> i64
    ensures { result ≡ worth test }
{
    if test { 1 } else { 0 }
}

/// The point of the only argument; `None` if there is not exactly one argument, or if it has no point.
fn only_point<E: Env>(env: &E, args: &[Arg]) -> Option<Point>
    ensures { result ≡ only (map (E.view env.now).meanings.point args.now) }
{
    match args {
        [a] => env.point(*a),
        _ => None,
    }
}

/// The points of two arguments; `None` if there are not exactly two arguments, or if one of them has no point.
fn two_points<E: Env>(env: &E, args: &[Arg]) -> Option<(Point, Point)>
    ensures { result ≡ two (map (E.view env.now).meanings.point args.now) }
{
    match args {
        [a, b] => match (env.point(*a), env.point(*b)) {
            (Some(a), Some(b)) => Some((a, b)),
            _ => None,
        },
        _ => None,
    }
}

/// The value of a function of one point at `a`.
#[tactic(auto, using(crate::proofs::CallCounts::stays_same))]
fn value_at<E: Env>(env: &mut E, function: PointFunction, a: Point) -> i64
    requires { a < (E.view env.old).meanings.position.size * (E.view env.old).meanings.position.size }
    ensures value { result ≡ point_value (E.view env.old).meanings function a }
    ensures small { IsWithin most result }
    ensures asked { (E.view env.new).asked ≡ counted (point_readings (E.view env.old).meanings function a)
        (E.view env.old).asked }
    ensures stays { KeepsMeanings (E.view env.old) (E.view env.new) }
    ensures quiet { is_point_reading function ≡ false → (E.view env.new).counts ≡ (E.view env.old).counts }
{
    let position = env.position();
    let friend = env.friend();
    let enemy = friend.other();
    match function {
        PointFunction::Lib => i64::from(position.liberties(a)),
        PointFunction::Xlib => i64::from(liberties_after(&position, enemy, a)),
        PointFunction::Olib => i64::from(liberties_after(&position, friend, a)),
        PointFunction::Attack => i64::from(code_at(env, Kind::Attack, &position, a)),
        PointFunction::Defend => i64::from(code_at(env, Kind::Defend, &position, a)),
        PointFunction::Ko => worth_of(is_ko(&position, a)),
        PointFunction::SafeXmove => worth_of(is_safe_move(env, &position, enemy, a)),
        PointFunction::SafeOmove => worth_of(is_safe_move(env, &position, friend, a)),
        PointFunction::LegalXmove => worth_of(is_legal(&position, enemy, a)),
        PointFunction::LegalOmove => worth_of(is_legal(&position, friend, a)),
    }
}

/// The value of a function of one point; 0 if `args` are not one argument with a point.
#[tactic(auto, using(crate::proofs::CallCounts::stays_same))]
fn of_point<E: Env>(env: &mut E, function: PointFunction, args: &[Arg]) -> i64
    requires { are_on_board (E.view env.old).meanings.position.size (E.view env.old).meanings.point args.now ≡ true }
    ensures value { result ≡ if_there (point_value (E.view env.old).meanings function)
        (only (map (E.view env.old).meanings.point args.now)) }
    ensures small { IsWithin most result }
    ensures asked { (E.view env.new).asked ≡ counted (many_there (point_readings (E.view env.old).meanings function)
        (only (map (E.view env.old).meanings.point args.now))) (E.view env.old).asked }
    ensures stays { KeepsMeanings (E.view env.old) (E.view env.new) }
    ensures quiet { is_point_reading function ≡ false → (E.view env.new).counts ≡ (E.view env.old).counts }
{
    match only_point(env, args) {
        Some(a) => value_at(env, function, a),
        None => 0,
    }
}

/// The value of a function of two points at `a` and `b`.
#[tactic(auto, using(crate::proofs::CallCounts::stays_same))]
fn value_at_pair<E: Env>(env: &mut E, function: PairFunction, a: Point, b: Point) -> i64
    requires a_on_board { a < (E.view env.old).meanings.position.size * (E.view env.old).meanings.position.size }
    requires b_on_board { b < (E.view env.old).meanings.position.size * (E.view env.old).meanings.position.size }
    ensures value { result ≡ pair_value (E.view env.old).meanings function (a, b) }
    ensures small { IsWithin most result }
    ensures asked { (E.view env.new).asked ≡ counted (pair_readings (E.view env.old).meanings function (a, b))
        (E.view env.old).asked }
    ensures stays { KeepsMeanings (E.view env.old) (E.view env.new) }
    ensures quiet { is_pair_reading function ≡ false → (E.view env.new).counts ≡ (E.view env.old).counts }
{
    let position = env.position();
    let friend = env.friend();
    let enemy = friend.other();
    match function {
        PairFunction::SameWorm => worth_of(is_same_string(&position, a, b)),
        PairFunction::DoesAttack => does_attack(env, &position, a, b),
        PairFunction::DoesDefend => does_defend(env, &position, a, b),
        PairFunction::OdefendAgainst => worth_of(is_defended_against(env, &position, friend, a, b)),
        PairFunction::XdefendAgainst => worth_of(is_defended_against(env, &position, enemy, a, b)),
    }
}

/// The value of a function of two points; 0 if `args` are not two arguments with points.
#[tactic(auto, using(crate::proofs::CallCounts::stays_same))]
fn of_pair<E: Env>(env: &mut E, function: PairFunction, args: &[Arg]) -> i64
    requires { are_on_board (E.view env.old).meanings.position.size (E.view env.old).meanings.point args.now ≡ true }
    ensures value { result ≡ if_there (pair_value (E.view env.old).meanings function)
        (two (map (E.view env.old).meanings.point args.now)) }
    ensures small { IsWithin most result }
    ensures asked { (E.view env.new).asked ≡ counted (many_there (pair_readings (E.view env.old).meanings function)
        (two (map (E.view env.old).meanings.point args.now))) (E.view env.old).asked }
    ensures stays { KeepsMeanings (E.view env.old) (E.view env.new) }
    ensures quiet { is_pair_reading function ≡ false → (E.view env.new).counts ≡ (E.view env.old).counts }
{
    match two_points(env, args) {
        Some((a, b)) => value_at_pair(env, function, a, b),
        None => 0,
    }
}

/// Whether an argument is a point with a stone of `colour`.
fn holds_stone<E: Env>(env: &E, position: &Position, colour: Colour, arg: Arg) -> bool
    requires { is_on_board position.now.size ((E.view env.now).meanings.point arg) ≡ true }
    ensures { result ≡ holds position.now colour ((E.view env.now).meanings.point arg) }
{
    match env.point(arg) {
        Some(a) => position.cell(a) == colour.cell(),
        None => false,
    }
}

/// Whether one of the arguments is a point with a stone of `colour`.
fn is_somewhere<E: Env>(env: &E, position: &Position, colour: Colour, args: &[Arg]) -> bool
    requires { are_on_board position.now.size (E.view env.now).meanings.point args.now ≡ true }
    ensures { result ≡ list_any (holds position.now colour) (map (E.view env.now).meanings.point args.now) }
{
    for arg in args {
        if holds_stone(env, position, colour, *arg) {
            return true;
        }
    }
    false
}

/// The value of a function of one to eight points.
fn of_points<E: Env>(env: &E, function: PointsFunction, args: &[Arg]) -> i64
    requires { are_on_board (E.view env.now).meanings.position.size (E.view env.now).meanings.point args.now ≡ true }
    ensures value { result ≡ points_value (E.view env.now).meanings function
        (map (E.view env.now).meanings.point args.now) }
    ensures small { IsWithin most result }
{
    let position = env.position();
    let friend = env.friend();
    let enemy = friend.other();
    match function {
        PointsFunction::OSomewhere => worth_of(is_somewhere(env, &position, friend, args)),
        PointsFunction::XSomewhere => worth_of(is_somewhere(env, &position, enemy, args)),
    }
}

/// The position after `moves` in turn; the colour `first` makes the first of them.
fn after_moves<E: Env>(env: &E, position: &Position, first: Colour, moves: &[Arg]) -> Position
    requires { are_on_board position.now.size (E.view env.now).meanings.point moves.now ≡ true }
    ensures value { result ≡ moves_then position.now first (map (E.view env.now).meanings.point moves.now) }
    ensures same_size { result.size ≡ position.now.size }
{
    let mut next = *position;
    let mut colour = first;
    for arg in moves {
        next = after_move(&next, colour, env.point(*arg));
        colour = colour.other();
    }
    next
}

/// The code of a reading at `at` after `moves` in turn; the colour `first` makes the first of them.
fn code_after<E: Env>(env: &mut E, kind: Kind, first: Colour, moves: &[Arg], at: Point) -> u8
    requires at_on_board { at < (E.view env.old).meanings.position.size * (E.view env.old).meanings.position.size }
    requires moves_on_board { are_on_board (E.view env.old).meanings.position.size (E.view env.old).meanings.point
        moves.now ≡ true }
    ensures value { result ≡ code_there (E.view env.old).meanings.code kind
        (moves_then (E.view env.old).meanings.position first (map (E.view env.old).meanings.point moves.now)) at }
    ensures asked { (E.view env.new).asked ≡ counted (readings_there
        (moves_then (E.view env.old).meanings.position first (map (E.view env.old).meanings.point moves.now)) at)
        (E.view env.old).asked }
    ensures stays { KeepsMeanings (E.view env.old) (E.view env.new) }
{
    let position = env.position();
    let after = after_moves(env, &position, first, moves);
    code_at(env, kind, &after, at)
}

/// The value of a function of moves and a point, after `moves` and at `at`.
#[tactic(auto, using(crate::proofs::CallCounts::stays_same))]
fn value_after<E: Env>(env: &mut E, function: MovesFunction, moves: &[Arg], at: Point) -> i64
    requires at_on_board { at < (E.view env.old).meanings.position.size * (E.view env.old).meanings.position.size }
    requires moves_on_board { are_on_board (E.view env.old).meanings.position.size (E.view env.old).meanings.point
        moves.now ≡ true }
    ensures value { result ≡ moves_value (E.view env.old).meanings function
        (map (E.view env.old).meanings.point moves.now, at) }
    ensures small { IsWithin most result }
    ensures asked { (E.view env.new).asked ≡ counted (moves_readings (E.view env.old).meanings function
        (map (E.view env.old).meanings.point moves.now, at)) (E.view env.old).asked }
    ensures stays { KeepsMeanings (E.view env.old) (E.view env.new) }
{
    let friend = env.friend();
    let enemy = friend.other();
    match function {
        MovesFunction::OplayAttack => i64::from(code_after(env, Kind::Attack, friend, moves, at)),
        MovesFunction::OplayDefend => i64::from(code_after(env, Kind::Defend, friend, moves, at)),
        MovesFunction::XplayAttack => i64::from(code_after(env, Kind::Attack, enemy, moves, at)),
        MovesFunction::XplayDefend => i64::from(code_after(env, Kind::Defend, enemy, moves, at)),
    }
}

/// The value of a function of moves and a point; 0 if there is no last argument with a point.
#[tactic(auto, using(crate::proofs::CallCounts::stays_same))]
fn of_moves<E: Env>(env: &mut E, function: MovesFunction, args: &[Arg]) -> i64
    requires { are_on_board (E.view env.old).meanings.position.size (E.view env.old).meanings.point args.now ≡ true }
    ensures value { result ≡ if_there (moves_value (E.view env.old).meanings function)
        (moves_and_point (map (E.view env.old).meanings.point args.now)) }
    ensures small { IsWithin most result }
    ensures asked { (E.view env.new).asked ≡ counted (many_there (moves_readings (E.view env.old).meanings function)
        (moves_and_point (map (E.view env.old).meanings.point args.now))) (E.view env.old).asked }
    ensures stays { KeepsMeanings (E.view env.old) (E.view env.new) }
{
    match args {
        [moves @ .., last] => match env.point(*last) {
            Some(at) => value_after(env, function, moves, at),
            None => 0,
        },
        [] => 0,
    }
}

/// The value of a call. A function of one or two points is worth 0 unless it has that many arguments, all with points;
/// a function of moves is worth 0 unless its last argument has a point.
#[tactic(auto, using(crate::proofs::CallCounts::stays_same), unfolding(crate::specs::Values::call_value, crate::specs::Questions::call_readings))]
pub fn call<E: Env>(env: &mut E, function: Function, args: &[Arg]) -> i64
    requires { are_on_board (E.view env.old).meanings.position.size (E.view env.old).meanings.point args.now ≡ true }
    ensures value { result ≡ call_value (E.view env.old).meanings function
        (map (E.view env.old).meanings.point args.now) }
    ensures small { IsWithin most result }
    ensures asked { (E.view env.new).asked ≡ counted (call_readings (E.view env.old).meanings function
        (map (E.view env.old).meanings.point args.now)) (E.view env.old).asked }
    ensures stays { KeepsMeanings (E.view env.old) (E.view env.new) }
    ensures quiet { is_reading function ≡ false → (E.view env.new).counts ≡ (E.view env.old).counts }
{
    match function {
        Function::OfPoint(which) => of_point(env, which, args),
        Function::OfPair(which) => of_pair(env, which, args),
        Function::OfPoints(which) => of_points(env, which, args),
        Function::OfMoves(which) => of_moves(env, which, args),
    }
}
