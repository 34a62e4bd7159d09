//! Finds constraints that are 0 whenever the diagram fits.
//!
//! The letters of the diagram say what may stand at the points that a constraint names. From this follow the least and
//! the greatest value of each part of the constraint. A contradiction between two parts is not found, such as
//! `lib(A)==1 && lib(A)==2`.

use go_base::{Cell, Colour};
use pat_types::{
    Arg, Drawn, Expr, Function, Letter, Op, PairFunction, Pattern, PointFunction, PointsFunction,
    drawn_in, letter_fits,
};

/// The colour of the pattern's friend; the other colour would give the same answers.
const FRIEND: Colour = Colour::Black;

/// More liberties than a string can have.
const MANY: i64 = 625;

/// The values from a least to a greatest one.
#[derive(Clone, Copy)]
struct Span {
    /// The least value.
    least: i64,
    /// The greatest value.
    greatest: i64,
}

impl Span {
    /// The values from 0 up to `greatest`.
    fn up_to(greatest: i64) -> Span {
        Span { least: 0, greatest }
    }

    /// Only this value.
    fn only(value: i64) -> Span {
        Span {
            least: value,
            greatest: value,
        }
    }

    /// Whether 0 is the only value.
    fn is_false(self) -> bool {
        self.least == 0 && self.greatest == 0
    }

    /// Whether 0 is not one of the values.
    fn is_true(self) -> bool {
        self.least > 0 || self.greatest < 0
    }

    /// The same values with the other sign.
    fn negated(self) -> Span {
        Span {
            least: self.greatest.saturating_neg(),
            greatest: self.least.saturating_neg(),
        }
    }

    /// The sums of a value of this span and a value of `other`.
    fn plus(self, other: Span) -> Span {
        Span {
            least: self.least.saturating_add(other.least),
            greatest: self.greatest.saturating_add(other.greatest),
        }
    }
}

/// The values of a test: 1 if it always holds, 0 if it never holds, else both.
fn worth_of(always: bool, never: bool) -> Span {
    if always {
        Span::only(1)
    } else if never {
        Span::only(0)
    } else {
        Span::up_to(1)
    }
}

/// The values of the test that a value of `left` is less than a value of `right`.
fn less(left: Span, right: Span) -> Span {
    worth_of(left.greatest < right.least, left.least >= right.greatest)
}

/// The values of the test that a value of `left` equals a value of `right`.
fn equal(left: Span, right: Span) -> Span {
    let is_single = left.least == left.greatest && right.least == right.greatest;
    worth_of(
        is_single && left.least == right.least,
        left.greatest < right.least || right.greatest < left.least,
    )
}

/// The values of `!` before an operand with these values.
fn not(span: Span) -> Span {
    worth_of(span.is_false(), span.is_true())
}

/// The values of an operator between operands with these values.
fn joined(op: Op, left: Span, right: Span) -> Span {
    match op {
        Op::Or => worth_of(
            left.is_true() || right.is_true(),
            left.is_false() && right.is_false(),
        ),
        Op::And => worth_of(
            left.is_true() && right.is_true(),
            left.is_false() || right.is_false(),
        ),
        Op::Eq => equal(left, right),
        Op::Ne => not(equal(left, right)),
        Op::Lt => less(left, right),
        Op::Le => not(less(right, left)),
        Op::Gt => less(right, left),
        Op::Ge => not(less(left, right)),
        Op::Add => left.plus(right),
        Op::Sub => left.plus(right.negated()),
    }
}

/// The letter of the diagram at the point of an argument.
fn letter_at(pattern: &Pattern, arg: Arg) -> Letter {
    let Arg::Label(letter) = arg else {
        return match arg {
            Arg::Star => Letter::Star,
            _ => Letter::Any,
        };
    };
    for label in pattern.labels.as_slice() {
        if label.letter == letter
            && let Drawn::Shows(drawn) = drawn_in(pattern, label.row as i16, label.col as i16)
        {
            return drawn;
        }
    }
    Letter::Any
}

/// Whether a stone of this `colour` may stand at the point of an argument.
fn may_hold(pattern: &Pattern, arg: Arg, colour: Colour) -> bool {
    letter_fits(letter_at(pattern, arg), colour.cell(), FRIEND)
}

/// Whether no stone stands at the point of an argument whenever the diagram fits.
fn is_empty(pattern: &Pattern, arg: Arg) -> bool {
    !may_hold(pattern, arg, FRIEND) && !may_hold(pattern, arg, FRIEND.other())
}

/// Whether a stone stands at the point of an argument whenever the diagram fits.
fn is_stone(pattern: &Pattern, arg: Arg) -> bool {
    !letter_fits(letter_at(pattern, arg), Cell::Empty, FRIEND)
}

/// Only 0 if `is_nothing`, else the values up to `greatest`.
fn unless(is_nothing: bool, greatest: i64) -> Span {
    if is_nothing {
        Span::only(0)
    } else {
        Span::up_to(greatest)
    }
}

/// The values of a function of one point.
fn of_point(pattern: &Pattern, function: PointFunction, a: Arg) -> Span {
    match function {
        PointFunction::Lib if is_stone(pattern, a) => Span {
            least: 1,
            greatest: MANY,
        },
        PointFunction::Lib => unless(is_empty(pattern, a), MANY),
        PointFunction::Attack | PointFunction::Defend => unless(is_empty(pattern, a), 3),
        PointFunction::Xlib | PointFunction::Olib => unless(is_stone(pattern, a), MANY),
        PointFunction::Ko
        | PointFunction::SafeXmove
        | PointFunction::SafeOmove
        | PointFunction::LegalXmove
        | PointFunction::LegalOmove => unless(is_stone(pattern, a), 1),
    }
}

/// Whether the points of two arguments never hold stones of the same colour.
fn are_never_alike(pattern: &Pattern, a: Arg, b: Arg) -> bool {
    let friends = may_hold(pattern, a, FRIEND) && may_hold(pattern, b, FRIEND);
    let enemies = may_hold(pattern, a, FRIEND.other()) && may_hold(pattern, b, FRIEND.other());
    !friends && !enemies
}

/// The values of a function of two points.
fn of_pair(pattern: &Pattern, function: PairFunction, a: Arg, b: Arg) -> Span {
    match function {
        PairFunction::SameWorm => unless(are_never_alike(pattern, a, b), 1),
        PairFunction::DoesAttack | PairFunction::DoesDefend => {
            unless(is_stone(pattern, a) || is_empty(pattern, b), 3)
        }
        PairFunction::OdefendAgainst | PairFunction::XdefendAgainst => {
            unless(is_stone(pattern, a), 1)
        }
    }
}

/// The values of a function of several points.
fn of_points(pattern: &Pattern, function: PointsFunction, args: &[Arg]) -> Span {
    let colour = match function {
        PointsFunction::OSomewhere => FRIEND,
        PointsFunction::XSomewhere => FRIEND.other(),
    };
    let mut always = false;
    let mut never = true;
    for arg in args {
        let may = may_hold(pattern, *arg, colour);
        always = always
            || may && is_stone(pattern, *arg) && !may_hold(pattern, *arg, colour.other());
        never = never && !may;
    }
    worth_of(always, never)
}

/// The values of a function of moves and then a point. If no stone stands at the point and no move is played there, the
/// point is empty behind the moves, and the value is 0.
fn of_moves(pattern: &Pattern, args: &[Arg]) -> Span {
    let Some((at, moves)) = args.split_last() else {
        return Span::up_to(3);
    };
    unless(is_empty(pattern, *at) && !moves.contains(at), 3)
}

/// The values of a call.
fn of_call(pattern: &Pattern, function: Function, args: &[Arg]) -> Span {
    match (function, args) {
        (Function::OfPoint(f), [a]) => of_point(pattern, f, *a),
        (Function::OfPair(f), [a, b]) => of_pair(pattern, f, *a, *b),
        (Function::OfPoints(f), _) => of_points(pattern, f, args),
        (Function::OfMoves(_), _) => of_moves(pattern, args),
        _ => Span::up_to(MANY),
    }
}

/// The values of an expression.
fn values_of(pattern: &Pattern, expr: &Expr) -> Span {
    match expr {
        Expr::Num(n) => Span::only(i64::from(*n)),
        Expr::Call(function, args) => of_call(pattern, *function, args.as_slice()),
        Expr::Not(e) => not(values_of(pattern, e)),
        Expr::Neg(e) => values_of(pattern, e).negated(),
        Expr::Bin(op, a, b) => joined(*op, values_of(pattern, a), values_of(pattern, b)),
    }
}

/// Whether the constraint of a pattern is 0 whenever its diagram fits. The answer no is not certain.
pub(crate) fn is_never_met(pattern: &Pattern) -> bool {
    match &pattern.constraint {
        Some(expr) => values_of(pattern, expr).is_false(),
        None => false,
    }
}
