//! The value of an expression.

ghost use Rattle.std.specs.Prelude.{◌≡◌, ◌*◌, false, true};
ghost use Rattle.pat_types.specs.Labels.{leaf_count};
ghost use Rattle.cons_eval.specs.Asking.{asks, needs_right as right_is_needed};
ghost use Rattle.cons_eval.specs.Bounds.{IsConstraint, IsWithin, most, most_leaves};
ghost use Rattle.cons_eval.specs.Meanings.{KeepsMeanings, are_placed};
ghost use Rattle.cons_eval.specs.Questions.{counted, readings_of};
ghost use Rattle.cons_eval.specs.Values.{is_so, joined_value, value_of};

use crate::calls::{call, worth_of};
use crate::env::Env;
use pat_types::{Expr, Op};

/// Whether a value counts as true.
fn counts_as_true(value: i64) -> bool
    ensures { result ≡ is_so value }
{
    value != 0
}

/// Whether the right side of the operator `op` is needed, if `left` is the value of its left side.
fn needs_right(op: Op, left: i64) -> bool
    ensures { result ≡ right_is_needed op left }
{
    match op {
        Op::Or => !counts_as_true(left),
        Op::And => counts_as_true(left),
        _ => true,
    }
}

/// The value of `left` and `right` with the operator `op` between them.
fn joined(op: Op, left: i64, right: i64) -> i64
    requires left_small { IsWithin (most_leaves * most) left }
    requires right_small { IsWithin (most_leaves * most) right }
    ensures { result ≡ joined_value op left right }
{
    match op {
        Op::Or => worth_of(counts_as_true(left) || counts_as_true(right)),
        Op::And => worth_of(counts_as_true(left) && counts_as_true(right)),
        Op::Eq => worth_of(left == right),
        Op::Ne => worth_of(left != right),
        Op::Lt => worth_of(left < right),
        Op::Le => worth_of(left <= right),
        Op::Gt => worth_of(left > right),
        Op::Ge => worth_of(left >= right),
        Op::Add => left + right,
        Op::Sub => left - right,
    }
}

/// The value of an expression, a whole number.
///
/// It never overflows: each of the at most 4,096 numbers and calls is worth at most 999,999, and an operator gives 1,
/// 0, or the sum or difference of its two sides. A side of `&&` or `||` that is not needed is left out, so it asks for
/// no reading.
pub fn eval<E: Env>(expr: &Expr, env: &mut E) -> i64
    requires constraint { IsConstraint expr.now }
    requires placed { are_placed (E.view env.old).meanings expr.now ≡ true }
    // The value is the one that the definition gives.
    ensures value { result ≡ value_of (E.view env.old).meanings expr.now }
    // The absolute value is at most 999,999 times the number of leaves.
    ensures small { IsWithin (leaf_count expr.now * most) result }
    // `eval` asks for exactly the readings that the definition counts; those of a right side only if it is needed.
    ensures asked { (E.view env.new).asked
        ≡ counted (readings_of (E.view env.old).meanings expr.now) (E.view env.old).asked }
    // Only the number of readings asked for and the counts may change, and no count gets lower.
    ensures stays { KeepsMeanings (E.view env.old) (E.view env.new) }
    // If no part that is needed may ask for a reading, the counts do not change either.
    ensures quiet { asks (E.view env.old).meanings expr.now ≡ false
        → (E.view env.new).counts ≡ (E.view env.old).counts }
{
    match expr {
        Expr::Num(n) => i64::from(*n),
        Expr::Call(function, args) => call(env, *function, args.as_slice()),
        Expr::Not(e) => worth_of(!counts_as_true(eval(e, env))),
        Expr::Neg(e) => -eval(e, env),
        Expr::Bin(op, a, b) => {
            let left = eval(a, env);
            if needs_right(*op, left) {
                joined(*op, left, eval(b, env))
            } else {
                worth_of(counts_as_true(left))
            }
        }
    }
}
