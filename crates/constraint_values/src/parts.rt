//! The value of a part, from the values of the parts below it.
ghost use Rattle.std.specs.Prelude.{◌≡◌, ◌*◌};
ghost use Rattle.cons_eval.specs.Asking.{needs_right as right_is_needed};
ghost use Rattle.cons_eval.specs.Bounds.{IsWithin, most, most_leaves};
ghost use Rattle.cons_eval.specs.Values.{is_so, joined_value, worth};

use pat_types::Op;

/// Whether a value counts as true.
pub(crate) fn counts_as_true(value: i64) -> bool
    ensures { result ≡ is_so value }
{
    value != 0
}

/// What a test is worth: 1 if it holds, else 0.
pub(crate) fn worth_of(test: bool) -> i64
    ensures { result ≡ worth test }
{
    if test { 1 } else { 0 }
}

/// Whether the right side of the operator `op` is needed, if `left` is the value of its left side.
pub(crate) fn needs_right(op: Op, left: i64) -> bool
    ensures { result ≡ right_is_needed op left }
{
    match op {
        Op::Or => !counts_as_true(left),
        Op::And => counts_as_true(left),
        _ => true,
    }
}

/// The value of `left` and `right` with the operator `op` between them.
pub(crate) fn joined(op: Op, left: i64, right: i64) -> i64
    requires left_small { IsWithin (most_leaves * most) left }
    requires right_small { IsWithin (most_leaves * most) right }
    ensures { result ≡ joined_value op left right }
{
    match op {
        Op::Or => worth_of(counts_as_true(left) || counts_as_true(right)),
        Op::And => worth_of(counts_as_true(left) && counts_as_true(right)),
        Op::Eq => worth_of(left == right),
        Op::Ne => worth_of(left != right),
        Op::Lt => worth_of(left < right),
        Op::Le => worth_of(left <= right),
        Op::Gt => worth_of(left > right),
        Op::Ge => worth_of(left >= right),
        Op::Add => left + right,
        Op::Sub => left - right,
    }
}
