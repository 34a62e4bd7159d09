//! The values of the parts of an expression.
ghost use Rattle.std.specs.Prelude.{◌≡◌, ◌*◌, [], ◌∷◌, ◌++◌, true, Some, IfOk, OnOk};
ghost use Rattle.pat_types.specs.Labels.{leaf_count};
ghost use Rattle.cons_eval.specs.Bounds.{IsConstraint, IsWithin, most};
ghost use Rattle.cons_eval.specs.Meanings.{KeepsMeanings, are_placed};
ghost use Rattle.cons_eval.specs.Values.{value_of};
ghost use Rattle.constraint_values.specs.Parts.{values_in, no_values};

use crate::parts::{counts_as_true, joined, needs_right, worth_of};
use cons_eval::{Env, eval};
use go_base::NoMemory;
use pat_types::Expr;
use std::alloc::Global;

/// Appends the value of a part to `values`, behind the values of the parts below it, and returns it.
fn put(value: i64, values: &mut Vec<Option<i64>>) -> Result<i64, NoMemory>
    ensures value { IfOk result (λ v. v ≡ value) }
    ensures put { OnOk result (values.new.items ≡ values.old.items ++ Some value ∷ []) }
{
    values.push(Some(value))?;
    Ok(value)
}

/// Appends the value of a number or of a call to `values` and returns it.
fn put_leaf<E: Env>(
    expr: &Expr,
    env: &mut E,
    values: &mut Vec<Option<i64>>,
) -> Result<i64, NoMemory>
    requires constraint { IsConstraint expr.now }
    requires placed { are_placed (E.view env.old).meanings expr.now ≡ true }
    ensures value { IfOk result (λ v. v ≡ value_of (E.view env.old).meanings expr.now) }
    ensures small { IfOk result (λ v. IsWithin (leaf_count expr.now * most) v) }
    ensures put { OnOk result
        (values.new.items ≡ values.old.items ++ Some (value_of (E.view env.old).meanings expr.now) ∷ []) }
    ensures stays { KeepsMeanings (E.view env.old) (E.view env.new) }
{
    put(eval(expr, env), values)
}

/// Appends `None` to `values` for each part of an expression that is not needed.
fn put_none(expr: &Expr, values: &mut Vec<Option<i64>>) -> Result<(), NoMemory>
    ensures { OnOk result (values.new.items ≡ values.old.items ++ no_values expr.now) }
{
    match expr {
        Expr::Num(_) => values.push(None)?,
        Expr::Call(_, _) => values.push(None)?,
        Expr::Not(e) => {
            put_none(e, values)?;
            values.push(None)?;
        }
        Expr::Neg(e) => {
            put_none(e, values)?;
            values.push(None)?;
        }
        Expr::Bin(_, a, b) => {
            put_none(a, values)?;
            put_none(b, values)?;
            values.push(None)?;
        }
    }
    Ok(())
}

/// Appends the values of the parts of an expression to `values`, its own last, and returns its own.
fn put_values<E: Env>(
    expr: &Expr,
    env: &mut E,
    values: &mut Vec<Option<i64>>,
) -> Result<i64, NoMemory>
    requires constraint { IsConstraint expr.now }
    requires placed { are_placed (E.view env.old).meanings expr.now ≡ true }
    ensures value { IfOk result (λ v. v ≡ value_of (E.view env.old).meanings expr.now) }
    ensures small { IfOk result (λ v. IsWithin (leaf_count expr.now * most) v) }
    ensures put { OnOk result
        (values.new.items ≡ values.old.items ++ values_in (E.view env.old).meanings expr.now) }
    ensures stays { KeepsMeanings (E.view env.old) (E.view env.new) }
{
    match expr {
        Expr::Num(_) => put_leaf(expr, env, values),
        Expr::Call(_, _) => put_leaf(expr, env, values),
        Expr::Not(e) => {
            let inner = put_values(e, env, values)?;
            put(worth_of(!counts_as_true(inner)), values)
        }
        Expr::Neg(e) => {
            let inner = put_values(e, env, values)?;
            put(-inner, values)
        }
        Expr::Bin(op, a, b) => {
            let left = put_values(a, env, values)?;
            if needs_right(*op, left) {
                let right = put_values(b, env, values)?;
                put(joined(*op, left, right), values)
            } else {
                put_none(b, values)?;
                put(worth_of(counts_as_true(left)), values)
            }
        }
    }
}

/// The value of each part of an expression, or none for a part that is not needed: the parts below a part come before
/// it, those of the left side first, so the value of the whole is the last.
///
/// If the left side of an operator decides, no part of the right side is needed, and no reading is asked for there.
pub fn values<E: Env>(alloc: Global, expr: &Expr, env: &mut E) -> Result<Vec<Option<i64>>, NoMemory>
    requires constraint { IsConstraint expr.now }
    requires placed { are_placed (E.view env.old).meanings expr.now ≡ true }
    ensures values { IfOk result (λ v. v.items ≡ values_in (E.view env.old).meanings expr.now) }
    ensures stays { KeepsMeanings (E.view env.old) (E.view env.new) }
{
    let mut values = Vec::new(alloc);
    put_values(expr, env, &mut values)?;
    Ok(values)
}
