//! Prints a constraint as text, and the values of its parts.
use pat_types::{
    Arg, Expr, Function, MovesFunction, Op, PairFunction, PointFunction, PointsFunction,
};
use std::alloc::AllocError;

/// How tightly a sign binds; operators bind less tightly.
const SIGN_LEVEL: u8 = 6;

/// The name of a function of one point.
fn point_name(function: PointFunction) -> &'static str {
    match function {
        PointFunction::Lib => "lib",
        PointFunction::Xlib => "xlib",
        PointFunction::Olib => "olib",
        PointFunction::Attack => "attack",
        PointFunction::Defend => "defend",
        PointFunction::Ko => "ko",
        PointFunction::SafeXmove => "safe_xmove",
        PointFunction::SafeOmove => "safe_omove",
        PointFunction::LegalXmove => "legal_xmove",
        PointFunction::LegalOmove => "legal_omove",
    }
}

/// The name of a function of two points.
fn pair_name(function: PairFunction) -> &'static str {
    match function {
        PairFunction::SameWorm => "same_worm",
        PairFunction::DoesAttack => "does_attack",
        PairFunction::DoesDefend => "does_defend",
        PairFunction::OdefendAgainst => "odefend_against",
        PairFunction::XdefendAgainst => "xdefend_against",
    }
}

/// The name of a function of several points.
fn points_name(function: PointsFunction) -> &'static str {
    match function {
        PointsFunction::OSomewhere => "o_somewhere",
        PointsFunction::XSomewhere => "x_somewhere",
    }
}

/// The name of a function of moves and a point.
fn moves_name(function: MovesFunction) -> &'static str {
    match function {
        MovesFunction::OplayAttack => "oplay_attack",
        MovesFunction::OplayDefend => "oplay_defend",
        MovesFunction::XplayAttack => "xplay_attack",
        MovesFunction::XplayDefend => "xplay_defend",
    }
}

/// The name of a function, as an expression calls it.
pub fn function_name(function: Function) -> &'static str {
    match function {
        Function::OfPoint(function) => point_name(function),
        Function::OfPair(function) => pair_name(function),
        Function::OfPoints(function) => points_name(function),
        Function::OfMoves(function) => moves_name(function),
    }
}

/// How tightly an operator binds, and how it is written.
fn operator(op: Op) -> (u8, &'static str) {
    match op {
        Op::Or => (1, " || "),
        Op::And => (2, " && "),
        Op::Eq => (3, " == "),
        Op::Ne => (3, " != "),
        Op::Lt => (4, " < "),
        Op::Le => (4, " <= "),
        Op::Gt => (4, " > "),
        Op::Ge => (4, " >= "),
        Op::Add => (5, " + "),
        Op::Sub => (5, " - "),
    }
}

/// Prints an argument.
fn put_argument(page: &mut String, arg: Arg) -> Result<(), AllocError> {
    match arg {
        Arg::Label(letter) => page.push(char::from(letter)),
        Arg::Star => page.push('*'),
        Arg::Nowhere => page.push('?'),
    }
}

/// Prints a call.
fn put_call(page: &mut String, function: Function, args: &[Arg]) -> Result<(), AllocError> {
    page.push_str(function_name(function))?;
    page.push('(')?;
    for (at, arg) in args.iter().enumerate() {
        if at > 0 {
            page.push(',')?;
        }
        put_argument(page, *arg)?;
    }
    page.push(')')
}

/// Prints an expression, in parentheses if it binds less tightly than `least`.
fn put_binding(page: &mut String, expr: &Expr, least: u8) -> Result<(), AllocError> {
    match expr {
        Expr::Num(n) => write!(page, "{n}"),
        Expr::Call(function, args) => put_call(page, *function, args.as_slice()),
        Expr::Not(e) => {
            page.push('!')?;
            put_binding(page, e, SIGN_LEVEL)
        }
        Expr::Neg(e) => {
            page.push('-')?;
            put_binding(page, e, SIGN_LEVEL)
        }
        Expr::Bin(op, a, b) => {
            let (level, word) = operator(*op);
            let is_loose = level < least;
            page.push_str(if is_loose { "(" } else { "" })?;
            put_binding(page, a, level)?;
            page.push_str(word)?;
            put_binding(page, b, level.saturating_add(1))?;
            page.push_str(if is_loose { ")" } else { "" })
        }
    }
}

/// Prints an expression as text, with only the parentheses that it needs, and a blank on each side of an operator.
pub fn put_expression(page: &mut String, expr: &Expr) -> Result<(), AllocError> {
    put_binding(page, expr, 0)
}

/// The number of parts of an expression.
pub(crate) fn part_count(expr: &Expr) -> usize {
    match expr {
        Expr::Num(_) => 1,
        Expr::Call(_, _) => 1,
        Expr::Not(e) => part_count(e).saturating_add(1),
        Expr::Neg(e) => part_count(e).saturating_add(1),
        Expr::Bin(_, a, b) => part_count(a)
            .saturating_add(part_count(b))
            .saturating_add(1),
    }
}

/// Prints the line of a part: its value in nine columns, or `-` if it is not needed, and the part, indented by its
/// `depth`.
fn put_part(
    page: &mut String,
    expr: &Expr,
    value: Option<i64>,
    depth: usize,
) -> Result<(), AllocError> {
    match value {
        Some(value) => write!(page, "{value:>9}  ")?,
        None => page.push_str("        -  ")?,
    }
    for _ in 0..depth {
        page.push_str("  ")?;
    }
    put_expression(page, expr)?;
    page.push_str("\n")
}

/// Prints the lines of the parts of an expression at this `depth`: first the whole, then its left side, then its right
/// side. The values are in the order of `constraint_values::values`.
fn put_parts(
    page: &mut String,
    expr: &Expr,
    values: &[Option<i64>],
    depth: usize,
) -> Result<(), AllocError> {
    let below = values.len().saturating_sub(1);
    put_part(
        page,
        expr,
        values.get(below).copied().unwrap_or(None),
        depth,
    )?;
    let values = values.get(..below).unwrap_or(&[]);
    let depth = depth.saturating_add(1);
    match expr {
        Expr::Num(_) => Ok(()),
        Expr::Call(_, _) => Ok(()),
        Expr::Not(e) => put_parts(page, e, values, depth),
        Expr::Neg(e) => put_parts(page, e, values, depth),
        Expr::Bin(_, a, b) => {
            let cut = below.saturating_sub(part_count(b));
            put_parts(page, a, values.get(..cut).unwrap_or(&[]), depth)?;
            put_parts(page, b, values.get(cut..).unwrap_or(&[]), depth)
        }
    }
}

/// Prints a line for each part of an expression, with its value, or `-` if the value is not needed. The values are in
/// the order of `constraint_values::values`.
pub fn put_values(
    page: &mut String,
    expr: &Expr,
    values: &[Option<i64>],
) -> Result<(), AllocError> {
    put_parts(page, expr, values, 0)
}
