//! What texts are parsed to: the expression, printed with all parentheses, or the first fault.

use cons_parse::{ConsError, parse};
use pat_types::{Arg, Expr, Function, LabelAt, Op};
use std::alloc::{AllocError, Global};

pub(super) static LABELS: [LabelAt; 2] = [
    LabelAt {
        letter: b'A',
        row: 0,
        col: 0,
    },
    LabelAt {
        letter: b'b',
        row: 0,
        col: 1,
    },
];

fn sign(op: Op) -> &'static str {
    match op {
        Op::Or => "||",
        Op::And => "&&",
        Op::Eq => "==",
        Op::Ne => "!=",
        Op::Lt => "<",
        Op::Le => "<=",
        Op::Gt => ">",
        Op::Ge => ">=",
        Op::Add => "+",
        Op::Sub => "-",
    }
}

/// Writes the name that a function has in the code.
fn show_function(out: &mut String, function: Function) -> Result<(), AllocError> {
    match function {
        Function::OfPoint(f) => write!(out, "{f:?}"),
        Function::OfPair(f) => write!(out, "{f:?}"),
        Function::OfPoints(f) => write!(out, "{f:?}"),
        Function::OfMoves(f) => write!(out, "{f:?}"),
    }
}

/// Writes a full stop and then an argument.
fn show_argument(out: &mut String, arg: Arg) -> Result<(), AllocError> {
    match arg {
        Arg::Label(letter) => write!(out, ".{letter}"),
        Arg::Star => out.push_str(".*"),
        Arg::Nowhere => out.push_str(".?"),
    }
}

/// Writes a call: the name of its function and then its arguments.
fn show_call(out: &mut String, function: Function, args: &[Arg]) -> Result<(), AllocError> {
    show_function(out, function)?;
    for arg in args {
        show_argument(out, *arg)?;
    }
    Ok(())
}

/// Writes an expression with all of its parentheses.
fn show(out: &mut String, e: &Expr) -> Result<(), AllocError> {
    match e {
        Expr::Num(n) => write!(out, "{n}"),
        Expr::Call(function, args) => show_call(out, *function, args.as_slice()),
        Expr::Not(e) => {
            out.push_str("!")?;
            show(out, e)
        }
        Expr::Neg(e) => {
            out.push_str("-")?;
            show(out, e)
        }
        Expr::Bin(op, a, b) => {
            out.push_str("(")?;
            show(out, a)?;
            out.push_str(sign(*op))?;
            show(out, b)?;
            out.push_str(")")
        }
    }
}

/// The expression that a text spells, with all of its parentheses, or the name that its first fault has in the code.
fn told(alloc: Global, text: &[u8]) -> Result<String, AllocError> {
    match parse(alloc, text, &LABELS) {
        Ok(e) => {
            let mut out = String::new(alloc);
            show(&mut out, &e)?;
            Ok(out)
        }
        Err(e) => format!(in alloc; "{e:?}"),
    }
}

/// Texts with the expressions that they spell, whose operators group by level and from the left, and texts with their
/// first faults.
static EXPRESSIONS: [(&str, &str); 67] = [
    ("1+2-3", "((1+2)-3)"),
    ("1-2-3", "((1-2)-3)"),
    ("!0==1", "(!0==1)"),
    ("2<3==1", "((2<3)==1)"),
    ("-1<0", "(-1<0)"),
    ("1||2&&3==4<5+6", "(1||(2&&(3==(4<(5+6)))))"),
    ("1+2<3==4&&5||6", "(((((1+2)<3)==4)&&5)||6)"),
    ("1<2<3", "((1<2)<3)"),
    ("1==2!=3", "((1==2)!=3)"),
    ("1&&2||3&&4||5", "(((1&&2)||(3&&4))||5)"),
    ("!1+2", "(!1+2)"),
    ("--1 - -2", "(--1--2)"),
    ("!-!1 == - ! 2", "(!-!1==-!2)"),
    ("!(1+2)*", "Syntax"),
    ("!(1+2)", "!(1+2)"),
    ("1+(2-3)", "(1+(2-3))"),
    ("1||(2&&3)+4", "(1||((2&&3)+4))"),
    ("((1))", "1"),
    ("1 >= 2 <= 3", "((1>=2)<=3)"),
    (" \t\r\x0c 1 \t", "1"),
    ("000001+999999", "(1+999999)"),
    (
        "lib(A)==2 && !xplay_attack(*,A)",
        "((Lib.65==2)&&!XplayAttack.*.65)",
    ),
    ("oplay_attack ( * , ? , b , A )", "OplayAttack.*.?.98.65"),
    (
        "o_somewhere(A,b,A,b,A,b,A,b)",
        "OSomewhere.65.98.65.98.65.98.65.98",
    ),
    // Texts with a fault.
    ("", "Syntax"),
    ("  ", "Syntax"),
    ("1 2", "Syntax"),
    ("1+", "Syntax"),
    ("+1", "Syntax"),
    ("(1", "Syntax"),
    ("1)", "Syntax"),
    ("()", "Syntax"),
    ("1234567", "Syntax"),
    ("1! =2", "Syntax"),
    ("1 & 2", "Syntax"),
    ("1=2", "Syntax"),
    ("lib", "Syntax"),
    ("lib(", "Syntax"),
    ("lib(A", "Syntax"),
    ("lib(A,", "Syntax"),
    ("lib(A,)", "Syntax"),
    ("lib(,A)", "Syntax"),
    ("lib(AB)", "Syntax"),
    ("lib(1)", "Syntax"),
    ("lib((A))", "Syntax"),
    ("lib(A b)", "Syntax"),
    ("A", "Syntax"),
    ("*", "Syntax"),
    ("1,2", "Syntax"),
    ("1a", "Syntax"),
    ("_a(A)", "Syntax"),
    ("foo(Z)", "UnknownFunction"),
    ("A(A)", "UnknownFunction"),
    ("Lib(A)", "UnknownFunction"),
    ("lib(Z,Z)+foo()", "UnknownFunction"),
    ("lib()", "Arity"),
    ("lib(A,b)", "Arity"),
    ("lib(?)", "Arity"),
    ("lib(Z)+same_worm(A)", "Arity"),
    ("oplay_attack(A)", "Arity"),
    ("oplay_attack(A,?)", "Arity"),
    ("oplay_attack(A,A,A,A,A,A,A,A,A,A)", "Arity"),
    ("o_somewhere()", "Arity"),
    ("x_somewhere(A,A,A,A,A,A,A,A,A)", "Arity"),
    ("lib(O)", "UnknownLabel"),
    ("lib(A)+lib(B)", "UnknownLabel"),
    ("oplay_attack(?,Z)", "UnknownLabel"),
];

/// Whether the text spells this expression, or has this first fault.
pub(super) fn is_told(alloc: Global, text: &[u8], want: &str) -> bool {
    match told(alloc, text) {
        Ok(told) => told.as_str() == want,
        Err(AllocError) => false,
    }
}

#[test]
fn expressions_of_texts(rt: HostRuntime) {
    for &(text, want) in &EXPRESSIONS {
        assert!(rt; is_told(rt.alloc(), text.as_bytes(), want), "{text}");
    }
}
