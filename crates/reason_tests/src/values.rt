//! The values of the parts of constraints, on the board that `docs/FORMATS.md` shows, and the texts of expressions.
//! Black is the friend; points are numbered in reading order on nine rows.
use crate::tests::{new_helpers, patterns_of, with_more};
use cons_parse::parse;
use go_base::{Colour, Point, Position, Size, Transform};
use match_reasons::constraint_values;
use pat_types::{Expr, Function, LabelAt};
use read_rules::Depths;
use std::alloc::Global;
use why_report::{function_name, put_expression};

/// The text of the entry up to its expression.
const ENTRY: &[u8] = b"Pattern P
.....*...
.OOX.....
.OX.X....
..OX....O
.........
:O,s
.....*...
.OLD.....
.CABX....
..OX....O
.......FE
;";

/// Black's stones: B4, C4, B3, C2 and J2.
const BLACK: [Point; 5] = [46, 47, 55, 65, 71];

/// White's stones: D4, C3, E3 and D2.
const WHITE: [Point; 4] = [48, 56, 58, 66];

/// The star, F5.
const STAR: Point = 41;

/// A row: an expression, and the values of its parts. The parts below a part come before it, the left before the right.
#[derive(Clone, Copy)]
struct Row {
    /// What the row shows.
    name: &'static str,
    /// The expression.
    text: &'static str,
    /// The expected values; `None` for a part that is not needed.
    want: &'static [Option<i64>],
}

/// A row for each function, and for each way in which a part is needed or not.
static ROWS: [Row; 28] = [
    Row {
        name: "the liberties of a string",
        text: "lib(A)==1",
        want: &[Some(1), Some(1), Some(1)],
    },
    Row {
        name: "the liberties of an enemy's stone that is put",
        text: "xlib(B)==5",
        want: &[Some(5), Some(5), Some(1)],
    },
    Row {
        name: "the liberties of the friend's stone, which takes one",
        text: "olib(B)==1",
        want: &[Some(1), Some(1), Some(1)],
    },
    Row {
        name: "the code of an attack",
        text: "attack(A)==3",
        want: &[Some(3), Some(3), Some(1)],
    },
    Row {
        name: "the code of a defence",
        text: "defend(A)==3",
        want: &[Some(3), Some(3), Some(1)],
    },
    Row {
        name: "a play that leaves a ban",
        text: "ko(B)==1",
        want: &[Some(1), Some(1), Some(1)],
    },
    Row {
        name: "an enemy's stone that can be captured",
        text: "safe_xmove(E)==0",
        want: &[Some(0), Some(0), Some(1)],
    },
    Row {
        name: "a friend's stone that can be captured",
        text: "safe_omove(B)==0",
        want: &[Some(0), Some(0), Some(1)],
    },
    Row {
        name: "a legal play of the enemy",
        text: "legal_xmove(E)==1",
        want: &[Some(1), Some(1), Some(1)],
    },
    Row {
        name: "a point that is not empty",
        text: "legal_omove(A)==0",
        want: &[Some(0), Some(0), Some(1)],
    },
    Row {
        name: "a friend's stone at one of three points",
        text: "o_somewhere(A,B,C)==1",
        want: &[Some(1), Some(1), Some(1)],
    },
    Row {
        name: "no enemy's stone at one of two points",
        text: "x_somewhere(B,C)==0",
        want: &[Some(0), Some(0), Some(1)],
    },
    Row {
        name: "two stones of one string",
        text: "same_worm(C,L)==1",
        want: &[Some(1), Some(1), Some(1)],
    },
    Row {
        name: "a play that captures",
        text: "does_attack(B,A)==3",
        want: &[Some(3), Some(3), Some(1)],
    },
    Row {
        name: "a play that saves",
        text: "does_defend(B,A)==3",
        want: &[Some(3), Some(3), Some(1)],
    },
    Row {
        name: "a play that the ban protects",
        text: "odefend_against(B,A)==1",
        want: &[Some(1), Some(1), Some(1)],
    },
    Row {
        name: "an enemy's play that protects",
        text: "xdefend_against(F,E)==1",
        want: &[Some(1), Some(1), Some(1)],
    },
    Row {
        name: "an attack after two plays",
        text: "oplay_attack(*,B,A)==0",
        want: &[Some(0), Some(0), Some(1)],
    },
    Row {
        name: "a defence after a play and a pass",
        text: "oplay_defend(B,?,D)==3",
        want: &[Some(3), Some(3), Some(1)],
    },
    Row {
        name: "an attack after a pass and a play",
        text: "xplay_attack(?,*,A)==3",
        want: &[Some(3), Some(3), Some(1)],
    },
    Row {
        name: "a defence of a point that was emptied",
        text: "xplay_defend(?,B,A)==0",
        want: &[Some(0), Some(0), Some(1)],
    },
    Row {
        name: "a right side that `||` does not need, and its parts",
        text: "1||lib(A)==1",
        want: &[Some(1), None, None, None, Some(1)],
    },
    Row {
        name: "a right side that `&&` does not need, and its part",
        text: "0&&!lib(A)",
        want: &[Some(0), None, None, Some(0)],
    },
    Row {
        name: "a right side that `||` needs",
        text: "0||-lib(A)",
        want: &[Some(0), Some(1), Some(-1), Some(1)],
    },
    Row {
        name: "a right side that `&&` needs",
        text: "lib(A)&&2>1",
        want: &[Some(1), Some(2), Some(1), Some(1), Some(1)],
    },
    Row {
        name: "both sides of a sum and of a difference",
        text: "1+2-4==-1",
        want: &[
            Some(1),
            Some(2),
            Some(3),
            Some(4),
            Some(-1),
            Some(1),
            Some(-1),
            Some(1),
        ],
    },
    Row {
        name: "a side that is not needed within one that is",
        text: "(1||lib(A))&&0",
        want: &[Some(1), None, Some(1), Some(0), Some(0)],
    },
    Row {
        name: "a side that would be needed within one that is not",
        text: "0&&(0||lib(A))",
        want: &[Some(0), None, None, None, Some(0)],
    },
];

/// The position on which all rows are valued.
fn position() -> Option<Position> {
    let position = Position::new(Size::new(9)?);
    let position = with_more(position, Colour::Black, &BLACK)?;
    with_more(position, Colour::White, &WHITE)
}

/// The values of the parts of the expression `text`.
fn values(alloc: Global, text: &str) -> Option<Vec<Option<i64>>> {
    let mut entry = Vec::new(alloc);
    entry.extend_from_slice(ENTRY).ok()?;
    entry.extend_from_slice(text.as_bytes()).ok()?;
    let patterns = patterns_of(alloc, entry.as_slice())?;
    let position = position()?;
    if STAR >= position.size().points() {
        return None;
    }
    constraint_values(
        alloc,
        patterns.first()?,
        &position,
        Colour::Black,
        Transform::new(0)?,
        STAR,
        Depths::new(10, 2)?,
    )
    .ok()?
}

#[test]
fn each_part_that_is_needed_has_its_value(rt: HostRuntime) {
    for row in &ROWS {
        let found = values(rt.alloc(), row.text);
        let is_right = found.as_ref().map(|found| found.as_slice() == row.want);
        assert!(rt; is_right == Some(true), "{}", row.name);
    }
}

/// The names of all functions, and a call of each.
static CALLS: [(&str, &str); 21] = [
    ("lib", "lib(A)"),
    ("xlib", "xlib(A)"),
    ("olib", "olib(A)"),
    ("attack", "attack(A)"),
    ("defend", "defend(A)"),
    ("ko", "ko(A)"),
    ("safe_xmove", "safe_xmove(A)"),
    ("safe_omove", "safe_omove(A)"),
    ("legal_xmove", "legal_xmove(A)"),
    ("legal_omove", "legal_omove(A)"),
    ("same_worm", "same_worm(A,B)"),
    ("does_attack", "does_attack(A,B)"),
    ("does_defend", "does_defend(A,B)"),
    ("odefend_against", "odefend_against(A,B)"),
    ("xdefend_against", "xdefend_against(A,B)"),
    ("o_somewhere", "o_somewhere(A)"),
    ("x_somewhere", "x_somewhere(A)"),
    ("oplay_attack", "oplay_attack(A,B)"),
    ("oplay_defend", "oplay_defend(A,B)"),
    ("xplay_attack", "xplay_attack(A,B)"),
    ("xplay_defend", "xplay_defend(A,B)"),
];

/// The function that `text` calls.
fn function_called(alloc: Global, text: &str) -> Option<Function> {
    match &parse(alloc, text.as_bytes(), &LABELS).ok()? {
        Expr::Call(function, _) => Some(*function),
        _ => None,
    }
}

#[test]
fn a_function_has_the_name_by_which_it_is_called(rt: HostRuntime) {
    for (name, call) in &CALLS {
        let function = function_called(rt.alloc(), call);
        assert!(rt; function.map(function_name) == Some(*name), "{name}");
    }
}

/// The labels of the texts in `CALLS` and `TEXTS`.
static LABELS: [LabelAt; 2] = [
    LabelAt {
        letter: b'A',
        row: 0,
        col: 0,
    },
    LabelAt {
        letter: b'B',
        row: 0,
        col: 1,
    },
];

/// Expressions as they are printed: with the parentheses that they need.
static TEXTS: [(&str, &str); 7] = [
    (
        "operators of one level group from the left",
        "1 - 2 - 3 == 4 != 5",
    ),
    ("a right side of the same level", "1 - (2 - 3)"),
    ("looser sides", "(1 || 2) && (3 || 4)"),
    ("tighter sides", "1 && 2 || 3 && 4"),
    ("signs", "!-lib(A) == -!(1 + 2)"),
    ("arguments", "oplay_attack(*,?,A,B) <= same_worm(A,*)"),
    ("an order within a test", "1 < 2 == 3 >= 4 && 5 > (6 < 7)"),
];

/// The expression `text`, parsed and printed again.
fn put_again(alloc: Global, text: &str) -> Option<String> {
    let expr = parse(alloc, text.as_bytes(), &LABELS).ok()?;
    let mut page = String::new(alloc);
    put_expression(&mut page, &expr).ok()?;
    Some(page)
}

#[test]
fn an_expression_is_put_as_a_text_that_spells_it(rt: HostRuntime) {
    for (name, text) in &TEXTS {
        let put = put_again(rt.alloc(), text);
        assert!(rt;
            put.as_ref().map(|put| put.as_str()) == Some(*text),
            "{name}"
        );
    }
}
