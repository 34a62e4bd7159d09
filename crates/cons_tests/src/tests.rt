//! What expressions are worth on drawn positions. `O` is the friend, and points are numbered in reading order on five
//! rows.

use crate::LibertyCodes;
use cons_eval::eval;
use cons_parse::{ConsError, parse};
use go_base::{Point, Position, Size};
use go_rules::Colour;
use pat_types::LabelAt;
use std::alloc::Global;
use std::process::Abort;

const LABELS: [LabelAt; 2] = [
    LabelAt {
        letter: b'A',
        row: 0,
        col: 0,
    },
    LabelAt {
        letter: b'B',
        row: 0,
        col: 1,
    },
];

/// The friend at 6 has one liberty, at 7. The friend at 18 has five.
const ATARI: &str = ".X...XO....X......OO.....";

/// A play of the enemy at 6 takes 7, and the friend may not retake at once.
const KO: &str = ".OX..O.OX..OX............";

/// The position after `colour` plays at `p` with any ko ban dropped.
fn played(position: &Position, colour: Colour, p: usize) -> Option<Position> {
    if p >= usize::from(position.size().points()) {
        return None;
    }
    position.play_free(colour, p as u16).ok()
}

/// The position with the stone for which `mark` stands put at `p`; unchanged if `mark` stands for no stone.
fn marked(position: &Position, friend: Colour, mark: u8, p: usize) -> Option<Position> {
    match mark {
        b'X' => played(position, friend.other(), p),
        b'O' => played(position, friend, p),
        _ => Some(*position),
    }
}

/// The position of a drawing.
fn drawn(drawing: &str, friend: Colour) -> Option<Position> {
    let mut position = Position::new(Size::new(5)?);
    for (p, mark) in drawing.bytes().enumerate() {
        position = marked(&position, friend, mark, p)?;
    }
    Some(position)
}

/// The value of the expression that `text` spells.
fn value(alloc: Global, env: &mut LibertyCodes, text: &str) -> Result<i64, ConsError> {
    let expr = parse(alloc, text.as_bytes(), &LABELS)?;
    Ok(eval(&expr, env))
}

/// An expression, the points of the star and of the labels A and B, and the value.
type Row = (&'static str, [Point; 3], i64);

/// Values if a stone is in atari.
static ON_ATARI: [Row; 61] = [
    ("lib(A)", [0, 6, 0], 1),
    ("lib(A)", [0, 18, 0], 5),
    ("lib(A)", [0, 7, 0], 0),
    ("xlib(A)", [0, 7, 0], 4),
    ("xlib(A)", [0, 6, 0], 0),
    ("olib(A)", [0, 7, 0], 3),
    ("olib(A)", [0, 0, 0], 0),
    ("attack(A)", [0, 6, 0], 2),
    ("attack(A)", [0, 7, 0], 0),
    ("defend(A)", [0, 6, 0], 1),
    ("defend(A)", [0, 18, 0], 3),
    ("defend(A)", [0, 7, 0], 0),
    ("safe_xmove(A)", [0, 7, 0], 1),
    ("safe_xmove(A)", [0, 0, 0], 0),
    ("safe_xmove(A)", [0, 2, 0], 1),
    ("safe_omove(A)", [0, 7, 0], 1),
    ("safe_omove(A)", [0, 2, 0], 0),
    ("legal_xmove(A)", [0, 0, 0], 1),
    ("legal_xmove(A)", [0, 6, 0], 0),
    ("legal_omove(*)", [7, 0, 0], 1),
    ("legal_omove(*)", [0, 0, 0], 0),
    ("o_somewhere(*,A)", [7, 6, 0], 1),
    ("o_somewhere(*,A)", [7, 1, 0], 0),
    ("x_somewhere(*,A)", [7, 1, 0], 1),
    ("x_somewhere(*,A)", [7, 6, 0], 0),
    ("same_worm(A,B)", [0, 18, 19], 1),
    ("same_worm(A,B)", [0, 6, 18], 0),
    ("same_worm(A,B)", [0, 7, 7], 0),
    ("does_attack(A,B)", [0, 7, 6], 3),
    ("does_attack(A,B)", [0, 12, 6], 2),
    ("does_attack(A,B)", [0, 1, 6], 0),
    ("does_attack(A,B)", [0, 2, 1], 2),
    ("does_defend(A,B)", [0, 7, 6], 3),
    ("does_defend(A,B)", [0, 22, 6], 1),
    ("does_defend(A,B)", [0, 22, 7], 0),
    ("does_defend(A,B)", [0, 2, 1], 3),
    ("odefend_against(A,B)", [0, 21, 22], 1),
    ("odefend_against(A,B)", [0, 7, 22], 0),
    ("odefend_against(A,B)", [0, 0, 6], 0),
    ("xdefend_against(A,B)", [0, 7, 6], 1),
    ("xdefend_against(A,B)", [0, 2, 8], 0),
    ("xdefend_against(A,B)", [0, 0, 1], 1),
    ("oplay_attack(B,A)", [0, 6, 12], 2),
    ("oplay_attack(*,A)", [7, 6, 0], 0),
    ("oplay_attack(B,*,A)", [7, 6, 1], 0),
    ("oplay_attack(A,B)", [0, 2, 1], 2),
    ("oplay_defend(*,A)", [7, 6, 0], 3),
    ("oplay_defend(?,*,A)", [7, 6, 0], 0),
    ("xplay_attack(B,A)", [0, 6, 12], 2),
    ("xplay_attack(*,A)", [7, 6, 0], 0),
    ("xplay_attack(?,A,B)", [0, 2, 1], 2),
    ("xplay_defend(?,*,A)", [7, 6, 0], 3),
    ("xplay_defend(B,A)", [0, 6, 12], 1),
    ("xplay_defend(A,B)", [0, 7, 6], 0),
    ("1-2-3", [0, 0, 0], -4),
    ("1-(2-3)", [0, 0, 0], 2),
    ("!0==1", [0, 0, 0], 1),
    ("2<3==1", [0, 0, 0], 1),
    ("-1<0", [0, 0, 0], 1),
    ("1||0&&0", [0, 0, 0], 1),
    ("3>=3&&2!=2||4>5", [0, 0, 0], 0),
];

/// Values before a ko is taken.
static BEFORE_KO: [Row; 3] = [
    ("ko(A)", [0, 6, 0], 1),
    ("ko(A)", [0, 7, 0], 0),
    ("ko(A)", [0, 20, 0], 0),
];

/// Values after the ko is taken.
static AFTER_KO: [Row; 3] = [
    ("ko(A)", [0, 7, 0], 1),
    ("legal_omove(A)", [0, 7, 0], 0),
    ("legal_xmove(A)", [0, 7, 0], 1),
];

/// The value of the expression `text` with the star and the labels A and B at these points.
fn value_at(
    alloc: Global,
    position: Position,
    friend: Colour,
    [star, a, b]: [Point; 3],
    text: &str,
) -> Option<i64> {
    let mut env = LibertyCodes::new(position, friend, star, a, b)?;
    value(alloc, &mut env, text).ok()
}

/// Checks the values of `rows` on a position.
fn compare(
    rt: &impl Abort,
    alloc: Global,
    position: Option<Position>,
    friend: Colour,
    rows: &[Row],
) {
    let position = position.expect(rt, "the drawing is a position");
    for &(text, points, want) in rows {
        let [star, a, b] = points;
        assert!(rt;
            value_at(alloc, position, friend, points, text) == Some(want),
            "{text} with {star}, {a}, {b}"
        );
    }
}

/// The position of the ko after it is taken.
fn after_ko(friend: Colour) -> Option<Position> {
    played(&drawn(KO, friend)?, friend.other(), 6)
}

// Each colour is the friend once: the values are the same.
#[test]
fn functions_on_a_stone_in_atari_and_on_a_ko(rt: HostRuntime) {
    for friend in [Colour::White, Colour::Black] {
        compare(&rt, rt.alloc(), drawn(ATARI, friend), friend, &ON_ATARI);
        compare(&rt, rt.alloc(), drawn(KO, friend), friend, &BEFORE_KO);
        compare(&rt, rt.alloc(), after_ko(friend), friend, &AFTER_KO);
    }
}

/// An expression with the star at 7 and the labels at 6 and 18, its value if a stone is in atari, and how many codes
/// are asked for.
static READINGS: [(&str, i64, u64); 13] = [
    ("0&&attack(A)", 0, 0),
    ("1&&attack(A)", 1, 1),
    ("1||attack(A)", 1, 0),
    ("0||attack(A)", 1, 1),
    ("attack(A)||attack(B)", 1, 1),
    ("attack(B)||attack(A)", 1, 2),
    ("attack(B)&&attack(A)", 0, 1),
    ("attack(A)&&attack(B)", 0, 2),
    ("attack(A)+defend(A)", 3, 2),
    ("attack(*)", 0, 0),
    ("does_attack(*,A)", 3, 0),
    ("does_defend(*,A)", 3, 1),
    ("does_attack(*,*)", 0, 0),
];

/// The value of an expression if a stone is in atari, and how many codes are asked for.
fn read_on_atari(alloc: Global, text: &str) -> Option<(i64, u64)> {
    let position = drawn(ATARI, Colour::White)?;
    let mut env = LibertyCodes::new(position, Colour::White, 7, 6, 18)?;
    let got = value(alloc, &mut env, text).ok()?;
    Some((got, env.asked))
}

#[test]
fn a_side_that_is_not_needed_asks_for_no_reading(rt: HostRuntime) {
    for &(text, want, asked) in &READINGS {
        assert!(rt;
            read_on_atari(rt.alloc(), text) == Some((want, asked)),
            "{text}"
        );
    }
}
