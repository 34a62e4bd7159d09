//! What the value of a constraint rests on: the position before the move, the moved labels, and fresh readings.
ghost use Rattle.std.specs.Prelude.{◌≡◌, ◌*◌, ◌<◌, pos, true, Some, IfOk, option_map};
ghost use Rattle.cons_eval.specs.Values.{is_so as is_so_value, value_of};
ghost use Rattle.match_rules.specs.Fits.{place_of_cell};
ghost use Rattle.match_rules.specs.Conditions.{label_with as first_label, place_of_label, meanings_at};
ghost use Rattle.match_rules.specs.Conditions.{is_constraint_true as is_true};
ghost use Rattle.constraint_values.specs.Parts.{values_in};
ghost use Rattle.match_reasons.specs.FreshReadings.{fresh_codes};

use crate::fresh::code;
use cons_eval::{Env, eval};
use constraint_values::values;
use go_base::{Colour, NoMemory, Point, Position, Size, Transform};
use pat_types::{Arg, Expr, LabelAt, Pattern};
use read_rules::{Depths, Kind};
use spiral::place_from;
use std::alloc::Global;

/// What the value of the constraint of a pattern rests on, with the star at a point under a transformation. Each
/// reading that the constraint asks for is fresh.
#[derive(Drop)]
pub struct FreshQuestion<'a> {
    /// The position before the move.
    pub position: &'a Position,
    /// The colour that plays the move.
    pub friend: Colour,
    /// The pattern.
    pub pattern: &'a Pattern,
    /// The transformation under which the pattern is tried.
    pub transform: Transform,
    /// The point of the pattern's star.
    pub star: Point,
    /// How deep the readings go.
    pub depths: Depths,
    /// How many readings the constraint asked for, as far as a `u64` counts.
    pub asked: u64,
    ghost on_board: { star < position.now.size * position.now.size },
}

/// The first of `labels` with this `letter`, if there is one.
fn label_with(labels: &[LabelAt], letter: u8) -> Option<LabelAt>
    ensures { result ≡ first_label letter labels.now }
{
    'labels: for label in labels {
        if label.letter == letter {
            return Some(*label);
        }
    }
    None
}

/// The point of a letter's cell, with the star at `star` under the transformation `t`, or `None` if it is off the
/// board.
fn cell_place(
    p: &Pattern,
    t: Transform,
    star: Point,
    row: u8,
    column: u8,
    size: Size,
) -> Option<Point>
    requires star { star < size * size }
    requires row { row < p.now.rows }
    requires column { column < p.now.cols }
    ensures { result ≡ place_of_cell p.now size t star (pos row) (pos column) }
{
    let dr = row as i8 - p.star.0 as i8;
    let dc = column as i8 - p.star.1 as i8;
    place_from(star, t, dr, dc, size)
}

/// The point of the label `letter` of the pattern `p`, with its star at `star` under the transformation `t`.
fn label_place(
    p: &Pattern,
    t: Transform,
    star: Point,
    letter: u8,
    position: &Position,
) -> Option<Point>
    requires { star < position.now.size * position.now.size }
    ensures { result ≡ place_of_label p.now position.now.size t star (first_label letter p.now.labels) }
{
    let label = label_with(p.labels.as_slice(), letter)?;
    cell_place(p, t, star, label.row, label.col, position.size())
}

impl<'a> Env for FreshQuestion<'a> {
    ghost use Rattle.match_reasons.specs.ConstraintView.{view_of, nowhere_none, star_some};

    ghost view = { λ e. view_of e };

    ghost nowhere = { λ e. nowhere_none e };

    ghost star = { λ e. star_some e };

    fn position(&self) -> Position {
        *self.position
    }

    fn friend(&self) -> Colour {
        self.friend
    }

    fn point(&self, arg: Arg) -> Option<Point> {
        match arg {
            Arg::Label(letter) => label_place(
                self.pattern,
                self.transform,
                self.star,
                letter,
                self.position,
            ),
            Arg::Star => Some(self.star),
            Arg::Nowhere => None,
        }
    }

    fn code(&mut self, kind: Kind, on: &Position, target: Point) -> u8 {
        self.asked = self.asked.saturating_add(1);
        code(kind, on, target, self.depths)
    }
}

/// Whether the constraint of `p` has a value other than 0, with the star at `at` under the transformation `t`.
fn is_so(
    p: &Pattern,
    constraint: &Expr,
    position: &Position,
    friend: Colour,
    t: Transform,
    at: Point,
    depths: Depths,
) -> bool
    requires constraint { p.now.constraint ≡ Some constraint.now }
    requires on_board { at < position.now.size * position.now.size }
    ensures { result ≡ is_so_value (value_of
        (meanings_at (fresh_codes depths) p.now position.now friend t at) constraint.now) }
{
    let mut question = FreshQuestion {
        position,
        friend,
        pattern: p,
        transform: t,
        star: at,
        depths,
        asked: 0,
    };
    eval(constraint, &mut question) != 0
}

/// Whether `p` has no constraint, or one with a value other than 0, with the star at `at` under the transformation `t`.
pub(crate) fn is_constraint_true(
    p: &Pattern,
    position: &Position,
    friend: Colour,
    t: Transform,
    at: Point,
    depths: Depths,
) -> bool
    requires { at < position.now.size * position.now.size }
    ensures { result ≡ is_true (fresh_codes depths) p.now position.now friend t at }
{
    match &p.constraint {
        Some(constraint) => is_so(p, constraint, position, friend, t, at, depths),
        None => true,
    }
}

/// The value of each part of `constraint`, which is that of the pattern `p`; `None` for a part that is not needed.
fn values_of(
    alloc: Global,
    p: &Pattern,
    constraint: &Expr,
    position: &Position,
    friend: Colour,
    t: Transform,
    at: Point,
    depths: Depths,
) -> Result<Vec<Option<i64>>, NoMemory>
    requires constraint { p.now.constraint ≡ Some constraint.now }
    requires on_board { at < position.now.size * position.now.size }
    ensures { IfOk result (λ v. v.items ≡ values_in
        (meanings_at (fresh_codes depths) p.now position.now friend t at) constraint.now) }
{
    let mut question = FreshQuestion {
        position,
        friend,
        pattern: p,
        transform: t,
        star: at,
        depths,
        asked: 0,
    };
    values(alloc, constraint, &mut question)
}

/// The value of each part of the constraint of `p`, if it has one, with the star at `at` under the transformation `t`;
/// `None` for a part that is not needed. The parts below a part come before it, and those of a left side first, so the
/// value of the whole constraint is the last. Each reading is fresh, at `depths`; no helper is asked. Takes memory.
pub fn constraint_values(
    alloc: Global,
    p: &Pattern,
    position: &Position,
    friend: Colour,
    t: Transform,
    at: Point,
    depths: Depths,
) -> Result<Option<Vec<Option<i64>>>, NoMemory>
    requires { at < position.now.size * position.now.size }
    ensures { IfOk result (λ values. option_map (λ v. v.items) values ≡ option_map
        (values_in (meanings_at (fresh_codes depths) p.now position.now friend t at)) p.now.constraint) }
{
    match &p.constraint {
        Some(constraint) => match values_of(alloc, p, constraint, position, friend, t, at, depths) {
            Ok(values) => Ok(Some(values)),
            Err(_) => Err(NoMemory),
        },
        None => Ok(None),
    }
}
