//! What the value of a constraint rests on: the position before the move, the moved labels, and readings.
ghost use Rattle.std.specs.Prelude.{◌≡◌, ◌*◌, ◌<◌, true, Some, None};
ghost use Rattle.cons_eval.specs.Values.{is_so as is_so_value, value_of};
ghost use Rattle.match_rules.specs.Conditions.{label_with as first_label, place_of_label, meanings_at};
ghost use Rattle.match_rules.specs.Conditions.{is_constraint_true as is_true};
ghost use Rattle.match_engine.specs.Readings.{Follows, codes_of};

use crate::placing::cell_place;
use crate::readings::Readings;
use cons_eval::{Env, eval};
use go_base::{Colour, Point, Position, Transform};
use match_rules::Match;
use pat_types::{Arg, Expr, LabelAt, Pattern};
use read_rules::Kind;

/// What the value of the constraint of a match's pattern rests on. It borrows the readings as long as it lives.
#[derive(Drop)]
pub struct ConstraintQuestion<'a> {
    /// The position before the move.
    pub position: &'a Position,
    /// The colour that plays the move.
    pub friend: Colour,
    /// The pattern.
    pub pattern: &'a Pattern,
    /// The transformation under which the pattern is tried.
    pub transform: Transform,
    /// The point of the pattern's star.
    pub star: Point,
    /// The readings that the constraint asks.
    pub readings: &'a mut Readings,
    /// How often the constraint asked the readings, as far as a `u64` counts.
    pub asked: u64,
    ghost on_board: { star < position.now.size * position.now.size },
}

/// The first of `labels` with this `letter`, if there is one.
fn label_with(labels: &[LabelAt], letter: u8) -> Option<LabelAt>
    ensures { result ≡ first_label letter labels.now }
{
    'labels: for label in labels {
        if label.letter == letter {
            return Some(*label);
        }
    }
    None
}

/// The point of the label `letter` of the pattern `p`, with its star at `star` under the transformation `t`.
fn label_place(
    p: &Pattern,
    t: Transform,
    star: Point,
    letter: u8,
    position: &Position,
) -> Option<Point>
    requires { star < position.now.size * position.now.size }
    ensures { result ≡ place_of_label p.now position.now.size t star (first_label letter p.now.labels) }
{
    let label = label_with(p.labels.as_slice(), letter)?;
    cell_place(p, t, star, label.row, label.col, position.size())
}

impl<'a> Env for ConstraintQuestion<'a> {
    ghost use Rattle.match_engine.specs.ConstraintView.{view_of, nowhere_none, star_some};

    ghost view = { λ e. view_of e };

    ghost nowhere = { λ e. nowhere_none e };

    ghost star = { λ e. star_some e };

    fn position(&self) -> Position {
        *self.position
    }

    fn friend(&self) -> Colour {
        self.friend
    }

    fn point(&self, arg: Arg) -> Option<Point> {
        match arg {
            Arg::Label(letter) => label_place(
                self.pattern,
                self.transform,
                self.star,
                letter,
                self.position,
            ),
            Arg::Star => Some(self.star),
            Arg::Nowhere => None,
        }
    }

    fn code(&mut self, kind: Kind, on: &Position, target: Point) -> u8 {
        self.asked = self.asked.saturating_add(1);
        self.readings.read(kind, on, target).code
    }
}

/// Whether the constraint of the pattern `p` has a value other than 0 for the match `z`.
fn is_so(
    p: &Pattern,
    constraint: &Expr,
    position: &Position,
    friend: Colour,
    z: &Match,
    readings: &mut Readings,
) -> bool
    requires constraint { p.now.constraint ≡ Some constraint.now }
    requires on_board { z.now.at < position.now.size * position.now.size }
    ensures value { result ≡ is_so_value (value_of
        (meanings_at (codes_of readings.old) p.now position.now friend z.now.transform z.now.at) constraint.now) }
    ensures follows { Follows readings.old readings.new }
{
    let mut question = ConstraintQuestion {
        position,
        friend,
        pattern: p,
        transform: z.transform,
        star: z.at,
        readings,
        asked: 0,
    };
    eval(constraint, &mut question) != 0
}

/// Whether the pattern `p` has no constraint, or one with a value other than 0 for the match `z`.
pub fn is_constraint_true(
    p: &Pattern,
    position: &Position,
    friend: Colour,
    z: &Match,
    readings: &mut Readings,
) -> bool
    requires on_board { z.now.at < position.now.size * position.now.size }
    ensures value { result ≡ is_true (codes_of readings.old) p.now position.now friend z.now.transform z.now.at }
    ensures follows { Follows readings.old readings.new }
    ensures unread { p.now.constraint ≡ None → readings.new ≡ readings.old }
{
    match &p.constraint {
        Some(constraint) => is_so(p, constraint, position, friend, z, readings),
        None => true,
    }
}
