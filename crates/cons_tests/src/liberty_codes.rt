//! An environment whose codes follow from the liberties, and that counts how often it is asked.

ghost use Rattle.std.specs.Prelude.{◌≡◌, ◌*◌, ◌<◌, IfSome};

use cons_eval::{Env, Kind};
use go_base::{Point, Position};
use go_rules::Colour;
use pat_types::Arg;

/// An environment with points for the star and for the labels A and B. The code of an attack is 3 minus the liberties
/// of the string, but at least 0. The code of a defence is the number of its liberties, but at most 3.
#[derive(Drop)]
pub struct LibertyCodes {
    /// The position before the pattern's move.
    pub position: Position,
    /// The colour that plays the pattern's move.
    pub friend: Colour,
    /// The point of `*`.
    pub star: Point,
    /// The point of `A`.
    pub a: Point,
    /// The point of `B`.
    pub b: Point,
    /// How often a code was asked for, up to the greatest value of a `u64`.
    pub asked: u64,
    pub ghost star_on_board: { star < position.size * position.size },
    pub ghost a_on_board: { a < position.size * position.size },
    pub ghost b_on_board: { b < position.size * position.size },
}

impl LibertyCodes {
    /// An environment that was not asked yet; `None` if a point is off the board.
    pub fn new(
        position: Position,
        friend: Colour,
        star: Point,
        a: Point,
        b: Point,
    ) -> Option<LibertyCodes>
        ensures { IfSome result (λ t. t.asked ≡ 0) }
    {
        let points = position.size().points();
        if star >= points || a >= points || b >= points {
            return None;
        }
        Some(LibertyCodes {
            position,
            friend,
            star,
            a,
            b,
            asked: 0,
        })
    }
}

impl Env for LibertyCodes {
    ghost use Rattle.std.specs.Prelude.{[], refl};
    ghost use Rattle.cons_tests.specs.LibertyCodes.{spot, code_by_liberties};

    ghost view = { λ t. record {
      meanings = record {
        position = t.position;
        friend = t.friend;
        point = spot t.star t.a t.b;
        code = code_by_liberties;
      };
      fixed = [];
      asked = t.asked;
      counts = [];
    } };

    ghost nowhere = { λ t. refl };

    ghost star = { λ t. refl };

    fn position(&self) -> Position {
        self.position
    }

    fn friend(&self) -> Colour {
        self.friend
    }

    fn point(&self, arg: Arg) -> Option<Point> {
        match arg {
            Arg::Label(b'A') => Some(self.a),
            Arg::Label(b'B') => Some(self.b),
            Arg::Label(_) => None,
            Arg::Star => Some(self.star),
            Arg::Nowhere => None,
        }
    }

    fn code(&mut self, kind: Kind, on: &Position, target: Point) -> u8 {
        self.asked = self.asked.saturating_add(1);
        let liberties = on.liberties(target).min(3) as u8;
        match kind {
            Kind::Attack => 3 - liberties,
            Kind::Defend => liberties,
        }
    }
}
