//! The first look of a reading: whether the target has too many liberties to be read at all.

ghost use Rattle.std.specs.Prelude.{◌≡◌, ◌*◌, ◌<◌};
ghost use Rattle.go_rules.specs.Position.{BoardState};
ghost use Rattle.go_rules.specs.Neighbourhood.{neighbourhood_of};
ghost use Rattle.go_base.specs.Facts.{Agrees, Grows, AddsIn};
ghost use Rattle.go_base.specs.Views.{alone};
ghost use Rattle.read_tree.specs.Steps.{TellsLiberties};

use crate::bound::most_liberties;
use go_base::Look;
use go_base::flood::search;
use go_base::points::PointSet;
use read_rules::Turn;
use trial_board::overlay::Overlay;

/// What the first look at a target found, and the view that it looked through.
#[derive(Drop)]
pub struct FirstLook<L> {
    /// The liberties of the target; if they are too many, a part of them that is too many already.
    pub liberties: PointSet,
    /// The view that the caller passed in; what was looked at is among its facts.
    pub look: L,
}

/// Searches the target's string on the view alone, and stops as soon as the string has too many liberties for the
/// plies. A board for trial moves is large, and most targets have so many liberties that they need none.
#[inline(always)]
pub fn first_look<L: Look>(look: L, turn: Turn, plies: u8) -> FirstLook<L>
    requires { turn.target < (L.shows look).size * (L.shows look).size }
    ensures shown { L.shows result.look ≡ L.shows look }
    ensures grows { Grows (L.seen look) (L.seen result.look) }
    ensures over { (pos : BoardState) → Agrees (L.seen result.look) pos
        → TellsLiberties turn plies pos.size pos.cells result.liberties }
    ensures near { (pos : BoardState) → Agrees (L.seen result.look) pos
        → AddsIn (L.seen look) (L.seen result.look) (neighbourhood_of pos.size pos.cells (alone turn.target)) }
{
    let mut board = Overlay::new(look);
    let found = search(&mut board, turn.target, most_liberties(turn, plies));
    let Overlay { look, known: _ } = board;
    FirstLook {
        liberties: found.liberties,
        look,
    }
}
