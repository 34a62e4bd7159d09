//! The plays at a node, and the outcome of each.

ghost use Rattle.std.specs.Prelude.{◌≡◌, ◌+◌, ◌*◌, ◌<◌, ◌≤◌, true, length};
ghost use Rattle.go_rules.specs.Position.{BoardState};
ghost use Rattle.go_base.specs.Facts.{Agrees, Grows, AddsIn};
ghost use Rattle.trial_board.specs.Overlays.{neighbourhood_twice};
ghost use Rattle.trial_board.specs.Trials.{most_moves, after};
ghost use Rattle.read_tree.specs.Steps.{tail_if, Makes};

use go_base::{Look, Point};
use read_rules::Turn;
use trial_board::{Trial, Tried};

/// The outcome of a play at a node.
#[derive(Clone, Copy, Debug, PartialEq, Eq)]
pub enum Made {
    /// The play is not made.
    Not,
    /// The play is legal, and was made.
    Legal,
    /// Only the ban forbids the play, and it was made by the mover's own allowance.
    Allowed,
}

/// Plays at `p` for the side to play, if the rules let it, or if `own` lets it use its own allowance. A play that is
/// made stands afterwards.
pub fn make<L: Look>(board: &mut Trial<L>, turn: Turn, p: Point, own: bool) -> Made
    requires room { length board.old.moves < most_moves }
    requires on_board { p < (L.shows board.old.look).size * (L.shows board.old.look).size }
    ensures shown { L.shows board.new.look ≡ L.shows board.old.look }
    ensures grows { Grows (L.seen board.old.look) (L.seen board.new.look) }
    ensures moves { tail_if result board.new.moves ≡ board.old.moves }
    ensures few { length board.new.moves ≤ length board.old.moves + 1 }
    ensures over { (pos : BoardState) → Agrees (L.seen board.new.look) pos
        → Makes result turn own (after pos board.old.moves) p (after pos board.new.moves) }
    ensures near { (pos : BoardState) → Agrees (L.seen board.new.look) pos
        → AddsIn (L.seen board.old.look) (L.seen board.new.look)
        (neighbourhood_twice pos.size (after pos board.old.moves).cells p) }
    ensures own { result ≡ Made.Allowed → own ≡ true }
{
    match board.play(turn.mover(), p, false) {
        Tried::Done => Made::Legal,
        Tried::Banned => {
            if !own {
                return Made::Not;
            }
            match board.play(turn.mover(), p, true) {
                Tried::Done => Made::Allowed,
                _ => Made::Not,
            }
        }
        Tried::Occupied | Tried::Suicide => Made::Not,
    }
}
