//! The candidates off the liberties of the target, by stages: the captures of enemy strings next to it, and then the
//! later candidates.

ghost use Rattle.std.specs.Prelude.{◌≡◌, ℕ, ◌*◌, ◌<◌};
ghost use Rattle.std.specs.FinSet as set;
ghost use Rattle.go_rules.specs.Position.{BoardState};
ghost use Rattle.go_rules.specs.Strings.{liberty_points};
ghost use Rattle.go_base.specs.Facts.{Agrees, AddsIn};
ghost use Rattle.trial_board.specs.Overlays.{neighbourhood_twice};
ghost use Rattle.trial_board.specs.Trials.{KeepsTrial, after};
ghost use Rattle.read_rules.specs.Candidates.{near_candidates};
ghost use Rattle.read_tree.specs.Stages.{is_capture, is_other};

use go_base::points::PointSet;
use go_base::{Look, Point};
use read_moves::later_candidates;
use read_rules::Turn;
use trial_board::Trial;

/// The last liberties of the enemy strings in atari next to the target, without the target's own liberties, `known`.
pub fn captures_of<L: Look>(board: &mut Trial<L>, target: Point, known: &PointSet) -> PointSet
    requires target { target < (L.shows board.old.look).size * (L.shows board.old.look).size }
    requires liberties { (pos : BoardState) → Agrees (L.seen board.old.look) pos
        → known.now ≡ liberty_points pos.size (after pos board.old.moves).cells target }
    ensures stays { KeepsTrial L.shows L.seen board.old board.new }
    ensures over { (pos : BoardState) → Agrees (L.seen board.new.look) pos → (p : ℕ)
        → set.contains result p ≡ is_capture (after pos board.old.moves) target p }
    ensures near { (pos : BoardState) → Agrees (L.seen board.new.look) pos
        → AddsIn (L.seen board.old.look) (L.seen board.new.look)
        (neighbourhood_twice pos.size (after pos board.old.moves).cells target) }
{
    board.surroundings(target).last_liberties.difference(known)
}

/// The later candidates at the turn that are neither in `known`, the liberties of the target, nor in `captures`.
pub fn others_of<L: Look>(
    board: &mut Trial<L>,
    turn: Turn,
    known: &PointSet,
    captures: &PointSet,
) -> PointSet
    requires target { turn.target < (L.shows board.old.look).size * (L.shows board.old.look).size }
    requires liberties { (pos : BoardState) → Agrees (L.seen board.old.look) pos
        → known.now ≡ liberty_points pos.size (after pos board.old.moves).cells turn.target }
    requires captures { (pos : BoardState) → Agrees (L.seen board.old.look) pos → (p : ℕ)
        → set.contains captures.now p ≡ is_capture (after pos board.old.moves) turn.target p }
    ensures stays { KeepsTrial L.shows L.seen board.old board.new }
    ensures over { (pos : BoardState) → Agrees (L.seen board.new.look) pos → (p : ℕ)
        → set.contains result p ≡ is_other turn (after pos board.old.moves) p }
    ensures near { (pos : BoardState) → Agrees (L.seen board.new.look) pos
        → AddsIn (L.seen board.old.look) (L.seen board.new.look)
        (near_candidates pos.size (after pos board.old.moves).cells turn.target) }
{
    later_candidates(board, turn, known)
        .difference(known)
        .difference(captures)
}
