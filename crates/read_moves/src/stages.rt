//! The candidates of a target by stages: its liberties and the last liberties of enemy strings next to it, and the
//! later candidates.

ghost use Rattle.std.specs.Prelude.{◌≡◌, ℕ, ◌*◌, ◌<◌, ◌&&◌, ◌||◌, IsTrue, nat_lt};
ghost use Rattle.std.specs.FinSet as set;
ghost use Rattle.go_rules.specs.Below.{any_below};
ghost use Rattle.go_rules.specs.Strings.{liberty_points};
ghost use Rattle.go_rules.specs.Position.{BoardState};
ghost use Rattle.go_base.specs.Facts.{Agrees, AddsIn};
ghost use Rattle.go_base.specs.Views.{neighbours_of};
ghost use Rattle.trial_board.specs.Trials.{KeepsTrial, after};
ghost use Rattle.read_rules.specs.Candidates.{attacker_of, is_empty_beside, is_candidate, near_candidates};
ghost use Rattle.read_rules.specs.Stages.{is_wide_by_liberties, is_later_candidate};

use crate::moves::add_backfilling;
use go_base::points::PointSet;
use go_base::size::Point;
use go_base::surroundings::Surroundings;
use go_base::{Cell, Colour, Look};
use read_rules::{Tree, Turn};
use trial_board::Trial;
use wider_moves::further_candidates;
use wider_moves::sides::add_sides_of;

/// Adds the empty points next to a point of `points` to `found`, if `points` has at most two points.
fn add_beside_few<L: Look>(board: &mut Trial<L>, points: &PointSet, found: &mut PointSet)
    requires { (l : ℕ) → IsTrue (set.contains points.now l)
        → l < (L.shows board.old.look).size * (L.shows board.old.look).size }
    ensures stays { KeepsTrial L.shows L.seen board.old board.new }
    ensures over { (pos : BoardState) → Agrees (L.seen board.new.look) pos → (p : ℕ)
        → set.contains found.new p ≡ (set.contains found.old p
        || (nat_lt (set.len points.now) 3 && is_empty_beside pos.size (after pos board.old.moves).cells
        (set.contains points.now) p)) }
    ensures near { (pos : BoardState) → Agrees (L.seen board.new.look) pos
        → AddsIn (L.seen board.old.look) (L.seen board.new.look)
        (λ r. any_below (pos.size * pos.size) (λ l. set.contains points.now l && neighbours_of pos.size l r)) }
{
    if points.count() < 3 {
        add_sides_of(board, Cell::Empty, points, found);
    }
}

/// The colour opposite to the stone in `cell`; black if the cell is empty.
fn attacker_of(cell: Cell) -> Colour
    ensures { result ≡ attacker_of cell }
{
    match cell {
        Cell::Black => Colour::White,
        Cell::White | Cell::Empty => Colour::Black,
    }
}

/// The wide candidates by the target's liberties, at either side's turn: the empty neighbours of `liberties`, if there
/// are at most two liberties, and the one liberty that a stone of the attacker on one of them would have.
fn wide_by_liberties<L: Look>(board: &mut Trial<L>, target: Point, liberties: &PointSet) -> PointSet
    requires on_board { target < (L.shows board.old.look).size * (L.shows board.old.look).size }
    requires liberties { (pos : BoardState) → Agrees (L.seen board.old.look) pos
        → liberties.now ≡ liberty_points pos.size (after pos board.old.moves).cells target }
    ensures stays { KeepsTrial L.shows L.seen board.old board.new }
    ensures over { (pos : BoardState) → Agrees (L.seen board.new.look) pos → (p : ℕ)
        → set.contains result p ≡ is_wide_by_liberties (after pos board.old.moves) target p }
    ensures near { (pos : BoardState) → Agrees (L.seen board.new.look) pos
        → AddsIn (L.seen board.old.look) (L.seen board.new.look)
        (near_candidates pos.size (after pos board.old.moves).cells target) }
{
    let mut found = PointSet::new();
    add_beside_few(board, liberties, &mut found);
    let attacker = attacker_of(board.cell(target));
    add_backfilling(board, attacker, liberties, &mut found);
    found
}

/// The later candidates of the stated tree at the turn: the wide candidates by the target's liberties, if a wide ply is
/// left.
fn stated_later_candidates<L: Look>(
    board: &mut Trial<L>,
    turn: Turn,
    liberties: &PointSet,
) -> PointSet
    requires on_board { turn.target < (L.shows board.old.look).size * (L.shows board.old.look).size }
    requires liberties { (pos : BoardState) → Agrees (L.seen board.old.look) pos
        → liberties.now ≡ liberty_points pos.size (after pos board.old.moves).cells turn.target }
    ensures stays { KeepsTrial L.shows L.seen board.old board.new }
    ensures over { (pos : BoardState) → Agrees (L.seen board.new.look) pos → (p : ℕ)
        → set.contains result p
        ≡ (nat_lt 0 turn.wide && is_wide_by_liberties (after pos board.old.moves) turn.target p) }
    ensures near { (pos : BoardState) → Agrees (L.seen board.new.look) pos
        → AddsIn (L.seen board.old.look) (L.seen board.new.look)
        (near_candidates pos.size (after pos board.old.moves).cells turn.target) }
{
    if turn.wide > 0 {
        wide_by_liberties(board, turn.target, liberties)
    } else {
        PointSet::new()
    }
}

/// The later candidates of the wider tree at the turn: the later candidates of the stated tree, and the further
/// candidates. Some of the further candidates are tried only if a wide ply is left.
fn wider_later_candidates<L: Look>(
    board: &mut Trial<L>,
    turn: Turn,
    liberties: &PointSet,
) -> PointSet
    requires on_board { turn.target < (L.shows board.old.look).size * (L.shows board.old.look).size }
    requires tree { turn.tree ≡ Tree.Wider }
    requires liberties { (pos : BoardState) → Agrees (L.seen board.old.look) pos
        → liberties.now ≡ liberty_points pos.size (after pos board.old.moves).cells turn.target }
    ensures stays { KeepsTrial L.shows L.seen board.old board.new }
    ensures over { (pos : BoardState) → Agrees (L.seen board.new.look) pos → (p : ℕ)
        → set.contains result p ≡ is_later_candidate turn (after pos board.old.moves) p }
    ensures near { (pos : BoardState) → Agrees (L.seen board.new.look) pos
        → AddsIn (L.seen board.old.look) (L.seen board.new.look)
        (near_candidates pos.size (after pos board.old.moves).cells turn.target) }
{
    let mut found = stated_later_candidates(board, turn, liberties);
    let wide = turn.wide > 0;
    let further = further_candidates(board, turn.target, turn.attacker_to_play, wide, liberties);
    found.join(&further);
    found
}

/// The candidates that are tried last at the turn. If a wide ply is left, they are the empty neighbours of the target's
/// liberties, if there are at most two liberties, and the one liberty that a stone of the attacker on one of the
/// liberties would have. In the wider tree they are also the further candidates of the side to play.
///
/// `liberties` are the target's. The trial moves stay as they were, and no play is tried. After GNU Go Manual,
/// "Tactical reading"; the choice of these points is this project's own.
pub fn later_candidates<L: Look>(board: &mut Trial<L>, turn: Turn, liberties: &PointSet) -> PointSet
    requires on_board { turn.target < (L.shows board.old.look).size * (L.shows board.old.look).size }
    requires liberties { (pos : BoardState) → Agrees (L.seen board.old.look) pos
        → liberties.now ≡ liberty_points pos.size (after pos board.old.moves).cells turn.target }
    ensures stays { KeepsTrial L.shows L.seen board.old board.new }
    ensures over { (pos : BoardState) → Agrees (L.seen board.new.look) pos → (p : ℕ)
        → set.contains result p ≡ is_later_candidate turn (after pos board.old.moves) p }
    ensures near { (pos : BoardState) → Agrees (L.seen board.new.look) pos
        → AddsIn (L.seen board.old.look) (L.seen board.new.look)
        (near_candidates pos.size (after pos board.old.moves).cells turn.target) }
{
    match turn.tree {
        Tree::Stated => stated_later_candidates(board, turn, liberties),
        Tree::Wider => wider_later_candidates(board, turn, liberties),
    }
}

/// The points that a reading tries at a turn: the liberties of the target, the last liberty of each enemy string in
/// atari next to the target, and the `later_candidates`.
///
/// The trial moves stay as they were. After GNU Go Manual, "Tactical reading"; the choice of these points is this
/// project's own.
pub fn candidates<L: Look>(board: &mut Trial<L>, turn: Turn) -> PointSet
    requires on_board { turn.target < (L.shows board.old.look).size * (L.shows board.old.look).size }
    ensures stays { KeepsTrial L.shows L.seen board.old board.new }
    ensures over { (pos : BoardState) → Agrees (L.seen board.new.look) pos → (p : ℕ)
        → set.contains result p ≡ is_candidate turn (after pos board.old.moves) p }
    ensures answer { (p : ℕ) → set.contains result p
        ≡ is_candidate turn (after (L.shows board.old.look) board.old.moves) p }
    ensures near { (pos : BoardState) → Agrees (L.seen board.new.look) pos
        → AddsIn (L.seen board.old.look) (L.seen board.new.look)
        (near_candidates pos.size (after pos board.old.moves).cells turn.target) }
{
    let Surroundings {
        liberties,
        last_liberties,
    } = board.surroundings(turn.target);
    let mut found = last_liberties;
    found.join(&liberties);
    if turn.has_later_candidates() {
        found.join(&later_candidates(board, turn, &liberties));
    }
    found
}
