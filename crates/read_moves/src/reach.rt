//! What a stone that is played reaches: the empty neighbours of its point, and the other liberties of the strings that
//! it joins. The count stops at two points.

ghost use Rattle.std.specs.Prelude.{◌≡◌, ◌≢◌, ℕ, ◌*◌, ◌<◌, ◌≤◌, IsTrue, IfSome, IfNone, if◌then◌else◌};
ghost use Rattle.std.specs.FinSet as set;
ghost use Rattle.go_rules.specs.Board.{largest_points};
ghost use Rattle.go_rules.specs.Strings.{cell_at, same_cell};
ghost use Rattle.go_rules.specs.Position.{BoardState};
ghost use Rattle.go_rules.specs.Neighbourhood.{neighbourhood_of};
ghost use Rattle.go_base.specs.Facts.{Agrees, AddsIn};
ghost use Rattle.go_base.specs.Views.{alone, neighbours_of};
ghost use Rattle.trial_board.specs.Overlays.{neighbourhood_twice};
ghost use Rattle.trial_board.specs.Trials.{KeepsTrial, after};
ghost use Rattle.read_rules.specs.Candidates.{IsEmptyNeighbour};
ghost use Rattle.read_moves.specs.Reaches.{HasReach, together, is_more, IsOtherMember, IsOtherLibertyOf, Reaches};

use go_base::points::PointSet;
use go_base::sides::neighbour;
use go_base::size::Point;
use go_base::{Cell, Colour, Look};
use trial_board::Trial;

/// A string with more liberties than this has at least two besides any given point.
const FEW_LIBERTIES: u16 = 2;

/// What a stone at a point reaches, or a part of it.
#[derive(Clone, Copy, Debug, PartialEq, Eq)]
pub enum Reach {
    /// It reaches nothing.
    Nothing,
    /// It reaches this point and no other.
    Only(Point),
    /// It reaches at least two points.
    More,
}

impl Reach {
    /// What this reach and the other are together.
    fn with(self, other: Reach) -> Reach
        ensures { result ≡ together self other }
    {
        match (self, other) {
            (Reach::Nothing, reach) | (reach, Reach::Nothing) => reach,
            (Reach::Only(p), Reach::Only(q)) if p == q => Reach::Only(p),
            _ => Reach::More,
        }
    }

    /// Whether at least two points are reached.
    fn is_more(self) -> bool
        ensures { result ≡ is_more self }
    {
        match self {
            Reach::More => true,
            Reach::Nothing | Reach::Only(_) => false,
        }
    }
}

/// The least member of `points` that is at least `from` and is not `l`.
pub(crate) fn first_other(points: &PointSet, l: Point, from: u16) -> Option<Point>
    requires { l < largest_points }
    ensures some { IfSome result (λ p. (from ≤ p) × (p < largest_points) × IsTrue (set.contains points.now p) × (p ≢ l)
        × ((r : ℕ) → from ≤ r → r < p → IsTrue (set.contains points.now r) → r ≡ l)) }
    ensures none { IfNone result ((r : ℕ) → from ≤ r → IsTrue (set.contains points.now r) → r ≡ l) }
{
    match points.first_from(from) {
        Some(p) => {
            if p == l {
                return points.first_from(l + 1);
            }
            Some(p)
        }
        None => None,
    }
}

/// The members of `points` other than `l`, as a reach.
fn reach_within(points: &PointSet, l: Point) -> Reach
    requires { l < largest_points }
    ensures { HasReach (IsOtherMember points.now l) result }
{
    match first_other(points, l, 0) {
        Some(p) => match first_other(points, l, p + 1) {
            Some(_) => Reach::More,
            None => Reach::Only(p),
        },
        None => Reach::Nothing,
    }
}

/// The point `q` if it is empty, else nothing.
fn reach_of_side<L: Look>(board: &mut Trial<L>, q: Point) -> Reach
    requires { q < (L.shows board.old.look).size * (L.shows board.old.look).size }
    ensures stays { KeepsTrial L.shows L.seen board.old board.new }
    ensures over { (pos : BoardState) → Agrees (L.seen board.new.look) pos
        → result ≡ (if same_cell (cell_at (after pos board.old.moves).cells q) Cell.Empty then Reach.Only q
        else Reach.Nothing) }
    ensures near { AddsIn (L.seen board.old.look) (L.seen board.new.look) (alone q) }
{
    if board.cell(q) == Cell::Empty {
        Reach::Only(q)
    } else {
        Reach::Nothing
    }
}

/// The empty neighbours of `l`, as a reach.
fn reach_of_sides<L: Look>(board: &mut Trial<L>, l: Point) -> Reach
    requires { l < (L.shows board.old.look).size * (L.shows board.old.look).size }
    ensures stays { KeepsTrial L.shows L.seen board.old board.new }
    ensures over { (pos : BoardState) → Agrees (L.seen board.new.look) pos
        → HasReach (IsEmptyNeighbour pos.size (after pos board.old.moves).cells l) result }
    ensures near { (pos : BoardState) → Agrees (L.seen board.new.look) pos
        → AddsIn (L.seen board.old.look) (L.seen board.new.look) (neighbours_of pos.size l) }
{
    let size = board.size();
    let mut reach = Reach::Nothing;
    for side in 0..4 {
        if let Some(q) = neighbour(size, l, side) {
            reach = reach.with(reach_of_side(board, q));
        }
    }
    reach
}

/// The liberties of the string of `q` other than `l`, as a reach; nothing if `q` holds no stone of colour `c`.
fn reach_of_string<L: Look>(board: &mut Trial<L>, c: Colour, l: Point, q: Point) -> Reach
    requires small { l < largest_points }
    requires on_board { q < (L.shows board.old.look).size * (L.shows board.old.look).size }
    ensures stays { KeepsTrial L.shows L.seen board.old board.new }
    ensures over { (pos : BoardState) → Agrees (L.seen board.new.look) pos
        → HasReach (IsOtherLibertyOf pos.size (after pos board.old.moves).cells c l q) result }
    ensures near { (pos : BoardState) → Agrees (L.seen board.new.look) pos
        → AddsIn (L.seen board.old.look) (L.seen board.new.look)
        (neighbourhood_of pos.size (after pos board.old.moves).cells (alone q)) }
{
    if board.cell(q) != c.cell() {
        return Reach::Nothing;
    }
    let found = board.some_liberties(q, FEW_LIBERTIES);
    if found.count() > FEW_LIBERTIES {
        return Reach::More;
    }
    reach_within(&found, l)
}

/// What a stone of colour `c` at `l` would reach. Strings are searched only as long as fewer than two points are
/// reached.
pub(crate) fn reach_of<L: Look>(board: &mut Trial<L>, c: Colour, l: Point) -> Reach
    requires { l < (L.shows board.old.look).size * (L.shows board.old.look).size }
    ensures stays { KeepsTrial L.shows L.seen board.old board.new }
    ensures inside { (p : ℕ) → result ≡ Reach.Only p → p < largest_points }
    ensures over { (pos : BoardState) → Agrees (L.seen board.new.look) pos
        → Reaches pos.size (after pos board.old.moves).cells c l result }
    ensures near { (pos : BoardState) → Agrees (L.seen board.new.look) pos
        → AddsIn (L.seen board.old.look) (L.seen board.new.look)
        (neighbourhood_twice pos.size (after pos board.old.moves).cells l) }
{
    let size = board.size();
    let _ = size.points();
    let mut reach = reach_of_sides(board, l);
    for side in 0..4 {
        if reach.is_more() {
            return reach;
        }
        if let Some(beside) = neighbour(size, l, side) {
            reach = reach.with(reach_of_string(board, c, l, beside));
        }
    }
    reach
}
