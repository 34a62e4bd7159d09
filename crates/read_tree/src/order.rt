//! The order in which the points of a node are tried: the attacker's play that last had its way, and then the liberties
//! of the target, those with more empty neighbours first.

ghost use Rattle.std.specs.Prelude.{◌≡◌, ℕ, ◌*◌, ◌<◌, ◌&&◌, ◌↔◌, false, IsTrue, IfSome, IfNone, if◌then◌else◌};
ghost use Rattle.std.specs.FinSet as set;
ghost use Rattle.go_rules.specs.Below.{any_below};
ghost use Rattle.go_rules.specs.Board.{largest_points};
ghost use Rattle.go_rules.specs.Position.{BoardState};
ghost use Rattle.go_base.specs.Facts.{Agrees, AddsIn};
ghost use Rattle.go_base.specs.Views.{neighbours_of};
ghost use Rattle.trial_board.specs.Trials.{KeepsTrial};

use go_base::points::PointSet;
use go_base::size::MAX_POINTS;
use go_base::{Look, Point};
use read_moves::empty_sides;
use trial_board::Trial;

/// Whether `p` is a point of `points` that was not tried.
fn is_left(points: &PointSet, tried: &PointSet, p: Point) -> bool
    ensures { IsTrue result
        ↔ ((p < largest_points) × IsTrue (set.contains points.now p) × (set.contains tried.now p ≡ false)) }
{
    usize::from(p) < MAX_POINTS && points.has(p) && !tried.has(p)
}

/// How many liberties are ordered: a node that is read has no more of them.
const MOST_ORDERED: usize = 4;

/// A liberty in the order.
#[derive(Clone, Copy, Debug, PartialEq, Eq)]
struct Ordered {
    /// The liberty.
    point: Point,
    /// One more than the number of its empty neighbours; 0 if the place has no liberty.
    rank: u16,
}

/// The order in which the points of a node are tried. Any order gives the same answer, so no clause speaks of it.
#[derive(Clone, Copy, Debug, PartialEq, Eq)]
pub struct TryOrder {
    /// The point that is tried first, if it is one of the node's.
    first: Point,
    /// Whether the liberties are ordered. This is done once a node, and only if the first point does not do.
    is_found: bool,
    /// The liberties with more empty neighbours first; among equals the lowest point first.
    liberties: [Ordered; MOST_ORDERED],
}

impl TryOrder {
    /// The order that begins with `first`, and whose liberties are still to be found.
    pub fn beginning_with(first: Point) -> Self {
        let nothing = Ordered { point: 0, rank: 0 };
        TryOrder {
            first,
            is_found: false,
            liberties: [nothing; MOST_ORDERED],
        }
    }

    /// Puts a liberty after the liberties of its rank and before those of lower rank. If all places are taken, the last
    /// one drops out.
    fn put(&mut self, point: Point, rank: u16) {
        let mut moved = Ordered { point, rank };
        for place in 0..MOST_ORDERED {
            let here = self.liberties[place];
            if here.rank < moved.rank {
                self.liberties[place] = moved;
                moved = here;
            }
        }
    }

    /// The first liberty in the order that is a point of `points` and was not tried.
    fn first_left(&self, points: &PointSet, tried: &PointSet) -> Option<Point>
        ensures { IfSome result (λ p. (p < largest_points) × IsTrue (set.contains points.now p)
            × (set.contains tried.now p ≡ false)) }
    {
        for place in 0..MOST_ORDERED {
            let here = self.liberties[place];
            if here.rank > 0 && is_left(points, tried, here.point) {
                return Some(here.point);
            }
        }
        None
    }

    /// Orders the known liberties of the target that are in `points` by the number of their empty neighbours. A lone
    /// liberty needs no order.
    fn find<L: Look>(&mut self, board: &mut Trial<L>, points: &PointSet, known: &PointSet)
        requires { (p : ℕ) → IsTrue (set.contains points.now p)
            → p < (L.shows board.old.look).size * (L.shows board.old.look).size }
        ensures stays { KeepsTrial L.shows L.seen board.old board.new }
        ensures near { (pos : BoardState) → Agrees (L.seen board.new.look) pos → AddsIn (L.seen board.old.look)
            (L.seen board.new.look)
            (λ r. any_below (pos.size * pos.size) (λ l. set.contains known.now l && neighbours_of pos.size l r)) }
    {
        self.is_found = true;
        if points.count() < 2 {
            return;
        }
        let mut next = 0;
        while let Some(p) = points.first_from(next) {
            if known.has(p) {
                let sides = empty_sides(board, p);
                self.put(p, sides + 1);
            }
            next = p + 1;
        }
    }
}

/// The first point of `points` that was not tried.
fn first_left(points: &PointSet, tried: &PointSet) -> Option<Point>
    ensures some { IfSome result (λ p. (p < largest_points) × IsTrue (set.contains points.now p)
        × (set.contains tried.now p ≡ false)) }
    ensures none { IfNone result ((p : ℕ) → IsTrue (set.contains points.now p) → IsTrue (set.contains tried.now p)) }
{
    let mut next = 0;
    while let Some(p) = points.first_from(next) {
        if !tried.has(p) {
            return Some(p);
        }
        next = p + 1;
    }
    None
}

/// A point of `points` that was not tried, or `None` if each was: the point that the order begins with, or else the
/// first of its liberties, or else the first of `points`.
pub fn next_to_try<L: Look>(
    board: &mut Trial<L>,
    points: &PointSet,
    tried: &PointSet,
    known: &PointSet,
    order: &mut TryOrder,
) -> Option<Point>
    requires { (p : ℕ) → IsTrue (set.contains points.now p)
        → p < (L.shows board.old.look).size * (L.shows board.old.look).size }
    ensures stays { KeepsTrial L.shows L.seen board.old board.new }
    ensures some { IfSome result (λ p. (p < largest_points) × IsTrue (set.contains points.now p)
        × (set.contains tried.now p ≡ false)) }
    ensures none { IfNone result ((p : ℕ) → IsTrue (set.contains points.now p) → IsTrue (set.contains tried.now p)) }
    ensures near { (pos : BoardState) → Agrees (L.seen board.new.look) pos → AddsIn (L.seen board.old.look)
        (L.seen board.new.look)
        (λ r. any_below (pos.size * pos.size) (λ l. set.contains known.now l && neighbours_of pos.size l r)) }
{
    if is_left(points, tried, order.first) {
        return Some(order.first);
    }
    if !order.is_found {
        order.find(board, points, known);
    }
    match order.first_left(points, tried) {
        Some(p) => Some(p),
        None => first_left(points, tried),
    }
}

/// The attacker's play that last had its way: `p` if the attacker made it, else the play `before`.
pub fn last_reply(attacker: bool, p: Point, before: Point) -> Point
    ensures { result ≡ (if attacker then p else before) }
{
    if attacker { p } else { before }
}
