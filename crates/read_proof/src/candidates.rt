//! The candidates at a turn, found by going over the points of the board.

ghost use Rattle.std.specs.Prelude.{◌≡◌, ℕ, ◌*◌, ◌<◌, ◌==◌, ◌&&◌, ◌||◌, Bool, false, IsTrue, nat_lt, MatchOption};
ghost use Rattle.std.specs.FinSet as set;
ghost use Rattle.go_rules.specs.Below.{any_below};
ghost use Rattle.go_rules.specs.Board.{largest_points};
ghost use Rattle.go_rules.specs.Strings.{liberty_points};
ghost use Rattle.go_base.specs.Surroundings.{is_only_liberty, is_last_liberty_of_enemy};
ghost use Rattle.read_rules.specs.Candidates.{attacker_of, is_empty_beside, is_left, is_candidate};
ghost use Rattle.read_rules.specs.Stages.{is_wide_by_liberties, is_later_candidate};

use crate::beside::{add_where, beside};
use crate::further::further_candidates;
use go_base::surroundings::{Surroundings, surroundings_of};
use go_base::{Cell, Colour, Point, PointSet, Position};
use read_rules::Turn;

/// How many liberties a string in atari has.
const IN_ATARI: u16 = 1;

/// If a target has this number of liberties or more, the empty points next to them are not tried.
const MANY: u16 = 3;

/// The only liberty of the string of `q`, or `None` if it does not have exactly one.
fn only_liberty(pos: &Position, q: Point) -> Option<Point>
    requires { q < pos.now.size * pos.now.size }
    ensures { MatchOption result ((p : ℕ) → is_only_liberty pos.now.size pos.now.cells q p ≡ false)
        (λ l. (l < pos.now.size * pos.now.size) × (l < largest_points)
        × ((p : ℕ) → is_only_liberty pos.now.size pos.now.cells q p ≡ (p == l))) }
{
    let liberties = pos.liberty_points(q);
    if liberties.count() != IN_ATARI {
        return None;
    }
    liberties.first_from(0)
}

/// The liberties of the target, and the last liberties of the enemy strings next to it.
fn surroundings(pos: &Position, target: Point) -> Surroundings
    requires { target < pos.now.size * pos.now.size }
    ensures liberties { result.liberties ≡ liberty_points pos.now.size pos.now.cells target }
    ensures last_liberties { (p : ℕ) → set.contains result.last_liberties p
        ≡ is_last_liberty_of_enemy pos.now.size pos.now.cells target p }
{
    surroundings_of(&mut pos.board(), target)
}

/// The empty points next to the target's liberties, if it has at most two; else none.
fn beside_few(pos: &Position, liberties: &PointSet) -> PointSet
    ensures { (p : ℕ) → set.contains result p ≡ (nat_lt (set.len liberties.now) 3
        && is_empty_beside pos.now.size pos.now.cells (set.contains liberties.now) p) }
{
    if liberties.count() >= MANY {
        return PointSet::new();
    }
    beside(pos, Cell::Empty, liberties)
}

/// Adds the only liberty that the string of a stone `c` played at `l` would have, if `l` is in `liberties` and that
/// point is empty now.
fn add_left(pos: &Position, c: Colour, liberties: &PointSet, l: Point, found: &mut PointSet)
    requires on_board { l < pos.now.size * pos.now.size }
    requires small { l < largest_points }
    ensures { (p : ℕ) → set.contains found.new p
        ≡ (set.contains found.old p || (set.contains liberties.now l && is_left pos.now c l p)) }
{
    if !liberties.has(l) {
        return;
    }
    if let Ok(new) = pos.play_free(c, l) {
        if let Some(p) = only_liberty(&new, l) {
            add_where(pos, Cell::Empty, p, found);
        }
    }
}

/// Adds the backfilling moves: for each liberty of the target, the only liberty that an attacker's stone played there
/// would have.
fn add_backfilling(pos: &Position, attacker: Colour, liberties: &PointSet, found: &mut PointSet)
    ensures { (p : ℕ) → set.contains found.new p ≡ (set.contains found.old p
        || any_below (pos.now.size * pos.now.size)
        (λ l. set.contains liberties.now l && is_left pos.now attacker l p)) }
{
    for l in 0..pos.size().points() {
        add_left(pos, attacker, liberties, l, found);
    }
}

/// The colour that attacks a stone: its opposite. An empty point counts as white.
fn attacker_of(cell: Cell) -> Colour
    ensures { result ≡ attacker_of cell }
{
    match cell {
        Cell::Black => Colour::White,
        Cell::White | Cell::Empty => Colour::Black,
    }
}

/// The wide candidates by the target's liberties: the empty neighbours of the liberties, if these are at most two, and
/// the backfilling moves. `liberties` are the target's.
fn wide_by_liberties(pos: &Position, target: Point, liberties: &PointSet) -> PointSet
    requires on_board { target < pos.now.size * pos.now.size }
    requires liberties { liberties.now ≡ liberty_points pos.now.size pos.now.cells target }
    ensures { (p : ℕ) → set.contains result p ≡ is_wide_by_liberties pos.now target p }
{
    let mut found = beside_few(pos, liberties);
    add_backfilling(pos, attacker_of(pos.cell(target)), liberties, &mut found);
    found
}

/// The later candidates of both trees: if a wide ply is left, the wide candidates by the target's liberties; else none.
/// `liberties` are the target's.
fn later_in_both_trees(pos: &Position, turn: Turn, liberties: &PointSet) -> PointSet
    requires on_board { turn.target < pos.now.size * pos.now.size }
    requires liberties { liberties.now ≡ liberty_points pos.now.size pos.now.cells turn.target }
    ensures { (p : ℕ) → set.contains result p ≡ (nat_lt 0 turn.wide && is_wide_by_liberties pos.now turn.target p) }
{
    if turn.wide > 0 {
        return wide_by_liberties(pos, turn.target, liberties);
    }
    PointSet::new()
}

/// The later candidates at the turn: all but the target's liberties and the last liberties of the enemy strings next to
/// it. `liberties` are the target's.
fn later_candidates(pos: &Position, turn: Turn, liberties: &PointSet) -> PointSet
    requires on_board { turn.target < pos.now.size * pos.now.size }
    requires liberties { liberties.now ≡ liberty_points pos.now.size pos.now.cells turn.target }
    ensures { (p : ℕ) → set.contains result p ≡ is_later_candidate turn pos.now p }
{
    let mut found = later_in_both_trees(pos, turn, liberties);
    if turn.tree.is_wider() {
        let wide = turn.wide > 0;
        found.join(&further_candidates(pos, wide, turn.attacker_to_play, turn.target, liberties));
    }
    found
}

/// The candidates at the turn.
pub fn candidates(pos: &Position, turn: Turn) -> PointSet
    requires { turn.target < pos.now.size * pos.now.size }
    ensures value { (p : ℕ) → set.contains result p ≡ is_candidate turn pos.now p }
    ensures on_board { (p : ℕ) → IsTrue (set.contains result p) → p < pos.now.size * pos.now.size }
{
    let Surroundings {
        liberties,
        last_liberties: mut found,
    } = surroundings(pos, turn.target);
    found.join(&liberties);
    found.join(&later_candidates(pos, turn, &liberties));
    found
}

/// Whether p is a candidate at the turn. The target's liberties are looked at first, since most moves are at one of
/// them.
pub fn is_candidate(pos: &Position, turn: Turn, p: Point) -> bool
    requires target { turn.target < pos.now.size * pos.now.size }
    requires small { p < largest_points }
    ensures { result ≡ is_candidate turn pos.now p }
{
    pos.liberty_points(turn.target).has(p) || candidates(pos, turn).has(p)
}
