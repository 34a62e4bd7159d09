//! Whether a defender's play at a liberty leaves the target more liberties than the attacker can take.

ghost use Rattle.std.specs.Prelude.{◌≡◌, ℕ, ◌*◌, ◌<◌, ◌&&◌, ◌||◌, true, IsTrue};
ghost use Rattle.std.specs.FinSet as set;
ghost use Rattle.go_rules.specs.Below.{any_below};
ghost use Rattle.go_rules.specs.Position.{BoardState};
ghost use Rattle.go_base.specs.Facts.{Agrees, AddsIn};
ghost use Rattle.go_base.specs.Views.{alone, neighbours_of};
ghost use Rattle.trial_board.specs.Trials.{KeepsTrial, after};
ghost use Rattle.read_tree.specs.Escapes.{IsLibertyAfter, RunsFree, Escapes};

use crate::apart::all_but;
use crate::bound::outlasts;
use crate::outlook::stone_of;
use go_base::points::PointSet;
use go_base::{Look, Point};
use read_moves::add_sides;
use read_rules::Turn;
use trial_board::Trial;

/// Liberties that the target has after the defender's play at its liberty `l`: the other known ones, and the empty
/// neighbours of `l`.
fn kept_at<L: Look>(board: &mut Trial<L>, l: Point, known: &PointSet) -> PointSet
    requires { l < (L.shows board.old.look).size * (L.shows board.old.look).size }
    ensures stays { KeepsTrial L.shows L.seen board.old board.new }
    ensures over { (pos : BoardState) → Agrees (L.seen board.new.look) pos → (x : ℕ)
        → IsTrue (set.contains result x) → IsLibertyAfter pos.size (after pos board.old.moves).cells known.now l x }
    ensures near { (pos : BoardState) → Agrees (L.seen board.new.look) pos
        → AddsIn (L.seen board.old.look) (L.seen board.new.look) (neighbours_of pos.size l) }
{
    let _ = board.size().points();
    let mut kept = all_but(known, l);
    add_sides(board, l, &mut kept);
    kept
}

/// Whether no ban forbids the defender to play at the target's liberty `l`, and his play there leaves the target too
/// many liberties, with `plies` plies left after it.
fn runs_free<L: Look>(
    board: &mut Trial<L>,
    turn: Turn,
    plies: u8,
    l: Point,
    known: &PointSet,
) -> bool
    requires { l < (L.shows board.old.look).size * (L.shows board.old.look).size }
    ensures stays { KeepsTrial L.shows L.seen board.old board.new }
    ensures over { (pos : BoardState) → Agrees (L.seen board.new.look) pos → result ≡ true
        → RunsFree plies turn (after pos board.old.moves) known.now l }
    ensures near { (pos : BoardState) → Agrees (L.seen board.new.look) pos
        → AddsIn (L.seen board.old.look) (L.seen board.new.look) (λ r. alone l r || neighbours_of pos.size l r) }
{
    if board.bans(turn.defender, l) {
        return false;
    }
    let kept = kept_at(board, l, known);
    outlasts(
        turn.tree,
        true,
        plies,
        turn.wide.saturating_sub(1),
        kept.count(),
    )
}

/// Whether the target is the defender's and has a liberty where his play leaves it too many liberties, with `plies`
/// plies left after it. It is his turn.
pub fn escapes<L: Look>(board: &mut Trial<L>, turn: Turn, plies: u8, known: &PointSet) -> bool
    requires target { turn.target < (L.shows board.old.look).size * (L.shows board.old.look).size }
    requires inside { (p : ℕ) → IsTrue (set.contains known.now p)
        → p < (L.shows board.old.look).size * (L.shows board.old.look).size }
    ensures stays { KeepsTrial L.shows L.seen board.old board.new }
    ensures over { (pos : BoardState) → Agrees (L.seen board.new.look) pos → result ≡ true
        → Escapes plies turn (after pos board.old.moves) known.now }
    ensures near { (pos : BoardState) → Agrees (L.seen board.new.look) pos
        → AddsIn (L.seen board.old.look) (L.seen board.new.look) (λ r. alone turn.target r
        || any_below (pos.size * pos.size)
        (λ l. set.contains known.now l && (alone l r || neighbours_of pos.size l r))) }
{
    if board.cell(turn.target) != stone_of(turn.defender) {
        return false;
    }
    let mut next = 0;
    while let Some(l) = known.first_from(next) {
        if runs_free(board, turn, plies, l, known) {
            return true;
        }
        next = l + 1;
    }
    false
}
