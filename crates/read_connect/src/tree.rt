//! The walk over the tree of a connection. The plays of a node are tried one after another, and each is read to its end
//! before the next.

ghost use Rattle.std.specs.Prelude.{◌≡◌, ◌+◌, ◌≤◌, ℕ, suc, true, false, not, IsTrue, length};
ghost use Rattle.std.specs.FinSet as set;
ghost use Rattle.go_rules.specs.Position.{BoardState};
ghost use Rattle.go_base.specs.Facts.{AddsIn};
ghost use Rattle.trial_board.specs.Trials.{KeepsTrial, most_moves, after};
ghost use Rattle.connect_rules.specs.ConnectingMoves.{is_connecting_move};
ghost use Rattle.connect_rules.specs.Connection.{both_stand, can_connect, has_way, pass_parts};
ghost use Rattle.read_connect.specs.Stages.{is_end, attains, TellsSome};
ghost use Rattle.read_connect.specs.Walk.{IsPointOf, AreOnBoard, AreLiberties, IsReady, OnEachAgreeing};
ghost use Rattle.read_connect.specs.Walk.{LooksNear, LooksNearWhere, LooksNearFrom};

use crate::moves::{captures_of, crossing};
use connect_rules::Link;
use go_base::flood::Found;
use go_base::points::PointSet;
use go_base::{Cell, Colour, Look, Point};
use trial_board::{Trial, Tried};

/// Whether both strings stand: both points of `link` hold stones of its colour.
fn both_stand<L: Look>(board: &mut Trial<L>, link: Link) -> bool
    requires { AreOnBoard L.shows board.old link }
    ensures stays { KeepsTrial L.shows L.seen board.old board.new }
    ensures over { OnEachAgreeing L.seen board.old board.new (λ here. result ≡ both_stand link here) }
    ensures near { AddsIn (L.seen board.old.look) (L.seen board.new.look) (is_end link) }
{
    let stone = link.colour.cell();
    if board.cell(link.a) != stone {
        return false;
    }
    board.cell(link.b) == stone
}

/// Whether the side that moved has its way: if `own`, the strings are joined, else they are not.
fn has_way(own: bool, joined: bool) -> bool
    ensures { result ≡ has_way own joined }
{
    if own { joined } else { !joined }
}

/// Whether the strings can be joined with `plies` plies left. The strings' own colour is to play if `own`, else the
/// other.
#[cycle(read)]
pub fn can_connect<L: Look>(board: &mut Trial<L>, link: Link, own: bool, plies: u8) -> bool
    requires room { length board.old.moves + plies ≤ most_moves }
    requires on_board { AreOnBoard L.shows board.old link }
    ensures stays { KeepsTrial L.shows L.seen board.old board.new }
    ensures over { OnEachAgreeing L.seen board.old board.new (λ here. result ≡ can_connect plies link own here) }
    ensures near { LooksNearFrom L.seen board.old board.new plies link own }
{
    if !both_stand(board, link) {
        return false;
    }
    let Found {
        stones,
        liberties,
        enemies: _,
    } = board.string(link.a);
    if stones.has(link.b) {
        return true;
    }
    if plies == 0 {
        return false;
    }
    let of_b = board.liberties(link.b);
    goes_on(board, link, own, plies - 1, &liberties, &of_b)
}

/// Whether two strings that stand and are not one can be joined, with `plies` plies left after the next move. `of_a`
/// and `of_b` are their liberties.
#[cycle(read)]
fn goes_on<L: Look>(
    board: &mut Trial<L>,
    link: Link,
    own: bool,
    plies: u8,
    of_a: &PointSet,
    of_b: &PointSet,
) -> bool
    requires ready { IsReady L.shows L.seen board.old link plies }
    requires liberties { AreLiberties L.seen board.old link of_a.now of_b.now }
    ensures stays { KeepsTrial L.shows L.seen board.old board.new }
    ensures over { OnEachAgreeing L.seen board.old board.new (λ here. result ≡ can_connect (suc plies) link own here) }
    ensures near { LooksNear L.seen board.old board.new (suc plies) link own }
{
    if own {
        return some_move(board, link, own, plies, of_a, of_b);
    }
    if pass_parts(board, link, plies) {
        return false;
    }
    !some_move(board, link, own, plies, of_a, of_b)
}

/// Whether the strings cannot be joined after the other colour's pass, with `plies` plies left after it.
#[cycle(read)]
pub fn pass_parts<L: Look>(board: &mut Trial<L>, link: Link, plies: u8) -> bool
    requires { IsReady L.shows L.seen board.old link plies }
    ensures stays { KeepsTrial L.shows L.seen board.old board.new }
    ensures over { OnEachAgreeing L.seen board.old board.new (λ here. result ≡ pass_parts plies link here) }
    ensures near { LooksNear L.seen board.old board.new (suc plies) link false }
{
    board.pass();
    let joined = can_connect(board, link, true, plies);
    board.back();
    !joined
}

/// Whether some connecting move gives the side to play its way, with `plies` plies left after it. The liberties that
/// both strings share are tried first, and the captures are searched for only if no other move serves.
#[cycle(read)]
fn some_move<L: Look>(
    board: &mut Trial<L>,
    link: Link,
    own: bool,
    plies: u8,
    of_a: &PointSet,
    of_b: &PointSet,
) -> bool
    requires ready { IsReady L.shows L.seen board.old link plies }
    requires liberties { AreLiberties L.seen board.old link of_a.now of_b.now }
    ensures stays { KeepsTrial L.shows L.seen board.old board.new }
    ensures over { OnEachAgreeing L.seen board.old board.new (λ here.
        TellsSome (is_connecting_move link here) (attains plies link own here) result) }
    ensures near { LooksNear L.seen board.old board.new (suc plies) link own }
{
    let mut tried = of_a.intersection(of_b);
    if some_of(board, link, own, plies, &tried) {
        return true;
    }
    let crossing = crossing(board.size(), of_a, of_b);
    if some_of(board, link, own, plies, &crossing) {
        return true;
    }
    tried.join(&crossing);
    let captures = captures_of(board, link).difference(&tried);
    some_of(board, link, own, plies, &captures)
}

/// Whether a play at some point of `points` gives the side to play its way, with `plies` plies left after it.
#[cycle(read)]
fn some_of<L: Look>(
    board: &mut Trial<L>,
    link: Link,
    own: bool,
    plies: u8,
    points: &PointSet,
) -> bool
    requires ready { IsReady L.shows L.seen board.old link plies }
    requires on_board { (p : ℕ) → IsTrue (set.contains points.now p) → IsPointOf L.shows board.old p }
    ensures stays { KeepsTrial L.shows L.seen board.old board.new }
    ensures over { OnEachAgreeing L.seen board.old board.new (λ here.
        TellsSome (set.contains points.now) (attains plies link own here) result) }
    ensures near { LooksNearWhere L.seen board.old board.new (suc plies) link own (λ here.
        (p : ℕ) → IsTrue (set.contains points.now p) → IsTrue (is_connecting_move link here p)) }
{
    let mut next = 0;
    while let Some(p) = points.first_from(next) {
        if attains(board, link, own, plies, p) {
            return true;
        }
        next = p + 1;
    }
    false
}

/// Whether the play at `p` is legal and gives the side to play its way, with `plies` plies left after it.
#[cycle(read)]
pub fn attains<L: Look>(board: &mut Trial<L>, link: Link, own: bool, plies: u8, p: Point) -> bool
    requires ready { IsReady L.shows L.seen board.old link plies }
    requires on_board { IsPointOf L.shows board.old p }
    ensures stays { KeepsTrial L.shows L.seen board.old board.new }
    ensures over { OnEachAgreeing L.seen board.old board.new (λ here. result ≡ attains plies link own here p) }
    ensures near { LooksNearWhere L.seen board.old board.new (suc plies) link own (λ here.
        IsTrue (is_connecting_move link here p)) }
{
    match board.play(link.mover(own), p, false) {
        Tried::Done => {
            let joined = can_connect(board, link, !own, plies);
            board.back();
            has_way(own, joined)
        }
        _ => false,
    }
}
