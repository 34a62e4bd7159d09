//! Whether a string is surely captured at a node, and which move is the first that succeeds there, on a board with
//! trial moves.

ghost use Rattle.std.specs.Prelude.{◌≡◌, ◌+◌, ◌<◌, ◌≤◌, true, IfSome, length, is_some};
ghost use Rattle.go_rules.specs.Position.{BoardState, IsPosition};
ghost use Rattle.go_base.specs.Facts.{Agrees};
ghost use Rattle.trial_board.specs.Trials.{KeepsTrial, most_moves, after};
ghost use Rattle.read_rules.specs.GoodMoves.{IsOnBoard};
ghost use Rattle.read_tree.specs.Walk.{IsPointOf, OnEachAgreeing};
ghost use Rattle.sure_rules.specs.Nodes.{is_gone};
ghost use Rattle.sure_rules.specs.SureTree.{surely_wins};
ghost use Rattle.sure_rules.specs.SureAnswer.{surely_succeeds, pass_holds, first_sure, first_sure_move, sure_move};

use crate::points::tried_points;
use crate::taking_back::has_lost_one_stone;
use go_base::{Cell, Look, Point};
use read_rules::{Node, Spot};
use read_tree::nodes::{is_barred, make_at};
use read_tree::taking_back::may_take_back_at;
use trial_board::Trial;

/// Whether the mover's play at `p` can be made, and with `plies` plies left after it the target is surely captured if
/// the attacker played, and is not surely captured if the defender did.
#[cycle(sure)]
fn succeeds<L: Look>(board: &mut Trial<L>, node: Node, p: Point, plies: u8) -> bool
    requires room { length board.old.moves + plies < most_moves }
    requires target { IsPointOf L.shows board.old node.turn.target }
    requires on_board { IsPointOf L.shows board.old p }
    ensures stays { KeepsTrial L.shows L.seen board.old board.new }
    ensures over { OnEachAgreeing L.seen board.old board.new (λ here. result ≡ surely_succeeds plies node here p) }
{
    match make_at(board, node, p) {
        Some(next) => {
            let won = surely_wins(board, next, plies);
            board.back();
            won == node.turn.attacker_to_play
        }
        None => false,
    }
}

/// Whether it is the defender's turn, and with `plies` plies left after his pass the target is not surely captured.
#[cycle(sure)]
fn pass_holds<L: Look>(board: &mut Trial<L>, node: Node, plies: u8) -> bool
    requires room { length board.old.moves + plies < most_moves }
    requires target { IsPointOf L.shows board.old node.turn.target }
    ensures stays { KeepsTrial L.shows L.seen board.old board.new }
    ensures over { OnEachAgreeing L.seen board.old board.new (λ here. result ≡ pass_holds plies node here) }
{
    if node.turn.attacker_to_play {
        return false;
    }
    board.pass();
    let won = surely_wins(board, node.next(node.allowance()), plies);
    board.back();
    !won
}

/// The first point in reading order that is tried and succeeds with `plies` plies left after it.
#[cycle(sure)]
fn first_sure<L: Look>(board: &mut Trial<L>, node: Node, plies: u8) -> Option<Point>
    requires room { length board.old.moves + plies < most_moves }
    requires target { IsPointOf L.shows board.old node.turn.target }
    ensures stays { KeepsTrial L.shows L.seen board.old board.new }
    ensures over { OnEachAgreeing L.seen board.old board.new (λ here. result ≡ first_sure plies node here) }
    ensures on_board { IfSome result (IsPointOf L.shows board.old) }
{
    let tried = tried_points(board, node);
    let mut from = 0;
    'plays: while let Some(p) = tried.first_from(from) {
        if succeeds(board, node, p, plies) {
            return Some(p);
        }
        from = p + 1;
    }
    None
}

/// The first move that succeeds with `plies` plies left after it: the defender's pass before all points, and then the
/// points in reading order.
#[cycle(sure)]
fn first_sure_move<L: Look>(board: &mut Trial<L>, node: Node, plies: u8) -> Option<Spot>
    requires room { length board.old.moves + plies < most_moves }
    requires target { IsPointOf L.shows board.old node.turn.target }
    ensures stays { KeepsTrial L.shows L.seen board.old board.new }
    ensures over { OnEachAgreeing L.seen board.old board.new (λ here. result ≡ first_sure_move plies node here) }
    ensures on_board { IfSome result (IsOnBoard (L.shows board.old.look).size) }
{
    if pass_holds(board, node, plies) {
        return Some(Spot::Pass);
    }
    match first_sure(board, node, plies) {
        Some(p) => Some(Spot::At(p)),
        None => None,
    }
}

/// The first move that succeeds with `plies` plies left after it; none if the attacker is to play and the target has
/// too many liberties for him.
#[cycle(sure)]
pub fn sure_move<L: Look>(board: &mut Trial<L>, node: Node, plies: u8) -> Option<Spot>
    requires room { length board.old.moves + plies < most_moves }
    requires target { IsPointOf L.shows board.old node.turn.target }
    ensures stays { KeepsTrial L.shows L.seen board.old board.new }
    ensures over { OnEachAgreeing L.seen board.old board.new (λ here. result ≡ sure_move plies node here) }
    ensures on_board { IfSome result (IsOnBoard (L.shows board.old.look).size) }
{
    if is_barred(board, node) {
        return None;
    }
    first_sure_move(board, node, plies)
}

/// Whether the target, whose point is empty, is surely captured, with `plies` plies left. It is, if the defender has
/// not just lost a lone stone, or if he cannot take back. Else it is if a ply is left for taking back and the target is
/// surely captured afterwards.
#[cycle(sure)]
fn taken<L: Look>(board: &mut Trial<L>, node: Node, plies: u8) -> bool
    requires room { length board.old.moves + plies ≤ most_moves }
    requires target { IsPointOf L.shows board.old node.turn.target }
    requires gone { (pos : BoardState) → Agrees (L.seen board.old.look) pos
        → is_gone node (after pos board.old.moves) ≡ true }
    requires sound { (pos : BoardState) → Agrees (L.seen board.old.look) pos → IsPosition (after pos board.old.moves) }
    ensures stays { KeepsTrial L.shows L.seen board.old board.new }
    ensures over { OnEachAgreeing L.seen board.old board.new (λ here. result ≡ surely_wins plies node here) }
{
    if !has_lost_one_stone(board, node) {
        return true;
    }
    if plies == 0 {
        return !may_take_back_at(board, node);
    }
    !succeeds(board, node, node.turn.target, plies - 1)
}

/// Whether the target is surely captured at the node, with `plies` plies left.
#[cycle(sure)]
fn surely_wins<L: Look>(board: &mut Trial<L>, node: Node, plies: u8) -> bool
    requires room { length board.old.moves + plies ≤ most_moves }
    requires target { IsPointOf L.shows board.old node.turn.target }
    ensures stays { KeepsTrial L.shows L.seen board.old board.new }
    ensures over { OnEachAgreeing L.seen board.old board.new (λ here. result ≡ surely_wins plies node here) }
{
    if board.cell(node.turn.target) == Cell::Empty {
        return taken(board, node, plies);
    }
    if plies == 0 {
        return false;
    }
    sure_move(board, node, plies - 1).is_some() == node.turn.attacker_to_play
}
