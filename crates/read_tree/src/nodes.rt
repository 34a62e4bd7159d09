//! Who wins at a node of the game tree, and which move is the first that gives the side to play its way, on a board
//! with trial moves.

ghost use Rattle.std.specs.Prelude.{◌≡◌, ◌+◌, ◌<◌, ◌≤◌, ◌&&◌, ◌||◌, ◌==◌, nat_lt, true, None, Some, IfSome};
ghost use Rattle.std.specs.Prelude.{MatchOption, length, is_some};
ghost use Rattle.go_rules.specs.Position.{BoardState, IsPosition};
ghost use Rattle.go_base.specs.Facts.{Agrees, Grows};
ghost use Rattle.trial_board.specs.Trials.{KeepsTrial, most_moves, after, tail};
ghost use Rattle.read_rules.specs.GameTree.{child_of, attacker_wins, pass_saves, succeeds, first_success, first_move};
ghost use Rattle.read_rules.specs.GameTree.{is_captured};
ghost use Rattle.read_rules.specs.GoodMoves.{good_move, is_barred, IsOnBoard};
ghost use Rattle.read_tree.specs.Nodes.{has_one_at_most, the_allowance, LeadsTo, SameReading, game_node};
ghost use Rattle.read_tree.specs.Table.{IsTrueTable, IsTrueTableAt};
ghost use Rattle.read_tree.specs.Walk.{IsPointOf, OnEachAgreeing};

use crate::allowances::Allowances;
use crate::memory::Memory;
use crate::table::{Entry, empty_table};
use crate::taking_back::{is_walled_in, may_take_back_at};
use crate::tree;
use go_base::{Cell, Colour, Look, Point};
use read_moves::candidates;
use read_rules::{Node, Spot, Tree, Turn};
use trial_board::{Trial, Tried};

/// A node with at least this many plies left is read with a table.
const PLIES_WITH_TABLE: u8 = 12;

/// A node of the game tree over a position with trial moves, and what is left to spend there.
#[derive(Clone, Copy, Debug, PartialEq, Eq)]
pub struct NodeAt {
    /// Which tree is read.
    pub tree: Tree,
    /// The point whose string is read.
    pub target: Point,
    /// The colour of the target's stone; the attacker is the other colour.
    pub defender: Colour,
    /// Whether it is the attacker's turn; else it is the defender's.
    pub attacker_turn: bool,
    /// How many plies are left.
    pub n: u8,
    /// How many wide plies are left.
    pub k: u8,
    /// How often the attacker may still ignore the ko ban.
    pub a: u8,
    /// How often the defender may still ignore the ko ban.
    pub d: u8,
}

/// Whether at most one side may still ignore the ban, and only once.
fn has_one_at_most(node: Node) -> bool
    ensures { result ≡ has_one_at_most node }
{
    u16::from(node.attacker_ko) + u16::from(node.defender_ko) < 2
}

/// The allowance of a node at which at most one side may still ignore the ban, and only once.
fn the_allowance(node: Node) -> Allowances
    ensures { result ≡ the_allowance node }
{
    Allowances {
        defender: node.defender_ko > 0,
        neither: node.attacker_ko == 0 && node.defender_ko == 0,
        attacker: node.attacker_ko > 0,
    }
}

/// Whether the attacker wins at the node, by the reader, with `plies` plies left. At most one side may still ignore the
/// ban, and only once.
fn wins_by_reader<L: Look>(board: &mut Trial<L>, node: Node, plies: u8, memory: &mut Memory) -> bool
    requires room { length board.old.moves + plies ≤ most_moves }
    requires target { IsPointOf L.shows board.old node.turn.target }
    requires one { has_one_at_most node ≡ true }
    requires table { IsTrueTableAt (L.seen board.old.look) node.turn memory.old.table.now }
    ensures stays { KeepsTrial L.shows L.seen board.old board.new }
    ensures table { IsTrueTableAt (L.seen board.new.look) node.turn memory.new.table.now }
    ensures over { OnEachAgreeing L.seen board.old board.new (λ here. result ≡ attacker_wins plies node here) }
{
    tree::attacker_wins(board, node.turn, plies, the_allowance(node), None, memory).has_some()
}

/// Makes the mover's play at `p` if it can be played, and returns the node to which it leads.
pub fn make_at<L: Look>(board: &mut Trial<L>, node: Node, p: Point) -> Option<Node>
    requires room { length board.old.moves < most_moves }
    requires on_board { IsPointOf L.shows board.old p }
    ensures shown { L.shows board.new.look ≡ L.shows board.old.look }
    ensures grows { Grows (L.seen board.old.look) (L.seen board.new.look) }
    ensures moves { MatchOption result (board.new.moves ≡ board.old.moves)
        (λ next. tail board.new.moves ≡ board.old.moves) }
    ensures few { length board.new.moves ≤ length board.old.moves + 1 }
    ensures same { IfSome result (SameReading node) }
    ensures over { (pos : BoardState) → Agrees (L.seen board.new.look) pos
        → LeadsTo node (after pos board.old.moves) p result (after pos board.new.moves) }
{
    match board.play(node.mover(), p, false) {
        Tried::Done => Some(node.next(node.allowance())),
        Tried::Banned => {
            let left = node.allowance();
            if left == 0 {
                return None;
            }
            match board.play(node.mover(), p, true) {
                Tried::Done => Some(node.next(left - 1)),
                _ => None,
            }
        }
        Tried::Occupied | Tried::Suicide => None,
    }
}

/// Whether it is the attacker's turn, and the target has more liberties than he may play at.
pub fn is_barred<L: Look>(board: &mut Trial<L>, node: Node) -> bool
    requires target { IsPointOf L.shows board.old node.turn.target }
    ensures stays { KeepsTrial L.shows L.seen board.old board.new }
    ensures over { OnEachAgreeing L.seen board.old board.new (λ here. result ≡ is_barred node here) }
{
    if !node.turn.attacker_to_play {
        return false;
    }
    node.turn
        .has_many(board.liberties(node.turn.target).count())
}

/// Whether the mover's play at `p` can be made and gives him his way, with `plies` plies left after it.
#[cycle(wins)]
fn succeeds<L: Look>(
    board: &mut Trial<L>,
    node: Node,
    p: Point,
    plies: u8,
    memory: &mut Memory,
) -> bool
    requires room { length board.old.moves + plies < most_moves }
    requires target { IsPointOf L.shows board.old node.turn.target }
    requires on_board { IsPointOf L.shows board.old p }
    requires table { IsTrueTableAt (L.seen board.old.look) node.turn memory.old.table.now }
    ensures stays { KeepsTrial L.shows L.seen board.old board.new }
    ensures table { IsTrueTableAt (L.seen board.new.look) node.turn memory.new.table.now }
    ensures over { OnEachAgreeing L.seen board.old board.new (λ here. result ≡ succeeds plies node here p) }
{
    match make_at(board, node, p) {
        Some(next) => {
            let won = wins_at(board, next, plies, memory);
            board.back();
            won == node.turn.attacker_to_play
        }
        None => false,
    }
}

/// Whether the defender's pass saves the target, with `plies` plies left after it.
#[cycle(wins)]
fn pass_saves<L: Look>(board: &mut Trial<L>, node: Node, plies: u8, memory: &mut Memory) -> bool
    requires room { length board.old.moves + plies < most_moves }
    requires target { IsPointOf L.shows board.old node.turn.target }
    requires table { IsTrueTableAt (L.seen board.old.look) node.turn memory.old.table.now }
    ensures stays { KeepsTrial L.shows L.seen board.old board.new }
    ensures table { IsTrueTableAt (L.seen board.new.look) node.turn memory.new.table.now }
    ensures over { OnEachAgreeing L.seen board.old board.new (λ here. result ≡ pass_saves plies node here) }
{
    if node.turn.attacker_to_play {
        return false;
    }
    board.pass();
    let won = wins_at(board, node.next(node.allowance()), plies, memory);
    board.back();
    !won
}

/// The first candidate in reading order that succeeds, with `plies` plies left after it.
#[cycle(wins)]
fn first_success<L: Look>(
    board: &mut Trial<L>,
    node: Node,
    plies: u8,
    memory: &mut Memory,
) -> Option<Point>
    requires room { length board.old.moves + plies < most_moves }
    requires target { IsPointOf L.shows board.old node.turn.target }
    requires table { IsTrueTableAt (L.seen board.old.look) node.turn memory.old.table.now }
    ensures stays { KeepsTrial L.shows L.seen board.old board.new }
    ensures table { IsTrueTableAt (L.seen board.new.look) node.turn memory.new.table.now }
    ensures over { OnEachAgreeing L.seen board.old board.new (λ here. result ≡ first_success plies node here) }
    ensures on_board { IfSome result (IsPointOf L.shows board.old) }
{
    let candidates = candidates(board, node.turn);
    let mut from = 0;
    'plays: while let Some(p) = candidates.first_from(from) {
        if succeeds(board, node, p, plies, memory) {
            return Some(p);
        }
        from = p + 1;
    }
    None
}

/// The first move that gives the side to play its way with `plies` plies left after it: the defender's pass before all
/// points, and then the candidates in reading order. At the attacker's turn this does not ask whether the target has
/// more liberties than he may play at. The table remembers attacker's nodes over the position that the view shows.
#[cycle(wins)]
pub fn first_move<L: Look>(
    board: &mut Trial<L>,
    node: Node,
    plies: u8,
    memory: &mut Memory,
) -> Option<Spot>
    requires room { length board.old.moves + plies < most_moves }
    requires target { IsPointOf L.shows board.old node.turn.target }
    requires table { IsTrueTableAt (L.seen board.old.look) node.turn memory.old.table.now }
    ensures stays { KeepsTrial L.shows L.seen board.old board.new }
    ensures table { IsTrueTableAt (L.seen board.new.look) node.turn memory.new.table.now }
    ensures over { OnEachAgreeing L.seen board.old board.new (λ here. result ≡ first_move plies node here) }
    ensures on_board { IfSome result (IsOnBoard (L.shows board.old.look).size) }
{
    if pass_saves(board, node, plies, memory) {
        return Some(Spot::Pass);
    }
    match first_success(board, node, plies, memory) {
        Some(p) => Some(Spot::At(p)),
        None => None,
    }
}

/// Whether the side to play has a move that gives it its way, with `plies` plies left after it.
#[cycle(wins)]
fn has_good_move<L: Look>(board: &mut Trial<L>, node: Node, plies: u8, memory: &mut Memory) -> bool
    requires room { length board.old.moves + plies < most_moves }
    requires target { IsPointOf L.shows board.old node.turn.target }
    requires table { IsTrueTableAt (L.seen board.old.look) node.turn memory.old.table.now }
    ensures stays { KeepsTrial L.shows L.seen board.old board.new }
    ensures table { IsTrueTableAt (L.seen board.new.look) node.turn memory.new.table.now }
    ensures over { OnEachAgreeing L.seen board.old board.new (λ here. result ≡ is_some (good_move plies node here)) }
{
    if is_barred(board, node) {
        return false;
    }
    first_move(board, node, plies, memory).is_some()
}

/// Whether the target, whose point is empty, is captured, with `plies` plies left. It is, if no lone stone of the
/// defender was taken in the wider tree, or if he cannot take back. Else it is if a ply is left for taking back and the
/// attacker wins afterwards.
#[cycle(wins)]
fn taken_at<L: Look>(board: &mut Trial<L>, node: Node, plies: u8, memory: &mut Memory) -> bool
    requires room { length board.old.moves + plies ≤ most_moves }
    requires target { IsPointOf L.shows board.old node.turn.target }
    requires captured { (pos : BoardState) → Agrees (L.seen board.old.look) pos
        → is_captured (after pos board.old.moves) node.turn.target ≡ true }
    requires sound { (pos : BoardState) → Agrees (L.seen board.old.look) pos → IsPosition (after pos board.old.moves) }
    requires table { IsTrueTableAt (L.seen board.old.look) node.turn memory.old.table.now }
    ensures stays { KeepsTrial L.shows L.seen board.old board.new }
    ensures table { IsTrueTableAt (L.seen board.new.look) node.turn memory.new.table.now }
    ensures over { OnEachAgreeing L.seen board.old board.new (λ here. result ≡ attacker_wins plies node here) }
{
    if !node.turn.tree.is_wider() {
        return true;
    }
    if node.turn.attacker_to_play {
        return true;
    }
    if !is_walled_in(board, node.turn.target, node.turn.defender) {
        return true;
    }
    if plies == 0 {
        return !may_take_back_at(board, node);
    }
    !succeeds(board, node, node.turn.target, plies - 1, memory)
}

/// Whether the attacker wins at the node, with `plies` plies left. The reader reads the node if at most one side may
/// still ignore the ban, and only once; else each move is tried, until that is so.
#[cycle(wins)]
pub fn wins_at<L: Look>(board: &mut Trial<L>, node: Node, plies: u8, memory: &mut Memory) -> bool
    requires room { length board.old.moves + plies ≤ most_moves }
    requires target { IsPointOf L.shows board.old node.turn.target }
    requires table { IsTrueTableAt (L.seen board.old.look) node.turn memory.old.table.now }
    ensures stays { KeepsTrial L.shows L.seen board.old board.new }
    ensures table { IsTrueTableAt (L.seen board.new.look) node.turn memory.new.table.now }
    ensures over { OnEachAgreeing L.seen board.old board.new (λ here. result ≡ attacker_wins plies node here) }
{
    if has_one_at_most(node) {
        return wins_by_reader(board, node, plies, memory);
    }
    if board.cell(node.turn.target) == Cell::Empty {
        return taken_at(board, node, plies, memory);
    }
    if plies == 0 {
        return false;
    }
    has_good_move(board, node, plies - 1, memory) == node.turn.attacker_to_play
}

/// The node of the game tree that `node` describes.
fn game_node(node: NodeAt) -> Node
    ensures { result ≡ game_node node }
{
    let turn = Turn {
        tree: node.tree,
        target: node.target,
        defender: node.defender,
        attacker_to_play: node.attacker_turn,
        wide: node.k,
    };
    Node {
        turn,
        attacker_ko: node.a,
        defender_ko: node.d,
    }
}

/// Whether the attacker wins at the node, with `table` to remember nodes in.
fn wins_with<L: Look>(board: &mut Trial<L>, node: NodeAt, table: &mut [Entry]) -> bool
    requires room { length board.old.moves + node.n ≤ most_moves }
    requires target { IsPointOf L.shows board.old node.target }
    requires table { IsTrueTable (L.seen board.old.look) node.tree node.target node.defender table.old }
    ensures stays { KeepsTrial L.shows L.seen board.old board.new }
    ensures over { OnEachAgreeing L.seen board.old board.new (λ here.
        result ≡ attacker_wins node.n (game_node node) here) }
{
    let mut memory = Memory {
        reply: node.target,
        table,
    };
    wins_at(board, game_node(node), node.n, &mut memory)
}

/// Whether the attacker wins at the node, read with a table. The table is made here: it is large, and a short reading
/// should not pay for it.
#[inline(never)]
fn wins_with_table<L: Look>(board: &mut Trial<L>, node: NodeAt) -> bool
    requires room { length board.old.moves + node.n ≤ most_moves }
    requires target { IsPointOf L.shows board.old node.target }
    ensures stays { KeepsTrial L.shows L.seen board.old board.new }
    ensures over { OnEachAgreeing L.seen board.old board.new (λ here.
        result ≡ attacker_wins node.n (game_node node) here) }
{
    let mut table = empty_table();
    wins_with(board, node, &mut table)
}

/// Whether the attacker wins at a node of the game tree over the position after the trial moves, with `n` plies left:
/// the string at the target's point is captured, or it is taken already and taking back does not save it. The trial
/// moves stay as they are. Takes no memory.
pub fn wins<L: Look>(board: &mut Trial<L>, node: NodeAt) -> bool
    requires room { length board.old.moves + node.n ≤ most_moves }
    requires target { IsPointOf L.shows board.old node.target }
    ensures stays { KeepsTrial L.shows L.seen board.old board.new }

    // On every position that agrees with the facts seen afterwards the answer is this one; the position shown is one of
    // them.
    ensures over { OnEachAgreeing L.seen board.old board.new (λ here.
        result ≡ attacker_wins node.n (game_node node) here) }
    ensures answer { result
        ≡ attacker_wins node.n (game_node node) (after (L.shows board.old.look) board.old.moves) }
{
    if node.n < PLIES_WITH_TABLE {
        return wins_with(board, node, &mut []);
    }
    wins_with_table(board, node)
}
