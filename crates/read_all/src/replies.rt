//! How the other side refutes a play that does not attain a code.

ghost use Rattle.std.specs.Prelude.{◌≡◌, ◌≢◌, ◌+◌, ◌-◌, ◌*◌, ◌<◌, ◌≤◌, length};
ghost use Rattle.go_rules.specs.Position.{BoardState};
ghost use Rattle.go_rules.specs.Strings.{cell_at};
ghost use Rattle.go_base.specs.Facts.{Agrees, Grows};
ghost use Rattle.trial_board.specs.Trials.{KeepsTrial, most_moves};
ghost use Rattle.read_rules.specs.Answer.{asked_in};
ghost use Rattle.read_tree.specs.Table.{IsTrueTableAt};
ghost use Rattle.read_tree.specs.Walk.{IsPointOf, OnEachAgreeing};
ghost use Rattle.read_all.specs.Refutation.{first_reply, reply_unless, reply_to, refutation_of};

use crate::question::question_on;
use go_base::{Cell, Look, Point};
use read_proof::codes::first_node;
use read_rules::{Depths, Kind, Node, Spot};
use read_tree::memory::Memory;
use read_tree::nodes::{first_move, make_at, wins_at};
use read_tree::table::{Entry, empty_table};
use trial_board::Trial;

/// With this many plies or more, a table remembers the nodes of a call.
const PLIES_WITH_TABLE: u8 = 12;

/// The refutation of a play, and the view of the position, handed back after the reading.
#[derive(Drop)]
pub struct Refuted<L> {
    /// The other side's first reply that refutes the play; `None` if the play attains the code or cannot be made, or if
    /// no ply is left after it.
    pub reply: Option<Spot>,
    /// The view that was handed in; its facts now include everything that was looked at.
    pub look: L,
}

/// The first move that gives the side to play its way, with `plies` plies left at the node; `None` if no ply is left.
fn first_reply<L: Look>(
    board: &mut Trial<L>,
    node: Node,
    plies: u8,
    memory: &mut Memory,
) -> Option<Spot>
    requires room { length board.old.moves + plies ≤ most_moves }
    requires target { IsPointOf L.shows board.old node.turn.target }
    requires table { IsTrueTableAt (L.seen board.old.look) node.turn memory.old.table.now }
    ensures stays { KeepsTrial L.shows L.seen board.old board.new }
    ensures over { OnEachAgreeing L.seen board.old board.new (λ here. result ≡ first_reply plies node here) }
{
    if plies == 0 {
        return None;
    }
    first_move(board, node, plies - 1, memory)
}

/// The first reply at the node, if the side whose move led there does not have its way; else `None`. That side is the
/// attacker if `attacker`.
fn reply_unless<L: Look>(
    board: &mut Trial<L>,
    attacker: bool,
    node: Node,
    plies: u8,
    memory: &mut Memory,
) -> Option<Spot>
    requires room { length board.old.moves + plies ≤ most_moves }
    requires target { IsPointOf L.shows board.old node.turn.target }
    requires table { IsTrueTableAt (L.seen board.old.look) node.turn memory.old.table.now }
    ensures stays { KeepsTrial L.shows L.seen board.old board.new }
    ensures over { OnEachAgreeing L.seen board.old board.new (λ here. result ≡ reply_unless attacker plies node here) }
{
    if wins_at(board, node, plies, memory) == attacker {
        return None;
    }
    first_reply(board, node, plies, memory)
}

/// The refutation of the mover's play at `p`, with `plies` plies left after the play.
fn reply_to<L: Look>(
    board: &mut Trial<L>,
    node: Node,
    p: Point,
    plies: u8,
    memory: &mut Memory,
) -> Option<Spot>
    requires room { length board.old.moves + plies < most_moves }
    requires target { IsPointOf L.shows board.old node.turn.target }
    requires on_board { IsPointOf L.shows board.old p }
    requires table { IsTrueTableAt (L.seen board.old.look) node.turn memory.old.table.now }
    ensures stays { KeepsTrial L.shows L.seen board.old board.new }
    ensures over { OnEachAgreeing L.seen board.old board.new (λ here. result ≡ reply_to plies node here p) }
{
    match make_at(board, node, p) {
        Some(next) => {
            let reply = reply_unless(board, node.turn.attacker_to_play, next, plies, memory);
            board.back();
            reply
        }
        None => None,
    }
}

/// The refutation of the mover's play at `p`, read with a table that holds no node yet.
fn reply_by<L: Look>(
    board: &mut Trial<L>,
    node: Node,
    p: Point,
    plies: u8,
    table: &mut [Entry],
) -> Option<Spot>
    requires room { length board.old.moves + plies < most_moves }
    requires target { IsPointOf L.shows board.old node.turn.target }
    requires on_board { IsPointOf L.shows board.old p }
    requires table { IsTrueTableAt (L.seen board.old.look) node.turn table.old }
    ensures stays { KeepsTrial L.shows L.seen board.old board.new }
    ensures over { OnEachAgreeing L.seen board.old board.new (λ here. result ≡ reply_to plies node here p) }
{
    let mut memory = Memory {
        reply: node.turn.target,
        table,
    };
    reply_to(board, node, p, plies, &mut memory)
}

/// The refutation of the mover's play at `p`, read with a table. The table is made here: it is large, and a short
/// reading shall not pay for it.
#[inline(never)]
fn reply_with_table<L: Look>(board: &mut Trial<L>, node: Node, p: Point, plies: u8) -> Option<Spot>
    requires room { length board.old.moves + plies < most_moves }
    requires target { IsPointOf L.shows board.old node.turn.target }
    requires on_board { IsPointOf L.shows board.old p }
    ensures stays { KeepsTrial L.shows L.seen board.old board.new }
    ensures over { OnEachAgreeing L.seen board.old board.new (λ here. result ≡ reply_to plies node here p) }
{
    let mut table = empty_table();
    reply_by(board, node, p, plies, &mut table)
}

/// The refutation of the mover's play at `p`, read with a table if there are enough plies for one to pay.
fn reply_of<L: Look>(board: &mut Trial<L>, node: Node, p: Point, plies: u8) -> Option<Spot>
    requires room { length board.old.moves + plies < most_moves }
    requires target { IsPointOf L.shows board.old node.turn.target }
    requires on_board { IsPointOf L.shows board.old p }
    ensures stays { KeepsTrial L.shows L.seen board.old board.new }
    ensures over { OnEachAgreeing L.seen board.old board.new (λ here. result ≡ reply_to plies node here p) }
{
    if plies < PLIES_WITH_TABLE {
        return reply_by(board, node, p, plies, &mut []);
    }
    reply_with_table(board, node, p, plies)
}

/// How the other side refutes the play at `p` by the side that is asked about: the other side's first reply that gives
/// it its way, in an attack on the string at `target` or in its defence, under the ko allowances of `code`. The pass is
/// the reply to an attack that needs no answer. Takes no memory.
pub fn refutation<L: Look>(
    look: L,
    kind: Kind,
    target: Point,
    depths: Depths,
    code: u8,
    p: Point,
) -> Refuted<L>
    requires on_board { target < (L.shows look).size * (L.shows look).size }
    requires stone { cell_at (L.shows look).cells target ≢ Cell.Empty }
    requires point { p < (L.shows look).size * (L.shows look).size }
    ensures shown { L.shows result.look ≡ L.shows look }
    ensures grows { Grows (L.seen look) (L.seen result.look) }

    // On every position that agrees with the facts seen afterwards the reply is this one; the position shown is one of
    // those positions.
    ensures over { (pos : BoardState) → Agrees (L.seen result.look) pos
        → result.reply
        ≡ refutation_of (asked_in depths.tree (L.shows look) kind target depths.plies depths.wide) pos code p }
    ensures reply { result.reply
        ≡ refutation_of (asked_in depths.tree (L.shows look) kind target depths.plies depths.wide) (L.shows look)
        code p }
{
    let mut view = look;
    let question = question_on(&mut view, kind, target, depths);
    let node = first_node(&question, code);
    let mut board = Trial::new(view);
    let reply = reply_of(&mut board, node, p, depths.plies - 1);
    Refuted {
        reply,
        look: board.finish(),
    }
}
