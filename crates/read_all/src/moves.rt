//! All moves of a question that attain its code.

ghost use Rattle.std.specs.Prelude.{◌≡◌, ◌≢◌, ℕ, ◌+◌, ◌-◌, ◌*◌, ◌<◌, ◌≤◌, ◌&&◌, ◌↔◌, true, length};
ghost use Rattle.std.specs.Prelude.{IsTrue, Some, nat_lt};
ghost use Rattle.std.specs.FinSet as set;
ghost use Rattle.go_rules.specs.Position.{BoardState, stone_of};
ghost use Rattle.go_rules.specs.Strings.{cell_at};
ghost use Rattle.go_base.specs.Facts.{Agrees, Grows};
ghost use Rattle.trial_board.specs.Trials.{KeepsTrial, most_moves};
ghost use Rattle.read_rules.specs.Ranges.{most_plies};
ghost use Rattle.read_rules.specs.Answer.{asked_in};
ghost use Rattle.read_rules.specs.GameTree.{succeeds};
ghost use Rattle.read_tree.specs.Table.{IsTrueTableAt};
ghost use Rattle.read_tree.specs.Walk.{IsPointOf, OnEachAgreeing};
ghost use Rattle.read_all.specs.AllMoves.{is_among, AreMovesAmong, AreAllMoves, AreMovesAnywhere, HasMove};

use crate::question::question_on;
use go_base::{Cell, Look, Point, PointSet, Size};
use read_moves::candidates;
use read_proof::codes::first_node;
use read_rules::{Depths, Kind, Node, ReadingQuestion, Spot};
use read_tree::memory::Memory;
use read_tree::nodes::{make_at, wins_at};
use read_tree::table::{Entry, empty_table};
use read_tree::{Report, read};
use trial_board::Trial;

/// With this many plies or more, a table remembers the nodes of a call.
const PLIES_WITH_TABLE: u8 = 12;

/// Which points are tried.
#[derive(Clone, Copy, Debug, PartialEq, Eq)]
pub enum Among {
    /// The candidates of the question.
    Candidates,
    /// All points of the board.
    EveryPoint,
}

/// The code of a question, and all moves that attain it. There are no moves exactly if the code is 0.
#[derive(Drop)]
pub struct AllMoves<L> {
    /// The code: 3, 2, 1 or 0.
    pub code: u8,
    /// Whether the defender's pass attains the code.
    pub pass: bool,
    /// The points at which a play attains the code.
    pub points: PointSet,
    /// The view that was handed in; its facts now include everything that was looked at.
    pub look: L,
}

/// Whether the play at `p` can be made and gives its mover his way, with `plies` plies left after it.
fn is_success<L: Look>(
    board: &mut Trial<L>,
    node: Node,
    p: Point,
    plies: u8,
    memory: &mut Memory,
) -> bool
    requires room { length board.old.moves + plies < most_moves }
    requires target { IsPointOf L.shows board.old node.turn.target }
    requires on_board { IsPointOf L.shows board.old p }
    requires table { IsTrueTableAt (L.seen board.old.look) node.turn memory.old.table.now }
    ensures stays { KeepsTrial L.shows L.seen board.old board.new }
    ensures table { IsTrueTableAt (L.seen board.new.look) node.turn memory.new.table.now }
    ensures over { OnEachAgreeing L.seen board.old board.new (λ here. result ≡ succeeds plies node here p) }
{
    match make_at(board, node, p) {
        Some(next) => {
            let won = wins_at(board, next, plies, memory);
            board.back();
            won == node.turn.attacker_to_play
        }
        None => false,
    }
}

/// The points of `tried` at which a play gives its mover his way, with `plies` plies left after it.
fn successes<L: Look>(
    board: &mut Trial<L>,
    node: Node,
    plies: u8,
    tried: &PointSet,
    memory: &mut Memory,
) -> PointSet
    requires room { length board.old.moves + plies < most_moves }
    requires target { IsPointOf L.shows board.old node.turn.target }
    requires on_board { (p : ℕ) → set.contains tried.now p ≡ true → IsPointOf L.shows board.old p }
    requires table { IsTrueTableAt (L.seen board.old.look) node.turn memory.old.table.now }
    ensures stays { KeepsTrial L.shows L.seen board.old board.new }
    ensures over { OnEachAgreeing L.seen board.old board.new (λ here. (p : ℕ)
        → set.contains result p ≡ (set.contains tried.now p && succeeds plies node here p)) }
{
    let mut found = PointSet::new();
    let mut from = 0;
    'points: while let Some(p) = tried.first_from(from) {
        if is_success(board, node, p, plies, memory) {
            found.add(p);
        }
        from = p + 1;
    }
    found
}

/// The points of `tried` at which a play gives its mover his way, read with a table that holds no node yet.
fn successes_by<L: Look>(
    board: &mut Trial<L>,
    node: Node,
    plies: u8,
    tried: &PointSet,
    table: &mut [Entry],
) -> PointSet
    requires room { length board.old.moves + plies < most_moves }
    requires target { IsPointOf L.shows board.old node.turn.target }
    requires on_board { (p : ℕ) → set.contains tried.now p ≡ true → IsPointOf L.shows board.old p }
    requires table { IsTrueTableAt (L.seen board.old.look) node.turn table.old }
    ensures stays { KeepsTrial L.shows L.seen board.old board.new }
    ensures over { OnEachAgreeing L.seen board.old board.new (λ here. (p : ℕ)
        → set.contains result p ≡ (set.contains tried.now p && succeeds plies node here p)) }
{
    let mut memory = Memory {
        reply: node.turn.target,
        table,
    };
    successes(board, node, plies, tried, &mut memory)
}

/// The points of `tried` at which a play gives its mover his way, read with a table. The table is made here: it is
/// large, and a short reading shall not pay for it.
#[inline(never)]
fn successes_with_table<L: Look>(
    board: &mut Trial<L>,
    node: Node,
    plies: u8,
    tried: &PointSet,
) -> PointSet
    requires room { length board.old.moves + plies < most_moves }
    requires target { IsPointOf L.shows board.old node.turn.target }
    requires on_board { (p : ℕ) → set.contains tried.now p ≡ true → IsPointOf L.shows board.old p }
    ensures stays { KeepsTrial L.shows L.seen board.old board.new }
    ensures over { OnEachAgreeing L.seen board.old board.new (λ here. (p : ℕ)
        → set.contains result p ≡ (set.contains tried.now p && succeeds plies node here p)) }
{
    let mut table = empty_table();
    successes_by(board, node, plies, tried, &mut table)
}

/// The points of `tried` at which a play gives its mover his way, read with a table if there are enough plies for one
/// to pay.
fn successes_of<L: Look>(board: &mut Trial<L>, node: Node, plies: u8, tried: &PointSet) -> PointSet
    requires room { length board.old.moves + plies < most_moves }
    requires target { IsPointOf L.shows board.old node.turn.target }
    requires on_board { (p : ℕ) → set.contains tried.now p ≡ true → IsPointOf L.shows board.old p }
    ensures stays { KeepsTrial L.shows L.seen board.old board.new }
    ensures over { OnEachAgreeing L.seen board.old board.new (λ here. (p : ℕ)
        → set.contains result p ≡ (set.contains tried.now p && succeeds plies node here p)) }
{
    if plies < PLIES_WITH_TABLE {
        return successes_by(board, node, plies, tried, &mut []);
    }
    successes_with_table(board, node, plies, tried)
}

/// All points of a board.
fn every_point(size: Size) -> PointSet
    ensures { (p : ℕ) → set.contains result p ≡ nat_lt p (size * size) }
{
    let mut points = PointSet::new();
    'points: for p in 0..size.points() {
        points.add(p);
    }
    points
}

/// The points that `among` names: the candidates of the question, or all points of the board.
fn points_among<L: Look>(board: &mut Trial<L>, question: &ReadingQuestion, among: Among) -> PointSet
    requires target { IsPointOf L.shows board.old question.now.target }
    ensures stays { KeepsTrial L.shows L.seen board.old board.new }
    ensures on_board { (p : ℕ) → set.contains result p ≡ true → IsPointOf L.shows board.old p }
    ensures over { OnEachAgreeing L.seen board.old board.new (λ here. (p : ℕ)
        → set.contains result p ≡ is_among among question.now here p) }
{
    match among {
        Among::Candidates => {
            let turn = question.first_turn();
            candidates(board, turn)
        }
        Among::EveryPoint => every_point(board.size()),
    }
}

/// Whether the first move is the pass.
fn is_pass(first: Option<Spot>) -> bool
    ensures { IsTrue result ↔ (first ≡ Some Spot.Pass) }
{
    match first {
        Some(Spot::Pass) => true,
        Some(Spot::At(_)) | None => false,
    }
}

/// The code of a question that is about the position, and the moves that attain it: the pass, and the points that
/// `among` names. The reader's first move tells whether the pass attains it, since the pass comes before all points.
fn moves_among<L: Look>(look: L, question: ReadingQuestion, among: Among) -> AllMoves<L>
    requires size { question.size ≡ (L.shows look).size }
    requires on_board { question.target < question.size * question.size }
    requires stone { cell_at (L.shows look).cells question.target ≡ stone_of question.colour }
    requires plies { 0 < question.plies }
    requires few { question.plies ≤ most_plies }
    ensures shown { L.shows result.look ≡ L.shows look }
    ensures grows { Grows (L.seen look) (L.seen result.look) }
    ensures few { result.code ≤ 3 }
    ensures over { (pos : BoardState) → Agrees (L.seen result.look) pos
        → AreMovesAmong among question pos result.code result.pass result.points }
{
    let Report { answer, look, .. } = read(look, question);
    if answer.code == 0 {
        return AllMoves {
            code: 0,
            pass: false,
            points: PointSet::new(),
            look,
        };
    }
    let mut board = Trial::new(look);
    let tried = points_among(&mut board, &question, among);
    let node = first_node(&question, answer.code);
    let points = successes_of(&mut board, node, question.plies - 1, &tried);
    AllMoves {
        code: answer.code,
        pass: is_pass(answer.at),
        points,
        look: board.finish(),
    }
}

/// The code of an attack on the string at `target`, or of its defence, and all its moves that attain the code: the
/// pass, and the candidates. These are the moves that the reader tries, so a move elsewhere may attain the code too:
/// `moves_anywhere` tries every point. Takes no memory.
pub fn all_moves<L: Look>(look: L, kind: Kind, target: Point, depths: Depths) -> AllMoves<L>
    requires on_board { target < (L.shows look).size * (L.shows look).size }
    requires stone { cell_at (L.shows look).cells target ≢ Cell.Empty }
    ensures shown { L.shows result.look ≡ L.shows look }
    ensures grows { Grows (L.seen look) (L.seen result.look) }
    ensures few { result.code ≤ 3 }
    ensures some { result.code ≢ 0 → HasMove result.pass result.points }
    ensures on_board { (p : ℕ) → set.contains result.points p ≡ true
        → p < (L.shows look).size * (L.shows look).size }

    // On every position that agrees with the facts seen afterwards the moves are these; the position shown is one of
    // those positions.
    ensures over { (pos : BoardState) → Agrees (L.seen result.look) pos
        → AreAllMoves (asked_in depths.tree (L.shows look) kind target depths.plies depths.wide) pos
        result.code result.pass result.points }
    ensures moves { AreAllMoves (asked_in depths.tree (L.shows look) kind target depths.plies depths.wide)
        (L.shows look) result.code result.pass result.points }
{
    let mut view = look;
    let question = question_on(&mut view, kind, target, depths);
    moves_among(view, question, Among::Candidates)
}

/// The code of an attack on the string at `target`, or of its defence, and all moves that attain the code: the pass,
/// and the points of the board, candidates or not. A point that is no candidate is judged like one: after the play
/// there the other side is to play, with one ply less. Takes no memory, but much more time than `all_moves`.
pub fn moves_anywhere<L: Look>(look: L, kind: Kind, target: Point, depths: Depths) -> AllMoves<L>
    requires on_board { target < (L.shows look).size * (L.shows look).size }
    requires stone { cell_at (L.shows look).cells target ≢ Cell.Empty }
    ensures shown { L.shows result.look ≡ L.shows look }
    ensures grows { Grows (L.seen look) (L.seen result.look) }
    ensures few { result.code ≤ 3 }
    ensures some { result.code ≢ 0 → HasMove result.pass result.points }
    ensures on_board { (p : ℕ) → set.contains result.points p ≡ true
        → p < (L.shows look).size * (L.shows look).size }

    // On every position that agrees with the facts seen afterwards the moves are these; the position shown is one of
    // those positions.
    ensures over { (pos : BoardState) → Agrees (L.seen result.look) pos
        → AreMovesAnywhere (asked_in depths.tree (L.shows look) kind target depths.plies depths.wide) pos
        result.code result.pass result.points }
    ensures moves { AreMovesAnywhere (asked_in depths.tree (L.shows look) kind target depths.plies depths.wide)
        (L.shows look) result.code result.pass result.points }
{
    let mut view = look;
    let question = question_on(&mut view, kind, target, depths);
    moves_among(view, question, Among::EveryPoint)
}
