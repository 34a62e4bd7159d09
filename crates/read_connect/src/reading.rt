//! The two questions: connect and disconnect.

ghost use Rattle.std.specs.Prelude.{◌≡◌, ◌≢◌, ◌+◌, ◌*◌, ◌-◌, ◌<◌, ◌≤◌, ◌↔◌, suc, true, false, length, IsNone};
ghost use Rattle.std.specs.Prelude.{IfSome, IsTrue, None, Some, ℕ, if◌then◌else◌};
ghost use Rattle.go_rules.specs.Position.{BoardState, stone_of};
ghost use Rattle.go_rules.specs.Strings.{cell_at};
ghost use Rattle.go_base.specs.Facts.{Agrees, Grows, CellIs};
ghost use Rattle.trial_board.specs.Trials.{KeepsTrial, most_moves, after};
ghost use Rattle.read_rules.specs.ActiveArea.{AddsNear};
ghost use Rattle.read_rules.specs.GameTree.{at_point};
ghost use Rattle.read_rules.specs.GoodMoves.{IsOnBoard};
ghost use Rattle.connect_rules.specs.Connection.{first_success, pass_parts};
ghost use Rattle.connect_rules.specs.ConnectionArea.{InConnectionArea};
ghost use Rattle.connect_rules.specs.Linkages.{is_connect, link_of, is_about, linkage_of, asked_on};
ghost use Rattle.read_connect.specs.Walk.{IsPointOf, AreOnBoard, AreLiberties, IsReady, OnEachAgreeing, LooksNear};
ghost use Rattle.read_connect.specs.Readings.{first_move, one_string};

use crate::link_told::LinkTold;
use crate::moves::{captures_of, crossing};
use crate::tree::{attains, pass_parts};
use connect_rules::{Link, LinkKind, LinkQuestion, LinkSpot, Linkage};
use go_base::flood::Found;
use go_base::points::PointSet;
use go_base::{Cell, Look, Point};
use trial_board::Trial;

/// The first connecting move in reading order that gives the side to play its way, with `plies` plies left after it.
fn first_point<L: Look>(
    board: &mut Trial<L>,
    link: Link,
    own: bool,
    plies: u8,
    of_a: &PointSet,
    of_b: &PointSet,
) -> Option<Point>
    requires ready { IsReady L.shows L.seen board.old link plies }
    requires liberties { AreLiberties L.seen board.old link of_a.now of_b.now }
    ensures stays { KeepsTrial L.shows L.seen board.old board.new }
    ensures on_board { IfSome result (λ p. p < (L.shows board.old.look).size * (L.shows board.old.look).size) }
    ensures over { OnEachAgreeing L.seen board.old board.new (λ here. result ≡ first_success plies link own here) }
    ensures near { LooksNear L.seen board.old board.new (suc plies) link own }
{
    let mut moves = of_a.intersection(of_b);
    moves.join(&crossing(board.size(), of_a, of_b));
    moves.join(&captures_of(board, link));
    let mut next = 0;
    while let Some(p) = moves.first_from(next) {
        if attains(board, link, own, plies, p) {
            return Some(p);
        }
        next = p + 1;
    }
    None
}

/// The play at the point that was found, if there is one.
fn at_point(found: Option<Point>) -> Option<LinkSpot>
    ensures { result ≡ at_point found }
{
    match found {
        Some(p) => Some(LinkSpot::At(p)),
        None => None,
    }
}

/// The first move that gives the side to play its way, with `plies` plies left after it: the other colour's pass before
/// all points.
fn first_move<L: Look>(
    board: &mut Trial<L>,
    link: Link,
    own: bool,
    plies: u8,
    of_a: &PointSet,
    of_b: &PointSet,
) -> Option<LinkSpot>
    requires ready { IsReady L.shows L.seen board.old link plies }
    requires liberties { AreLiberties L.seen board.old link of_a.now of_b.now }
    ensures stays { KeepsTrial L.shows L.seen board.old board.new }
    ensures on_board { IfSome result (IsOnBoard (L.shows board.old.look).size) }
    ensures over { OnEachAgreeing L.seen board.old board.new (λ here. result ≡ first_move plies link own here) }
    ensures near { LooksNear L.seen board.old board.new (suc plies) link own }
{
    if own {
        return at_point(first_point(board, link, own, plies, of_a, of_b));
    }
    if pass_parts(board, link, plies) {
        return Some(LinkSpot::Pass);
    }
    at_point(first_point(board, link, own, plies, of_a, of_b))
}

/// The answer if the two strings are one already: connect is answered yes with a pass, and disconnect no.
fn one_string(own: bool) -> Linkage
    ensures { result ≡ one_string own }
{
    Linkage {
        yes: own,
        at: if own { Some(LinkSpot::Pass) } else { None },
    }
}

/// Whether the question is `Connect`: whether the strings can be joined.
fn is_connect(kind: LinkKind) -> bool
    ensures { result ≡ is_connect kind }
{
    match kind {
        LinkKind::Connect => true,
        LinkKind::Disconnect => false,
    }
}

/// The answer at the first node of `question`, which is about the position of `board`.
fn first_node<L: Look>(board: &mut Trial<L>, question: &LinkQuestion) -> Linkage
    requires plies { 0 < question.now.plies }
    requires room { length board.old.moves + question.now.plies ≤ most_moves }
    requires on_board { AreOnBoard L.shows board.old (link_of question.now) }
    requires about { (pos : BoardState) → Agrees (L.seen board.old.look) pos
        → is_about question.now (after pos board.old.moves) ≡ true }
    ensures stays { KeepsTrial L.shows L.seen board.old board.new }
    ensures none { IsNone result.at ↔ (result.yes ≡ false) }
    ensures on_board { IfSome result.at (IsOnBoard (L.shows board.old.look).size) }
    ensures over { OnEachAgreeing L.seen board.old board.new (λ here. result ≡ linkage_of question.now here) }
    ensures near { LooksNear L.seen board.old board.new question.now.plies (link_of question.now)
        (is_connect question.now.kind) }
{
    let link = Link {
        a: question.a,
        b: question.b,
        colour: question.colour,
    };
    let own = is_connect(question.kind);
    let Found {
        stones,
        liberties,
        enemies: _,
    } = board.string(link.a);
    if stones.has(link.b) {
        return one_string(own);
    }
    let of_b = board.liberties(link.b);
    let at = first_move(board, link, own, question.plies - 1, &liberties, &of_b);
    Linkage {
        yes: at.is_some(),
        at,
    }
}

/// Reads a question about the position that `look` shows: whether the side that is asked about has its way, and the
/// first move by which it does. Takes no memory.
pub fn read<L: Look>(look: L, question: LinkQuestion) -> LinkTold<L>
    requires size { question.size ≡ (L.shows look).size }
    requires a_on { question.a < (L.shows look).size * (L.shows look).size }
    requires b_on { question.b < (L.shows look).size * (L.shows look).size }
    requires a_stands { cell_at (L.shows look).cells question.a ≡ stone_of question.colour }
    requires b_stands { cell_at (L.shows look).cells question.b ≡ stone_of question.colour }
    requires some_plies { 0 < question.plies }
    requires few_plies { question.plies ≤ most_moves }
    ensures shown { L.shows result.look ≡ L.shows look }
    ensures grows { Grows (L.seen look) (L.seen result.look) }
    ensures a { IsTrue (L.seen result.look (CellIs question.a (stone_of question.colour))) }
    ensures b { IsTrue (L.seen result.look (CellIs question.b (stone_of question.colour))) }
    ensures none { IsNone result.linkage.at ↔ (result.linkage.yes ≡ false) }
    ensures on_board { IfSome result.linkage.at (IsOnBoard (L.shows look).size) }

    // On every position that agrees with the facts seen afterwards the answer is this one; the position shown is one of
    // those positions.
    ensures over { (pos : BoardState) → Agrees (L.seen result.look) pos → result.linkage ≡ linkage_of question pos }
    ensures answer { result.linkage ≡ linkage_of question (L.shows look) }

    // On each position that agrees with the facts seen afterwards the points looked at lie in the active area of the
    // connection.
    ensures near { (pos : BoardState) → Agrees (L.seen result.look) pos
        → AddsNear (L.seen look) (L.seen result.look) (InConnectionArea question pos) }
{
    let mut view = look;
    let _ = view.cell(question.a);
    let _ = view.cell(question.b);
    let mut board = Trial::new(view);
    let linkage = first_node(&mut board, &question);
    LinkTold {
        linkage,
        look: board.finish(),
    }
}

/// Reads a question of this kind about the stones at `a` and `b` on the position that `look` shows.
fn answered<L: Look>(look: L, kind: LinkKind, a: Point, b: Point, plies: u8) -> LinkTold<L>
    requires a_on { a < (L.shows look).size * (L.shows look).size }
    requires b_on { b < (L.shows look).size * (L.shows look).size }
    requires stone { cell_at (L.shows look).cells a ≢ Cell.Empty }
    requires one_colour { cell_at (L.shows look).cells b ≡ cell_at (L.shows look).cells a }
    requires some_plies { 0 < plies }
    requires few_plies { plies ≤ most_moves }
    ensures shown { L.shows result.look ≡ L.shows look }
    ensures grows { Grows (L.seen look) (L.seen result.look) }
    ensures a { IsTrue (L.seen result.look (CellIs a (cell_at (L.shows look).cells a))) }
    ensures b { IsTrue (L.seen result.look (CellIs b (cell_at (L.shows look).cells b))) }
    ensures none { IsNone result.linkage.at ↔ (result.linkage.yes ≡ false) }
    ensures on_board { IfSome result.linkage.at (IsOnBoard (L.shows look).size) }
    ensures over { (pos : BoardState) → Agrees (L.seen result.look) pos
        → result.linkage ≡ linkage_of (asked_on (L.shows look) kind a b plies) pos }
    ensures near { (pos : BoardState) → Agrees (L.seen result.look) pos
        → AddsNear (L.seen look) (L.seen result.look) (InConnectionArea (asked_on (L.shows look) kind a b plies) pos) }
{
    let mut view = look;
    let colour = view.cell(a).colour();
    let question = LinkQuestion {
        size: view.size(),
        kind,
        a,
        b,
        colour,
        plies,
    };
    read(view, question)
}

/// Reads whether the strings of `a` and `b`, of one colour, can be joined when their own colour plays first, `plies`
/// plies deep.
///
/// The move is the pass if the two are one string already, else the first in reading order that joins them. Takes no
/// memory.
pub fn connect<L: Look>(look: L, a: Point, b: Point, plies: u8) -> LinkTold<L>
    requires a_on { a < (L.shows look).size * (L.shows look).size }
    requires b_on { b < (L.shows look).size * (L.shows look).size }
    requires stone { cell_at (L.shows look).cells a ≢ Cell.Empty }
    requires one_colour { cell_at (L.shows look).cells b ≡ cell_at (L.shows look).cells a }
    requires some_plies { 0 < plies }
    requires few_plies { plies ≤ most_moves }
    ensures shown { L.shows result.look ≡ L.shows look }
    ensures grows { Grows (L.seen look) (L.seen result.look) }
    ensures a { IsTrue (L.seen result.look (CellIs a (cell_at (L.shows look).cells a))) }
    ensures b { IsTrue (L.seen result.look (CellIs b (cell_at (L.shows look).cells b))) }
    ensures none { IsNone result.linkage.at ↔ (result.linkage.yes ≡ false) }
    ensures on_board { IfSome result.linkage.at (IsOnBoard (L.shows look).size) }

    // On every position that agrees with the facts seen afterwards the answer is this one; the position shown is one of
    // those positions.
    ensures over { (pos : BoardState) → Agrees (L.seen result.look) pos
        → result.linkage ≡ linkage_of (asked_on (L.shows look) LinkKind.Connect a b plies) pos }
    ensures answer { result.linkage ≡ linkage_of (asked_on (L.shows look) LinkKind.Connect a b plies) (L.shows look) }

    // On each position that agrees with the facts seen afterwards the points looked at lie in the active area of the
    // connection.
    ensures near { (pos : BoardState) → Agrees (L.seen result.look) pos
        → AddsNear (L.seen look) (L.seen result.look)
        (InConnectionArea (asked_on (L.shows look) LinkKind.Connect a b plies) pos) }
{
    answered(look, LinkKind::Connect, a, b, plies)
}

/// Reads whether the strings of `a` and `b`, of one colour, can be kept apart when the other colour plays first,
/// `plies` plies deep.
///
/// The move is the pass if the strings stay apart without a stone, else the first in reading order that keeps them
/// apart. Takes no memory.
pub fn disconnect<L: Look>(look: L, a: Point, b: Point, plies: u8) -> LinkTold<L>
    requires a_on { a < (L.shows look).size * (L.shows look).size }
    requires b_on { b < (L.shows look).size * (L.shows look).size }
    requires stone { cell_at (L.shows look).cells a ≢ Cell.Empty }
    requires one_colour { cell_at (L.shows look).cells b ≡ cell_at (L.shows look).cells a }
    requires some_plies { 0 < plies }
    requires few_plies { plies ≤ most_moves }
    ensures shown { L.shows result.look ≡ L.shows look }
    ensures grows { Grows (L.seen look) (L.seen result.look) }
    ensures a { IsTrue (L.seen result.look (CellIs a (cell_at (L.shows look).cells a))) }
    ensures b { IsTrue (L.seen result.look (CellIs b (cell_at (L.shows look).cells b))) }
    ensures none { IsNone result.linkage.at ↔ (result.linkage.yes ≡ false) }
    ensures on_board { IfSome result.linkage.at (IsOnBoard (L.shows look).size) }

    // On every position that agrees with the facts seen afterwards the answer is this one; the position shown is one of
    // those positions.
    ensures over { (pos : BoardState) → Agrees (L.seen result.look) pos
        → result.linkage ≡ linkage_of (asked_on (L.shows look) LinkKind.Disconnect a b plies) pos }
    ensures answer { result.linkage ≡ linkage_of (asked_on (L.shows look) LinkKind.Disconnect a b plies)
        (L.shows look) }

    // On each position that agrees with the facts seen afterwards the points looked at lie in the active area of the
    // connection.
    ensures near { (pos : BoardState) → Agrees (L.seen result.look) pos
        → AddsNear (L.seen look) (L.seen result.look)
        (InConnectionArea (asked_on (L.shows look) LinkKind.Disconnect a b plies) pos) }
{
    answered(look, LinkKind::Disconnect, a, b, plies)
}
