//! What the target's liberties alone say of a node.

ghost use Rattle.std.specs.Prelude.{◌≡◌, ◌*◌, ◌<◌, ◌||◌, true, false};
ghost use Rattle.go_rules.specs.Neighbourhood.{neighbourhood_of};
ghost use Rattle.go_rules.specs.Strings.{liberties, liberty_points};
ghost use Rattle.std.specs.FinSet as set;
ghost use Rattle.go_rules.specs.Position.{BoardState, stone_of};
ghost use Rattle.go_base.specs.Facts.{Agrees, AddsIn};
ghost use Rattle.go_base.specs.Views.{alone};
ghost use Rattle.trial_board.specs.Trials.{KeepsTrial, after};
ghost use Rattle.read_rules.specs.Bound.{outlasts_at};
ghost use Rattle.read_tree.specs.Steps.{IsTakenForGood, IsTaken, IsInAtari, TellsLiberties, is_safe};

use crate::bound::{has_too_many, most_liberties};
use go_base::points::PointSet;
use go_base::{Cell, Colour, Look};
use read_rules::Turn;
use trial_board::Trial;
use wider_moves::sides::add_sides;

/// How many liberties a string in atari has.
const IN_ATARI: u16 = 1;

/// The cell of a stone of this colour.
pub fn stone_of(colour: Colour) -> Cell
    ensures { result ≡ stone_of colour }
{
    match colour {
        Colour::Black => Cell::Black,
        Colour::White => Cell::White,
    }
}

/// Whether a target taken now is taken for good: the tree is the stated one, or a neighbour of the target's point holds
/// a stone of its colour, which is taken with it. A lone stone may be taken back.
fn is_taken_for_good<L: Look>(board: &mut Trial<L>, turn: Turn) -> bool
    requires { turn.target < (L.shows board.old.look).size * (L.shows board.old.look).size }
    ensures stays { KeepsTrial L.shows L.seen board.old board.new }
    ensures over { (pos : BoardState) → Agrees (L.seen board.new.look) pos → result ≡ true
        → IsTakenForGood turn (after pos board.old.moves) }
    ensures near { (pos : BoardState) → Agrees (L.seen board.new.look) pos
        → AddsIn (L.seen board.old.look) (L.seen board.new.look)
        (neighbourhood_of pos.size (after pos board.old.moves).cells (alone turn.target)) }
{
    if !turn.tree.is_wider() {
        return true;
    }
    let mut own = PointSet::new();
    add_sides(board, stone_of(turn.defender), turn.target, &mut own);
    own.first_from(0).is_some()
}

/// Whether it is the attacker's turn and he may play at the only liberty of the target, which takes the target.
fn can_fill<L: Look>(board: &mut Trial<L>, turn: Turn, liberties: &PointSet) -> bool
    requires target { turn.target < (L.shows board.old.look).size * (L.shows board.old.look).size }
    requires liberties { liberties.now ≡ liberty_points (L.shows board.old.look).size
        (after (L.shows board.old.look) board.old.moves).cells turn.target }
    ensures stays { KeepsTrial L.shows L.seen board.old board.new }
    ensures count { board.new.count ≡ board.old.count }
    ensures over { (pos : BoardState) → Agrees (L.seen board.new.look) pos
        → liberties.now ≡ liberty_points pos.size (after pos board.old.moves).cells turn.target
        → result ≡ true → IsTakenForGood turn (after pos board.old.moves) → IsTaken turn (after pos board.old.moves) }
    ensures near { AddsIn (L.seen board.old.look) (L.seen board.new.look)
        (λ p. alone turn.target p || set.contains liberties.now p) }
{
    if !turn.attacker_to_play || board.cell(turn.target) != stone_of(turn.defender) {
        return false;
    }
    match liberties.first_from(0) {
        Some(l) => liberties.first_from(l + 1).is_none() && !board.bans(turn.mover(), l),
        None => false,
    }
}

/// Whether it is the attacker's turn and he may take the target by its only liberty, for good.
pub fn can_take<L: Look>(board: &mut Trial<L>, turn: Turn, liberties: &PointSet) -> bool
    requires target { turn.target < (L.shows board.old.look).size * (L.shows board.old.look).size }
    requires liberties { liberties.now ≡ liberty_points (L.shows board.old.look).size
        (after (L.shows board.old.look) board.old.moves).cells turn.target }
    ensures stays { KeepsTrial L.shows L.seen board.old board.new }
    ensures over { (pos : BoardState) → Agrees (L.seen board.new.look) pos
        → liberties.now ≡ liberty_points pos.size (after pos board.old.moves).cells turn.target
        → result ≡ true → IsTaken turn (after pos board.old.moves) }
    ensures near { (pos : BoardState) → Agrees (L.seen board.new.look) pos
        → liberties.now ≡ liberty_points pos.size (after pos board.old.moves).cells turn.target
        → AddsIn (L.seen board.old.look) (L.seen board.new.look)
        (neighbourhood_of pos.size (after pos board.old.moves).cells (alone turn.target)) }
{
    can_fill(board, turn, liberties) && is_taken_for_good(board, turn)
}

/// Whether it is the defender's turn, the target is his and in atari, a ply is left after his move, and the target is
/// taken for good if it is taken. Then the attacker takes it, unless the defender plays at its liberty or takes an
/// enemy string next to it.
pub fn is_in_atari<L: Look>(board: &mut Trial<L>, turn: Turn, plies: u8, known: &PointSet) -> bool
    requires target { turn.target < (L.shows board.old.look).size * (L.shows board.old.look).size }
    requires liberties { (pos : BoardState) → Agrees (L.seen board.old.look) pos
        → known.now ≡ liberty_points pos.size (after pos board.old.moves).cells turn.target }
    ensures stays { KeepsTrial L.shows L.seen board.old board.new }
    ensures over { (pos : BoardState) → Agrees (L.seen board.new.look) pos → result ≡ true
        → IsInAtari plies turn (after pos board.old.moves) }
    ensures near { (pos : BoardState) → Agrees (L.seen board.new.look) pos
        → AddsIn (L.seen board.old.look) (L.seen board.new.look)
        (neighbourhood_of pos.size (after pos board.old.moves).cells (alone turn.target)) }
{
    if turn.attacker_to_play || plies == 0 || known.count() != IN_ATARI {
        return false;
    }
    board.cell(turn.target) == stone_of(turn.defender) && is_taken_for_good(board, turn)
}

/// The liberties of the target, with `plies` plies left; if they are too many, a part of them that is too many already.
/// The search of the string stops there.
pub fn liberties_within<L: Look>(board: &mut Trial<L>, turn: Turn, plies: u8) -> PointSet
    requires { turn.target < (L.shows board.old.look).size * (L.shows board.old.look).size }
    ensures stays { KeepsTrial L.shows L.seen board.old board.new }
    ensures count { board.new.count ≡ board.old.count }
    ensures over { (pos : BoardState) → Agrees (L.seen board.new.look) pos
        → TellsLiberties turn plies pos.size (after pos board.old.moves).cells result }
    ensures near { (pos : BoardState) → Agrees (L.seen board.new.look) pos
        → AddsIn (L.seen board.old.look) (L.seen board.new.look)
        (neighbourhood_of pos.size (after pos board.old.moves).cells (alone turn.target)) }
{
    board.some_liberties(turn.target, most_liberties(turn, plies))
}

/// What is known of a node by the target's liberties alone.
#[derive(Clone, Copy, Debug, PartialEq, Eq)]
pub enum Outlook {
    /// The target is not captured: it has too many liberties.
    Safe,
    /// The attacker takes the target now.
    Taken,
    /// The node has to be read.
    Open,
}

/// What is known of a node by the target's liberties, with `plies` plies left. `known` are the liberties, or too many
/// of them.
pub fn outlook_of<L: Look>(board: &mut Trial<L>, turn: Turn, plies: u8, known: &PointSet) -> Outlook
    requires target { turn.target < (L.shows board.old.look).size * (L.shows board.old.look).size }
    requires liberties { (pos : BoardState) → Agrees (L.seen board.old.look) pos
        → TellsLiberties turn plies pos.size (after pos board.old.moves).cells known.now }
    ensures stays { KeepsTrial L.shows L.seen board.old board.new }
    ensures over { (pos : BoardState) → Agrees (L.seen board.new.look) pos
        → outlasts_at turn plies
        (liberties pos.size (after pos board.old.moves).cells turn.target) ≡ is_safe result }
    ensures all { (pos : BoardState) → Agrees (L.seen board.new.look) pos → is_safe result ≡ false
        → known.now ≡ liberty_points pos.size (after pos board.old.moves).cells turn.target }
    ensures taken { (pos : BoardState) → Agrees (L.seen board.new.look) pos → result ≡ Outlook.Taken
        → IsTaken turn (after pos board.old.moves) }
    ensures near { (pos : BoardState) → Agrees (L.seen board.new.look) pos
        → AddsIn (L.seen board.old.look) (L.seen board.new.look)
        (neighbourhood_of pos.size (after pos board.old.moves).cells (alone turn.target)) }
{
    if has_too_many(turn, plies, known) {
        return Outlook::Safe;
    }
    if can_take(board, turn, known) {
        return Outlook::Taken;
    }
    Outlook::Open
}
