//! Trial moves: bans, what a move taken back restores, what moves change, and boundaries.

ghost use Rattle.std.specs.Prelude.{◌*◌, ◌<◌};

use super::{KO, after};
use go_base::{Cell, Colour, Point, Position, Size, Watch};
use std::panic::Expect;
use std::process::Abort;
use trial_board::{Changes, Trial, Tried};

/// The point `n` of the board. On five rows C3 is 12 and D3 is 13.
fn numbered(size: Size, n: u8) -> Point
    ensures { result < size * size }
{
    let _ = size.get();
    Point::from(n) % size.points()
}

#[test]
fn a_ban_refuses_its_colour_and_can_be_dropped(rt: HostRuntime) {
    let position = after(5, &KO).expect(&rt, "each play is legal");
    let (c3, d3) = (numbered(position.size(), 12), numbered(position.size(), 13));
    let mut board = Trial::new(Watch::new(&position));
    let tried = board.play(Colour::Black, d3, false);
    assert!(rt; tried == Tried::Banned, "the ban refuses black");
    let tried = board.play(Colour::White, d3, false);
    assert!(rt; tried == Tried::Done, "and not white");
    board.back();
    let tried = board.play(Colour::Black, d3, true);
    assert!(rt; tried == Tried::Done, "it is dropped with leave");
    assert!(rt; board.cell(c3) == Cell::Empty, "the stone at C3 is taken");
    let _look = board.finish();
}

#[test]
fn a_trial_move_leaves_a_ban_too(rt: HostRuntime) {
    let position = after(5, &KO).expect(&rt, "each play is legal");
    let (c3, d3) = (numbered(position.size(), 12), numbered(position.size(), 13));
    let mut board = Trial::new(Watch::new(&position));
    let tried = board.play(Colour::Black, d3, true);
    assert!(rt; tried == Tried::Done, "the first ban is dropped");
    let tried = board.play(Colour::White, c3, false);
    assert!(rt; tried == Tried::Banned, "the ban refuses white");
    board.pass();
    let tried = board.play(Colour::White, c3, false);
    assert!(rt; tried == Tried::Done, "a pass lifts it");
    assert!(rt; board.trials() == 3, "refused plays count too");
    let _look = board.finish();
}

#[test]
fn backs_restore_the_stones_and_the_ban(rt: HostRuntime) {
    let position = after(5, &KO).expect(&rt, "each play is legal");
    let (c3, d3) = (numbered(position.size(), 12), numbered(position.size(), 13));
    let mut board = Trial::new(Watch::new(&position));
    let tried = board.play(Colour::Black, d3, true);
    assert!(rt; tried == Tried::Done, "the ban is dropped");
    board.pass();
    board.back();
    board.back();
    let tried = board.play(Colour::Black, d3, false);
    assert!(rt; tried == Tried::Banned, "the ban is back");
    assert!(rt; board.cell(c3) == Cell::White, "and so is the stone at C3");
    let _look = board.finish();
}

#[test]
fn no_move_stands_once_each_is_taken_back(rt: HostRuntime) {
    let position = after(5, &KO).expect(&rt, "each play is legal");
    let d3 = numbered(position.size(), 13);
    let mut board = Trial::new(Watch::new(&position));
    let tried = board.play(Colour::Black, d3, true);
    assert!(rt; tried == Tried::Done, "the ban is dropped");
    board.pass();
    board.back();
    board.back();
    assert!(rt; board.changes().is_none(), "no move stands");
    assert!(rt; !board.back(), "no trial move is left");
    let _look = board.finish();
}

/// The numbers of the points of a black play, a white play and a black play on an empty board of five rows, and whether
/// they change the same as the plays of the first row.
static ORDERS: [(&str, [u8; 3], bool); 4] = [
    ("the same plays", [1, 0, 5], true),
    ("the order of the plays is left out", [5, 0, 1], true),
    ("a play elsewhere is another change", [1, 0, 6], false),
    ("a stone that was not taken too", [1, 9, 5], false),
];

/// What a black play, a white play and a black play at the points of these numbers change.
fn changed(rt: &impl Abort, position: &Position, name: &str, numbers: [u8; 3]) -> Option<Changes> {
    let size = position.size();
    let [first, second, third] = numbers;
    let mut board = Trial::new(Watch::new(position));
    assert!(rt; board.changes().is_none(), "no move stands");
    let tried = board.play(Colour::Black, numbered(size, first), false);
    assert!(rt; tried == Tried::Done, "{name}");
    let tried = board.play(Colour::White, numbered(size, second), false);
    assert!(rt; tried == Tried::Done, "{name}");
    let tried = board.play(Colour::Black, numbered(size, third), false);
    assert!(rt; tried == Tried::Done, "{name}");
    let changes = board.changes();
    let _look = board.finish();
    changes
}

#[test]
fn other_orders_of_the_same_plays_change_the_same(rt: HostRuntime) {
    let size = Size::new(5).expect(&rt, "the size is one of a board");
    let position = Position::new(size);
    let mut known: Option<Changes> = None;
    for &(name, numbers, is_same) in &ORDERS {
        let changes = changed(&rt, &position, name, numbers);
        assert!(rt; changes.is_some(), "moves stand");
        known = known.or(changes);
        assert!(rt; (changes == known) == is_same, "{name}");
    }
}

#[test]
fn another_ban_is_another_change(rt: HostRuntime) {
    let position = after(5, &KO).expect(&rt, "each play is legal");
    let d3 = numbered(position.size(), 13);
    let mut board = Trial::new(Watch::new(&position));
    let tried = board.play(Colour::White, numbered(position.size(), 20), false);
    assert!(rt; tried == Tried::Done, "the far play is legal");
    let tried = board.play(Colour::Black, d3, true);
    assert!(rt; tried == Tried::Done, "the ban is dropped");
    let banned = board.changes();
    board.pass();
    let free = board.changes();
    board.back();
    let restored = board.changes();
    let _look = board.finish();
    assert!(rt; banned != free, "the pass lifts the ban");
    assert!(rt; restored == banned, "and taking it back brings it back");
}

#[test]
fn a_boundary_has_the_least_point_of_each_enemy_string(rt: HostRuntime) {
    let position = after(5, &KO).expect(&rt, "each play is legal");
    let (c3, d3) = (numbered(position.size(), 12), numbered(position.size(), 13));
    let mut board = Trial::new(Watch::new(&position));
    let alone = board.boundary(c3);
    assert!(rt;
        alone.count() == 3 && alone.has(7) && alone.has(11) && alone.has(17),
        "three lone stones"
    );
    let tried = board.play(Colour::Black, numbered(position.size(), 6), false);
    assert!(rt; tried == Tried::Done, "B4 joins C4 and B3");
    let joined = board.boundary(c3);
    assert!(rt;
        joined.count() == 2 && joined.has(6) && joined.has(17),
        "of the joined stones B4 is the least"
    );
    assert!(rt;
        board.boundary(d3).count() == 0,
        "an empty point has no string"
    );
    let _look = board.finish();
}
