//! The candidates of small positions, counted by hand.

ghost use Rattle.std.specs.Prelude.{◌≡◌, ◌*◌, ◌<◌};

use super::{IN_ATARI, Stones, position, vertex};
use go_base::{Colour, Point, PointSet, Position, Size, Watch};
use read_moves::{candidates, empty_sides, later_candidates};
use read_rules::{Tree, Turn};
use std::process::Abort;
use trial_board::Trial;
use wider_moves::further_candidates;

/// Which candidates of a target are asked for.
pub(super) enum Which {
    /// The candidates of the stated tree at the attacker's turn, with this many wide plies left.
    All(u8),
    /// The later candidates of the stated tree at the attacker's turn, with one wide ply left.
    Wide,
    /// The further candidates at the attacker's turn, with this many wide plies left.
    OfAttacker(u8),
    /// The further candidates at the defender's turn, with this many wide plies left.
    OfDefender(u8),
}

/// A target: what is special about it, the stones, its point, and the candidates that it has.
pub(super) struct Row {
    pub(super) name: &'static str,
    pub(super) stones: Stones,
    pub(super) target: &'static str,
    pub(super) which: Which,
    pub(super) points: &'static str,
}

/// Targets with their candidates of the stated tree.
static CANDIDATES: [Row; 8] = [
    Row {
        name: "the last liberty of a stone in atari",
        stones: IN_ATARI,
        target: "D4",
        which: Which::All(0),
        points: "D3",
    },
    Row {
        name: "its neighbours too where a wide ply is left",
        stones: IN_ATARI,
        target: "D4",
        which: Which::All(1),
        points: "D3 C3 E3 D2",
    },
    Row {
        name: "no neighbours where there are four liberties",
        stones: (9, "D4", ""),
        target: "D4",
        which: Which::All(12),
        points: "D5 C4 E4 D3",
    },
    Row {
        name: "the capture of an enemy stone in atari",
        stones: (5, "A1 A2 B3", "B2 A3 C1"),
        target: "A1",
        which: Which::All(0),
        points: "B1 A4",
    },
    Row {
        name: "nothing where the target is empty",
        stones: (5, "A1", ""),
        target: "C3",
        which: Which::All(2),
        points: "",
    },
    Row {
        name: "the neighbours of a last liberty stand for themselves",
        stones: IN_ATARI,
        target: "D4",
        which: Which::Wide,
        points: "C3 E3 D2",
    },
    Row {
        name: "no wide candidate where there are four liberties",
        stones: (9, "D4", ""),
        target: "D4",
        which: Which::Wide,
        points: "",
    },
    Row {
        name: "the one liberty that white at a liberty would have, beside three liberties",
        stones: (5, "A1 B1 C1 B2", "D1"),
        target: "B1",
        which: Which::Wide,
        points: "A3",
    },
];

/// The attacker's turn in the stated tree, with `wide` wide plies left. The candidates are the same for a target of
/// either colour.
fn attackers_turn(target: Point, wide: u8) -> Turn
    ensures { result.target ≡ target }
{
    Turn {
        tree: Tree::Stated,
        target,
        defender: Colour::Black,
        attacker_to_play: true,
        wide,
    }
}

/// The candidates of a target on the position.
fn candidates_of(position: &Position, which: &Which, target: Point) -> PointSet
    requires { target < position.now.size * position.now.size }
{
    let mut board = Trial::new(Watch::new(position));
    let liberties = board.liberties(target);
    let found = match which {
        Which::All(wide) => candidates(&mut board, attackers_turn(target, *wide)),
        Which::Wide => later_candidates(&mut board, attackers_turn(target, 1), &liberties),
        Which::OfAttacker(wide) => further_candidates(
            &mut board,
            target,
            true,
            *wide > 0,
            &liberties,
        ),
        Which::OfDefender(wide) => further_candidates(
            &mut board,
            target,
            false,
            *wide > 0,
            &liberties,
        ),
    };
    board.finish();
    found
}

/// The points of these vertices.
fn points_of(size: Size, names: &str) -> Option<PointSet> {
    let _ = size.get();
    let mut points = PointSet::new();
    for name in names.split_whitespace() {
        points.add(vertex(size, name)?);
    }
    Some(points)
}

/// Whether a target has the candidates that its row says, and no others.
fn is_right(row: &Row) -> Option<bool> {
    let position = position(row.stones)?;
    let target = vertex(position.size(), row.target)?;
    let found = candidates_of(&position, &row.which, target);
    let wanted = points_of(position.size(), row.points)?;
    Some(found.difference(&wanted).count() == 0 && wanted.difference(&found).count() == 0)
}

/// Each target of the table has the candidates that its row says, and no others.
pub(super) fn check_table(rt: &impl Abort, table: &[Row]) {
    for row in table {
        assert!(rt; is_right(row) == Some(true), "{}", row.name);
    }
}

#[test]
fn liberties_their_neighbours_and_captures_are_tried(rt: HostRuntime) {
    check_table(&rt, &CANDIDATES);
}

/// How many neighbours of a point are empty, on a board with stones of both colours around C3.
fn sides(name: &str) -> Option<u16> {
    let position = position((9, "B1 C4", "C2"))?;
    let p = vertex(position.size(), name)?;
    let mut board = Trial::new(Watch::new(&position));
    let sides = empty_sides(&mut board, p);
    board.finish();
    Some(sides)
}

/// What is special about a point, its name, and how many of its neighbours are empty.
static SIDES: [(&str, &str, u16); 3] = [
    ("a corner beside a stone", "A1", 1),
    ("a point between stones of both colours", "C3", 2),
    ("a stone beside no other", "C4", 4),
];

#[test]
fn the_empty_sides_of_a_point_are_counted(rt: HostRuntime) {
    for &(special, name, want) in &SIDES {
        assert!(rt; sides(name) == Some(want), "{special}");
    }
}
