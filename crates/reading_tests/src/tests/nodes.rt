//! Nodes of the game tree of small positions, at which the attacker wins or does not.

use super::{IN_ATARI, KO, Stones, position, vertex};
use go_base::Colour::{self, Black, White};
use go_base::Watch;
use read_tree::{NodeAt, Tree, wins};
use trial_board::Trial;

/// A node: what is special about it, the stones, the target, the defender's colour, whether it is the attacker's turn,
/// the plies and wide plies that are left, the allowances of the attacker and of the defender, and whether the attacker
/// wins there.
struct Row {
    name: &'static str,
    stones: Stones,
    target: &'static str,
    defender: Colour,
    attacker_turn: bool,
    numbers: [u8; 4],
    won: bool,
}

/// The first nodes of the codes, nodes at which no ply is left, and nodes at which the target is gone.
static NODES: [Row; 9] = [
    Row {
        name: "attack of a stone in atari, code 3",
        stones: IN_ATARI,
        target: "D4",
        defender: Black,
        attacker_turn: true,
        numbers: [3, 2, 0, 1],
        won: true,
    },
    Row {
        name: "defence of a stone in atari, code 3",
        stones: IN_ATARI,
        target: "D4",
        defender: Black,
        attacker_turn: false,
        numbers: [3, 2, 1, 0],
        won: false,
    },
    Row {
        name: "no ply is left for a stone in atari",
        stones: IN_ATARI,
        target: "D4",
        defender: Black,
        attacker_turn: true,
        numbers: [0, 0, 0, 1],
        won: false,
    },
    Row {
        name: "the target's point is empty",
        stones: IN_ATARI,
        target: "D3",
        defender: Black,
        attacker_turn: true,
        numbers: [0, 0, 0, 0],
        won: true,
    },
    Row {
        name: "and so at the defender's turn",
        stones: IN_ATARI,
        target: "D3",
        defender: Black,
        attacker_turn: false,
        numbers: [5, 2, 1, 1],
        won: true,
    },
    Row {
        name: "attack in a ko, code 2",
        stones: KO,
        target: "C3",
        defender: White,
        attacker_turn: true,
        numbers: [3, 4, 0, 0],
        won: false,
    },
    Row {
        name: "attack in a ko, code 1",
        stones: KO,
        target: "C3",
        defender: White,
        attacker_turn: true,
        numbers: [3, 4, 1, 0],
        won: true,
    },
    Row {
        name: "both sides may ignore the ban",
        stones: KO,
        target: "C3",
        defender: White,
        attacker_turn: true,
        numbers: [3, 4, 1, 1],
        won: true,
    },
    Row {
        name: "both may, and no ply is left",
        stones: KO,
        target: "C3",
        defender: White,
        attacker_turn: true,
        numbers: [0, 4, 1, 1],
        won: false,
    },
];

/// Whether the attacker wins at the row's node of the stated tree.
fn won(row: &Row) -> Option<bool> {
    let [n, k, a, d] = row.numbers;
    let position = position(row.stones)?;
    let target = vertex(position.size(), row.target)?;
    if n > 200 {
        return None;
    }
    let mut board = Trial::new(Watch::new(&position));
    let node = NodeAt {
        tree: Tree::Stated,
        target,
        defender: row.defender,
        attacker_turn: row.attacker_turn,
        n,
        k,
        a,
        d,
    };
    let won = wins(&mut board, node);
    board.finish();
    Some(won)
}

#[test]
fn attacker_wins_at_the_first_nodes_of_the_codes(rt: HostRuntime) {
    for row in &NODES {
        assert!(rt; won(row) == Some(row.won), "{}", row.name);
    }
}
