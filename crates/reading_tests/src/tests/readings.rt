//! Readings of small positions. The answers are those of the worked rows, or of a second plain program.

use super::{IN_ATARI, KO, Question, Stones, position, spot, stone};
use go_base::{Position, Watch};
use read_rules::Depths;
use read_rules::Kind::{self, Attack, Defend};
use read_rules::Tree::{self, Stated, Wider};
use read_tree::{Answer, attack, defend};

/// Readings of one position: what they show, its stones, and each question with the tree in which it is read, the code,
/// and the move, which is empty if there is none.
struct Readings {
    name: &'static str,
    stones: Stones,
    rows: &'static [(Question, Tree, u8, &'static str)],
}

/// Black D16 runs from a ladder in the upper left corner.
const LONG_LADDER: Stones = (19, "D16", "C16 D17 E17");

/// Readings by what they show.
static READINGS: [Readings; 30] = [
    Readings {
        name: "a stone in atari is captured",
        stones: IN_ATARI,
        rows: &[
            ((Attack, "D4", 3, 2), Stated, 3, "D3"),
            ((Attack, "D4", 1, 0), Stated, 3, "D3"),
        ],
    },
    Readings {
        name: "a stone in atari extends",
        stones: IN_ATARI,
        rows: &[((Defend, "D4", 3, 2), Stated, 3, "D3")],
    },
    Readings {
        name: "no capture follows on a pass in one ply",
        stones: IN_ATARI,
        rows: &[((Defend, "D4", 1, 0), Stated, 3, "PASS")],
    },
    Readings {
        name: "a lone stone is safe",
        stones: (9, "D4", ""),
        rows: &[
            ((Attack, "D4", 3, 2), Stated, 0, ""),
            ((Defend, "D4", 3, 2), Stated, 3, "PASS"),
        ],
    },
    Readings {
        name: "one stone in the corner is captured",
        stones: (9, "A1", "A2"),
        rows: &[((Attack, "A1", 1, 0), Stated, 3, "B1")],
    },
    Readings {
        name: "two stones in the corner are not captured",
        stones: (9, "A1 B1", "A2"),
        rows: &[((Attack, "A1", 3, 0), Stated, 0, "")],
    },
    Readings {
        name: "a string of five liberties is safe",
        stones: (9, "D4 E4", "C4"),
        rows: &[
            ((Attack, "D4", 9, 0), Stated, 0, ""),
            ((Defend, "D4", 5, 2), Stated, 3, "PASS"),
        ],
    },
    Readings {
        name: "suicide captures no string with two eyes",
        stones: (5, "A2 B2 C2 D2 B1 D1", "A3 B3 C3 D3 E2 E1"),
        rows: &[((Attack, "A2", 5, 2), Stated, 0, "")],
    },
    Readings {
        name: "the capture of a stone in atari saves a string",
        stones: (5, "A1 A2 B3", "B2 A3 C1"),
        rows: &[((Defend, "A1", 3, 0), Stated, 3, "A4")],
    },
    Readings {
        name: "a capture in a ko needs the attacker's allowance",
        stones: KO,
        rows: &[((Attack, "C3", 3, 4), Stated, 1, "D3")],
    },
    Readings {
        name: "filling the ko saves the stone",
        stones: KO,
        rows: &[((Defend, "C3", 3, 4), Stated, 3, "D3")],
    },
    Readings {
        name: "passes lift the ban",
        stones: (5, "B3 C4 C2 D3", "D4 E3 D2 C3 PASS PASS"),
        rows: &[((Attack, "C3", 3, 4), Stated, 3, "D3")],
    },
    Readings {
        name: "the defender ignores the ban once",
        stones: (5, "A1 B2 C1 A3", "A4 B3 C2 D1"),
        rows: &[((Attack, "A1", 3, 2), Stated, 2, "A2")],
    },
    Readings {
        name: "the attacker ignores the ban once",
        stones: (4, "C3 A1 C1", "D3 A2 C2 D1"),
        rows: &[((Defend, "C1", 4, 0), Stated, 2, "D2")],
    },
    Readings {
        name: "a defence needs the defender's allowance",
        stones: (4, "A3 A1", "B3 D2 B1"),
        rows: &[((Defend, "A3", 4, 2), Stated, 1, "B2")],
    },
    Readings {
        name: "a ladder works in eleven plies",
        stones: (9, "F4", "E4 F5 G5"),
        rows: &[
            ((Attack, "F4", 11, 0), Stated, 3, "F3"),
            ((Attack, "F4", 9, 0), Stated, 0, ""),
            ((Defend, "F4", 13, 0), Stated, 3, "G4"),
        ],
    },
    Readings {
        name: "a ladder crosses the board in fifty-nine plies",
        stones: LONG_LADDER,
        rows: &[
            ((Attack, "D16", 59, 0), Stated, 3, "D15"),
            ((Attack, "D16", 57, 0), Stated, 0, ""),
        ],
    },
    Readings {
        name: "a ladder breaker stops a ladder",
        stones: (9, "F4 H2", "E4 F5 G5"),
        rows: &[
            ((Attack, "F4", 13, 0), Stated, 0, ""),
            ((Defend, "F4", 13, 0), Stated, 3, "PASS"),
        ],
    },
    Readings {
        name: "a net is found where a wide ply is left",
        stones: (9, "E5", "D5 E6 D4 F6"),
        rows: &[
            ((Attack, "E5", 5, 1), Stated, 3, "F4"),
            ((Attack, "E5", 5, 0), Stated, 0, ""),
        ],
    },
    Readings {
        name: "a snapback captures by a throw-in of three plies",
        stones: (5, "D2 E2 C1", "D3 E3 C2"),
        rows: &[
            ((Attack, "D2", 3, 0), Stated, 3, "D1"),
            ((Attack, "D2", 2, 0), Stated, 0, ""),
            ((Defend, "D2", 4, 0), Stated, 0, ""),
        ],
    },
    Readings {
        name: "stones that are cut off have no defence",
        stones: (9, "D4 C5 E5 C6 E6 C7", "C4 E4 C3 E3 D2 D5 D6 D7"),
        rows: &[((Defend, "D4", 3, 2), Stated, 0, "")],
    },
    Readings {
        name: "a new stone nearby makes a defence",
        stones: (9, "D4 C5 E5 C6 E6 C7 D8", "C4 E4 C3 E3 D2 D5 D6 D7"),
        rows: &[((Defend, "D4", 3, 2), Stated, 3, "E7")],
    },
    Readings {
        // C1 saves the attacker's own stone, and he plays it first; else the defender takes it.
        name: "a backfilling move is found",
        stones: (5, "A2 B2 B3 B4 A4", "A5 B5 C5 C4 C3 C2 B1"),
        rows: &[
            ((Attack, "A2", 5, 2), Stated, 3, "C1"),
            ((Defend, "A2", 6, 2), Stated, 3, "C1"),
        ],
    },
    Readings {
        name: "in the wider tree a target with three liberties is played at where no wide ply is left",
        stones: (5, "D4", "E3 E1"),
        rows: &[
            ((Attack, "E3", 7, 2), Wider, 3, "D2"),
            ((Attack, "E3", 7, 2), Stated, 0, ""),
        ],
    },
    Readings {
        name: "an empty neighbour of one of three liberties nets the target in the wider tree",
        stones: (5, "D1", "E2"),
        rows: &[
            ((Attack, "E2", 7, 3), Wider, 3, "D3"),
            ((Attack, "E2", 7, 3), Stated, 0, ""),
        ],
    },
    Readings {
        name: "in the wider tree the attacker strengthens a string of his that the target might take",
        stones: (5, "A4 A3 B1", "D1"),
        rows: &[
            ((Attack, "B1", 11, 3), Wider, 3, "B2"),
            ((Attack, "B1", 9, 3), Wider, 2, "B2"),
            ((Attack, "B1", 9, 3), Stated, 0, ""),
        ],
    },
    Readings {
        name: "in the wider tree the defender presses a string that surrounds the target",
        stones: (5, "E4 E3", "D3 E2"),
        rows: &[
            ((Defend, "E4", 6, 2), Wider, 3, "D2"),
            ((Defend, "E4", 6, 2), Stated, 0, ""),
        ],
    },
    Readings {
        name: "in the wider tree the attacker saves a string of his that helps to surround the target",
        stones: (5, "B3 C2", "C3 D2"),
        rows: &[
            ((Attack, "D2", 9, 3), Wider, 3, "D3"),
            ((Attack, "D2", 9, 3), Stated, 0, ""),
        ],
    },
    Readings {
        name: "in the wider tree the defender joins the target to a string beyond one of its liberties",
        stones: (5, "B5 D5 A4", "C4 B3"),
        rows: &[
            ((Defend, "A4", 6, 2), Wider, 3, "C5"),
            ((Defend, "A4", 6, 2), Stated, 0, ""),
        ],
    },
    Readings {
        name: "in the wider tree the defender takes a string that would cut the target off from such a one",
        stones: (5, "A5 C5 A3", "A4 D4 C3"),
        rows: &[
            ((Defend, "C5", 6, 2), Wider, 3, "B4"),
            ((Defend, "C5", 6, 2), Stated, 0, ""),
        ],
    },
];

/// Each rule of the wider tree decides a question: without the rule the answer is another. Without a rule of the
/// attacker's, or without the bound, there is no capture; without a rule of the defender's there is one.
static DECIDED: [Readings; 10] = [
    Readings {
        name: "in every ply the attacker strengthens a string with two liberties",
        stones: (5, "D3", "A5 B5 E5"),
        rows: &[((Attack, "B5", 9, 3), Wider, 3, "C4")],
    },
    Readings {
        name: "in every ply the attacker saves a string of his",
        stones: (5, "A4 C2 D2", "C3 D3 E2 E1"),
        rows: &[((Attack, "C2", 8, 2), Wider, 3, "B2")],
    },
    Readings {
        name: "in every ply the defender takes a string that would cut",
        stones: (5, "D5 C3 E2", "E5 E3 C1 E1"),
        rows: &[((Attack, "C1", 7, 0), Wider, 0, "")],
    },
    Readings {
        name: "four liberties are played at where no wide ply is left",
        stones: (5, "C4 C3", "E4 E3"),
        rows: &[((Attack, "E4", 7, 0), Wider, 3, "E2")],
    },
    Readings {
        name: "in every ply the defender saves a string beside weak attackers",
        stones: (5, "A4 B4 C2", "C4 A1"),
        rows: &[((Attack, "A4", 8, 2), Wider, 0, "")],
    },
    Readings {
        name: "the attacker keeps a string with two liberties from the target",
        stones: (5, "C5 A3 A2 B2 D2", "A4 B3 E3"),
        rows: &[((Defend, "A4", 8, 2), Wider, 0, "")],
    },
    Readings {
        name: "the defender covers the liberties of weak attackers",
        stones: (5, "A5 C4 E2", "D5 D4 B3"),
        rows: &[((Attack, "D4", 8, 2), Wider, 0, "")],
    },
    Readings {
        name: "the defender approaches a point at which he would be cramped",
        stones: (5, "C5 A4 C4 A3 D3 E3 A2 A1 D1", "D5 E4 C3 B2 D2 E2 B1"),
        rows: &[
            ((Defend, "D1", 4, 1), Wider, 3, "B3"),
            ((Defend, "D1", 4, 1), Stated, 0, ""),
        ],
    },
    Readings {
        name: "the defender takes back in a ko by his own allowance",
        stones: (5, "B5 E2", "B4 C4"),
        rows: &[
            ((Defend, "B5", 4, 1), Wider, 1, "A4"),
            ((Defend, "B5", 4, 1), Stated, 0, ""),
        ],
    },
    Readings {
        name: "the defender takes back in a snapback",
        stones: (5, "D4 E4 D2 C1", "B3 D3 C2 E1"),
        rows: &[((Attack, "D2", 5, 2), Wider, 0, "")],
    },
];

/// A reading in the stated tree whose plays are counted: what it shows, its stones, the question, the code and the
/// move, which is empty if there is none, and the least and the greatest number of plays that may be tried.
struct Counted {
    name: &'static str,
    stones: Stones,
    question: Question,
    code: u8,
    at: &'static str,
    least: u64,
    most: u64,
}

/// Stones of both colours around the middle.
const CROWD: Stones = (9, "D5 E5 D7 C3", "C5 D4 E4 F6 E7 G4");

/// Readings that take this many plays, and more if one thing is overlooked.
static COUNTED: [Counted; 12] = [
    // Each of two questions tries two plays, C3 and D3, the first two candidates in reading order. After white C3 black
    // would run at D3 to two liberties, too many for the ply that is left then, and after black C3 white may take at
    // D3: both are seen without a play. D3 has its way under each allowance, so E3 and D2 are not tried, and the pass
    // of a defender in atari is not tried at all.
    Counted {
        name: "an attack of a stone in atari tries two plays",
        stones: IN_ATARI,
        question: (Attack, "D4", 3, 2),
        code: 3,
        at: "D3",
        least: 2,
        most: 2,
    },
    Counted {
        name: "a defence of a stone in atari tries two plays",
        stones: IN_ATARI,
        question: (Defend, "D4", 3, 2),
        code: 3,
        at: "D3",
        least: 2,
        most: 2,
    },
    // A ladder of this many plies does not work with two plies less. So some line of it is played to its end, except
    // for the last two plies, which may be seen without a play: the turn of the defender in atari, and the play that
    // takes the string. At each ply two moves at most are tried.
    Counted {
        name: "a ladder of eleven plies takes nine plays at least",
        stones: (9, "F4", "E4 F5 G5"),
        question: (Attack, "F4", 11, 0),
        code: 3,
        at: "F3",
        least: 9,
        most: 22,
    },
    Counted {
        name: "a ladder of fifty-nine plies takes fifty-seven plays at least",
        stones: LONG_LADDER,
        question: (Attack, "D16", 59, 0),
        code: 3,
        at: "D15",
        least: 57,
        most: 118,
    },
    Counted {
        name: "four liberties are too many for an attack of three plies",
        stones: (9, "D4", ""),
        question: (Attack, "D4", 3, 2),
        code: 0,
        at: "",
        least: 0,
        most: 0,
    },
    Counted {
        name: "four liberties need no defence for three plies",
        stones: (9, "D4", ""),
        question: (Defend, "D4", 3, 2),
        code: 3,
        at: "PASS",
        least: 0,
        most: 0,
    },
    Counted {
        name: "an attacked node that is met again is not read again: else 210 plays",
        stones: CROWD,
        question: (Attack, "D4", 15, 6),
        code: 0,
        at: "",
        least: 0,
        most: 140,
    },
    Counted {
        name: "a defended node that is met again is not read again: else 156 plays",
        stones: CROWD,
        question: (Defend, "D4", 15, 6),
        code: 3,
        at: "PASS",
        least: 0,
        most: 110,
    },
    Counted {
        name: "liberties with more empty sides are tried first: else 33 plays, and 65 where they are tried last",
        stones: CROWD,
        question: (Attack, "D5", 15, 6),
        code: 3,
        at: "D6",
        least: 0,
        most: 28,
    },
    Counted {
        name: "the attacker's play that had its way last is tried first: else 37 plays",
        stones: (9, "H1", "G2"),
        question: (Attack, "H1", 12, 4),
        code: 3,
        at: "H2",
        least: 0,
        most: 25,
    },
    Counted {
        name: "a play that leaves the target too many liberties is not made: else 92 plays",
        stones: (9, "D4", "C4 D3"),
        question: (Attack, "D4", 15, 2),
        code: 0,
        at: "",
        least: 0,
        most: 40,
    },
    Counted {
        name: "no play that takes the target is made, nor the turn of a defender who is in atari: else 5 plays",
        stones: (9, "D4", "C4 E4 C3 E3"),
        question: (Attack, "D4", 15, 2),
        code: 3,
        at: "D5",
        least: 0,
        most: 4,
    },
];

/// The answer to a question on the position, read in a tree, and how many plays were tried for it.
fn read(position: &Position, question: Question, tree: Tree) -> Option<(Answer, u64)> {
    let (kind, name, plies, wide) = question;
    let target = stone(position, name)?;
    let depths = Depths::new(plies, wide)?.in_tree(tree);
    let look = Watch::new(position);
    let told = match kind {
        Kind::Attack => attack(look, target, depths),
        Kind::Defend => defend(look, target, depths),
    };
    Some((told.answer, told.trials))
}

/// How many plays are tried for a question on the position of these stones, if it has this code by this move, else
/// `None`.
fn plays(stones: Stones, question: Question, tree: Tree, code: u8, at: &str) -> Option<u64> {
    let position = position(stones)?;
    let (found, plays) = read(&position, question, tree)?;
    let at = spot(position.size(), at);
    if found == (Answer { code, at }) {
        Some(plays)
    } else {
        None
    }
}

/// The plies of the first question that has another answer; 0 if each has its answer.
fn first_wrong(readings: &Readings) -> u8 {
    for &(question, tree, code, at) in readings.rows {
        if plays(readings.stones, question, tree, code, at).is_none() {
            return question.2;
        }
    }
    0
}

#[test]
fn questions_have_their_answers(rt: HostRuntime) {
    for readings in &READINGS {
        let wrong = first_wrong(readings);
        assert!(rt; wrong == 0, "{}, {wrong} plies", readings.name);
    }
}

#[test]
fn each_rule_of_the_wider_tree_decides_a_question(rt: HostRuntime) {
    for readings in &DECIDED {
        let wrong = first_wrong(readings);
        assert!(rt; wrong == 0, "{}, {wrong} plies", readings.name);
    }
}

/// Whether a reading has its answer, with a number of plays in the row's range.
fn is_counted(row: &Counted) -> Option<bool> {
    let plays = plays(row.stones, row.question, Stated, row.code, row.at)?;
    Some(row.least <= plays && plays <= row.most)
}

#[test]
fn plays_are_counted(rt: HostRuntime) {
    for row in &COUNTED {
        assert!(rt; is_counted(row) == Some(true), "{}", row.name);
    }
}
