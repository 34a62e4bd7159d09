//! All moves of a question, and the fewest plies with which it has a code. The answers are counted by hand.

use super::{IN_ATARI, Question, Stones, position, spot, stone, vertex};
use go_base::{PointSet, Size, Watch};
use read_all::{Fewest, all_moves, fewest_plies, moves_anywhere, refutation};
use read_rules::Depths;
use read_rules::Kind::{Attack, Defend};

/// White A1 stands in the corner beside black B2.
const IN_CORNER: Stones = (9, "B2", "A1");

/// White has two eyes, A1 and C1.
const TWO_EYES: Stones = (9, "A3 B3 C3 D3 E2 E1", "B1 A2 B2 C2 D2 D1");

/// White C1 is in atari at D1, where white cannot play. Black B1 is in atari at A1.
const KO_SAVES: Stones = (9, "A2 B1 C2 D2 E1", "B2 B3 C1");

/// White has taken B1 in a ko, and the ban forbids black to play at B1 at once.
const KO_TAKEN: Stones = (9, "A2 B1 C2 D2 E1", "B2 B3 C1 A1");

/// White A1 is in atari at B1 and cannot get out.
const DEAD: Stones = (5, "A2 B2 C1", "A1");

/// All moves of a question: what is special about it, the stones, the question, its code, and the moves.
type MovesRow = (&'static str, Stones, Question, u8, &'static str);

/// Questions with one answer, with several, and with none.
static MOVES: [MovesRow; 10] = [
    ("one answer", IN_ATARI, (Attack, "D4", 1, 0), 3, "D3"),
    ("two answers", IN_CORNER, (Attack, "A1", 3, 0), 3, "B1 A2"),
    (
        "two plies do not do",
        IN_CORNER,
        (Attack, "A1", 2, 0),
        0,
        "",
    ),
    (
        "suicide captures nothing",
        TWO_EYES,
        (Attack, "B2", 3, 0),
        0,
        "",
    ),
    (
        "each play fills an eye",
        TWO_EYES,
        (Defend, "B2", 2, 0),
        3,
        "PASS",
    ),
    (
        "any move is good",
        (9, "", "E5"),
        (Defend, "E5", 2, 0),
        3,
        "PASS E6 D5 F5 E4",
    ),
    (
        "a stone in atari extends",
        IN_ATARI,
        (Defend, "D4", 2, 0),
        3,
        "D3",
    ),
    (
        "taking the ko saves the stone",
        KO_SAVES,
        (Defend, "C1", 4, 0),
        2,
        "A1",
    ),
    (
        "the ko must be taken back",
        KO_TAKEN,
        (Attack, "C1", 3, 0),
        1,
        "B1",
    ),
    (
        "a play elsewhere is no candidate",
        DEAD,
        (Attack, "A1", 3, 0),
        3,
        "B1",
    ),
];

/// All moves of a question at any point of the board: what is special about the question, the stones, the question, its
/// code, whether the pass is a move, and at how many points a play is.
static ANYWHERE: [(&str, Stones, Question, u8, bool, u16); 4] = [
    (
        "a dead stone waits",
        DEAD,
        (Attack, "A1", 3, 0),
        3,
        false,
        21,
    ),
    (
        "one ply must take it",
        DEAD,
        (Attack, "A1", 1, 0),
        3,
        false,
        1,
    ),
    (
        "no play is needed",
        (5, "", "C3"),
        (Defend, "C3", 2, 0),
        3,
        true,
        24,
    ),
    (
        "nothing captures two eyes",
        TWO_EYES,
        (Attack, "B2", 3, 0),
        0,
        false,
        0,
    ),
];

/// The fewest plies of a question: what is special about it, the stones, the question with the most plies, the code,
/// and the fewest plies, or `None` if these plies do not suffice.
static FEWEST: [(&str, Stones, Question, u8, Option<u8>); 7] = [
    (
        "a capture at once",
        IN_ATARI,
        (Attack, "D4", 5, 0),
        3,
        Some(1),
    ),
    (
        "a capture in the corner",
        IN_CORNER,
        (Attack, "A1", 5, 0),
        3,
        Some(3),
    ),
    (
        "its last ply is one too many",
        IN_CORNER,
        (Attack, "A1", 2, 0),
        3,
        None,
    ),
    (
        "no depth captures two eyes",
        TWO_EYES,
        (Attack, "B2", 5, 0),
        1,
        None,
    ),
    (
        "the attacker ignores the ban",
        KO_TAKEN,
        (Attack, "C1", 3, 0),
        1,
        Some(3),
    ),
    ("neither side may", KO_TAKEN, (Attack, "C1", 3, 0), 2, None),
    (
        "a defence needs no depth",
        TWO_EYES,
        (Defend, "B2", 5, 0),
        3,
        Some(1),
    ),
];

/// A play and its refutation: what is special about it, the stones, the question, the code that the play is to attain,
/// the play, and the first reply, which is empty if there is none.
type RefutedRow = (
    &'static str,
    Stones,
    Question,
    u8,
    &'static str,
    &'static str,
);

/// Plays that fail, plays that do not, and plays that cannot be made.
static REFUTED: [RefutedRow; 6] = [
    (
        "a stone in atari extends",
        IN_ATARI,
        (Attack, "D4", 3, 0),
        3,
        "D2",
        "D3",
    ),
    (
        "an attack that needs no reply",
        TWO_EYES,
        (Attack, "B2", 3, 0),
        3,
        "B4",
        "PASS",
    ),
    (
        "suicide cannot be played",
        TWO_EYES,
        (Attack, "B2", 3, 0),
        3,
        "A1",
        "",
    ),
    (
        "a filled eye",
        TWO_EYES,
        (Defend, "B2", 2, 0),
        3,
        "A1",
        "C1",
    ),
    ("a good play", DEAD, (Attack, "A1", 3, 0), 3, "B1", ""),
    (
        "no ply is left",
        IN_CORNER,
        (Attack, "A1", 1, 0),
        3,
        "B1",
        "",
    ),
];

/// The points of the named plays; a `PASS` among the names counts for nothing.
fn named_points(size: Size, names: &str) -> Option<PointSet> {
    let mut points = PointSet::new();
    for name in names.split_whitespace() {
        if name != "PASS" {
            let p = vertex(size, name)?;
            let _ = size.points();
            points.add(p);
        }
    }
    Some(points)
}

/// Whether two sets have the same points.
fn are_same(a: &PointSet, b: &PointSet) -> bool {
    a.difference(b).count() == 0 && b.difference(a).count() == 0
}

/// The code of a question, and whether all of its moves are the named ones.
fn moves(stones: Stones, (kind, target, plies, wide): Question, names: &str) -> Option<(u8, bool)> {
    let position = position(stones)?;
    let target = stone(&position, target)?;
    let found = all_moves(
        Watch::new(&position),
        kind,
        target,
        Depths::new(plies, wide)?,
    );
    let points = named_points(position.size(), names)?;
    let passes = names.starts_with("PASS");
    Some((
        found.code,
        found.pass == passes && are_same(&found.points, &points),
    ))
}

/// The code of a question, whether the pass attains it, and at how many points of the board a play does.
fn anywhere(stones: Stones, (kind, target, plies, wide): Question) -> Option<(u8, bool, u16)> {
    let position = position(stones)?;
    let target = stone(&position, target)?;
    let found = moves_anywhere(
        Watch::new(&position),
        kind,
        target,
        Depths::new(plies, wide)?,
    );
    Some((found.code, found.pass, found.points.count()))
}

/// The fewest plies with which a question has the code.
fn fewest(stones: Stones, (kind, target, plies, wide): Question, code: u8) -> Option<Option<u8>> {
    let position = position(stones)?;
    let target = stone(&position, target)?;
    let depths = Depths::new(plies, wide)?;
    let Fewest { plies, .. } = fewest_plies(Watch::new(&position), kind, target, depths, code);
    Some(plies)
}

/// Whether the named move is the first reply to the row's play, which is to attain the row's code.
fn is_refuted_by(row: &RefutedRow) -> Option<bool> {
    let &(_, stones, (kind, target, plies, wide), code, play, reply) = row;
    let position = position(stones)?;
    let target = stone(&position, target)?;
    let p = vertex(position.size(), play)?;
    let depths = Depths::new(plies, wide)?;
    let found = refutation(Watch::new(&position), kind, target, depths, code, p);
    Some(found.reply == spot(position.size(), reply))
}

#[test]
fn all_moves_attain_the_code_and_no_other_candidate_does(rt: HostRuntime) {
    for &(name, stones, question, code, names) in &MOVES {
        assert!(rt;
            moves(stones, question, names) == Some((code, true)),
            "{name}"
        );
    }
}

#[test]
fn moves_anywhere_are_at_all_points_that_attain_the_code(rt: HostRuntime) {
    for &(name, stones, question, code, pass, points) in &ANYWHERE {
        assert!(rt;
            anywhere(stones, question) == Some((code, pass, points)),
            "{name}"
        );
    }
}

#[test]
fn the_fewest_plies_are_those_of_the_shortest_capture(rt: HostRuntime) {
    for &(name, stones, question, code, plies) in &FEWEST {
        assert!(rt; fewest(stones, question, code) == Some(plies), "{name}");
    }
}

#[test]
fn the_first_reply_refutes_a_play(rt: HostRuntime) {
    for row in &REFUTED {
        assert!(rt; is_refuted_by(row) == Some(true), "{}", row.0);
    }
}
