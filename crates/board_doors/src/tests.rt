//! Questions as a caller in C puts them, and the numbers that come back.

use crate::replies::{
    answer_reply, linkage_reply, moves_reply, number_reply, play_reply, truth_reply,
};
use crate::{
    BoardBytes, DepthBytes, all, attack, check, connect, defend, disconnect, liberties, play, proof,
};
use read_rules::Kind;

/// A white stone in the middle of a board of 9 rows, with Black on three sides; its last liberty is point 49.
static ATARI: [(u16, u8); 4] = [(31, 1), (39, 1), (40, 2), (41, 1)];

/// Two black stones with one point between them, point 41, and a white stone far away.
static JUMP: [(u16, u8); 3] = [(40, 1), (42, 1), (80, 2)];

/// A board of 9 rows with these stones, each a point and its byte, and no ko ban.
fn board(stones: &[(u16, u8)]) -> BoardBytes {
    let mut cells = [0; 625];
    for (p, byte) in stones {
        if *p < 625 {
            cells[*p as usize] = *byte;
        }
    }
    BoardBytes {
        size: 9,
        ban_colour: 0,
        ban_point: 0,
        cells,
    }
}

/// The depths of these numbers.
fn depths(plies: u8, wide: u8, tree: u8) -> DepthBytes {
    DepthBytes { plies, wide, tree }
}

/// A reading: what is special about it, its kind, its target, its depths, and the numbers of its reply.
type Reading = (&'static str, Kind, u16, (u8, u8, u8), (u8, u8, u16));

/// Readings of the stone in atari.
static READINGS: [Reading; 10] = [
    ("it is taken", Kind::Attack, 40, (10, 2, 0), (0, 3, 49)),
    (
        "it is saved by the same move",
        Kind::Defend,
        40,
        (10, 2, 0),
        (0, 3, 49),
    ),
    ("the wider tree", Kind::Attack, 40, (10, 2, 1), (0, 3, 49)),
    (
        "a string that needs no move",
        Kind::Defend,
        31,
        (10, 2, 0),
        (0, 3, 65535),
    ),
    (
        "a point off the board",
        Kind::Attack,
        81,
        (10, 2, 0),
        (5, 0, 65534),
    ),
    (
        "an empty point",
        Kind::Attack,
        49,
        (10, 2, 0),
        (6, 0, 65534),
    ),
    ("no plies", Kind::Attack, 40, (0, 0, 0), (7, 0, 65534)),
    ("201 plies", Kind::Defend, 40, (201, 0, 0), (7, 0, 65534)),
    (
        "13 wide plies",
        Kind::Attack,
        40,
        (10, 13, 0),
        (7, 0, 65534),
    ),
    ("a third tree", Kind::Attack, 40, (10, 2, 2), (7, 0, 65534)),
];

#[test]
fn readings_are_answered_or_have_a_status(rt: HostRuntime) {
    let atari = board(&ATARI);
    for (what, kind, target, (plies, wide, tree), (status, code, at)) in &READINGS {
        let depths = depths(*plies, *wide, *tree);
        let reply = answer_reply(match kind {
            Kind::Attack => attack(&atari, *target, depths),
            Kind::Defend => defend(&atari, *target, depths),
        });
        assert!(rt;
            (reply.status, reply.code, reply.at) == (*status, *code, *at),
            "{what}"
        );
    }
}

/// A question for all moves about the stone in atari: what is special about it, its kind, its target, its plies, the
/// status, the code and the pass of its reply, and the points.
type Moves = (&'static str, u8, u16, u8, (u8, u8, u8), &'static [u16]);

/// Questions for all moves.
static MOVES: [Moves; 7] = [
    ("one move takes it", 1, 40, 10, (0, 3, 0), &[49]),
    ("one move saves it", 2, 40, 10, (0, 3, 0), &[49]),
    ("nothing captures", 1, 31, 1, (0, 0, 0), &[]),
    (
        "the pass and each liberty",
        2,
        31,
        10,
        (0, 3, 1),
        &[22, 30, 32, 49],
    ),
    ("the third question", 3, 40, 10, (10, 0, 0), &[]),
    ("an empty point", 1, 49, 10, (6, 0, 0), &[]),
    ("no plies", 1, 40, 0, (7, 0, 0), &[]),
];

#[test]
fn all_moves_are_told_or_a_status(rt: HostRuntime) {
    let atari = board(&ATARI);
    for (what, kind, target, plies, numbers, points) in &MOVES {
        let reply = moves_reply(all(&atari, *kind, *target, depths(*plies, 0, 0)));
        assert!(rt;
            (reply.status, reply.code, reply.pass) == *numbers,
            "{what}"
        );
        for (p, byte) in reply.points.iter().enumerate() {
            let is_one = points.iter().any(|q| usize::from(*q) == p);
            assert!(rt; *byte == u8::from(is_one), "{what}");
        }
    }
}

#[test]
fn connections_are_answered_or_have_a_status(rt: HostRuntime) {
    let jump = board(&JUMP);
    for (what, a, b, plies, want) in [
        ("joined between them", 40, 42, 1, (0, 1, 41)),
        ("a string with itself", 40, 40, 1, (0, 1, 65535)),
        ("the other colour", 40, 80, 1, (8, 0, 65534)),
        ("an empty point", 40, 41, 1, (6, 0, 65534)),
        ("no plies", 40, 42, 0, (7, 0, 65534)),
    ] {
        let reply = linkage_reply(connect(&jump, a, b, plies));
        assert!(rt; (reply.status, reply.code, reply.at) == want, "{what}");
    }
    let reply = linkage_reply(disconnect(&jump, 40, 42, 2));
    assert!(rt; (reply.status, reply.code, reply.at) == (0, 1, 41));
}

#[test]
fn plays_give_the_next_board_or_have_a_status(rt: HostRuntime) {
    let atari = board(&ATARI);
    for (what, colour, at, status) in [
        ("a capture", 1, 49, 0),
        ("a pass", 2, 65535, 0),
        ("the third colour", 3, 49, 9),
        ("a point off the board", 1, 81, 5),
        ("a stone stands there", 1, 40, 12),
    ] {
        assert!(rt;
            play_reply(&atari, play(&atari, colour, at)).status == status,
            "{what}"
        );
    }
    let next = play_reply(&atari, play(&atari, 1, 49)).board;
    assert!(rt; next.cells[38..50] == [0, 1, 0, 1, 0, 0, 0, 0, 0, 0, 0, 1][..]);
    assert!(rt; number_reply(liberties(&next, 49)).number == 4);
}

#[test]
fn a_proof_is_checked_or_has_a_status(rt: HostRuntime) {
    let atari = board(&ATARI);
    for (what, kind, code, text, want) in [
        ("a proof of the attack", 1, 3, "W E4 .", (0, 1)),
        ("no proof", 1, 3, "W .", (0, 0)),
        ("the third question", 3, 3, "", (10, 0)),
        ("code 4", 1, 4, "", (11, 0)),
    ] {
        let reply = truth_reply(check(&atari, kind, 40, depths(10, 2, 0), code, text.as_bytes()));
        assert!(rt; (reply.status, reply.number) == want, "{what}");
    }
}

/// A question for a proof about the stone in atari: what is special about it, its kind, its target, the room, the
/// numbers of its reply, and the bytes of the buffer afterwards.
type Proved = (&'static str, u8, u16, usize, (u8, u8, u16), &'static str);

/// Questions for a proof.
static PROVED: [Proved; 6] = [
    ("it is written", 1, 40, 9, (0, 3, 6), "W E4 .---"),
    ("it fits just", 1, 40, 6, (0, 3, 6), "W E4 ."),
    ("it does not fit", 1, 40, 5, (15, 3, 6), "-----"),
    ("there is no room", 1, 40, 0, (15, 3, 6), ""),
    ("the third question", 3, 40, 9, (10, 0, 0), "---------"),
    ("an empty point", 1, 49, 9, (6, 0, 0), "---------"),
];

#[test]
fn a_proof_is_written_or_has_a_status(rt: HostRuntime) {
    let atari = board(&ATARI);
    for (what, kind, target, room, numbers, bytes) in &PROVED {
        let mut buffer = [b'-'; 9];
        if *room <= 9 {
            let reply = proof(
                &atari,
                *kind,
                *target,
                depths(10, 0, 0),
                &mut buffer[..*room],
            );
            assert!(rt;
                (reply.status, reply.code, reply.length) == *numbers,
                "{what}"
            );
            assert!(rt; &buffer[..*room] == bytes.as_bytes(), "{what}");
        }
    }
}
