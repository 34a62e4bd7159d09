//! Proofs of readings, and what they claim.

use super::{Asks, LONGEST_LINE, Row, Says, compare};
use go_base::Size;
use gtp_cmd::{Command, Parsed, Span, parse};
use std::panic::Expect;
use std::test::Fail;

static PROOFS_THAT_ARE_ASKED_FOR: [Row; 4] = [
    (
        "a proof of an attack",
        "attack_proof D4",
        Says::Command(Asks::AttackProof(48)),
    ),
    (
        "a proof of a defence",
        "defend_proof d4 e5",
        Says::Command(Asks::DefendProof(48)),
    ),
    ("a proof for a pass", "attack_proof pass", Says::Malformed),
    ("a proof for no vertex", "defend_proof", Says::Malformed),
];

/// The point D4 is the number 48 on a board of nine rows.
static PROOFS_AND_THEIR_CLAIMS: [Row; 17] = [
    (
        "an attack",
        "check_proof attack D4 3 W D3 .",
        Says::Command(Asks::CheckProof {
            attack: true,
            target: 48,
            code: 3,
            tokens: Span { from: 24, to: 30 },
        }),
    ),
    (
        "a defence",
        "check_proof defend D4 0 N . N . N .",
        Says::Command(Asks::CheckProof {
            attack: false,
            target: 48,
            code: 0,
            tokens: Span { from: 24, to: 35 },
        }),
    ),
    (
        "a claim behind an id",
        "7 check_proof attack D4 1 W",
        Says::IdAndCommand(
            7,
            Asks::CheckProof {
                attack: true,
                target: 48,
                code: 1,
                tokens: Span { from: 26, to: 27 },
            },
        ),
    ),
    (
        "blanks and a comment",
        "check_proof attack D4 2 \t W \t . \t #.",
        Says::Command(Asks::CheckProof {
            attack: true,
            target: 48,
            code: 2,
            tokens: Span { from: 26, to: 31 },
        }),
    ),
    (
        "dropped bytes",
        "check_proof attack D4 2 \u{1}W .\u{2}",
        Says::Command(Asks::CheckProof {
            attack: true,
            target: 48,
            code: 2,
            tokens: Span { from: 25, to: 28 },
        }),
    ),
    (
        "no words of a proof",
        "check_proof attack D4 2",
        Says::Command(Asks::CheckProof {
            attack: true,
            target: 48,
            code: 2,
            tokens: Span { from: 0, to: 0 },
        }),
    ),
    (
        "blanks alone as a proof",
        "check_proof attack D4 2 \t #W",
        Says::Command(Asks::CheckProof {
            attack: true,
            target: 48,
            code: 2,
            tokens: Span { from: 0, to: 0 },
        }),
    ),
    ("capitals", "check_proof Attack D4 2 W", Says::Malformed),
    (
        "another kind",
        "check_proof attacks D4 2 W",
        Says::Malformed,
    ),
    ("no kind", "check_proof", Says::Malformed),
    ("no vertex to check", "check_proof attack", Says::Malformed),
    (
        "a vertex in the column I",
        "check_proof attack I4 2 W",
        Says::Malformed,
    ),
    (
        "a vertex off the board",
        "check_proof attack D10 2 W",
        Says::Malformed,
    ),
    ("no code", "check_proof attack D4", Says::Malformed),
    ("the digit 4", "check_proof attack D4 4 W", Says::Malformed),
    ("two digits", "check_proof attack D4 03 W", Says::Malformed),
    ("no digit", "check_proof attack D4 W", Says::Malformed),
];

#[test]
fn proofs_may_be_long(rt: HostRuntime) -> Result<(), Fail> {
    let size = Size::new(9).expect(&rt, "the size is one of a board");
    let mut line = String::from_str(rt.alloc(), "check_proof attack D4 3 ")?;
    line.push_str("* ".repeat(rt.alloc(), 32_500)?.as_str())?;
    let want = Parsed::Command {
        id: None,
        command: Command::CheckProof {
            attack: true,
            target: 48,
            code: 3,
            tokens: Span {
                from: 24,
                to: 65_023,
            },
        },
    };
    assert!(rt; line.len() <= LONGEST_LINE);
    assert!(rt; parse(line.as_bytes(), size) == want);
    Ok(())
}

#[test]
fn lines_of_proofs_say_what_their_rows_have(rt: HostRuntime) {
    compare(&rt, 9, &PROOFS_THAT_ARE_ASKED_FOR);
    compare(&rt, 9, &PROOFS_AND_THEIR_CLAIMS);
}
