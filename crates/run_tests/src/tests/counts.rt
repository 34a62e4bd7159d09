//! The counts of readings and of connections.
use super::runs::{CASE, Case, ExpectedResult, assert_cases, compare, run_on};
use std::alloc::Global;
use std::process::Abort;

/// The option that asks for a run's counts.
pub(super) const STATS: &[&str] = &["--stats"];

/// A reading is used again if what it looked at has not changed, and with ample memory every reading is cached.
///
/// ```text
/// . . O . .
/// . O X O .     Black's stone at D4 has its last liberty at D3.
/// . . . . .
/// ```
///
/// Without a wide ply the attacker tries only D3. With a wide ply he tries C3 first, which comes before D3 in reading
/// order: Black then extends to D3 and has more liberties than the last ply can fill, which the reader sees without a
/// trial move.
static COUNTED_READINGS: [Case<'static>; 8] = [
    Case {
        name: "a refused question counts nothing, and the first that is answered is kept for the second",
        options: STATS,
        input: b"boardsize 9\ndepths 3 2\nplay b D4\nplay w C4\nplay w E4\nplay w D5\nattack D4\nattack E5\n\
            attack D4\n",
        output: b"=\n\n=\n\n=\n\n=\n\n=\n\n=\n\n= 3 D3\n\n? vertex must not be empty\n\n= 3 D3\n\n",
        notes: b"readings 2 fresh 1 trials 2 refused 0\n",
        ..CASE
    },
    Case {
        name: "without a wide ply the attacker tries the last liberty alone",
        options: STATS,
        input: b"boardsize 9\nplay b D4\nplay w C4\nplay w E4\nplay w D5\ndepths 1 0\nattack D4\n",
        output: b"=\n\n=\n\n=\n\n=\n\n=\n\n=\n\n= 3 D3\n\n",
        notes: b"readings 1 fresh 1 trials 1 refused 0\n",
        ..CASE
    },
    Case {
        name: "with one he tries a neighbour of it before",
        options: STATS,
        input: b"boardsize 9\nplay b D4\nplay w C4\nplay w E4\nplay w D5\ndepths 3 2\nattack D4\n",
        output: b"=\n\n=\n\n=\n\n=\n\n=\n\n=\n\n= 3 D3\n\n",
        notes: b"readings 1 fresh 1 trials 2 refused 0\n",
        ..CASE
    },
    Case {
        name: "a kept reading tries nothing, and other depths ask afresh",
        options: STATS,
        input: b"boardsize 9\nplay b D4\nplay w C4\nplay w E4\nplay w D5\ndepths 3 2\nattack D4\nattack D4\n\
            depths 1 0\nattack D4\n",
        output: b"=\n\n=\n\n=\n\n=\n\n=\n\n=\n\n= 3 D3\n\n= 3 D3\n\n=\n\n= 3 D3\n\n",
        notes: b"readings 3 fresh 2 trials 3 refused 0\n",
        ..CASE
    },
    Case {
        name: "a distant move keeps a reading",
        options: STATS,
        input: b"depths 3 2\nplay b D4\nplay w C4\nplay w E4\nplay w D5\nattack D4\nplay b Q16\nattack D4\n",
        output: b"=\n\n=\n\n=\n\n=\n\n=\n\n= 3 D3\n\n=\n\n= 3 D3\n\n",
        notes: b"readings 2 fresh 1 trials ",
        behind_trials: b" refused 0\n",
        ..CASE
    },
    Case {
        name: "a near move asks afresh, and undo finds the first again",
        options: STATS,
        input: b"boardsize 9\ndepths 3 2\nplay b D4\nplay b C5\nplay b E5\nplay b C6\nplay b E6\nplay b C7\nplay w C4\n\
            play w E4\nplay w C3\nplay w E3\nplay w D2\nplay w D5\nplay w D6\nplay w D7\ndefend D4\nplay b D8\n\
            defend D4\nundo\ndefend D4\n",
        output: b"=\n\n=\n\n=\n\n=\n\n=\n\n=\n\n=\n\n=\n\n=\n\n=\n\n=\n\n=\n\n=\n\n=\n\n=\n\n=\n\n= 0\n\n=\n\n\
            = 3 E7\n\n\
            =\n\n= 0\n\n",
        notes: b"readings 3 fresh 2 trials ",
        behind_trials: b" refused 0\n",
        ..CASE
    },
    Case {
        name: "other depths are another question",
        options: STATS,
        input: b"depths 3 2\nplay b D4\nplay w C4\nplay w E4\nplay w D5\nattack D4\ndepths 4 2\nattack D4\ndepths 4 1\n\
            attack D4\ndepths 3 2\nattack D4\n",
        output: b"=\n\n=\n\n=\n\n=\n\n=\n\n= 3 D3\n\n=\n\n= 3 D3\n\n=\n\n= 3 D3\n\n=\n\n= 3 D3\n\n",
        notes: b"readings 4 fresh 3 trials ",
        behind_trials: b" refused 0\n",
        ..CASE
    },
    Case {
        name: "attack and defend are two questions",
        options: STATS,
        input: b"depths 3 2\nplay b D4\nattack D4\ndefend D4\nattack D4\ndefend D4\n",
        output: b"=\n\n=\n\n= 0\n\n= 3 PASS\n\n= 0\n\n= 3 PASS\n\n",
        notes: b"readings 4 fresh 2 trials ",
        behind_trials: b" refused 0\n",
        ..CASE
    },
];

/// Nine stones that stand apart, one question about each, and the first question once more.
const NINE_READINGS: &[u8] =
    b"play b D4\nplay b D10\nplay b D16\nplay b K4\nplay b K10\nplay b K16\nplay b Q4\nplay b Q10\n\
        play b Q16\nattack D4\nattack D10\nattack D16\nattack K4\nattack K10\nattack K16\nattack Q4\n\
        attack Q10\nattack Q16\nattack D4\n";

/// The replies to `NINE_READINGS`: no lone stone is captured.
const NINE_CODES: &[u8] =
    b"=\n\n=\n\n=\n\n=\n\n=\n\n=\n\n=\n\n=\n\n=\n\n= 0\n\n= 0\n\n= 0\n\n= 0\n\n= 0\n\n= 0\n\n= 0\n\n= 0\n\n= 0\n\n\
        = 0\n\n";

/// Nine stones that stand apart, each connected with itself, and the first once more. The nine readings before the last
/// connection push no connection out of the cache.
const NINE_CONNECTIONS: &[u8] =
    b"play b D4\nplay b D10\nplay b D16\nplay b K4\nplay b K10\nplay b K16\nplay b Q4\nplay b Q10\n\
        play b Q16\nconnect D4 D4\nconnect D10 D10\nconnect D16 D16\nconnect K4 K4\nconnect K10 K10\n\
        connect K16 K16\nconnect Q4 Q4\nconnect Q10 Q10\nconnect Q16 Q16\nattack D4\nattack D10\nattack D16\n\
        attack K4\nattack K10\nattack K16\nattack Q4\nattack Q10\nattack Q16\nconnect D4 D4\n";

/// The replies to `NINE_CONNECTIONS`: a stone is connected with itself.
const NINE_JOINS: &[u8] =
    b"=\n\n=\n\n=\n\n=\n\n=\n\n=\n\n=\n\n=\n\n=\n\n= 1 PASS\n\n= 1 PASS\n\n= 1 PASS\n\n= 1 PASS\n\n= 1 PASS\n\n\
        = 1 PASS\n\n= 1 PASS\n\n= 1 PASS\n\n= 1 PASS\n\n= 0\n\n= 0\n\n= 0\n\n= 0\n\n= 0\n\n= 0\n\n= 0\n\n= 0\n\n= 0\n\
        \n= 1 PASS\n\n";

/// The cache holds as many questions as the option says; the ninth takes the place of the one used longest ago.
static MOST_KEPT: [Case<'static>; 4] = [
    Case {
        name: "eight questions are kept of nine",
        options: &["--depth", "3", "--branch", "2", "--cache", "8", "--stats"],
        input: NINE_READINGS,
        output: NINE_CODES,
        notes: b"readings 10 fresh 10 trials ",
        behind_trials: b" refused 0\n",
        ..CASE
    },
    Case {
        name: "nine questions are kept of nine",
        options: &["--depth", "3", "--branch", "2", "--cache", "9", "--stats"],
        input: NINE_READINGS,
        output: NINE_CODES,
        notes: b"readings 10 fresh 9 trials ",
        behind_trials: b" refused 0\n",
        ..CASE
    },
    Case {
        name: "eight connections are kept of nine",
        options: &["--depth", "3", "--branch", "2", "--cache", "8", "--stats"],
        input: NINE_CONNECTIONS,
        output: NINE_JOINS,
        notes: b"readings 9 fresh 9 trials ",
        behind_trials: b" refused 0\nconnections 10 fresh 10\n",
        ..CASE
    },
    Case {
        name: "nine connections are kept of nine",
        options: &["--depth", "3", "--branch", "2", "--cache", "9", "--stats"],
        input: NINE_CONNECTIONS,
        output: NINE_JOINS,
        notes: b"readings 9 fresh 9 trials ",
        behind_trials: b" refused 0\nconnections 10 fresh 9\n",
        ..CASE
    },
];

/// A connection is used again if what it looked at has not changed. The note of connections stands after that of
/// readings.
///
/// The stones are Black's, at C5 and E5 of a board of nine rows, with D5 between them, where White cuts.
static KEPT_CONNECTIONS: [Case<'static>; 7] = [
    Case {
        name: "a distant move keeps a connection",
        options: STATS,
        input: b"boardsize 9\ndepths 3 2\nplay b C5\nplay b E5\nconnect C5 E5\nplay b J1\nconnect C5 E5\n",
        output: b"=\n\n=\n\n=\n\n=\n\n= 1 D5\n\n=\n\n= 1 D5\n\n",
        notes: b"readings 0 fresh 0 trials 0 refused 0\nconnections 2 fresh 1\n",
        ..CASE
    },
    Case {
        name: "a cut asks afresh, and undo finds the first again",
        options: STATS,
        input: b"boardsize 9\ndepths 3 2\nplay b C5\nplay b E5\nconnect C5 E5\nplay w D5\nconnect C5 E5\nundo\n\
            connect C5 E5\nplay w D5\nconnect C5 E5\n",
        output: b"=\n\n=\n\n=\n\n=\n\n= 1 D5\n\n=\n\n= 0\n\n=\n\n= 1 D5\n\n=\n\n= 0\n\n",
        notes: b"readings 0 fresh 0 trials 0 refused 0\nconnections 4 fresh 2\n",
        ..CASE
    },
    Case {
        name: "other plies are another question, other wide plies are not",
        options: STATS,
        input: b"boardsize 9\ndepths 3 2\nplay b C5\nplay b E5\nconnect C5 E5\ndepths 2 2\nconnect C5 E5\ndepths 3 1\n\
            connect C5 E5\n",
        output: b"=\n\n=\n\n=\n\n=\n\n= 1 D5\n\n=\n\n= 1 D5\n\n=\n\n= 1 D5\n\n",
        notes: b"readings 0 fresh 0 trials 0 refused 0\nconnections 3 fresh 2\n",
        ..CASE
    },
    Case {
        name: "the other kind is another question, and so is the other order",
        options: STATS,
        input: b"boardsize 9\ndepths 3 2\nplay b C5\nplay b E5\nconnect C5 E5\ndisconnect C5 E5\nconnect E5 C5\n\
            disconnect C5 E5\nconnect C5 C5\ndisconnect C5 C5\n",
        output: b"=\n\n=\n\n=\n\n=\n\n= 1 D5\n\n= 1 D5\n\n= 1 D5\n\n= 1 D5\n\n= 1 PASS\n\n= 0\n\n",
        notes: b"readings 0 fresh 0 trials 0 refused 0\nconnections 6 fresh 5\n",
        ..CASE
    },
    Case {
        name: "another size is another question",
        options: STATS,
        input: b"boardsize 9\ndepths 3 2\nplay b C5\nplay b E5\nconnect C5 E5\nboardsize 7\nplay b C5\nplay b E5\n\
            connect C5 E5\nboardsize 9\nplay b C5\nplay b E5\nconnect C5 E5\n",
        output: b"=\n\n=\n\n=\n\n=\n\n= 1 D5\n\n=\n\n=\n\n=\n\n= 1 D5\n\n=\n\n=\n\n=\n\n= 1 D5\n\n",
        notes: b"readings 0 fresh 0 trials 0 refused 0\nconnections 3 fresh 2\n",
        ..CASE
    },
    Case {
        name: "readings and connections are counted apart",
        options: STATS,
        input: b"boardsize 9\ndepths 3 2\nplay b C5\nplay b E5\nattack C5\nconnect C5 E5\nattack C5\nconnect C5 E5\n",
        output: b"=\n\n=\n\n=\n\n=\n\n= 0\n\n= 1 D5\n\n= 0\n\n= 1 D5\n\n",
        notes: b"readings 2 fresh 1 trials 0 refused 0\nconnections 2 fresh 1\n",
        ..CASE
    },
    Case {
        name: "a refused question is not counted, and without one there is no note",
        options: STATS,
        input: b"boardsize 9\nplay b C5\nplay w E5\nconnect C5 E5\ndisconnect C5 D5\nconnect D5 C5\nconnect C5\n",
        output: b"=\n\n=\n\n=\n\n? colours differ\n\n? vertex must not be empty\n\n? vertex must not be empty\n\n\
            ? syntax error\n\n",
        notes: b"readings 0 fresh 0 trials 0 refused 0\n",
        ..CASE
    },
];

// The runs of the three tables above.
#[test]
fn readings_and_connections_are_counted(rt: HostRuntime) {
    assert_cases(&rt, rt.alloc(), &COUNTED_READINGS);
    assert_cases(&rt, rt.alloc(), &MOST_KEPT);
    assert_cases(&rt, rt.alloc(), &KEPT_CONNECTIONS);
}

/// Runs the case without its options, and compares all that came of it.
fn assert_silent(rt: &impl Abort, alloc: Global, case: &Case<'_>) {
    let ran = run_on(rt, alloc, &[], case.files, case.input, case.way);
    let expected = ExpectedResult {
        output: case.output,
        noted: ran.notes.bytes().is_empty(),
        status: case.status,
        left: case.left,
    };
    compare(rt, case.name, &ran, expected);
}

#[test]
fn nothing_is_noted_where_no_counts_are_asked_for(rt: HostRuntime) {
    for case in &KEPT_CONNECTIONS {
        assert_silent(&rt, rt.alloc(), case);
    }
}
