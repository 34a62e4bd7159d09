//! Game records that `loadsgf` lines load.
use super::runs::{CASE, Case, assert_cases};
use crate::sessions::File;

/// Records on a shelf: one without a fault, and one for each kind of fault.
const RECORDS: &[File<'static>] = &[
    File {
        name: "g",
        text: b"(;GM[1]FF[4]SZ[9]AB[dd:ed]AW[aa];B[ee](;W[];B[fe])(;W[ab]))",
    },
    File {
        name: "k1",
        text: b"(;SZ[9]",
    },
    File {
        name: "k2",
        text: b"(;SZ[26])",
    },
    File {
        name: "k3",
        text: b"(;SZ[9]AB[jj])",
    },
    File {
        name: "k4",
        text: b"(;SZ[2]AB[aa][bb]AW[ab][ba])",
    },
    File {
        name: "k5",
        text: b"(;SZ[9];B[dd];W[dd])",
    },
];

/// Lines that load game records, and the refusals of faulty records.
static LOADS: [Case<'static>; 4] = [
    Case {
        name: "undo stops at the loaded position",
        records: RECORDS,
        input: b"loadsgf g\ncountlib E5\nis_legal w A9\nundo\nplay w A1\nundo\nundo\n",
        output: b"=\n\n= 8\n\n= 0\n\n? cannot undo\n\n=\n\n=\n\n? cannot undo\n\n",
        ..CASE
    },
    Case {
        name: "faulty records by kind",
        records: RECORDS,
        input: b"play b D4\nloadsgf k1\nloadsgf k2\nloadsgf k3\nloadsgf k4\nloadsgf k5\nloadsgf\nundo\n",
        output: b"=\n\n? bad sgf kind 1\n\n? bad sgf kind 2\n\n? bad sgf kind 3\n\n? bad sgf kind 4\n\n\
            ? bad sgf kind 5\n\n? syntax error\n\n=\n\n",
        ..CASE
    },
    Case {
        name: "unknown name is missed",
        records: RECORDS,
        input: b"play b D4\n7 loadsgf nothing\nloadsgf \xff\nundo\n",
        output: b"=\n\n?7 cannot load file\n\n? syntax error\n\n=\n\n",
        ..CASE
    },
    Case {
        name: "new size ends the record",
        records: RECORDS,
        input: b"loadsgf g\nboardsize 9\ncaptures b\ncountlib E5\n",
        output: b"=\n\n=\n\n= 0\n\n? vertex must not be empty\n\n",
        ..CASE
    },
];

#[test]
fn records_are_loaded_or_refused(rt: HostRuntime) {
    assert_cases(&rt, rt.alloc(), &LOADS);
}
