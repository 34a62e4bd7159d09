//! What records lead to: their faults by kind, and their positions.

mod bytes;
mod faults;
mod first;
mod grammar;
mod positions;
mod values;

use bytes::ENCODINGS;
use faults::{KINDS, SEVERAL};
use grammar::TREES;
use sgf_read::read;
use std::process::Abort;
use values::{PASSES, POINTS, SIZES};

/// What is special about a record, the record, and the number of its first fault, or 0 if it has none.
type Record = (&'static str, &'static [u8], u8);

/// The number of a record's first fault, or 0 if it has none.
fn fault_of(record: &[u8]) -> u8 {
    match read(record) {
        Ok(_) => 0,
        Err(e) => e.kind,
    }
}

/// Checks the first faults of a table of records.
fn compare(rt: &impl Abort, records: &[Record]) {
    for &(what, record, kind) in records {
        assert!(rt; fault_of(record) == kind, "{what}");
    }
}

#[test]
fn first_faults_of_records(rt: HostRuntime) {
    compare(&rt, &TREES);
    compare(&rt, &ENCODINGS);
    compare(&rt, &KINDS);
    compare(&rt, &SEVERAL);
    compare(&rt, &SIZES);
    compare(&rt, &POINTS);
    compare(&rt, &PASSES);
}
