//! The number of records with each verdict.

use super::{Fail, usual};
use problem_rows::{Counts, Row, row_of};
use problem_verdicts::{Replies, Scope};

/// One record for each verdict; three of them have exactly one answer.
static RECORDS: [&str; 6] = [
    "(;SZ[9]AB[df]AW[cf][ef][de]C[gopat: attack D4 answer D3])",
    "(;SZ[9]AB[bh]AW[ai]C[gopat: attack A1 answer B1 only])",
    "(;SZ[9]AB[df]AW[cf][ef][de]C[gopat: attack D4 answer C3])",
    "(;SZ[5]AB[ad][bd][ce]AW[ae]C[gopat: attack A1 answer B1])",
    "(;SZ[9]AB[bh]AW[ai]C[gopat: attack A1 depths 2 0 answer A2])",
    "(;SZ[9]AB[bh]AW[ai])",
];

#[test]
fn records_of_each_kind(rt: HostRuntime) -> Result<(), Fail> {
    let mut counts = Counts::new();
    assert!(rt; counts.is_all_as_expected());
    for record in RECORDS {
        counts.count(&row_of(
            rt.alloc(),
            record.as_bytes(),
            usual()?,
            Replies::Tried,
            Scope::Tried,
            false,
        )?);
    }
    counts.count(&Row::NotLoaded);
    let text = format!(in rt.alloc(); "{counts}")?;
    assert!(rt; !counts.is_all_as_expected());
    assert!(rt;
        text.as_str()
            == "problems 7: as expected 1, other answers too 1, another answer 1, needs no move 1, \
             not solved within the depths 1, not told 2; one answer 3",
        "{text}"
    );
    Ok(())
}
