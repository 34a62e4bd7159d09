//! The entries of texts that are taken, and their patterns.

use pattern_report::{NoMemory, Report, report_on};
use std::alloc::Global;

/// The lines of the entries that are taken, and after a colon the names of the patterns.
fn taken(alloc: Global, text: &[u8]) -> Result<String, NoMemory> {
    let report: Report = report_on(alloc, text, &[])?;
    let mut told = String::new(alloc);
    for part in &report.entries {
        write!(&mut told, "{} ", part.number)?;
    }
    told.push_str(":")?;
    for pattern in &report.patterns {
        for byte in pattern.name.as_slice() {
            write!(&mut told, " {}", char::from(*byte))?;
        }
    }
    Ok(told)
}

/// Whether `want` names exactly the entries of a text that are taken.
fn is_taken(alloc: Global, text: &[u8], want: &str) -> bool {
    match taken(alloc, text) {
        Ok(told) => told.as_str() == want,
        Err(NoMemory) => false,
    }
}

/// Texts with the lines and the names of the entries that are taken.
static TEXTS: [(&str, &[u8], &str); 4] = [
    (
        "all entries of a text without a fault",
        b"Pattern A\nO*\n:8\nPattern B\nO*\n:8\nPattern C\nO*\n:8\nPattern D\nO*\n:8\n",
        "1 4 7 10 : A B C D",
    ),
    (
        "those before and behind an entry with a fault",
        b"Pattern A\nO*\n:8\nPattern B\nO0\n:8\nPattern C\nO*\n:8\nPattern D\nO*\n:8\n",
        "1 7 10 : A C D",
    ),
    (
        "those behind a fault before the first entry",
        b":8\nPattern A\nO*\n:8\n",
        "2 : A",
    ),
    (
        "an entry behind one that ends too early",
        b"Pattern A\nO*\nPattern B\nO*\n:8\n",
        "3 : B",
    ),
];

#[test]
fn entries_without_a_fault_are_taken(rt: HostRuntime) {
    for &(what, text, want) in &TEXTS {
        assert!(rt; is_taken(rt.alloc(), text, want), "{what}");
    }
}
