//! The number of records with each verdict.

use crate::row::Row;
use problem_verdicts::Verdict;
use std::fmt::{self, Display, Formatter, Write};

/// The number of records that were checked, of records with each verdict, and of records with exactly one answer.
#[derive(Drop)]
pub struct Counts {
    /// All records.
    all: u64,
    /// The records whose answer is as expected.
    as_expected: u64,
    /// The records that have other answers too.
    other_answers_too: u64,
    /// The records that have another answer.
    another_answer: u64,
    /// The records that need no move.
    needs_no_move: u64,
    /// The records that are not solved within the depths.
    not_solved: u64,
    /// The records that do not tell a question or an answer.
    not_told: u64,
    /// The records whose code exactly one move attains.
    one_answer: u64,
}

impl Counts {
    /// The counts before any record.
    pub fn new() -> Counts {
        Counts {
            all: 0,
            as_expected: 0,
            other_answers_too: 0,
            another_answer: 0,
            needs_no_move: 0,
            not_solved: 0,
            not_told: 0,
            one_answer: 0,
        }
    }

    /// The count for `verdict`.
    fn of(&mut self, verdict: Verdict) -> &mut u64 {
        match verdict {
            Verdict::AsExpected => &mut self.as_expected,
            Verdict::OtherAnswersToo => &mut self.other_answers_too,
            Verdict::AnotherAnswer => &mut self.another_answer,
            Verdict::NeedsNoMove => &mut self.needs_no_move,
            Verdict::NotSolved => &mut self.not_solved,
            Verdict::NotTold => &mut self.not_told,
        }
    }

    /// Counts a record.
    pub fn count(&mut self, row: &Row) {
        self.all = self.all.saturating_add(1);
        let count = self.of(row.verdict());
        *count = count.saturating_add(1);
        if row.has_one_answer() {
            self.one_answer = self.one_answer.saturating_add(1);
        }
    }

    /// Whether every record counted is as expected.
    pub fn is_all_as_expected(&self) -> bool {
        self.as_expected == self.all
    }
}

impl Display for Counts {
    fn fmt<W: Write>(&self, f: &mut Formatter<W>) -> fmt::Result {
        write!(
            f,
            "problems {}: as expected {}, other answers too {}, another answer {}, needs no move {}, ",
            self.all,
            self.as_expected,
            self.other_answers_too,
            self.another_answer,
            self.needs_no_move
        )?;
        write!(
            f,
            "not solved within the depths {}, not told {}; one answer {}",
            self.not_solved, self.not_told, self.one_answer
        )
    }
}
