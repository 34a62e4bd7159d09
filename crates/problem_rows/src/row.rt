//! The row of a record.

ghost use Rattle.std.specs.Prelude.{◌≡◌, IfOk};
ghost use Rattle.problem_rows.specs.Rows.{IsJudged, IsRowOf, verdict_in, has_one_answer};

use go_base::{Bytes, NoMemory};
use problem_records::{Lack, Problem, ProblemError, problem_of};
use problem_verdicts::{Depths, Judged, Replies, Scope, Verdict, judge};
use std::alloc::Global;
use write_proof::{ProofError, first_proof};

/// What is found of a record that asks a question.
#[derive(Drop)]
pub struct Asked {
    /// What the record asks.
    pub problem: Problem,
    /// The defender's replies against which the answer holds.
    pub replies: Replies,
    /// The moves that are judged.
    pub scope: Scope,
    /// What is found, and the verdict.
    pub judged: Judged,
    /// The first proof of a code that is not a sure one, if a proof is asked for; `Some(None)` if that proof is too
    /// long.
    pub proof: Option<Option<Bytes>>,
}

/// The row of a record.
#[derive(Drop)]
pub enum Row {
    /// The record asks a question.
    Asked(Asked),
    /// The record lacks something.
    Lacks(Lack),
    /// The record cannot be loaded.
    NotLoaded,
}

/// The first proof of the code of a problem's question; `None` if it is too long.
fn proof_of(alloc: Global, problem: &Problem) -> Result<Option<Bytes>, NoMemory> {
    match first_proof(
        alloc,
        &problem.position,
        problem.kind,
        problem.target,
        problem.depths,
    ) {
        Ok(proof) => Ok(Some(proof.text)),
        Err(ProofError::TooLong) => Ok(None),
        Err(ProofError::NoMemory) => Err(NoMemory),
    }
}

/// What is found of a problem against these `replies`, by the moves of `scope`, with its proof if `proves`.
fn asked_of(
    alloc: Global,
    problem: Problem,
    replies: Replies,
    scope: Scope,
    proves: bool,
) -> Result<Asked, NoMemory>
    ensures { IfOk result (λ told. IsJudged problem replies scope told) }
{
    let judged = judge(
        &problem.position,
        problem.kind,
        problem.target,
        problem.depths,
        replies,
        scope,
        &problem.expected,
    );
    let proof = if proves && replies == Replies::Tried {
        Some(proof_of(alloc, &problem)?)
    } else {
        None
    };
    Ok(Asked {
        problem,
        replies,
        scope,
        judged,
        proof,
    })
}

/// The row of the record with this `text`. The question has these `depths` if the record says none; its answer holds
/// against `replies`, and the moves of `scope` are judged. If `proves`, the row has the proof of the code; a sure code
/// has no proof. Takes memory.
pub fn row_of(
    alloc: Global,
    text: &[u8],
    depths: Depths,
    replies: Replies,
    scope: Scope,
    proves: bool,
) -> Result<Row, NoMemory>
    ensures { IfOk result (λ row. IsRowOf text.now depths replies scope row) }
{
    match problem_of(alloc, text, depths) {
        Ok(problem) => Ok(Row::Asked(asked_of(alloc, problem, replies, scope, proves)?)),
        Err(ProblemError::Lacks(lack)) => Ok(Row::Lacks(lack)),
        Err(ProblemError::NoMemory) => Err(NoMemory),
    }
}

impl Row {
    /// The verdict on the record.
    pub fn verdict(&self) -> Verdict
        ensures { result ≡ verdict_in self.now }
    {
        match self {
            Row::Asked(asked) => asked.judged.verdict,
            Row::Lacks(_) | Row::NotLoaded => Verdict::NotTold,
        }
    }

    /// Whether exactly one move attains the code.
    pub fn has_one_answer(&self) -> bool
        ensures { result ≡ has_one_answer self.now }
    {
        match self {
            Row::Asked(asked) => asked.judged.found.moves.count() == 1,
            Row::Lacks(_) | Row::NotLoaded => false,
        }
    }
}
