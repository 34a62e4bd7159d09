//! What a record lacks to be a problem.

ghost use Rattle.std.specs.Prelude.{◌≡◌};
ghost use Rattle.problem_records.specs.declared.lack.ProblemError.TheVariants as error;

use go_base::NoMemory;
use std::alloc::{AllocError, AllocFailed};
use thiserror::Error;

/// What a record lacks to be a problem.
#[derive(Clone, Copy, Debug, Drop, Error)]
pub enum Lack {
    /// The first node leads to no position. The number tells the kind of the fault.
    #[error("bad sgf kind {0}")]
    BadRecord(u8),
    /// The record has no line `gopat:`, and no stone is marked.
    #[error("no line gopat: and no marked stone")]
    NoMark,
    /// The record has no line `gopat:`, and more than one stone is marked.
    #[error("no line gopat: and more than one marked stone")]
    ManyMarks,
    /// The record has no line `gopat:`, and does not say who is to play.
    #[error("no player to move (PL)")]
    NoPlayer,
    /// The record has more than one line `gopat:`.
    #[error("more than one line gopat:")]
    ManyLines,
    /// The line does not say which question is asked.
    #[error("no attack or defend in the line gopat:")]
    NoKind,
    /// The line does not say which point is asked about.
    #[error("no target in the line gopat:")]
    NoTarget,
    /// No stone stands at the target.
    #[error("no stone at the target")]
    NoStone,
    /// The depths in the line are not two numbers in their ranges.
    #[error("no plies from 1 to 200 and wide plies from 0 to 12 behind depths")]
    NoDepths,
    /// The code in the line is not a number from 0 to 3.
    #[error("no code from 0 to 3 behind code")]
    NoCode,
    /// The answer in the line is not a move.
    #[error("no vertex behind answer")]
    NoVertex,
    /// The line asks for an attack and has the pass as an answer; a pass does not attack.
    #[error("no attack by a pass")]
    NoPass,
    /// The line has `only`, but no answer.
    #[error("no answer beside only")]
    NoOnly,
    /// The line expects code 0, a failure, and yet has an answer.
    #[error("no answer with code 0")]
    NoSuccess,
    /// A part of the line stands twice.
    #[error("no part of the line gopat: may stand twice")]
    Twice,
    /// A word of the line has no meaning.
    #[error("no meaning of a word in the line gopat:")]
    NoMeaning,
}

/// The reason why a record is no problem.
#[derive(Clone, Copy, Debug, Drop, Error)]
pub enum ProblemError {
    /// The record lacks something.
    #[error("{0}")]
    Lacks(Lack),
    /// Memory ran out.
    #[error("out of memory")]
    NoMemory,
}

impl From<Lack> for ProblemError {
    ghost from_gives = { λ lack e. e ≡ error.Lacks lack };

    fn from(lack: Lack) -> ProblemError {
        ProblemError::Lacks(lack)
    }
}

impl From<NoMemory> for ProblemError {
    ghost from_gives = { λ _ e. e ≡ error.NoMemory };

    fn from(_: NoMemory) -> ProblemError {
        ProblemError::NoMemory
    }
}

impl From<AllocError> for ProblemError {
    ghost from_gives = { λ _ e. e ≡ error.NoMemory };

    fn from(_: AllocError) -> ProblemError {
        ProblemError::NoMemory
    }
}

impl<T: Drop> From<AllocFailed<T>> for ProblemError {
    ghost from_gives = { λ _ e. e ≡ error.NoMemory };

    fn from(_: AllocFailed<T>) -> ProblemError {
        ProblemError::NoMemory
    }
}
