//! The errors of reading the options.
ghost use Rattle.std.specs.Prelude.{◌≡◌};
ghost use Rattle.go_options.specs.declared.errors.OptionsError.TheVariants as cause;

use std::alloc::AllocError;
use thiserror::Error;

/// There was no memory.
#[derive(Clone, Copy, Debug, PartialEq, Eq, Error)]
#[error("out of memory")]
pub struct NoMemory;

/// Why the words give no options: the command line does not take them, or there was no memory.
#[derive(Clone, Copy, Debug, PartialEq, Eq, Error)]
pub enum OptionsError {
    /// The command line does not take the words.
    #[error("wrong options")]
    Usage,
    /// There was no memory.
    #[error("out of memory")]
    NoMemory,
}

impl From<AllocError> for NoMemory {
    fn from(_error: AllocError) -> NoMemory {
        NoMemory
    }
}

impl From<AllocError> for OptionsError {
    ghost from_gives = { λ _ e. e ≡ cause.NoMemory };

    fn from(_error: AllocError) -> OptionsError {
        OptionsError::NoMemory
    }
}

impl From<NoMemory> for OptionsError {
    ghost from_gives = { λ _ e. e ≡ cause.NoMemory };

    fn from(_error: NoMemory) -> OptionsError {
        OptionsError::NoMemory
    }
}
