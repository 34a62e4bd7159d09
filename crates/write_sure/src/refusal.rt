//! Why no proof of a sure capture is answered.

use go_base::NoMemory;
use thiserror::Error;

/// Why no proof of a sure capture is answered.
#[derive(Clone, Copy, Debug, PartialEq, Eq, Error)]
pub enum SureProofError {
    /// The proof has more than 1,048,576 bytes.
    #[error("proof too long")]
    TooLong,
    /// There was no memory for the proof.
    #[error("out of memory")]
    NoMemory,
    /// The search found no text, or the checker did not accept the text that it found.
    #[error("no proof found")]
    NotFound,
}

impl From<NoMemory> for SureProofError {
    fn from(_: NoMemory) -> SureProofError {
        SureProofError::NoMemory
    }
}
