//! Printed proofs of sure captures, found by search.
//!
//! `sure_proof` says what a proof of a sure capture is, and checks one without a search. This crate finds a proof:
//! `read_zones` tells which play captures, and the zone of each pass, as the checker computes it, tells which replies
//! the proof has to give. A text is answered only if the checker accepts it, so each text that is answered is a proof.
#![tactic(auto)]

mod checked_proof;
mod refusal;
mod text;
mod walk;

pub use checked_proof::sure_proof;
pub use refusal::SureProofError;
