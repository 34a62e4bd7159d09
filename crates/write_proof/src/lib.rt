//! Printed proofs of readings: the code of an attack or a defence, and the first proof of it.
//!
//! `read_proof` says what a proof is, and checks one without the reader. Here the reader finds a proof: at each node it
//! is asked for the first move that proves the claim. `docs/PROOFS_OF_READINGS.md` explains a proof word by word.
#![tactic(auto)]

mod alike;
mod codes;
mod first;
mod room;
mod settled;
mod taking_back;
mod text;
mod thrice;
mod walk;

pub use first::{Proof, first_proof, write_first};
pub use read_proof::{Depths, ProofOf, Tree};
pub use room::Text;
pub use text::{NoRoom, ProofError};
