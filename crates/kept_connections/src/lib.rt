//! Cached answers about connections, with counts.
//!
//! `Connections` answers each question as a fresh reading does. It caches the answer with the facts that it rests on,
//! and answers from the cache exactly if a cached variant of the question stands on the position: if its facts hold
//! there.
//!
//! After GNU Go Manual, "Tactical reading", on the persistent cache; connections are read by this project's own tree.
#![tactic(auto)]

mod connections;
mod key;

pub use connect_rules::{LinkKind, LinkQuestion, LinkSpot, Linkage};
pub use connections::Connections;
pub use key::LinkKey;
