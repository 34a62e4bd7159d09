//! Printed proofs of sure captures: what a proof is, what it shows, and a checker.
//!
//! A proof has one word for each node of the game tree that it visits. `.` says that the target is taken and cannot be
//! taken back. A vertex is the attacker's play, and the proof of the node after it follows. `*` is the defender's turn:
//! the proof of the node after his pass follows; then, for each reply that this proof asks for, the vertex of the reply
//! and the proof of the node after it; and then `;`. Every other reply changes nothing on which the proof after the
//! pass rests, so it fails as the pass does. If the defender can take back a lone stone, as he may in the wider tree,
//! the word is the vertex of its point, and the proof of the node after his play there follows. The checker plays on
//! positions alone, does not search the game tree, and takes no memory.
#![tactic(auto)]

mod candidate;
mod checker;
mod guard;
pub mod laws;
mod loss;
mod play;
mod replies;
mod shown;
mod walk;
mod words;

pub use candidate::candidate_shown;
pub use checker::{check_node, checks_surely};
pub use play::play_shown;
pub use replies::{Shown, replies_asked, replies_shown};
