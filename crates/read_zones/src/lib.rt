//! Finds sure captures together with the points on which they rest, their zones. If a reply of the defender changes
//! nothing on which the capture after his pass rests, it fails as the pass does, so only the other replies are read.
//! `sure_attack` and `sure_defend` answer questions about one position in this way.
#![tactic(auto)]

mod answers;
mod looks;
mod outlook;
mod seen;
mod tree;

pub use answers::{sure_attack, sure_defend};
pub use tree::zone_of;
