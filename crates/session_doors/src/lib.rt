//! A session of the protocol for a program in another language: without helpers, and without files.
//!
//! `open` makes a session with the patterns of a text and with options that are numbers; `answer` answers one line, and
//! `written` writes the reply into the caller's buffer. The patterns name no helper, and each file that a line names
//! counts as empty. `gopat_session_c` exports this behind a handle.
#![tactic(auto)]

mod held;
pub mod laws;
mod lines;
mod opening;
mod options;
mod replies;

pub use held::HeldSession;
pub use lines::{LineFault, Unanswered, answer};
pub use opening::{OpenFault, OpenedSession, open};
pub use options::SessionOptions;
pub use replies::{LineReply, closed_reply, fault_reply, refused_reply, written};
