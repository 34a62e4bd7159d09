//! What a session answers to a line.
ghost use Rattle.std.specs.Prelude.{◌≡◌, false};
ghost use Rattle.gtp_cmd.specs.Replies.{refusal_text};

use go_base::Bytes;
use gtp_cmd::{RefuseText, Short, refusal};

/// The answer to one line.
#[derive(Drop)]
pub enum Reply {
    /// The line has no words, and nothing is printed.
    Nothing,
    /// A text that takes no memory; `quit` says whether it ends the session.
    Short { text: Short, quit: bool },
    /// A text that took memory.
    Text { bytes: Bytes },
    /// There was no memory for a growing reply: the refusal `out of memory` takes its place, and the line counts as not
    /// sent.
    NoMemory { id: Option<u32> },
}

impl Reply {
    /// The reply that refuses a line with `text`.
    pub(crate) fn refused(id: Option<u32>, text: RefuseText) -> Reply
        ensures { result ≡ Reply.Short (refusal_text id text) false }
    {
        Reply::Short {
            text: refusal(id, text),
            quit: false,
        }
    }
}
