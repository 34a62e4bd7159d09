//! What the machine answers to a command, before the id of its line is known.

ghost use Rattle.std.specs.Prelude.{◌≡◌, ◌≤◌, ℕ, List, length};
ghost use Rattle.gtp_cmd.specs.Rooms.{result_room};
ghost use Rattle.gtp_rules.specs.Transcript.{MayGive};
ghost use Rattle.sure_lines.specs.Answers.{IsAnswer};
ghost use Rattle.sure_lines.specs.Effects.{Effect, replied};
ghost use Rattle.sure_lines.specs.Replies.{reply_bytes, reply_ends};
ghost use Rattle.sure_lines.specs.Machine.{Machine};

use crate::reply::Reply;
use go_base::Bytes;
use gtp_cmd::{RefuseText, Short, short, success};
use std::alloc::Global;
use std::marker::Model;

/// The result of a short success: at most 32 bytes.
#[derive(Drop)]
pub(crate) struct Brief {
    /// The bytes of the result.
    text: Short,
}

impl Model for Brief {
    ghost use Rattle.std.specs.Prelude.{◌≤◌, List, ℕ, length};
    ghost use Rattle.gtp_cmd.specs.Rooms.{result_room};

    ghost Value = { List ℕ };

    ghost view = { λ b. b.text };

    ghost invariant = { λ b. length b.text ≤ result_room };
}

impl Brief {
    /// A result with this text.
    pub(crate) fn of(text: Short) -> Brief
        requires { length text ≤ result_room }
        ensures { result ≡ text }
    {
        Brief { text }
    }

    /// The bytes of the result.
    pub(crate) fn as_slice(&self) -> &[u8]
        ensures text { result.now ≡ self.now }
        ensures short { length result.now ≤ result_room }
    {
        self.text.as_slice()
    }
}

/// The answer to a command.
#[derive(Drop)]
pub(crate) enum Answer {
    /// A success with a short result.
    Brief(Brief),
    /// A success with a result that took memory.
    Grown(Bytes),
    /// There was no memory, and nothing changed.
    NoMemory,
    /// A refusal.
    Refused(RefuseText),
    /// The success that ends the session.
    Ended,
}

/// A success with these bytes as its result.
pub(crate) fn brief_answer(bytes: &[u8]) -> Answer
    requires { length bytes.now ≤ result_room }
    ensures { result ≡ Answer.Brief bytes.now }
{
    Answer::Brief(Brief::of(Short::of(bytes)))
}

/// A success with this text as its result.
pub(crate) fn text_answer(text: Short) -> Answer
    requires { length text ≤ result_room }
    ensures { result ≡ Answer.Brief text }
{
    Answer::Brief(Brief::of(text))
}

impl Answer {
    /// The reply that has this answer after the id. Takes memory if the result took memory.
    pub(crate) fn reply(self, alloc: Global, id: Option<u32>) -> Reply
        ensures { (effect : Effect) (old new : Machine) → IsAnswer effect self old new
            → MayGive (replied id old effect) (reply_bytes result) new (reply_ends result) }
    {
        match self {
            Answer::Brief(text) => Reply::Short {
                text: short(id, text.as_slice()),
                quit: false,
            },
            Answer::Grown(text) => match success(id, text.as_slice(), Bytes::new(alloc)) {
                Ok(bytes) => Reply::Text { bytes },
                Err(_) => Reply::NoMemory { id },
            },
            Answer::NoMemory => Reply::NoMemory { id },
            Answer::Refused(text) => Reply::refused(id, text),
            Answer::Ended => Reply::Short {
                text: short(id, b""),
                quit: true,
            },
        }
    }
}
