//! What a session answers to a command, before the id of its line is known.
ghost use Rattle.std.specs.Prelude.{◌≡◌, ◌≤◌, List, ℕ, Some, length, decimal, IfOk};
ghost use Rattle.gtp_cmd.specs.Rooms.{result_room};
ghost use Rattle.machine_rules.specs.Machine.{Machine};
ghost use Rattle.gtp_rules.specs.Transcript.{MayGive};
ghost use Rattle.gtp_cmd.specs.declared.refusals.RefuseText.TheVariants.{OutOfMemory};
ghost use Rattle.machine_rules.specs.Effects.{Effect, IsExcused, grown, replied};
ghost use Rattle.machine_rules.specs.Loads.{missed_by};
ghost use Rattle.session_core.specs.CommandAnswers.{Succeeds, IsAnswer, named, missed_as};
ghost use Rattle.session_core.specs.Replies.{reply_bytes, reply_ends, reply_count};

use crate::reply::Reply;
use go_base::{Bytes, NoMemory};
use gtp_cmd::{RefuseText, Short, short, success};
use itoa::Buffer;
use std::alloc::Global;
use std::marker::Model;

/// The result of a short success: at most 32 bytes.
#[derive(Drop)]
pub(crate) struct Brief {
    text: Short,
}

impl Model for Brief {
    ghost use Rattle.std.specs.Prelude.{◌≤◌, List, ℕ, length};
    ghost use Rattle.gtp_cmd.specs.Rooms.{result_room};

    ghost Value = { List ℕ };

    ghost view = { λ b. b.text };

    ghost invariant = { λ b. length b.text ≤ result_room };
}

impl Brief {
    /// A text of these bytes.
    pub(crate) fn new(bytes: &[u8]) -> Brief
        requires { length bytes.now ≤ result_room }
        ensures { result ≡ bytes.now }
    {
        let mut text = Short::new();
        text.extend(bytes);
        Brief { text }
    }

    /// The result `text`, moved and not copied.
    pub(crate) fn of(text: Short) -> Brief
        requires { length text ≤ result_room }
        ensures { result ≡ text }
    {
        Brief { text }
    }

    /// A number in decimal.
    pub(crate) fn number(n: u32) -> Brief
        ensures { result ≡ decimal n }
    {
        let mut buffer = Buffer::new();
        Brief::new(buffer.format(n).as_bytes())
    }

    /// The bytes of the result.
    pub(crate) fn as_slice(&self) -> &[u8]
        ensures text { result.now ≡ self.now }
        ensures short { length result.now ≤ result_room }
    {
        self.text.as_slice()
    }
}

/// The answer to a command.
#[derive(Drop)]
pub(crate) enum Answer {
    /// A success with a short result.
    Brief(Brief),
    /// A success with a result that took memory, in a growing reply.
    Grown(Bytes),
    /// There was no memory for a growing reply.
    NoMemory,
    /// A refusal.
    Refused(RefuseText),
    /// The success that ends the session.
    Ended,
}

/// A success with this result.
pub(crate) fn brief_answer(text: &[u8]) -> Answer
    requires { length text.now ≤ result_room }
    ensures { result ≡ Answer.Brief text.now }
{
    Answer::Brief(Brief::new(text))
}

/// A success with this text as its result.
pub(crate) fn text_answer(text: Short) -> Answer
    requires { length text ≤ result_room }
    ensures { result ≡ Answer.Brief text }
{
    Answer::Brief(Brief::of(text))
}

/// A success with this number as its result.
pub(crate) fn number_answer(n: u32) -> Answer
    ensures { result ≡ Answer.Brief (decimal n) }
{
    Answer::Brief(Brief::number(n))
}

/// A success with the result `text`, or `NoMemory` if there was no memory for it.
pub(crate) fn grown(text: Result<Bytes, NoMemory>) -> Answer
    ensures answer { (old : Machine) (told : List ℕ) → IfOk text (λ bytes. bytes ≡ told)
        → IsAnswer (grown old told old) result old }
    // If the machine changes: the text is the result of the success, and having no memory is one of the excuses.
    ensures changes { (effect : Effect) (new : Machine) → IfOk text (λ bytes. Succeeds effect bytes new)
        → IsExcused effect.excuses OutOfMemory new → IsAnswer effect result new }
{
    match text {
        Ok(text) => Answer::Grown(text),
        Err(_) => Answer::NoMemory,
    }
}

impl Answer {
    /// The reply with this answer to a line with this `id`. Takes memory if the result took memory.
    pub(crate) fn reply(self, alloc: Global, id: Option<u32>) -> Reply
        ensures reply { (effect : Effect) (new : Machine) → IsAnswer effect self new
            → MayGive (replied id effect) (reply_bytes result) new (reply_ends result) }
        ensures bytes { reply_count (reply_bytes result) ≡ 1 }
        // The reply says that a file cannot be loaded exactly if this answer does.
        ensures missed { (name : List ℕ) → missed_by (Some (record { id = id; name = name })) (reply_bytes result)
            ≡ missed_as (named name) self }
    {
        match self {
            Answer::Brief(text) => Reply::Short {
                text: short(id, text.as_slice()),
                quit: false,
            },
            Answer::Grown(text) => match success(id, text.as_slice(), Bytes::new(alloc)) {
                Ok(bytes) => Reply::Text { bytes },
                Err(_) => Reply::NoMemory { id },
            },
            Answer::NoMemory => Reply::NoMemory { id },
            Answer::Refused(text) => Reply::refused(id, text),
            Answer::Ended => Reply::Short {
                text: short(id, b""),
                quit: true,
            },
        }
    }
}
