//! The commands that name one helper.
ghost use Rattle.std.specs.Prelude.{◌≡◌, IfOk};
ghost use Rattle.gtp_cmd.specs.Spans.{IsSpanOf};
ghost use Rattle.helpers.specs.Slots.{states_of};
ghost use Rattle.machine_rules.specs.Heard.{word_at};
ghost use Rattle.machine_rules.specs.HelperCommands.{switched_off, calls_told, dropped};
ghost use Rattle.session_core.specs.CommandAnswers.{IsAnswer};
ghost use Rattle.session_core.specs.EngineView.{machine_with};

use crate::answer::{Answer, brief_answer, text_answer};
use crate::engine::Engine;
use go_base::{Bytes, NoMemory};
use gtp_cmd::{RefuseText, Short, Span, text};
use helpers::Helpers;
use itoa::Buffer;

impl Engine {
    /// The word of `line` at `span`. Takes memory.
    fn word(&self, line: &[u8], span: Span) -> Result<Bytes, NoMemory>
        requires { IsSpanOf line.now span }
        ensures { IfOk result (λ word. word ≡ word_at line.now span) }
    {
        text(line, span, Bytes::new(self.alloc))
    }

    /// Switches off the first helper of the name at `span`.
    pub(crate) fn switch_off(&self, helpers: &mut Helpers, line: &[u8], span: Span) -> Answer
        requires { IsSpanOf line.now span }
        ensures { IsAnswer (switched_off (machine_with (states_of state helpers.old) self.now) (word_at line.now span))
            result (machine_with (states_of state helpers.new) self.now) }
    {
        let Ok(name) = self.word(line, span) else {
            return Answer::NoMemory;
        };
        if helpers.off(name.as_slice()) {
            brief_answer(b"")
        } else {
            Answer::Refused(RefuseText::NoSuchHelper)
        }
    }

    /// Prints how often the first helper of the name at `span` was asked.
    pub(crate) fn tell_calls(&self, helpers: &Helpers, line: &[u8], span: Span) -> Answer
        requires { IsSpanOf line.now span }
        ensures { IsAnswer (calls_told (machine_with (states_of state helpers.now) self.now) (word_at line.now span))
            result (machine_with (states_of state helpers.now) self.now) }
    {
        let Ok(name) = self.word(line, span) else {
            return Answer::NoMemory;
        };
        match helpers.calls(name.as_slice()) {
            Some(calls) => {
                let mut buffer = Buffer::new();
                text_answer(Short::of(buffer.format(calls).as_bytes()))
            }
            None => Answer::Refused(RefuseText::NoSuchHelper),
        }
    }

    /// Takes out the first helper of the name at `span`, and drops it.
    pub(crate) fn drop_helper(&self, helpers: &mut Helpers, line: &[u8], span: Span) -> Answer
        requires { IsSpanOf line.now span }
        ensures { IsAnswer (dropped (machine_with (states_of state helpers.old) self.now) (word_at line.now span))
            result (machine_with (states_of state helpers.new) self.now) }
    {
        let Ok(name) = self.word(line, span) else {
            return Answer::NoMemory;
        };
        match helpers.remove(name.as_slice()) {
            Some(_) => brief_answer(b""),
            None => Answer::Refused(RefuseText::NoSuchHelper),
        }
    }
}
