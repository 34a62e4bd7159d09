//! The command that loads the position of a game record.
ghost use Rattle.std.specs.Prelude.{◌≡◌, ◌++◌, ℕ, List};
ghost use Rattle.gtp_cmd.specs.Spans.{IsSpanOf};
ghost use Rattle.helpers.specs.HelperStates.{SlotState};
ghost use Rattle.machine_rules.specs.Heard.{word_at};
ghost use Rattle.machine_rules.specs.Loads.{named_load, IsFileOf};
ghost use Rattle.machine_rules.specs.RecordCommands.{loaded_by, recorded};
ghost use Rattle.sgf_rules.specs.Game.{game_of};
ghost use Rattle.session_core.specs.AskedLinks.{LinksNothing};
ghost use Rattle.session_core.specs.CommandAnswers.{IsAnswer, missed_as};
ghost use Rattle.session_core.specs.EngineView.{machine_with};

use crate::answer::{Answer, brief_answer};
use crate::engine::Engine;
use go_base::Bytes;
use gtp_cmd::{RefuseText, Span, text};
use gtp_io::{LoadError, Loader};
use sgf_read::read;
use std::str::from_utf8;

impl Engine {
    /// Loads the game record in the file whose name stands in `line` at `span`: moves are played from its position from
    /// now on. The name and the contents of the file take memory.
    pub(crate) fn load_record<L: Loader>(
        &mut self,
        line: &[u8],
        span: Span,
        files: &mut L,
    ) -> Answer
        requires { IsSpanOf line.now span }
        ensures answer { (file : List ℕ) × IsFileOf (L.contents files.old) (named_load (word_at line.now span)) file
            × ((helpers : List SlotState) → IsAnswer
            (loaded_by (machine_with helpers self.old) (word_at line.now span) file) result
            (machine_with helpers self.new)) }
        ensures missed { L.missed files.new ≡ L.missed files.old
            ++ missed_as (named_load (word_at line.now span)) result }
        ensures contents { L.contents files.new ≡ L.contents files.old }
        ensures counts { self.new.counts ≡ self.old.counts }
        ensures kept { self.new.readings.answers.kept ≡ self.old.readings.answers.kept }
        ensures links { LinksNothing self.old self.new }
    {
        let Ok(word) = text(line, span, Bytes::new(self.alloc)) else {
            return Answer::NoMemory;
        };
        let Ok(name) = from_utf8(word.as_slice()) else {
            return Answer::Refused(RefuseText::SyntaxError);
        };
        match files.load(name, Vec::new(self.alloc)) {
            Ok(contents) => self.set_record(contents.as_slice()),
            Err(LoadError::Failed) => Answer::Refused(RefuseText::CannotLoadFile),
            Err(LoadError::NoMemory) => Answer::NoMemory,
        }
    }

    /// Makes the position of a game record the one from which moves are played, or refuses with the record's first
    /// fault.
    fn set_record(&mut self, contents: &[u8]) -> Answer
        ensures answer { (helpers : List SlotState) → IsAnswer
            (recorded (machine_with helpers self.old) (game_of contents.now)) result (machine_with helpers self.new) }
        ensures counts { self.new.counts ≡ self.old.counts }
        ensures kept { self.new.readings.answers.kept ≡ self.old.readings.answers.kept }
        ensures links { LinksNothing self.old self.new }
    {
        match read(contents) {
            Ok(position) => {
                self.history.start(&position);
                brief_answer(b"")
            }
            Err(error) => Answer::Refused(RefuseText::BadSgf(error.kind)),
        }
    }
}
