//! The command that loads a game record: its position becomes that from which moves are played.

ghost use Rattle.std.specs.Prelude.{◌≡◌, ℕ, List};
ghost use Rattle.gtp_cmd.specs.Spans.{IsSpanOf};
ghost use Rattle.sgf_rules.specs.Game.{game_of};
ghost use Rattle.sure_lines.specs.Answers.{IsAnswer};
ghost use Rattle.sure_lines.specs.Files.{named_file, IsFileOf, word_at};
ghost use Rattle.sure_lines.specs.RecordCommands.{loaded_by, recorded};

use crate::answer::{Answer, brief_answer};
use crate::files::load_file;
use crate::machine::SureMachine;
use gtp_cmd::{RefuseText, Span};
use gtp_io::Loader;
use sgf_read::read;
use std::alloc::Global;

impl SureMachine {
    /// Loads the file whose name stands in the part `span` of the line, and begins again from the position of its game
    /// record. The name and the contents of the file take memory.
    pub(crate) fn load_record<L: Loader>(
        &mut self,
        alloc: Global,
        line: &[u8],
        span: Span,
        files: &mut L,
    ) -> Answer
        requires { IsSpanOf line.now span }
        ensures answer { (file : List ℕ) × IsFileOf (L.contents files.old) (named_file (word_at line.now span)) file
            × IsAnswer (loaded_by self.old (word_at line.now span) file) result self.old self.new }
        ensures contents { L.contents files.new ≡ L.contents files.old }
    {
        match load_file(alloc, line, span, files) {
            Ok(contents) => self.set_record(contents.as_slice()),
            Err(said) => said,
        }
    }

    /// Begins again from the position of a game record, or refuses it with its first fault.
    fn set_record(&mut self, contents: &[u8]) -> Answer
        ensures { IsAnswer (recorded self.old (game_of contents.now)) result self.old self.new }
    {
        match read(contents) {
            Ok(position) => {
                self.game.start(&position);
                brief_answer(b"")
            }
            Err(error) => Answer::Refused(RefuseText::BadSgf(error.kind)),
        }
    }
}
