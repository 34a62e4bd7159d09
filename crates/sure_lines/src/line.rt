//! The answer to a line.

ghost use Rattle.std.specs.Prelude.{◌≡◌, ◌≤◌, ℕ, List, length, IfOk};
ghost use Rattle.gtp_cmd.specs.Rooms.{longest_line};
ghost use Rattle.gtp_cmd.specs.Within.{IsWithin, IsWithinLine};
ghost use Rattle.gtp_lex.specs.Raw.{raw_line};
ghost use Rattle.gtp_rules.specs.Transcript.{MayGive, MayAnswer};
ghost use Rattle.sure_lines.specs.Answers.{IsAnswer};
ghost use Rattle.sure_lines.specs.Effects.{growing, succeeded};
ghost use Rattle.sure_lines.specs.Heard.{bytes_in};
ghost use Rattle.sure_lines.specs.Machine.{Machine};
ghost use Rattle.sure_lines.specs.Replies.{reply_bytes, reply_ends, word_of};
ghost use Rattle.sure_lines.specs.SureStep.{effect_of, step};
ghost use Rattle.sure_lines.specs.Texts.{IsTextOf};

use crate::answer::{Answer, brief_answer};
use crate::command_names::names_text;
use crate::heard::{bytes_of, heard, knows_argument};
use crate::machine::SureMachine;
use crate::reply::Reply;
use go_base::{Bytes, NoMemory};
use go_history::Move;
use gtp_cmd::{Command, Parsed, RefuseText};
use gtp_io::Loader;
use gtp_lex::Raw;
use read_rules::Kind;
use std::alloc::Global;

/// The word `true` or `false`.
pub(crate) fn word(known: bool) -> &'static [u8]
    ensures text { result.now ≡ word_of known }
    ensures short { length result.now ≤ 5 }
{
    if known { b"true" } else { b"false" }
}

/// A success with a result that took memory, or the lack of memory if there was none for it.
fn grown(text: Result<Bytes, NoMemory>) -> Answer
    ensures { (old : Machine) (result_of : List ℕ) → IfOk text (λ bytes. bytes ≡ result_of)
        → IsAnswer (growing (succeeded result_of old)) result old old }
{
    match text {
        Ok(text) => Answer::Grown(text),
        Err(_) => Answer::NoMemory,
    }
}

impl SureMachine {
    /// Carries out a command.
    fn obey<L: Loader>(
        &mut self,
        alloc: Global,
        line: &[u8],
        command: Command,
        files: &mut L,
    ) -> Answer
        requires within { IsWithin self.old.game.base.size command }
        requires spans { IsWithinLine line.now command }
        ensures answer { (file : List ℕ) × IsTextOf (L.contents files.old) self.old line.now command file
            × IsAnswer (effect_of self.old line.now file command) result self.old self.new }
        ensures contents { L.contents files.new ≡ L.contents files.old }
    {
        match command {
            Command::ProtocolVersion => brief_answer(b"2"),
            Command::Name => brief_answer(b"gopat_sure"),
            Command::Version => brief_answer(b"1"),
            Command::KnownCommand(_) => brief_answer(word(knows_argument(line))),
            Command::ListCommands => grown(names_text(alloc)),
            Command::Quit => Answer::Ended,
            Command::BoardSize(size) => self.resize(size),
            Command::ClearBoard => self.clear(),
            Command::Komi(_) => brief_answer(b""),
            Command::Play(colour, at) => self.play(Move { colour, at }),
            Command::Undo => self.undo(),
            Command::Attack(p) => self.read(Kind::Attack, p),
            Command::Defend(p) => self.read(Kind::Defend, p),
            Command::AttackProof(p) => self.print_proof(alloc, Kind::Attack, p),
            Command::DefendProof(p) => self.print_proof(alloc, Kind::Defend, p),
            Command::CheckProof {
                attack,
                target,
                code,
                tokens,
            } => self.check_proof(alloc, attack, target, code, line, tokens, files),
            Command::Depths { plies, wide } => self.deepen(plies, wide),
            Command::LoadSgf(span) => self.load_record(alloc, line, span, files),
            _ => Answer::Refused(RefuseText::UnknownCommand),
        }
    }

    /// Answers one line: the code and the move of a question are those of `sure_rules` on the present position. A file
    /// that the line names is loaded from `files`. A line that is refused, or for which there is no memory, changes
    /// nothing.
    pub fn line<L: Loader>(&mut self, alloc: Global, raw: Raw<'_>, files: &mut L) -> Reply
        requires short { length (bytes_in (raw_line raw)) ≤ longest_line }
        ensures answers { MayAnswer (step (L.contents files.old)) self.old (raw_line raw.entry) (reply_bytes result)
            self.new (reply_ends result) }
        ensures contents { L.contents files.new ≡ L.contents files.old }
    {
        match heard(raw, self.game.size()) {
            Parsed::Nothing => Reply::Nothing,
            Parsed::Refused { id, text } => Reply::refused(id, text),
            Parsed::Command { id, command } => {
                self.obey(alloc, bytes_of(raw), command, files)
                    .reply(alloc, id)
            }
        }
    }
}
