//! What a session keeps besides its helpers and its matcher (the plain machine, its counts, its caches), and how it
//! answers each line.
ghost use Rattle.std.specs.Prelude.{◌≡◌, ◌≤◌, ◌++◌, ℕ, List, Option, None, length, IfOk, IfErr, OnOk, OnErr};
ghost use Rattle.gtp_lex.specs.Raw.{raw_line};
ghost use Rattle.go_options.specs.Found.{AreInRange};
ghost use Rattle.go_strings.specs.Games.{reached};
ghost use Rattle.gtp_cmd.specs.Rooms.{longest_line};
ghost use Rattle.gtp_cmd.specs.Within.{IsWithin, SaysWithin, IsWithinLine, SaysWithinLine};
ghost use Rattle.helpers.specs.HelperStates.{SlotState};
ghost use Rattle.helpers.specs.Slots.{states_of};
ghost use Rattle.machine_rules.specs.Counting.{counted, is_read};
ghost use Rattle.machine_rules.specs.Heard.{heard, bytes_in};
ghost use Rattle.machine_rules.specs.Loads.{load_of, parsed_load, IsFileOf};
ghost use Rattle.machine_rules.specs.Questions.{asks_of};
ghost use Rattle.machine_rules.specs.LinkQuestions.{asks_link_of};
ghost use Rattle.machine_rules.specs.ProofCommands.{word_of};
ghost use Rattle.machine_rules.specs.Step.{effect_of};
ghost use Rattle.session_core.specs.AfterLine.{ReadsAs};
ghost use Rattle.session_core.specs.AskedLinks.{LinksAs};
ghost use Rattle.session_core.specs.LineAnswers.{AnswersParsed};
ghost use Rattle.session_core.specs.CommandAnswers.{IsAnswer, IsDone, missed_as};
ghost use Rattle.session_core.specs.Kept.{kept_with};
ghost use Rattle.session_core.specs.EngineView.{board_of, machine_with, machine_alone, first_kept, depths_in};
ghost use Rattle.session_core.specs.MatcherView.{matcher_of};
ghost use Rattle.session_core.specs.SlowLines.{command_of, said_by, IsLeft};

mod board_commands;
mod choice_commands;
mod helper_commands;
mod link_commands;
mod matching_commands;
mod proof_commands;
mod reading_commands;
mod record_commands;

use crate::answer::{Answer, brief_answer, grown};
use crate::matcher::Matcher;
use crate::reply::Reply;
use crate::slow::{Slow, Work};
use connect_rules::LinkKind;
use go_base::{NoMemory, Position, Size};
use go_history::{History, Move};
use go_options::Options;
use go_strings::StringBoard;
use gtp_cmd::{Command, KomiText, Parsed, RefuseText, names_text, parse};
use gtp_io::Loader;
use gtp_lex::Raw;
use helpers::Helpers;
use kept_connections::Connections;
use match_engine::Readings;
use read_moves::Depths;
use read_rules::Tree;
use read_tree::Kind;
use run_notes::{Counts, Links};
use std::alloc::Global;
use std::marker::Model;

/// Counts of the lines that ask for a reading and are answered with a code.
#[derive(Clone, Copy)]
pub(crate) struct ReadingCounts {
    /// How many lines there were.
    pub(crate) readings: u64,
    /// How many of these lines were read afresh.
    pub(crate) fresh: u64,
    /// How many trial plays the fresh readings made.
    pub(crate) trials: u64,
}

/// The counts before the first line.
const NO_COUNTS: ReadingCounts = ReadingCounts {
    readings: 0,
    fresh: 0,
    trials: 0,
};

/// The size of the board until a line sets another.
const FIRST_SIZE: u8 = 19;

/// What a session keeps besides its helpers and its matcher. Contracts see it as an `EngineView`; `machine_with` gives
/// its machine.
#[derive(Drop)]
pub struct Engine {
    alloc: Global,
    history: History,
    komi: KomiText,
    readings: Readings,
    links: Connections,
    counts: ReadingCounts,
    connections: u64,
}

impl Model for Engine {
    ghost use Rattle.std.specs.Prelude.{◌≡◌};
    ghost use Rattle.session_core.specs.EngineView.{EngineView};
    ghost use Rattle.session_core.specs.SeenEngines.{seen};

    ghost Value = { EngineView };

    ghost view = { seen };

    ghost invariant = { λ s. s.links.plies ≡ s.readings.depths.plies };
}

/// `true` or `false`.
fn word(known: bool) -> &'static [u8]
    ensures text { result.now ≡ word_of known }
    ensures short { length result.now ≤ 5 }
{
    if known { b"true" } else { b"false" }
}

impl Engine {
    /// The engine before the first line: a board of 19 by 19, no moves, the komi 0.0, readings in `tree` as deep as
    /// `options` says, and nothing counted. Takes memory.
    pub(crate) fn new(alloc: Global, tree: Tree, options: &Options) -> Result<Engine, NoMemory>
        requires ranges { AreInRange options.now }
        ensures { IfOk result (λ engine. engine ≡ first_kept (depths_in tree options.now) options.now.cache) }
    {
        let size = Size::new(FIRST_SIZE).unwrap();
        Ok(Engine {
            alloc,
            history: History::new(alloc, size)?,
            komi: KomiText::zero(),
            readings: Readings::new(
                alloc,
                Depths::new(options.depth, options.branch)
                    .unwrap()
                    .in_tree(tree),
                options.cache,
            )?,
            links: Connections::new(alloc, options.depth, options.cache)?,
            counts: NO_COUNTS,
            connections: 0,
        })
    }

    /// The counts of the session. For the lines that asked for a reading and were answered with a code: how many there
    /// were, how many were read afresh, and the trial plays of these. The readings that could not be cached for want of
    /// memory. For the lines that asked about a connection and were answered with a result: how many there were, and
    /// how many were read afresh.
    pub(crate) fn stats(&self) -> Counts
        ensures { result ≡ self.now.counts }
    {
        Counts {
            readings: self.counts.readings,
            fresh: self.counts.fresh,
            trials: self.counts.trials,
            refused: self.readings.refused(),
            links: Links {
                connections: self.connections,
                fresh: self.links.fresh(),
            },
        }
    }

    /// What a line says; a line that is too long is refused.
    pub(crate) fn heard(&self, raw: Raw<'_>) -> Parsed
        requires { length (bytes_in (raw_line raw)) ≤ longest_line }
        ensures said { (helpers : List SlotState)
            → result ≡ heard (machine_with helpers self.now) (raw_line raw.entry) }
        ensures within { SaysWithin self.now.base.size result }
        ensures spans { SaysWithinLine (bytes_in (raw_line raw.entry)) result }
    {
        match raw {
            Raw::TooLong => Parsed::Refused {
                id: None,
                text: RefuseText::LineTooLong,
            },
            Raw::Line(text) => {
                let size = self.history.size();
                parse(text, size)
            }
        }
    }

    /// Answers the parsed line `said` by the machine's step, unless the line may take long: then nothing is done.
    ///
    /// `NoMemory` comes only in place of a growing reply. It leaves the machine as it was.
    pub(crate) fn try_answer(
        &mut self,
        matcher: &Matcher,
        helpers: &mut Helpers,
        line: &[u8],
        said: Parsed,
    ) -> Result<Reply, Slow>
        requires within { SaysWithin self.old.base.size said }
        requires spans { SaysWithinLine line.now said }
        ensures answers { (missed : List (List ℕ)) (file : List ℕ) → IfOk result (λ reply. AnswersParsed
            (matcher_of matcher.now) (kept_with (states_of state helpers.old) missed self.old)
            (record { line = line.now; file = file }) said reply
            (kept_with (states_of state helpers.new) missed self.new)) }
        ensures left { (missed : List (List ℕ)) → IfErr result (λ slow. IsLeft
            (kept_with (states_of state helpers.old) missed self.old) line.now said slow
            (kept_with (states_of state helpers.new) missed self.new)) }
    {
        match said {
            Parsed::Nothing => Ok(Reply::Nothing),
            Parsed::Refused { id, text } => Ok(Reply::refused(id, text)),
            Parsed::Command { id, command } => {
                let answer = match self.obey(matcher, helpers, line, command) {
                    Ok(answer) => answer,
                    Err(work) => return Err(Slow { id, work }),
                };
                Ok(answer.reply(self.alloc, id))
            }
        }
    }

    /// Answers a postponed line by the machine's step. Matches come from the automaton and must pass the helpers. With
    /// the automaton of the patterns this is the step of the plain machine.
    ///
    /// `NoMemory` comes only in place of a growing reply. It leaves the machine as it was, but for the calls of
    /// helpers.
    pub(crate) fn finish<L: Loader>(
        &mut self,
        matcher: &Matcher,
        helpers: &mut Helpers,
        slow: Slow,
        line: &[u8],
        files: &mut L,
    ) -> Reply
        requires within { SaysWithin self.old.base.size (said_by slow) }
        requires spans { SaysWithinLine line.now (said_by slow) }
        ensures answers { (file : List ℕ)
            × IsFileOf (L.contents files.old) (parsed_load line.now (said_by slow)) file
            × AnswersParsed (matcher_of matcher.now)
            (kept_with (states_of state helpers.old) (L.missed files.old) self.old)
            (record { line = line.now; file = file }) (said_by slow) result
            (kept_with (states_of state helpers.new) (L.missed files.new) self.new) }
        ensures same { L.contents files.new ≡ L.contents files.old }
    {
        self.work_on(matcher, helpers, slow.work, line, files)
            .reply(self.alloc, slow.id)
    }

    /// Does the postponed `work` of a line.
    fn work_on<L: Loader>(
        &mut self,
        matcher: &Matcher,
        helpers: &mut Helpers,
        work: Work,
        line: &[u8],
        files: &mut L,
    ) -> Answer
        requires within { IsWithin self.old.base.size (command_of work) }
        requires spans { IsWithinLine line.now (command_of work) }
        ensures answer { IsDone (L.contents files.old) (matcher_of matcher.now)
            (machine_with (states_of state helpers.old) self.old) line.now (command_of work) result
            (machine_with (states_of state helpers.new) self.new) }
        ensures missed { L.missed files.new ≡ L.missed files.old
            ++ missed_as (load_of line.now None (command_of work)) result }
        ensures same { L.contents files.new ≡ L.contents files.old }
        ensures readings { self.new.counts.readings ≡ counted self.old.counts.readings
            (is_read (machine_alone self.old) (command_of work)) }
        ensures read { ReadsAs (asks_of (machine_alone self.old) (command_of work)) self.old self.new }
        ensures links { LinksAs (asks_link_of (machine_alone self.old) (command_of work)) self.old self.new }
    {
        match work {
            Work::Attack(p) => self.read(Kind::Attack, p),
            Work::Defend(p) => self.read(Kind::Defend, p),
            Work::Match(friend) => self.list_matches(matcher, helpers, friend),
            Work::Load(span) => self.load_record(line, span, files),
            Work::AttackProof(p) => self.print_proof(Kind::Attack, p),
            Work::DefendProof(p) => self.print_proof(Kind::Defend, p),
            Work::CheckProof {
                attack,
                target,
                code,
                tokens,
            } => self.check_proof(attack, target, code, line, tokens),
            Work::Connect(a, b) => self.tell_link(LinkKind::Connect, a, b),
            Work::Disconnect(a, b) => self.tell_link(LinkKind::Disconnect, a, b),
            Work::GenMove(friend) => self.make_move(matcher, helpers, friend),
            Work::RegGenMove(friend) => self.tell_move(matcher, helpers, friend),
        }
    }

    /// Does what `command` says, unless the command may take long: then nothing is done.
    fn obey(
        &mut self,
        matcher: &Matcher,
        helpers: &mut Helpers,
        line: &[u8],
        command: Command,
    ) -> Result<Answer, Work>
        requires within { IsWithin self.old.base.size command }
        requires spans { IsWithinLine line.now command }
        ensures answer { (file : List ℕ) → IfOk result (λ answer. IsAnswer
            (effect_of (matcher_of matcher.now) (machine_with (states_of state helpers.old) self.old)
            (record { line = line.now; file = file }) command) answer
            (machine_with (states_of state helpers.new) self.new)) }
        ensures readings { OnOk result (self.new.counts.readings ≡ counted self.old.counts.readings
            (is_read (machine_alone self.old) command)) }
        ensures read { OnOk result (ReadsAs (asks_of (machine_alone self.old) command) self.old self.new) }
        ensures links { OnOk result (LinksAs (asks_link_of (machine_alone self.old) command) self.old self.new) }
        ensures loads { OnOk result ((id : Option ℕ) → load_of line.now id command ≡ None) }
        ensures slow { IfErr result (λ work. command ≡ command_of work) }
        ensures same { OnErr result (self.new ≡ self.old) }
        ensures helpers { OnErr result (helpers.new ≡ helpers.old) }
    {
        let answer = match command {
            Command::ProtocolVersion => brief_answer(b"2"),
            Command::Name => brief_answer(b"gopat"),
            Command::Version => brief_answer(b"1"),
            Command::KnownCommand(known) => brief_answer(word(known)),
            Command::ListCommands => grown(names_text(self.alloc)),
            Command::Quit => Answer::Ended,
            Command::BoardSize(size) => self.resize(size),
            Command::ClearBoard => self.clear(),
            Command::Komi(komi) => self.keep_komi(komi),
            Command::GetKomi => brief_answer(self.komi.as_slice()),
            Command::Play(colour, at) => self.play(Move { colour, at }),
            Command::Undo => self.undo(),
            Command::ShowBoard => self.show_board(),
            Command::IsLegal(colour, at) => self.tell_legal(Move { colour, at }),
            Command::AllLegal(colour) => self.list_legal(colour),
            Command::CountLib(p) => self.count_liberties(p),
            Command::FindLib(p) => self.find_liberties(p),
            Command::Captures(colour) => self.count_captures(colour),
            Command::Attack(p) => self.recall(Kind::Attack, p, Work::Attack(p))?,
            Command::Defend(p) => self.recall(Kind::Defend, p, Work::Defend(p))?,
            Command::Depths { plies, wide } => self.deepen(plies, wide),
            Command::MatchPatterns(friend) => return Err(Work::Match(friend)),
            Command::ListPatterns => self.list_patterns(matcher),
            Command::LoadSgf(span) => return Err(Work::Load(span)),
            Command::AttackProof(p) => return Err(Work::AttackProof(p)),
            Command::DefendProof(p) => return Err(Work::DefendProof(p)),
            Command::CheckProof {
                attack,
                target,
                code,
                tokens,
            } => {
                return Err(Work::CheckProof {
                    attack,
                    target,
                    code,
                    tokens,
                });
            }
            Command::Connect(a, b) => {
                self.recall_link(LinkKind::Connect, a, b, Work::Connect(a, b))?
            }
            Command::Disconnect(a, b) => {
                self.recall_link(LinkKind::Disconnect, a, b, Work::Disconnect(a, b))?
            }
            Command::GenMove(friend) => return Err(Work::GenMove(friend)),
            Command::RegGenMove(friend) => return Err(Work::RegGenMove(friend)),
            Command::HelperOff(span) => self.switch_off(helpers, line, span),
            Command::HelperCalls(span) => self.tell_calls(helpers, line, span),
            Command::HelperDrop(span) => self.drop_helper(helpers, line, span),
        };
        Ok(answer)
    }

    /// The position after the moves.
    fn position(&self) -> Position
        ensures value { result ≡ board_of self.now }
        ensures size { (board_of self.now).size ≡ self.now.base.size }
    {
        self.history.position()
    }

    /// The board after the moves, which knows strings, liberties and legal points without a search.
    fn board(&self) -> &StringBoard
        ensures value { reached result.now ≡ board_of self.now }
        ensures size { (board_of self.now).size ≡ self.now.base.size }
    {
        self.history.board()
    }
}
