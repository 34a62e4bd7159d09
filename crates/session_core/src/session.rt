//! A session of the protocol: what it keeps, the matcher of its patterns, and the helpers that these ask.
ghost use Rattle.std.specs.Prelude.{⊤, ◌≡◌, ◌≤◌, ℕ, List, length, IfOk, IfErr};
ghost use Rattle.gtp_lex.specs.Raw.{raw_line};
ghost use Rattle.gtp_cmd.specs.Rooms.{longest_line};
ghost use Rattle.gtp_cmd.specs.Within.{SaysWithin, SaysWithinLine};
ghost use Rattle.go_options.specs.Found.{AreInRange};
ghost use Rattle.machine_rules.specs.Files.{Contents};
ghost use Rattle.machine_rules.specs.Heard.{heard, bytes_in};
ghost use Rattle.session_core.specs.SlowLines.{said_by, IsLeft};
ghost use Rattle.session_core.specs.LineAnswers.{AnswersLine};
ghost use Rattle.session_core.specs.EngineView.{first_kept, depths_in};
ghost use Rattle.session_core.specs.SessionView.{machine_now, kept_of, step_of};

use crate::engine::Engine;
use crate::matcher::Matcher;
use crate::reply::Reply;
use crate::slow::Slow;
use go_base::NoMemory;
use go_options::Options;
use gtp_io::Loader;
use gtp_lex::Raw;
use helpers::Helpers;
use read_rules::Tree;
use run_notes::{Counts, Links};
use std::alloc::Global;

/// The bytes of a line; a line that is too long counts as empty.
fn bytes_of(raw: Raw<'_>) -> &[u8]
    ensures { result.now ≡ bytes_in (raw_line raw.entry) }
{
    match raw {
        Raw::Line(text) => text,
        Raw::TooLong => b"",
    }
}

/// A session of the protocol.
#[derive(Drop)]
pub struct Session {
    /// The machine, its counts and its caches.
    pub engine: Engine,
    /// The patterns, and the automaton that finds their matches.
    pub matcher: Matcher,
    /// The helpers that the patterns ask.
    pub helpers: Helpers,
}

impl Session {
    /// A session before its first line: the patterns of `matcher`, `helpers`, a board of 19 by 19, no moves, the komi
    /// 0.0, readings in the stated tree as deep as `options` says, and nothing counted. Takes memory.
    pub fn new(
        alloc: Global,
        matcher: Matcher,
        helpers: Helpers,
        options: &Options,
    ) -> Result<Session, NoMemory>
        requires ranges { AreInRange options.now }
        ensures engine { IfOk result (λ session. session.engine
            ≡ first_kept (depths_in Tree.Stated options.now) options.now.cache) }
        ensures matcher { IfOk result (λ session. session.matcher ≡ matcher) }
        ensures helpers { IfOk result (λ session. session.helpers ≡ helpers) }
    {
        Session::in_tree(alloc, matcher, helpers, Tree::Stated, options)
    }

    /// A session before its first line, as `new` makes it, but with readings in `tree`. Takes memory.
    pub fn in_tree(
        alloc: Global,
        matcher: Matcher,
        helpers: Helpers,
        tree: Tree,
        options: &Options,
    ) -> Result<Session, NoMemory>
        requires ranges { AreInRange options.now }
        ensures engine { IfOk result (λ session. session.engine
            ≡ first_kept (depths_in tree options.now) options.now.cache) }
        ensures matcher { IfOk result (λ session. session.matcher ≡ matcher) }
        ensures helpers { IfOk result (λ session. session.helpers ≡ helpers) }
    {
        Ok(Session {
            engine: Engine::new(alloc, tree, options)?,
            matcher,
            helpers,
        })
    }

    /// The counts of the session. For the lines that asked for a reading and were answered with a code: how many there
    /// were, how many were read afresh, and the trial plays of these. The readings that could not be cached for want of
    /// memory, and the counts that `links` gives.
    pub fn stats(&self) -> Counts
        ensures { result ≡ self.now.engine.counts }
    {
        self.engine.stats()
    }

    /// The counts of connections: how many lines asked about one and were answered with a result, and how many of these
    /// were read afresh. Takes no memory.
    pub fn links(&self) -> Links
        ensures { result ≡ self.now.engine.counts.links }
    {
        self.engine.stats().links
    }

    /// Answers one line by the machine's step, unless the line may take long: a question that is not cached, a list of
    /// matches, a chosen move, a game record, a printed proof or the check of a proof. Then nothing is done, and
    /// `finish` answers the line.
    ///
    /// `Nothing` comes exactly for a line without words. `NoMemory` comes only in place of a growing reply. After
    /// `NoMemory` or a refusal the machine is as it was, and of the counts only that of readings not cached may have
    /// risen. The empty condition `own` says that the call makes no helper of its own.
    pub fn try_line(&mut self, raw: Raw<'_>) -> Result<Reply, Slow>
        requires own { ⊤ }
        requires short { length (bytes_in (raw_line raw)) ≤ longest_line }
        // No file is loaded: whatever files hold, and whichever were missed, this answers the line.
        ensures answers { (contents : Contents) (missed : List (List ℕ)) → IfOk result (λ reply. AnswersLine
            (step_of self.old contents) (kept_of state self.old missed) (raw_line raw.entry) reply
            (kept_of state self.new missed)) }
        ensures left { (missed : List (List ℕ)) → IfErr result (λ slow. IsLeft (kept_of state self.old missed)
            (bytes_in (raw_line raw.entry)) (heard (machine_now state self.old) (raw_line raw.entry)) slow
            (kept_of state self.new missed)) }
        ensures matcher { self.new.matcher ≡ self.old.matcher }
    {
        let said = self.engine.heard(raw);
        self.engine
            .try_answer(&self.matcher, &mut self.helpers, bytes_of(raw), said)
    }

    /// Answers a postponed line by the machine's step. Matches come from the automaton and must pass the helpers. With
    /// the automaton of the patterns this is the step of the plain machine.
    ///
    /// `NoMemory` comes only in place of a growing reply, and leaves the machine as it was, but for the calls of
    /// helpers. The empty condition `own` says that the call makes no helper of its own.
    pub fn finish<L: Loader>(&mut self, slow: Slow, raw: Raw<'_>, files: &mut L) -> Reply
        requires own { ⊤ }
        requires within { SaysWithin self.old.engine.base.size (said_by slow) }
        requires spans { SaysWithinLine (bytes_in (raw_line raw)) (said_by slow) }
        requires says { heard (machine_now state self.old) (raw_line raw) ≡ said_by slow }
        ensures answers { AnswersLine (step_of self.old (L.contents files.old))
            (kept_of state self.old (L.missed files.old)) (raw_line raw.entry) result
            (kept_of state self.new (L.missed files.new)) }
        ensures same { L.contents files.new ≡ L.contents files.old }
        ensures matcher { self.new.matcher ≡ self.old.matcher }
    {
        self.engine.finish(&self.matcher, &mut self.helpers, slow, bytes_of(raw), files)
    }

    /// Answers one line, however long it takes: by `try_line`, then by `finish` if the line is postponed. A file that
    /// the line names is loaded from `files`.
    pub fn line<L: Loader>(&mut self, raw: Raw<'_>, files: &mut L) -> Reply
        requires short { length (bytes_in (raw_line raw)) ≤ longest_line }
        ensures answers { AnswersLine (step_of self.old (L.contents files.old))
            (kept_of state self.old (L.missed files.old)) (raw_line raw.entry) result
            (kept_of state self.new (L.missed files.new)) }
        ensures same { L.contents files.new ≡ L.contents files.old }
        ensures matcher { self.new.matcher ≡ self.old.matcher }
    {
        match self.try_line(raw) {
            Ok(reply) => reply,
            Err(slow) => self.finish(slow, raw, files),
        }
    }
}
