//! The readings of a session: they are counted, and their answers are cached.
ghost use Rattle.std.specs.Prelude.{◌≡◌, ◌≢◌, ◌*◌, ◌<◌, ◌≤◌, None, IfOk, IfSome, IfNone};
ghost use Rattle.go_rules.specs.Strings.{cell_at};
ghost use Rattle.read_rules.specs.Answer.{answer_of};
ghost use Rattle.read_rules.specs.GoodMoves.{IsOnBoard};
ghost use Rattle.match_engine.specs.Keys.{same_key};
ghost use Rattle.match_engine.specs.ReadingDepths.{asked_at, depths_of};
ghost use Rattle.read_cache.specs.Kept.{IsMissing, HoldsOfEach};
ghost use Rattle.match_engine.specs.Readings.{HasRead, IsAnswerTo, Follows, Rests};
ghost use Rattle.match_engine.specs.Readings.{after_trials, first_readings, with_depths};

use crate::keys::{Key, key_of};
use go_base::{Cell, NoMemory, Point, Position};
use read_cache::{Asked, KeptAnswers};
use read_rules::{Answer, Depths, Kind};
use std::alloc::Global;
use std::marker::Model;

/// The readings of a session, all in the same tree and at the same depths: how many were made, how many trial plays
/// they made, and the cached answers. Seen as the depths, the counts and the cached answers.
///
/// Each answer is that of a fresh reading. It is cached with the facts that it rests on, and is used again if they
/// hold.
#[derive(Drop)]
pub struct Readings {
    depths: Depths,
    trials: u64,
    last: Option<u64>,
    answers: KeptAnswers<Key>,
}

impl Model for Readings {
    ghost use Rattle.match_engine.specs.ReadingDepths.{depths_of};
    ghost use Rattle.match_engine.specs.Readings.{ReadingsView};

    ghost Value = { ReadingsView };

    ghost view = { λ r. record {
      depths = depths_of r.depths;
      trials = r.trials;
      last = r.last;
      answers = r.answers;
    } };
}

impl Readings {
    /// Readings at these `depths`, with nothing cached yet and room for at most `capacity` questions, from 8 to 65,536.
    /// All counts are 0. Takes memory.
    pub fn new(alloc: Global, depths: Depths, capacity: u32) -> Result<Readings, NoMemory>
        requires some { 8 ≤ capacity }
        requires few { capacity ≤ 65536 }
        ensures { IfOk result (λ readings. readings ≡ first_readings (depths_of depths) capacity) }
    {
        Ok(Readings {
            depths,
            trials: 0,
            last: None,
            answers: KeptAnswers::new(alloc, capacity)?,
        })
    }

    /// Answers a question about the string at `target`, where a stone stands, at the present depths. The answer is that
    /// of a fresh reading. It comes from the cache exactly if the facts of a cached variant of the question hold on the
    /// position; else the question is read and its answer is cached.
    ///
    /// After GNU Go Manual, "Tactical reading".
    pub fn read(&mut self, kind: Kind, position: &Position, target: Point) -> Answer
        requires on_board { target < position.now.size * position.now.size }
        requires stone { cell_at position.now.cells target ≢ Cell.Empty }
        ensures answer { result ≡ answer_of (asked_at self.old.depths position.now kind target)
            position.now }
        ensures code { result.code ≤ 3 }
        ensures on_board { IfSome result.at (IsOnBoard position.now.size) }
        // The answer was cached, and no count has changed; or it was fresh, is counted with its trial plays, and was
        // cached or refused. No trial play is made if the target has too many liberties.
        ensures read { HasRead (record { question = asked_at self.old.depths position.now kind target })
            position.now result self.old self.new }
        // Each cached variant rests on its facts.
        ensures rest { HoldsOfEach Rests self.new.answers.kept }
        // The depths are as before, and no count has fallen.
        ensures follows { Follows self.old self.new }
    {
        self.ask(kind, position, target).answer
    }

    /// Answers a question about the string at `target` as `read` does, and tells how many trial plays the reading made,
    /// or `None` if the answer was cached.
    pub fn ask(&mut self, kind: Kind, position: &Position, target: Point) -> Asked<Answer, u64>
        requires on_board { target < position.now.size * position.now.size }
        requires stone { cell_at position.now.cells target ≢ Cell.Empty }
        ensures answer { IsAnswerTo (record { question = asked_at self.old.depths position.now kind target })
            position.now result.answer }
        ensures trials { result.effort ≡ self.new.last }
        ensures read { HasRead (record { question = asked_at self.old.depths position.now kind target })
            position.now result.answer self.old self.new }
        ensures rest { HoldsOfEach Rests self.new.answers.kept }
        ensures follows { Follows self.old self.new }
    {
        let key = key_of(kind, position, target, self.depths);
        let asked = self.answers.ask(key, position);
        self.count_trials(asked.effort);
        asked
    }

    /// Notes `trials`, the trial plays of the last reading, and counts them if the reading was fresh.
    fn count_trials(&mut self, trials: Option<u64>)
        ensures counted { self.new ≡ record self.old { last = trials; trials = after_trials self.old.trials trials } }
        ensures more { self.old.trials ≤ self.new.trials }
    {
        self.last = trials;
        if let Some(fresh) = trials {
            self.trials = self.trials.saturating_add(fresh);
        }
    }

    /// Answers a question about the string at `target` if the facts of a cached variant of the question hold on the
    /// position. Else nothing changes.
    #[inline(always)]
    pub fn find_kept(&mut self, kind: Kind, position: &Position, target: Point) -> Option<Answer>
        requires on_board { target < position.now.size * position.now.size }
        requires stone { cell_at position.now.cells target ≢ Cell.Empty }
        ensures answer { IfSome result (λ answer. answer
            ≡ answer_of (asked_at self.old.depths position.now kind target) position.now) }
        ensures on_board { IfSome result (λ answer. IfSome answer.at (IsOnBoard position.now.size)) }
        ensures read { IfSome result (λ answer. HasRead
            (record { question = asked_at self.old.depths position.now kind target }) position.now answer
            self.old self.new) }
        ensures last { IfSome result (λ _. self.new.last ≡ None) }
        ensures rest { HoldsOfEach Rests self.new.answers.kept }
        ensures missing { IfNone result (IsMissing same_key
            (record { question = asked_at self.old.depths position.now kind target }) position.now
            self.old.answers.kept) }
        ensures same { IfNone result (self.new ≡ self.old) }
    {
        let key = key_of(kind, position, target, self.depths);
        let answer = self.answers.find(&key, position)?;
        self.last = None;
        Some(answer)
    }

    /// Changes the tree and the depths of the readings, and nothing else.
    pub fn set(&mut self, depths: Depths)
        ensures { self.new ≡ with_depths self.old (depths_of depths) }
    {
        self.depths = depths;
    }

    /// The present depths.
    pub fn depths(&self) -> Depths
        ensures { depths_of result ≡ self.now.depths }
    {
        self.depths
    }

    /// How many readings were fresh, as far as a `u64` counts.
    pub fn fresh(&self) -> u64
        ensures { result ≡ self.now.answers.fresh }
    {
        self.answers.fresh()
    }

    /// How many trial plays the fresh readings made, as far as a `u64` counts.
    pub fn trials(&self) -> u64
        ensures { result ≡ self.now.trials }
    {
        self.trials
    }

    /// How many answers could not be cached because there was no memory, as far as a `u64` counts.
    pub fn refused(&self) -> u64
        ensures { result ≡ self.now.answers.refused }
    {
        self.answers.refused()
    }

    /// The trial plays of the last reading, or `None` if its answer was cached or if there was no reading.
    pub fn last(&self) -> Option<u64>
        ensures { result ≡ self.now.last }
    {
        self.last
    }
}
