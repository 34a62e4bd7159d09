//! Cached answers about connections, with counts.

ghost use Rattle.std.specs.Prelude.{◌≡◌, ◌≢◌, ◌*◌, ◌<◌, ◌≤◌, ◌↔◌, false, IsNone, IfOk, IfSome, IfNone};
ghost use Rattle.go_rules.specs.Strings.{cell_at};
ghost use Rattle.trial_board.specs.Trials.{most_moves};
ghost use Rattle.read_rules.specs.GoodMoves.{IsOnBoard};
ghost use Rattle.connect_rules.specs.Linkages.{asked_on, linkage_of};
ghost use Rattle.read_cache.specs.Kept.{IsMissing, HoldsOfEach};
ghost use Rattle.read_cache.specs.Keeping.{first_keeping};
ghost use Rattle.kept_connections.specs.Keys.{same_key};
ghost use Rattle.kept_connections.specs.Connections.{ConnectionsView, Rests, HasAsked, key_on};

use crate::key::{LinkKey, key_of};
use connect_rules::{LinkKind, Linkage};
use go_base::{Cell, NoMemory, Point, Position};
use read_cache::KeptAnswers;
use std::alloc::Global;
use std::marker::Model;

/// Cached answers about connections, all read to the same number of plies, with counts of the answers that were fresh
/// and of those that could not be cached.
///
/// Each answer is that of a fresh reading. It is cached with the facts that it rests on, and is used again if these
/// facts hold.
#[derive(Drop)]
pub struct Connections {
    plies: u8,
    answers: KeptAnswers<LinkKey>,
}

impl Model for Connections {
    ghost use Rattle.std.specs.Prelude.{◌≤◌};
    ghost use Rattle.trial_board.specs.Trials.{most_moves};
    ghost use Rattle.kept_connections.specs.Connections.{ConnectionsView};

    ghost Value = { ConnectionsView };

    ghost view = { λ c. record { plies = c.plies; answers = c.answers } };

    ghost invariant = { λ c. record { some_plies : 1 ≤ c.plies; few_plies : c.plies ≤ most_moves } };
}

impl Connections {
    /// An empty cache for at most `capacity` questions, from 8 to 65,536, with both counts 0. Connections are read
    /// `plies` deep, from 1 to 200. Takes memory.
    pub fn new(alloc: Global, plies: u8, capacity: u32) -> Result<Connections, NoMemory>
        requires some_plies { 1 ≤ plies }
        requires few_plies { plies ≤ most_moves }
        requires some { 8 ≤ capacity }
        requires few { capacity ≤ 65536 }
        ensures { IfOk result (λ links. links ≡ record { plies = plies; answers = first_keeping capacity }) }
    {
        Ok(Connections {
            plies,
            answers: KeptAnswers::new(alloc, capacity)?,
        })
    }

    /// Answers a question about two stones of one colour on the position, at the present plies. The answer is that of a
    /// fresh reading. It comes from the cache exactly if a cached variant of the question stands on the position; else
    /// the question is read, and its answer is cached if there is memory for it.
    pub fn ask(&mut self, kind: LinkKind, position: &Position, a: Point, b: Point) -> Linkage
        requires a_on { a < position.now.size * position.now.size }
        requires b_on { b < position.now.size * position.now.size }
        requires stone { cell_at position.now.cells a ≢ Cell.Empty }
        requires one_colour { cell_at position.now.cells b ≡ cell_at position.now.cells a }
        ensures answer { result ≡ linkage_of (asked_on position.now kind a b self.old.plies) position.now }
        ensures none { IsNone result.at ↔ (result.yes ≡ false) }
        ensures on_board { IfSome result.at (IsOnBoard position.now.size) }

        // Either the answer was found in the cache, and no count has changed; or it was fresh and counted, and it is
        // cached first or was refused for want of memory.
        ensures asked { HasAsked (key_on position.now kind a b self.old.plies) position.now result
            self.old.answers self.new.answers }

        // Each cached variant rests on its facts.
        ensures rest { HoldsOfEach Rests self.new.answers.kept }
        ensures plies { self.new.plies ≡ self.old.plies }
    {
        let key = key_of(kind, position, a, b, self.plies);
        self.answers.ask(key, position).answer
    }

    /// Answers a question about two stones of one colour on the position, if a cached variant of the question stands
    /// there; else `None`, and nothing changes.
    pub fn find_kept(
        &mut self,
        kind: LinkKind,
        position: &Position,
        a: Point,
        b: Point,
    ) -> Option<Linkage>
        requires a_on { a < position.now.size * position.now.size }
        requires b_on { b < position.now.size * position.now.size }
        requires stone { cell_at position.now.cells a ≢ Cell.Empty }
        requires one_colour { cell_at position.now.cells b ≡ cell_at position.now.cells a }
        ensures answer { IfSome result (λ linkage. linkage
            ≡ linkage_of (asked_on position.now kind a b self.old.plies) position.now) }
        ensures on_board { IfSome result (λ linkage. IfSome linkage.at (IsOnBoard position.now.size)) }
        ensures asked { IfSome result (λ linkage. HasAsked (key_on position.now kind a b self.old.plies) position.now
            linkage self.old.answers self.new.answers) }
        ensures rest { HoldsOfEach Rests self.new.answers.kept }
        ensures plies { self.new.plies ≡ self.old.plies }
        ensures missing { IfNone result (IsMissing same_key (key_on position.now kind a b self.old.plies) position.now
            self.old.answers.kept) }
        ensures same { IfNone result (self.new ≡ self.old) }
    {
        let key = key_of(kind, position, a, b, self.plies);
        let linkage = self.answers.find(&key, position)?;
        Some(linkage)
    }

    /// Sets the number of plies, from 1 to 200, and changes nothing else.
    pub fn set(&mut self, plies: u8)
        requires some_plies { 1 ≤ plies }
        requires few_plies { plies ≤ most_moves }
        ensures { self.new ≡ record self.old { plies = plies } }
    {
        self.plies = plies;
    }

    /// How many answers were fresh, as far as a `u64` counts.
    pub fn fresh(&self) -> u64
        ensures { result ≡ self.now.answers.fresh }
    {
        self.answers.fresh()
    }

    /// How many answers could not be cached for want of memory, as far as a `u64` counts.
    pub fn refused(&self) -> u64
        ensures { result ≡ self.now.answers.refused }
    {
        self.answers.refused()
    }
}
