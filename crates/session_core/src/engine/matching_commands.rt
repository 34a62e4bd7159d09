//! The commands that list patterns and their matches.
ghost use Rattle.std.specs.Prelude.{◌≡◌, List, IfOk, OnOk, OnErr};
ghost use Rattle.helpers.specs.HelperStates.{SlotState};
ghost use Rattle.helpers.specs.Slots.{states_of};
ghost use Rattle.session_core.specs.EngineView.{machine_with};
ghost use Rattle.session_core.specs.MatcherView.{matcher_of};
ghost use Rattle.machine_rules.specs.MatchTexts.{AreAmong};
ghost use Rattle.machine_rules.specs.MatchingCommands.{matches_found, after_asking, matches_listed, patterns_listed};
ghost use Rattle.session_core.specs.AskedLinks.{LinksNothing};
ghost use Rattle.session_core.specs.CommandAnswers.{IsAnswer};
ghost use Rattle.session_core.specs.AfterLine.{ReadsMany};

use crate::answer::{Answer, grown};
use crate::engine::Engine;
use crate::match_text::list_text;
use crate::matcher::Matcher;
use crate::pattern_text::patterns_text;
use go_base::{Colour, NoMemory};
use helpers::Helpers;
use match_engine::matches;
use match_rules::Match;

impl Engine {
    /// The matches for `friend` on the board that `matcher` finds and the helpers allow. What classes and constraints
    /// ask is read first, and the helpers that the patterns name are asked last. Takes memory: if there is none,
    /// nothing was read or asked.
    pub(crate) fn find_matches(
        &mut self,
        matcher: &Matcher,
        helpers: &mut Helpers,
        friend: Colour,
    ) -> Result<Vec<Match>, NoMemory>
        ensures found { IfOk result (λ found. found.items ≡ matches_found (matcher_of matcher.now)
            (machine_with (states_of state helpers.old) self.old) friend) }
        ensures among { IfOk result (λ found. AreAmong matcher.now.patterns self.old.base.size found.items) }
        ensures asked { OnOk result (machine_with (states_of state helpers.new) self.new
            ≡ after_asking (matcher_of matcher.now) (machine_with (states_of state helpers.old) self.old) friend) }
        ensures unasked { OnErr result (machine_with (states_of state helpers.new) self.new
            ≡ machine_with (states_of state helpers.old) self.old) }
        ensures read { ReadsMany self.old self.new }
        ensures links { LinksNothing self.old self.new }
    {
        let position = self.position();
        let found = matches(
            self.alloc,
            matcher.patterns(),
            matcher.scanner(),
            &position,
            friend,
            &mut self.readings,
            helpers,
        )?;
        Ok(found)
    }

    /// Lists the matches for `friend`. Takes memory.
    pub(crate) fn list_matches(
        &mut self,
        matcher: &Matcher,
        helpers: &mut Helpers,
        friend: Colour,
    ) -> Answer
        ensures answer { IsAnswer (matches_listed (matcher_of matcher.now)
            (machine_with (states_of state helpers.old) self.old) friend)
            result (machine_with (states_of state helpers.new) self.new) }
        ensures read { ReadsMany self.old self.new }
        ensures links { LinksNothing self.old self.new }
    {
        let size = self.history.size();
        let Ok(found) = self.find_matches(matcher, helpers, friend) else {
            return Answer::NoMemory;
        };
        grown(list_text(self.alloc, matcher.patterns(), size, found.as_slice()))
    }

    /// Lists the patterns. Takes memory.
    pub(crate) fn list_patterns(&self, matcher: &Matcher) -> Answer
        ensures { (helpers : List SlotState) → IsAnswer (patterns_listed (matcher_of matcher.now)
            (machine_with helpers self.now)) result (machine_with helpers self.now) }
    {
        grown(patterns_text(self.alloc, matcher.patterns()))
    }
}
