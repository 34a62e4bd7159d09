//! The commands that choose a move by the patterns.
ghost use Rattle.std.specs.Prelude.{◌≡◌, ◌⊎◌, ◌*◌, ◌<◌, true, is_err, IfOk, IfSome};
ghost use Rattle.helpers.specs.Slots.{states_of};
ghost use Rattle.machine_rules.specs.ChoiceCommands.{chosen_point, move_told, move_made};
ghost use Rattle.machine_rules.specs.MatchingCommands.{after_asking};
ghost use Rattle.machine_rules.specs.Questions.{asks_of};
ghost use Rattle.gtp_cmd.specs.declared.commands.Command.TheVariants as command;
ghost use Rattle.session_core.specs.AfterLine.{ReadsAs, ReadsMany};
ghost use Rattle.session_core.specs.AskedLinks.{LinksNothing};
ghost use Rattle.session_core.specs.CommandAnswers.{IsAnswer};
ghost use Rattle.session_core.specs.EngineView.{machine_alone, machine_with};
ghost use Rattle.session_core.specs.MatcherView.{matcher_of};

use crate::answer::{Answer, text_answer};
use crate::engine::Engine;
use crate::matcher::Matcher;
use crate::readings::move_text;
use go_base::{Colour, NoMemory, Point};
use go_history::Move;
use gtp_cmd::RefuseText;
use helpers::Helpers;
use move_choice::choose;

impl Engine {
    /// The point of the chosen match for `friend`, or `None` if no pattern matches. Takes memory: if there is none, the
    /// helpers may have been asked or not.
    fn chosen_point(
        &mut self,
        matcher: &Matcher,
        helpers: &mut Helpers,
        friend: Colour,
    ) -> Result<Option<Point>, NoMemory>
        ensures point { IfOk result (λ at. at ≡ chosen_point (matcher_of matcher.now)
            (machine_with (states_of state helpers.old) self.old) friend) }
        ensures board { IfOk result (λ at. IfSome at (λ p. p < self.old.base.size * self.old.base.size)) }
        ensures asked { (machine_with (states_of state helpers.new) self.new
            ≡ after_asking (matcher_of matcher.now) (machine_with (states_of state helpers.old) self.old) friend)
            ⊎ ((is_err result ≡ true) × (machine_with (states_of state helpers.new) self.new
            ≡ machine_with (states_of state helpers.old) self.old)) }
        ensures read { ReadsMany self.old self.new }
        ensures links { LinksNothing self.old self.new }
    {
        let found = self.find_matches(matcher, helpers, friend)?;
        Ok(match choose(matcher.patterns(), found.as_slice()) {
            Some(z) => Some(z.at),
            None => None,
        })
    }

    /// Prints the move for `friend` that the patterns choose, and plays nothing.
    pub(crate) fn tell_move(
        &mut self,
        matcher: &Matcher,
        helpers: &mut Helpers,
        friend: Colour,
    ) -> Answer
        ensures answer { IsAnswer (move_told (matcher_of matcher.now)
            (machine_with (states_of state helpers.old) self.old) friend)
            result (machine_with (states_of state helpers.new) self.new) }
        ensures read { ReadsMany self.old self.new }
        ensures links { LinksNothing self.old self.new }
    {
        let size = self.history.size();
        match self.chosen_point(matcher, helpers, friend) {
            Ok(at) => text_answer(move_text(size, at)),
            Err(_) => Answer::NoMemory,
        }
    }

    /// Plays the move for `friend` that the patterns choose, a pass if they choose none, and prints it.
    pub(crate) fn make_move(
        &mut self,
        matcher: &Matcher,
        helpers: &mut Helpers,
        friend: Colour,
    ) -> Answer
        ensures answer { IsAnswer (move_made (matcher_of matcher.now)
            (machine_with (states_of state helpers.old) self.old) friend)
            result (machine_with (states_of state helpers.new) self.new) }
        ensures read { ReadsAs (asks_of (machine_alone self.old) (command.GenMove friend)) self.old self.new }
        ensures links { LinksNothing self.old self.new }
    {
        if self.history.full() {
            return Answer::Refused(RefuseText::HistoryFull);
        }
        let size = self.history.size();
        let Ok(at) = self.chosen_point(matcher, helpers, friend) else {
            return Answer::NoMemory;
        };
        match self.history.play(Move { colour: friend, at }) {
            Ok(()) => text_answer(move_text(size, at)),
            Err(_) => Answer::NoMemory,
        }
    }
}
