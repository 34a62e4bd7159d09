//! The commands that read whether a string can be captured.
ghost use Rattle.std.specs.Prelude.{List, ◌≡◌, ◌*◌, ◌<◌, true, is_some, IfOk, IfErr, OnOk, OnErr};
ghost use Rattle.helpers.specs.HelperStates.{SlotState};
ghost use Rattle.session_core.specs.EngineView.{machine_alone, machine_with};
ghost use Rattle.machine_rules.specs.ReadingCommands.{read, deepened};
ghost use Rattle.read_rules.specs.Ranges.{AreDepths};
ghost use Rattle.session_core.specs.AskedLinks.{LinksNothing};
ghost use Rattle.session_core.specs.CommandAnswers.{IsAnswer};
ghost use Rattle.machine_rules.specs.Counting.{counted, has_stone};
ghost use Rattle.session_core.specs.AfterLine.{ReadsAs, CountsRefused, after_trials};
ghost use Rattle.machine_rules.specs.Questions.{asks_at};

use crate::answer::{Answer, brief_answer, text_answer};
use crate::engine::Engine;
use crate::engine::board_commands::has_stone;
use crate::readings::answer_text;
use crate::slow::Work;
use go_base::Point;
use gtp_cmd::RefuseText;
use read_moves::Depths;
use read_tree::Kind;

impl Engine {
    /// Counts a reading. `tried` is how many trial plays it made, if it was made afresh.
    fn count_reading(&mut self, tried: Option<u64>)
        ensures machine { (helpers : List SlotState) → machine_with helpers self.new ≡ machine_with helpers self.old }
        ensures readings { self.new.counts.readings ≡ counted self.old.counts.readings true }
        ensures fresh { self.new.counts.fresh ≡ counted self.old.counts.fresh (is_some tried) }
        ensures trials { self.new.counts.trials ≡ after_trials self.old.counts.trials tried }
        ensures kept { self.new.readings ≡ self.old.readings }
        ensures refused { CountsRefused self.new }
        ensures links { LinksNothing self.old self.new }
    {
        self.counts.readings = self.counts.readings.saturating_add(1);
        if let Some(trials) = tried {
            self.counts.fresh = self.counts.fresh.saturating_add(1);
            self.counts.trials = self.counts.trials.saturating_add(trials);
        }
    }

    /// Answers a question about the string of `p` by a cached or fresh reading, if a stone stands there.
    pub(crate) fn read(&mut self, kind: Kind, p: Point) -> Answer
        requires { p < self.old.base.size * self.old.base.size }
        ensures answer { (helpers : List SlotState) → IsAnswer
            (read (machine_with helpers self.old) kind p) result
            (machine_with helpers self.new) }
        ensures readings { self.new.counts.readings ≡ counted self.old.counts.readings
            (has_stone (machine_alone self.old) p) }
        ensures read { ReadsAs (asks_at (machine_alone self.old) kind p) self.old self.new }
        ensures links { LinksNothing self.old self.new }
    {
        if !has_stone(self.board(), p) {
            return Answer::Refused(RefuseText::VertexEmpty);
        }
        let position = self.position();
        let answer = self.readings.read(kind, &position, p);
        let tried = self.readings.last();
        self.count_reading(tried);
        text_answer(answer_text(position.size(), answer))
    }

    /// Answers the question about the string of `p` that `work` stands for, if the answer is cached or the question is
    /// refused. Else nothing is done, and `work` comes back.
    #[inline(always)]
    pub(crate) fn recall(&mut self, kind: Kind, p: Point, work: Work) -> Result<Answer, Work>
        requires { p < self.old.base.size * self.old.base.size }
        ensures answer { (helpers : List SlotState) → IfOk result (λ answer. IsAnswer
            (read (machine_with helpers self.old) kind p) answer (machine_with helpers self.new)) }
        ensures readings { OnOk result (self.new.counts.readings ≡ counted self.old.counts.readings
            (has_stone (machine_alone self.old) p)) }
        ensures read { OnOk result (ReadsAs (asks_at (machine_alone self.old) kind p) self.old self.new) }
        ensures links { OnOk result (LinksNothing self.old self.new) }
        ensures slow { IfErr result (λ left. left ≡ work) }
        ensures same { OnErr result (self.new ≡ self.old) }
    {
        if !has_stone(self.board(), p) {
            return Ok(Answer::Refused(RefuseText::VertexEmpty));
        }
        let position = self.position();
        let Some(answer) = self.readings.find_kept(kind, &position, p) else {
            return Err(work);
        };
        let tried = self.readings.last();
        self.count_reading(tried);
        Ok(text_answer(answer_text(position.size(), answer)))
    }

    /// Sets how deep readings go.
    pub(crate) fn deepen(&mut self, plies: u8, wide: u8) -> Answer
        requires { AreDepths plies wide }
        ensures answer { (helpers : List SlotState) → IsAnswer
            (deepened (machine_with helpers self.old) plies wide) result
            (machine_with helpers self.new) }
        ensures counts { self.new.counts ≡ self.old.counts }
        ensures kept { self.new.readings.answers.kept ≡ self.old.readings.answers.kept }
        ensures links { LinksNothing self.old self.new }
    {
        let tree = self.readings.depths().tree;
        self.readings
            .set(Depths::new(plies, wide).unwrap().in_tree(tree));
        self.links.set(plies);
        brief_answer(b"")
    }
}
