//! The commands that read whether two strings can be joined or kept apart.
ghost use Rattle.std.specs.Prelude.{List, ◌≡◌, ◌≢◌, ◌*◌, ◌<◌, true, is_none, IsNone, IfOk, IfErr, OnOk, OnErr, IfSome};
ghost use Rattle.go_rules.specs.Strings.{cell_at};
ghost use Rattle.helpers.specs.HelperStates.{SlotState};
ghost use Rattle.connect_rules.specs.declared.question.LinkKind.{LinkKind};
ghost use Rattle.machine_rules.specs.Counting.{counted};
ghost use Rattle.machine_rules.specs.LinkCommands.{linked};
ghost use Rattle.machine_rules.specs.LinkQuestions.{have_one_colour, asks_link_at};
ghost use Rattle.session_core.specs.AfterLine.{ReadsNothing, of_readings};
ghost use Rattle.session_core.specs.AskedLinks.{LinksAs, CountsFreshLinks};
ghost use Rattle.session_core.specs.CommandAnswers.{IsAnswer};
ghost use Rattle.session_core.specs.EngineView.{board_of, machine_alone, machine_with};

use crate::answer::{Answer, text_answer};
use crate::engine::Engine;
use crate::engine::board_commands::has_stone;
use crate::readings::linkage_text;
use crate::slow::Work;
use connect_rules::LinkKind;
use go_base::{Cell, Point};
use gtp_cmd::RefuseText;

impl Engine {
    /// Why a question about the strings of `a` and `b` is refused: no stone stands at one of these points, or the two
    /// stones differ in colour. `None` if it is not refused.
    fn link_refusal(&self, a: Point, b: Point) -> Option<RefuseText>
        requires a { a < self.now.base.size * self.now.base.size }
        requires b { b < self.now.base.size * self.now.base.size }
        ensures answer { (helpers : List SlotState) (kind : LinkKind) → IfSome result (λ text. IsAnswer
            (linked (machine_with helpers self.now) kind a b) (Answer.Refused text) (machine_with helpers self.now)) }
        ensures one { is_none result ≡ have_one_colour (machine_alone self.now) a b }
        ensures stone { IsNone result → cell_at (board_of self.now).cells a ≢ Cell.Empty }
        ensures one_colour { IsNone result
            → cell_at (board_of self.now).cells b ≡ cell_at (board_of self.now).cells a }
    {
        let board = self.board();
        if !has_stone(board, a) || !has_stone(board, b) {
            return Some(RefuseText::VertexEmpty);
        }
        if board.cell(a) != board.cell(b) {
            return Some(RefuseText::ColoursDiffer);
        }
        None
    }

    /// Counts a question about a connection.
    fn count_link(&mut self)
        ensures machine { (helpers : List SlotState) → machine_with helpers self.new ≡ machine_with helpers self.old }
        ensures connections { self.new.counts.links.connections ≡ counted self.old.counts.links.connections true }
        ensures counts { of_readings self.new.counts ≡ of_readings self.old.counts }
        ensures kept { self.new.readings ≡ self.old.readings }
        ensures links { self.new.links ≡ self.old.links }
        ensures fresh { CountsFreshLinks self.new }
    {
        self.connections = self.connections.saturating_add(1);
    }

    /// Answers a question about the strings of `a` and `b`, from the cache or afresh, if stones of one colour stand
    /// there.
    pub(crate) fn tell_link(&mut self, kind: LinkKind, a: Point, b: Point) -> Answer
        requires a { a < self.old.base.size * self.old.base.size }
        requires b { b < self.old.base.size * self.old.base.size }
        ensures answer { (helpers : List SlotState) → IsAnswer (linked (machine_with helpers self.old) kind a b) result
            (machine_with helpers self.new) }
        ensures read { ReadsNothing self.old self.new }
        ensures links { LinksAs (asks_link_at (machine_alone self.old) kind a b) self.old self.new }
    {
        if let Some(text) = self.link_refusal(a, b) {
            return Answer::Refused(text);
        }
        let position = self.position();
        let linkage = self.links.ask(kind, &position, a, b);
        self.count_link();
        text_answer(linkage_text(position.size(), linkage))
    }

    /// Answers the question about the strings of `a` and `b` that `work` stands for, if the answer is cached or the
    /// question is refused. Else nothing is done, and `work` comes back.
    pub(crate) fn recall_link(
        &mut self,
        kind: LinkKind,
        a: Point,
        b: Point,
        work: Work,
    ) -> Result<Answer, Work>
        requires a { a < self.old.base.size * self.old.base.size }
        requires b { b < self.old.base.size * self.old.base.size }
        ensures answer { (helpers : List SlotState) → IfOk result (λ answer. IsAnswer
            (linked (machine_with helpers self.old) kind a b) answer (machine_with helpers self.new)) }
        ensures read { OnOk result (ReadsNothing self.old self.new) }
        ensures links { OnOk result (LinksAs (asks_link_at (machine_alone self.old) kind a b) self.old self.new) }
        ensures slow { IfErr result (λ left. left ≡ work) }
        ensures same { OnErr result (self.new ≡ self.old) }
    {
        if let Some(text) = self.link_refusal(a, b) {
            return Ok(Answer::Refused(text));
        }
        let position = self.position();
        let Some(linkage) = self.links.find_kept(kind, &position, a, b) else {
            return Err(work);
        };
        self.count_link();
        Ok(text_answer(linkage_text(position.size(), linkage)))
    }
}
