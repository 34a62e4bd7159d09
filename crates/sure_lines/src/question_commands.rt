//! The commands that ask whether a capture is sure.

ghost use Rattle.std.specs.Prelude.{◌≡◌, ◌≢◌, ◌*◌, ◌<◌, ◌≤◌, IfSome};
ghost use Rattle.go_rules.specs.Strings.{cell_at};
ghost use Rattle.read_rules.specs.Answer.{asked_in};
ghost use Rattle.read_rules.specs.GoodMoves.{IsOnBoard};
ghost use Rattle.sure_rules.specs.SureAnswer.{sure_answer_of};
ghost use Rattle.sure_lines.specs.Answers.{IsAnswer};
ghost use Rattle.sure_lines.specs.QuestionCommands.{read};

use crate::answer::{Answer, text_answer};
use crate::answer_text::answer_text;
use crate::machine::SureMachine;
use go_base::{Cell, Point, Position};
use gtp_cmd::RefuseText;
use read_rules::{Depths, Kind};
use read_zones::{sure_attack, sure_defend};

/// The sure answer to a question about the stone at `p`.
pub(crate) fn sure_answer(
    position: &Position,
    kind: Kind,
    p: Point,
    depths: Depths,
) -> read_rules::Answer
    requires on_board { p < position.now.size * position.now.size }
    requires stone { cell_at position.now.cells p ≢ Cell.Empty }
    ensures code { result.code ≤ 3 }
    ensures on_board { IfSome result.at (IsOnBoard position.now.size) }
    ensures answer { result
        ≡ sure_answer_of (asked_in depths.tree position.now kind p depths.plies depths.wide) position.now }
{
    match kind {
        Kind::Attack => sure_attack(position, p, depths),
        Kind::Defend => sure_defend(position, p, depths),
    }
}

impl SureMachine {
    /// Answers a question about the string of `p`; refused if no stone stands there.
    pub(crate) fn read(&self, kind: Kind, p: Point) -> Answer
        requires { p < self.now.game.base.size * self.now.game.base.size }
        ensures { IsAnswer (read self.now kind p) result self.now self.now }
    {
        let position = self.position();
        if position.cell(p) == Cell::Empty {
            return Answer::Refused(RefuseText::VertexEmpty);
        }
        let answer = sure_answer(&position, kind, p, self.depths);
        text_answer(answer_text(position.size(), answer))
    }
}
