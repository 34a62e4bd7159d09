//! The commands that print a proof of a reading's code, and that check one.
ghost use Rattle.std.specs.Prelude.{◌≡◌, ◌*◌, ◌<◌, ◌≤◌, ◌++◌, ◌∷◌, List, IfOk, decimal};
ghost use Rattle.gtp_cmd.specs.Words.{blank};
ghost use Rattle.gtp_cmd.specs.Spans.{spanned, IsSpanOf};
ghost use Rattle.helpers.specs.HelperStates.{SlotState};
ghost use Rattle.machine_rules.specs.ProofCommands.{proved, checked, kind_of};
ghost use Rattle.session_core.specs.CommandAnswers.{IsAnswer};
ghost use Rattle.session_core.specs.EngineView.{machine_with};

use crate::answer::{Answer, brief_answer, grown};
use crate::engine::board_commands::has_stone;
use crate::engine::{Engine, word};
use crate::point_lists::push_number;
use go_base::{Bytes, NoMemory, Point};
use gtp_cmd::{RefuseText, Span};
use read_proof::check;
use read_tree::Kind;
use write_proof::{Proof, ProofError, first_proof};

impl Engine {
    /// Prints the first proof of the code of a question about the string of `p`.
    pub(crate) fn print_proof(&self, kind: Kind, p: Point) -> Answer
        requires { p < self.now.base.size * self.now.base.size }
        ensures { (helpers : List SlotState) → IsAnswer (proved (machine_with helpers self.now) kind p) result
            (machine_with helpers self.now) }
    {
        if !has_stone(self.board(), p) {
            return Answer::Refused(RefuseText::VertexEmpty);
        }
        let position = self.position();
        match first_proof(self.alloc, &position, kind, p, self.readings.depths()) {
            Ok(proof) => grown(self.proof_text(&proof)),
            Err(ProofError::TooLong) => Answer::Refused(RefuseText::ProofTooLong),
            Err(ProofError::NoMemory) => Answer::NoMemory,
        }
    }

    /// The code and the text of `proof` as they are printed. Takes memory.
    fn proof_text(&self, proof: &Proof) -> Result<Bytes, NoMemory>
        ensures { IfOk result (λ text. text ≡ decimal proof.now.code ++ blank ∷ proof.now.text) }
    {
        let mut text = Bytes::new(self.alloc);
        push_number(&mut text, proof.code)?;
        text.push(b' ')?;
        text.extend(proof.text.as_slice())?;
        Ok(text)
    }

    /// Prints whether the words of `line` at `tokens` are a proof of `code` for a question about the string of `p`.
    pub(crate) fn check_proof(
        &self,
        attack: bool,
        p: Point,
        code: u8,
        line: &[u8],
        tokens: Span,
    ) -> Answer
        requires on_board { p < self.now.base.size * self.now.base.size }
        requires code { code ≤ 3 }
        requires span { IsSpanOf line.now tokens }
        ensures { (helpers : List SlotState) → IsAnswer (checked (machine_with helpers self.now) (kind_of attack) p code
            (spanned line.now tokens)) result (machine_with helpers self.now) }
    {
        if !has_stone(self.board(), p) {
            return Answer::Refused(RefuseText::VertexEmpty);
        }
        let position = self.position();
        let kind = if attack { Kind::Attack } else { Kind::Defend };
        let words = &line[tokens.from as usize..tokens.to as usize];
        brief_answer(word(check(&position, kind, p, self.readings.depths(), code, words)))
    }
}
