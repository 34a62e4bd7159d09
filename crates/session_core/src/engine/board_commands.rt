//! The commands that set up a board, play on it and answer questions about it.
ghost use Rattle.std.specs.Prelude.{List, ◌≡◌, ◌*◌, ◌<◌, ◌≤◌, length, is_ok, IfSome};
ghost use Rattle.go_rules.specs.declared.Move.{Move};
ghost use Rattle.go_rules.specs.Replay.{moved};
ghost use Rattle.go_rules.specs.Strings.{cell_at, is_stone};
ghost use Rattle.go_strings.specs.Games.{reached};
ghost use Rattle.helpers.specs.HelperStates.{SlotState};
ghost use Rattle.session_core.specs.EngineView.{board_of, machine_with};
ghost use Rattle.machine_rules.specs.BoardCommands.{digit_of, resized, cleared, komi_kept, played, taken_back, shown};
ghost use Rattle.machine_rules.specs.BoardCommands.{allowed, all_allowed, liberties_counted, liberties_found};
ghost use Rattle.machine_rules.specs.BoardCommands.{captures_counted};
ghost use Rattle.session_core.specs.AskedLinks.{LinksNothing};
ghost use Rattle.session_core.specs.CommandAnswers.{IsAnswer};

use crate::answer::{Answer, brief_answer, grown, number_answer};
use crate::board_text::board_text;
use crate::engine::Engine;
use crate::point_lists::{legal_text, liberties_text};
use go_base::{Cell, Colour, Point, Size};
use go_history::{HistoryError, Move};
use go_strings::StringBoard;
use gtp_cmd::{KomiText, RefuseText};

/// `1` or `0`.
fn digit(holds: bool) -> &'static [u8]
    ensures text { result.now ≡ digit_of holds }
    ensures short { length result.now ≤ 1 }
{
    if holds { b"1" } else { b"0" }
}

/// Whether a stone stands at `p`.
pub(crate) fn has_stone(board: &StringBoard, p: Point) -> bool
    requires { p < (reached board.now).size * (reached board.now).size }
    ensures { result ≡ is_stone (cell_at (reached board.now).cells p) }
{
    match board.cell(p) {
        Cell::Empty => false,
        Cell::Black | Cell::White => true,
    }
}

impl Engine {
    /// Starts again on the empty board of `size`, or refuses if no board has the size.
    pub(crate) fn resize(&mut self, size: Option<Size>) -> Answer
        ensures answer { (helpers : List SlotState) → IsAnswer
            (resized (machine_with helpers self.old) size) result
            (machine_with helpers self.new) }
        ensures counts { self.new.counts ≡ self.old.counts }
        ensures kept { self.new.readings.answers.kept ≡ self.old.readings.answers.kept }
        ensures links { LinksNothing self.old self.new }
    {
        let Some(size) = size else {
            return Answer::Refused(RefuseText::UnacceptableSize);
        };
        self.history.resize(size);
        brief_answer(b"")
    }

    /// Empties the board and the list of moves; the size stays.
    pub(crate) fn clear(&mut self) -> Answer
        ensures answer { (helpers : List SlotState) → IsAnswer
            (cleared (machine_with helpers self.old)) result (machine_with helpers self.new) }
        ensures counts { self.new.counts ≡ self.old.counts }
        ensures kept { self.new.readings.answers.kept ≡ self.old.readings.answers.kept }
        ensures links { LinksNothing self.old self.new }
    {
        self.history.clear();
        brief_answer(b"")
    }

    /// Keeps the text of the komi.
    pub(crate) fn keep_komi(&mut self, komi: KomiText) -> Answer
        ensures answer { (helpers : List SlotState) → IsAnswer
            (komi_kept (machine_with helpers self.old) komi) result
            (machine_with helpers self.new) }
        ensures counts { self.new.counts ≡ self.old.counts }
        ensures kept { self.new.readings.answers.kept ≡ self.old.readings.answers.kept }
        ensures links { LinksNothing self.old self.new }
    {
        self.komi = komi;
        brief_answer(b"")
    }

    /// Plays `m`, if it is legal and the list of moves is not full.
    pub(crate) fn play(&mut self, m: Move) -> Answer
        requires { IfSome m.at (λ p. p < self.old.base.size * self.old.base.size) }
        ensures answer { (helpers : List SlotState) → IsAnswer
            (played (machine_with helpers self.old) m) result (machine_with helpers self.new) }
        ensures counts { self.new.counts ≡ self.old.counts }
        ensures kept { self.new.readings.answers.kept ≡ self.old.readings.answers.kept }
        ensures links { LinksNothing self.old self.new }
    {
        match self.history.play(m) {
            Ok(()) => brief_answer(b""),
            Err(HistoryError::Illegal(_)) => Answer::Refused(RefuseText::IllegalMove),
            Err(HistoryError::Full) => Answer::Refused(RefuseText::HistoryFull),
            Err(HistoryError::NoMemory) => Answer::NoMemory,
        }
    }

    /// Takes the last move back.
    pub(crate) fn undo(&mut self) -> Answer
        ensures answer { (helpers : List SlotState) → IsAnswer
            (taken_back (machine_with helpers self.old) self.old.moves) result
            (machine_with helpers self.new) }
        ensures counts { self.new.counts ≡ self.old.counts }
        ensures kept { self.new.readings.answers.kept ≡ self.old.readings.answers.kept }
        ensures links { LinksNothing self.old self.new }
    {
        match self.history.undo() {
            Ok(()) => brief_answer(b""),
            Err(_) => Answer::Refused(RefuseText::CannotUndo),
        }
    }

    /// Whether the rules allow `m`.
    fn is_legal(&self, m: Move) -> bool
        requires { IfSome m.at (λ p. p < self.now.base.size * self.now.base.size) }
        ensures { result ≡ is_ok (moved (board_of self.now) m) }
    {
        match m.at {
            Some(p) => self.board().is_legal(m.colour, p),
            None => true,
        }
    }

    /// Prints `1` if the rules allow `m`, else `0`.
    pub(crate) fn tell_legal(&self, m: Move) -> Answer
        requires { IfSome m.at (λ p. p < self.now.base.size * self.now.base.size) }
        ensures { (helpers : List SlotState) → IsAnswer
            (allowed (machine_with helpers self.now) m) result (machine_with helpers self.now) }
    {
        brief_answer(digit(self.is_legal(m)))
    }

    /// Prints the board.
    pub(crate) fn show_board(&self) -> Answer
        ensures { (helpers : List SlotState) → IsAnswer
            (shown (machine_with helpers self.now)) result (machine_with helpers self.now) }
    {
        grown(board_text(self.alloc, &self.position()))
    }

    /// Lists the points where `colour` may play.
    pub(crate) fn list_legal(&self, colour: Colour) -> Answer
        ensures { (helpers : List SlotState) → IsAnswer
            (all_allowed (machine_with helpers self.now) colour) result
            (machine_with helpers self.now) }
    {
        grown(legal_text(self.alloc, self.board(), colour))
    }

    /// Prints the number of liberties of the string of `p`.
    pub(crate) fn count_liberties(&self, p: Point) -> Answer
        requires { p < self.now.base.size * self.now.base.size }
        ensures { (helpers : List SlotState) → IsAnswer
            (liberties_counted (machine_with helpers self.now) p) result
            (machine_with helpers self.now) }
    {
        let board = self.board();
        if !has_stone(board, p) {
            return Answer::Refused(RefuseText::VertexEmpty);
        }
        number_answer(u32::from(board.liberties(p)))
    }

    /// Lists the liberties of the string of `p`.
    pub(crate) fn find_liberties(&self, p: Point) -> Answer
        requires { p < self.now.base.size * self.now.base.size }
        ensures { (helpers : List SlotState) → IsAnswer
            (liberties_found (machine_with helpers self.now) p) result
            (machine_with helpers self.now) }
    {
        let board = self.board();
        if !has_stone(board, p) {
            return Answer::Refused(RefuseText::VertexEmpty);
        }
        grown(liberties_text(self.alloc, board, p))
    }

    /// Prints how many stones the moves of `colour` captured.
    pub(crate) fn count_captures(&self, colour: Colour) -> Answer
        ensures { (helpers : List SlotState) → IsAnswer
            (captures_counted (machine_with helpers self.now) colour) result
            (machine_with helpers self.now) }
    {
        number_answer(self.history.captures(colour))
    }
}
