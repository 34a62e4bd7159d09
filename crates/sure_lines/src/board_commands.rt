//! The commands that set up a board and play on it.

ghost use Rattle.std.specs.Prelude.{◌≡◌, ◌*◌, ◌<◌, IfSome};
ghost use Rattle.read_rules.specs.Ranges.{AreDepths};
ghost use Rattle.sure_lines.specs.Answers.{IsAnswer};
ghost use Rattle.sure_lines.specs.BoardCommands.{resized, cleared, played, taken_back, deepened};

use crate::answer::{Answer, brief_answer};
use crate::machine::SureMachine;
use go_base::Size;
use go_history::{HistoryError, Move};
use gtp_cmd::RefuseText;
use read_rules::Depths;

impl SureMachine {
    /// Begins again from the empty board of this size; `None` is refused, since it is no size of a board.
    pub(crate) fn resize(&mut self, size: Option<Size>) -> Answer
        ensures { IsAnswer (resized self.old size) result self.old self.new }
    {
        let Some(size) = size else {
            return Answer::Refused(RefuseText::UnacceptableSize);
        };
        self.game.resize(size);
        brief_answer(b"")
    }

    /// Begins again from the empty board of the present size.
    pub(crate) fn clear(&mut self) -> Answer
        ensures { IsAnswer (cleared self.old) result self.old self.new }
    {
        self.game.clear();
        brief_answer(b"")
    }

    /// Plays a move: adds it to the game if it is legal.
    pub(crate) fn play(&mut self, m: Move) -> Answer
        requires { IfSome m.at (λ p. p < self.old.game.base.size * self.old.game.base.size) }
        ensures { IsAnswer (played self.old m) result self.old self.new }
    {
        match self.game.play(m) {
            Ok(()) => brief_answer(b""),
            Err(HistoryError::Illegal(_)) => Answer::Refused(RefuseText::IllegalMove),
            Err(HistoryError::Full) => Answer::Refused(RefuseText::HistoryFull),
            Err(HistoryError::NoMemory) => Answer::NoMemory,
        }
    }

    /// Takes the last move back.
    pub(crate) fn undo(&mut self) -> Answer
        ensures { IsAnswer (taken_back self.old self.old.game.moves) result self.old self.new }
    {
        match self.game.undo() {
            Ok(()) => brief_answer(b""),
            Err(_) => Answer::Refused(RefuseText::CannotUndo),
        }
    }

    /// Sets the plies and the wide plies of later readings; their tree stays.
    pub(crate) fn deepen(&mut self, plies: u8, wide: u8) -> Answer
        requires { AreDepths plies wide }
        ensures { IsAnswer (deepened self.old plies wide) result self.old self.new }
    {
        let tree = self.depths.tree;
        self.depths = Depths::new(plies, wide).unwrap().in_tree(tree);
        brief_answer(b"")
    }
}
