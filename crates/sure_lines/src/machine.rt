//! The state from line to line: a game, and how deep readings go.

ghost use Rattle.std.specs.Prelude.{◌≡◌, IfOk};
ghost use Rattle.sure_lines.specs.Machine.{first_machine, present};

use go_base::{NoMemory, Position, Size};
use go_history::History;
use read_rules::Depths;
use std::alloc::Global;
use std::marker::Model;

/// The size of the board until a line sets one.
const FIRST_SIZE: u8 = 19;

/// A game, and how deep readings go on its position, seen by contracts as the `Machine` of the definitions.
#[derive(Drop)]
pub struct SureMachine {
    /// The position from which moves are played, and the moves.
    pub(crate) game: History,
    /// How deep readings go, and the tree that names the attacker's candidates.
    pub(crate) depths: Depths,
}

impl Model for SureMachine {
    ghost use Rattle.sure_lines.specs.Machine.{Machine};
    ghost use Rattle.sure_lines.specs.SeenMachines.{seen};

    ghost Value = { Machine };

    ghost view = { seen };
}

impl SureMachine {
    /// The machine before the first line: the empty board of 19 rows, and readings with these depths. Takes memory.
    pub fn new(alloc: Global, depths: Depths) -> Result<SureMachine, NoMemory>
        ensures { IfOk result (λ machine. machine ≡ first_machine depths) }
    {
        let size = Size::new(FIRST_SIZE).unwrap();
        Ok(SureMachine {
            game: History::new(alloc, size)?,
            depths,
        })
    }

    /// The position after the moves of the game.
    pub(crate) fn position(&self) -> Position
        ensures value { result ≡ present self.now }
        ensures size { (present self.now).size ≡ self.now.game.base.size }
    {
        self.game.position()
    }
}
