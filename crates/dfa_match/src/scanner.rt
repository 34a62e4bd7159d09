//! An automaton that is ready to be run over boards.
ghost use Rattle.std.specs.Prelude.{◌≡◌, IfOk};

use crate::steps::all_steps;
use dfa_core::Automaton;
use dfa_shortcuts::Shortcuts;
use go_base::NoMemory;
use std::alloc::Global;
use std::marker::Model;

/// An automaton together with what makes its scans short, seen as the rows of the automaton: its shortcuts, and the
/// steps to the places of the spiral under each transformation. All of it follows from the automaton, and is made once.
#[derive(Drop)]
pub struct Scanner {
    /// The automaton.
    pub(crate) automaton: Automaton,
    /// The shortcuts of the automaton.
    pub(crate) shortcuts: Shortcuts,
    /// The steps to the places of the spiral, under each transformation.
    pub(crate) steps: Vec<u16>,
}

impl Model for Scanner {
    ghost use Rattle.std.specs.Prelude.{List};
    ghost use Rattle.dfa_core.specs.Automata.{Row};
    ghost use Rattle.dfa_shortcuts.specs.Shortcuts.{AreShortcuts};
    ghost use Rattle.dfa_shortcuts.specs.Openings.{AreOpenings};
    ghost use Rattle.dfa_match.specs.Steps.{AreAllSteps};

    ghost Value = { List Row };

    ghost view = { λ s. s.automaton };

    ghost invariant = { λ s. AreShortcuts s.automaton s.shortcuts.entries.items s.shortcuts.passed.items
        × AreOpenings s.automaton s.shortcuts.openings.items × AreAllSteps s.steps.items };
}

impl Scanner {
    /// Makes `automaton` ready for scans. Takes memory: five bytes for each letter of each row, 55 kilobytes, and a
    /// megabyte if the automaton is not small.
    pub fn new(alloc: Global, automaton: Automaton) -> Result<Scanner, NoMemory>
        ensures { IfOk result (λ scanner. scanner ≡ automaton) }
    {
        Ok(Scanner {
            shortcuts: Shortcuts::of(alloc, &automaton)?,
            steps: all_steps(alloc)?,
            automaton,
        })
    }
}
