//! The steps from the beginning of a square of all offsets to the places of the offsets, under each transformation.
ghost use Rattle.std.specs.Prelude.{IfOk, OnOk};
ghost use Rattle.dfa_match.specs.Steps.{step_count, AreSteps, AreAllSteps, AreStepsBehind};

use crate::padded_board::step_of;
use go_base::transform::TRANSFORMATIONS;
use go_base::{NoMemory, Transform};
use spiral::{OFFSETS, following};
use std::alloc::Global;

/// How many steps follow those of the offsets: a walk may go so far past the last offset before it is dropped.
const PAST: u16 = 1024;

/// How many steps each transformation has.
const STEPS: usize = OFFSETS as usize + PAST as usize;

/// Adds the steps of all offsets under `t`, and after them those past the last offset, which lead to the corner.
fn add_steps(steps: &mut Vec<u16>, t: Transform) -> Result<(), NoMemory>
    ensures { OnOk result (AreStepsBehind t step_count steps.old.items steps.new.items) }
{
    let mut by = (0, 0);
    'offsets: for index in 0..OFFSETS {
        steps.push(step_of(t.apply(by.0, by.1)))?;
        by = following(by.0, by.1);
    }
    'past: for more in 0..PAST {
        steps.push(0)?;
    }
    Ok(())
}

/// The steps of all offsets under each transformation, one transformation after the other. Takes memory.
pub fn all_steps(alloc: Global) -> Result<Vec<u16>, NoMemory>
    ensures { IfOk result (λ steps. AreAllSteps steps.items) }
{
    let mut steps = Vec::with_capacity(alloc, TRANSFORMATIONS as usize * STEPS)?;
    'transforms: for n in 0..TRANSFORMATIONS {
        if let Some(t) = Transform::new(n) {
            add_steps(&mut steps, t)?;
        }
    }
    Ok(steps)
}

/// The steps of all offsets under the transformation `t`.
pub fn steps_under(steps: &[u16], t: Transform) -> &[u16]
    requires { AreAllSteps steps.now }
    ensures { AreSteps t result.now }
{
    let from = t.get() as usize * STEPS;
    &steps[from..from + STEPS]
}
