//! The rings around the anchors, which are read once for all transformations.
//!
//! The first nine letters of a word are the anchor's and those of the ring around it. Transformations 1 to 3 turn this
//! ring by one, two and three quarters; 7, 6 and 5 turn in the same way the ring that 4 mirrors. A turn by a quarter
//! puts the first two letters last. So a ring is read twice, as it is and mirrored, and its number under each
//! transformation follows.
ghost use Rattle.std.specs.Prelude.{◌≡◌, ℕ, ◌+◌, ◌≤◌, List, All, IfOk, map, slice_index_or};
ghost use Rattle.dfa_core.specs.declared.automaton.Seen.{Seen as SeenThere};
ghost use Rattle.dfa_shortcuts.specs.Openings.{opening_letters, word_number};
ghost use Rattle.dfa_match.specs.Rings.{letters_around, ring_of, ring_under, turned_number};
ghost use Rattle.dfa_match.specs.Steps.{last_corner, no_step, AreSteps};
ghost use Rattle.dfa_match.specs.Walks.{word_behind};
ghost use Rattle.dfa_match.specs.declared.walks.Walk.{Walk as WalkThere};

use crate::padded_board::PaddedBoard;
use crate::walks::Walk;
use dfa_core::Seen;
use dfa_shortcuts::OPENING_LETTERS;
use go_base::{NoMemory, Transform};
use std::alloc::Global;

/// The letters of the ring around an anchor, as the digits of a number to the base four, the first one highest.
#[derive(Clone, Copy)]
pub struct Ring {
    /// The letters as they are read under transformation 0, which moves nothing.
    pub plain: u16,
    /// The letters as they are read under transformation 4, which mirrors the ring.
    pub mirrored: u16,
}

/// How many letters a ring has: those of an opening without the anchor's.
const RING_LETTERS: usize = OPENING_LETTERS as usize - 1;

/// How many numbers a ring can have.
const RING_NUMBERS: u32 = 65_536;

/// The number of the ring with this `number` after a turn by a quarter, which puts its first two letters last.
#[inline(always)]
fn turned(number: u16) -> u16
    ensures { result ≡ turned_number number }
{
    number % 4096 * 16 + number / 4096
}

impl Ring {
    /// The number of the ring's letters as they are read under the transformation `t`.
    #[inline(always)]
    fn under(self, t: Transform) -> u16
        ensures { result ≡ ring_under t self }
    {
        match t.get() {
            0 => self.plain,
            1 => turned(self.plain),
            2 => turned(turned(self.plain)),
            3 => turned(turned(turned(self.plain))),
            4 => self.mirrored,
            5 => turned(turned(turned(self.mirrored))),
            6 => turned(turned(self.mirrored)),
            _ => turned(self.mirrored),
        }
    }
}

/// The number of the ring that is read by `steps` around the anchor whose square begins at `corner`.
fn ring_number(padded: &PaddedBoard, steps: &[u16], corner: u16) -> u16
    requires corner { corner ≤ last_corner }
    requires steps { (t : ℕ) × AreSteps t steps.now }
    ensures { (t : ℕ) → AreSteps t steps.now → result ≡ word_number (letters_around padded.now.letters t corner) }
{
    let mut number = 0;
    'letters: for place in 0..RING_LETTERS {
        number = 4 * number + padded.letter(corner, steps[1 + place]) as u16;
    }
    number
}

/// The rings around the anchors of `walks`, in the order of the walks. `plain` and `mirrored` are the steps under
/// transformations 0 and 4. Takes memory.
pub fn rings(
    alloc: Global,
    padded: &PaddedBoard,
    plain: &[u16],
    mirrored: &[u16],
    walks: &[Walk],
) -> Result<Vec<Ring>, NoMemory>
    requires corners { All (λ w. w.corner ≤ last_corner) walks.now }
    requires plain { AreSteps 0 plain.now }
    requires mirrored { AreSteps 4 mirrored.now }
    ensures { IfOk result (λ rings. rings.items ≡ map (ring_of padded.now.letters) walks.now) }
{
    let mut rings = Vec::with_capacity(alloc, walks.len())?;
    'walks: for walk in walks {
        rings.push(Ring {
            plain: ring_number(padded, plain, walk.corner),
            mirrored: ring_number(padded, mirrored, walk.corner),
        })?;
    }
    Ok(rings)
}

/// The number of the opening that has the letter `anchor` and then the letters of `ring` under the transformation `t`.
#[inline(always)]
pub fn opening_number(anchor: Seen, ring: Ring, t: Transform) -> u32
    ensures { (letters : List SeenThere) (steps : List ℕ) (w : WalkThere) → AreSteps t steps
        → anchor ≡ slice_index_or letters (w.corner + no_step) Seen.Off → ring ≡ ring_of letters w
        → result ≡ word_number (word_behind letters steps w.corner opening_letters) }
{
    let _ = t.get();
    RING_NUMBERS * anchor as u32 + ring.under(t) as u32
}
