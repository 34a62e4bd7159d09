//! What the standing trial moves changed of a position, as one value that can be compared.

ghost use Rattle.std.specs.Prelude.{◌≡◌, ◌≢◌, ◌⊎◌, ℕ, ◌+◌, ◌<◌, ◌≤◌, ◌==◌, ◌||◌, Bool, true, Some, None};
ghost use Rattle.go_rules.specs.Board.{largest_points};
ghost use Rattle.go_base.specs.Bits.{is_marked};
ghost use Rattle.trial_board.specs.Captured.{most_captured};
ghost use Rattle.trial_board.specs.Trials.{most_moves};
ghost use Rattle.trial_board.specs.Standing.{kept_at};
ghost use Rattle.trial_board.specs.Changed.{told_at, is_played_at, is_touched_by, is_touched, TellsPut};

use crate::captured::MAX_CAPTURED;
use crate::known::Known;
use crate::moves::{MAX_TRIAL_MOVES, TrialMove};
use crate::undo::Undo;
use go_base::bits::WORDS;
use go_base::size::{MAX_POINTS, Point};
use go_base::{Cell, Colour};

/// What the standing trial moves changed of a position: the cells at the points that they touched, and the ban. Equal
/// changes of one position give equal positions.
#[derive(Clone, Copy, Debug, PartialEq, Eq)]
pub struct Changes {
    /// A bit for each point: it is set if a black stone was put there, or if a stone was taken away there.
    pub black: [u64; WORDS],
    /// A bit for each point: it is set if a white stone was put there, or if a stone was taken away there. So a point
    /// with both bits is empty, and a point with neither is as in the position.
    pub white: [u64; WORDS],
    /// The ban after the moves.
    pub ban: Option<(Point, Colour)>,
}

/// Sets the bit of `p`.
fn mark(words: &mut [u64; WORDS], p: Point)
    requires { p < largest_points }
    ensures here { is_marked words.new p ≡ true }
    ensures elsewhere { (q : ℕ) → q ≢ p → is_marked words.new q ≡ is_marked words.old q }
{
    words[p as usize / 64] |= 1 << (p % 64);
}

impl Changes {
    /// Changes of no cell, with the ban `ban`.
    pub fn of_ban(ban: Option<(Point, Colour)>) -> Changes
        ensures none { (q : ℕ) → told_at result q ≡ None }
        ensures ban { result.ban ≡ ban }
    {
        Changes {
            black: [0; WORDS],
            white: [0; WORDS],
            ban,
        }
    }

    /// Notes that `p` holds `cell`, if no other cell was noted for `p`.
    fn put(&mut self, p: Point, cell: Cell)
        requires { p < largest_points }
        ensures here { (told_at self.old p ≡ None) ⊎ (told_at self.old p ≡ Some cell) → told_at self.new p ≡ Some cell }
        ensures elsewhere { (q : ℕ) → q ≢ p → told_at self.new q ≡ told_at self.old q }
        ensures ban { self.new.ban ≡ self.old.ban }
    {
        match cell {
            Cell::Black => mark(&mut self.black, p),
            Cell::White => mark(&mut self.white, p),
            Cell::Empty => {
                mark(&mut self.black, p);
                mark(&mut self.white, p);
            }
        }
    }

    /// Notes the cell that was put at `p`, if one was put there.
    fn note(&mut self, known: &[Known; MAX_POINTS], p: Point)
        requires { p < largest_points }
        ensures touched { (touched : ℕ → Bool) → TellsPut known.now touched self.old
            → TellsPut known.now (λ q. q == p || touched q) self.new }
        ensures ban { self.new.ban ≡ self.old.ban }
    {
        if let Known::Put(cell) = known[p as usize] {
            self.put(p, cell);
        }
    }

    /// Notes the cell of the point where the move was made.
    fn note_made(&mut self, known: &[Known; MAX_POINTS], made: TrialMove)
        requires { (q : ℕ) → is_played_at made q ≡ true → q < largest_points }
        ensures touched { (touched : ℕ → Bool) → TellsPut known.now touched self.old
            → TellsPut known.now (λ q. is_played_at made q || touched q) self.new }
        ensures ban { self.new.ban ≡ self.old.ban }
    {
        match made {
            TrialMove::Pass => {}
            TrialMove::Play(play) => self.note(known, play.at),
        }
    }

    /// Notes the cells of the point where the move was made and of the points of the stones that it took.
    fn note_move(
        &mut self,
        known: &[Known; MAX_POINTS],
        row: &[Point; MAX_CAPTURED],
        move_kept: &Undo,
    )
        requires within { move_kept.now.first + move_kept.now.taken ≤ most_captured }
        requires on_board { (q : ℕ) → is_touched_by row.now move_kept.now q ≡ true → q < largest_points }
        ensures touched { (touched : ℕ → Bool) → TellsPut known.now touched self.old
            → TellsPut known.now (λ q. is_touched_by row.now move_kept.now q || touched q) self.new }
        ensures ban { self.new.ban ≡ self.old.ban }
    {
        self.note_made(known, move_kept.made());
        let first = move_kept.first();
        for i in 0..move_kept.taken() {
            self.note(known, row[(first + i) as usize]);
        }
    }
}

/// What the first `standing` of the moves in `kept` changed, by the cells that were put, with the ban after them. It
/// looks at no point of the position.
pub fn changes_of(
    known: &[Known; MAX_POINTS],
    kept: &[Undo; MAX_TRIAL_MOVES],
    standing: u8,
    row: &[Point; MAX_CAPTURED],
    ban: Option<(Point, Colour)>,
) -> Changes
    requires few { standing ≤ most_moves }
    requires within { (k : ℕ) → k < standing
        → (kept_at kept.now k).first + (kept_at kept.now k).taken ≤ most_captured }
    requires on_board { (k : ℕ) → k < standing → (q : ℕ) → is_touched_by row.now (kept_at kept.now k) q ≡ true
        → q < largest_points }
    ensures tells { TellsPut known.now (is_touched row.now kept.now standing) result }
    ensures ban { result.ban ≡ ban }
{
    let mut changes = Changes::of_ban(ban);
    for k in 0..standing {
        changes.note_move(known, row, &kept[k as usize]);
    }
    changes
}
