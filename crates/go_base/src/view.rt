//! Boards that are read cell by cell, so that one flood serves a position and a board of trial moves.

ghost use Rattle.std.specs.Prelude.{◌≡◌, ℕ, ◌*◌, ◌<◌, ◌≤◌, List, Bool, IsTrue, length, slice_set, take};
ghost use Rattle.go_rules.specs.declared.Cell.{Cell};
ghost use Rattle.go_rules.specs.Strings.{cell_at};
ghost use Rattle.go_rules.specs.Position.{BoardState};
ghost use Rattle.go_base.specs.Views.{Looks, nowhere, alone};

use crate::size::{MAX_POINTS, Point, Size};
use go_rules::Cell;

/// A board that is read cell by cell and may be written over, so that one flood serves a position and a board of trial
/// moves. Its answers are true over each position that agrees with what was read.
pub trait View {
    /// How many rows the board has.
    ghost rows: { Self → ℕ };

    /// The positions that agree with all that was read.
    ghost agrees: { Self → BoardState → Type 0 };

    /// The cells of the board, over a position.
    ghost cells: { Self → BoardState → List Cell };

    /// Between the first view and the second, only points of the set were asked for.
    ghost asks: { Self → Self → (ℕ → Bool) → Type 0 };

    /// The size of the board.
    fn size(&self) -> Size
        ensures { result ≡ rows self.now };

    /// What stands at `p`.
    fn at(&mut self, p: Point) -> Cell
        requires { p < rows self.old * rows self.old }
        ensures looks { Looks cells asks self.old self.new (alone p) }
        ensures over { (pos : BoardState) → agrees self.new pos → result ≡ cell_at (cells self.old pos) p };

    /// Puts `cell` at `p`.
    fn put(&mut self, p: Point, cell: Cell)
        requires { p < rows self.old * rows self.old }
        ensures asks { asks self.old self.new nowhere }
        ensures over { (pos : BoardState) → agrees self.new pos
            → cells self.new pos ≡ slice_set (cells self.old pos) p cell };

    ghost asks_none: { (v : Self) (S : ℕ → Bool) → asks v v S };

    ghost asks_more: { (u v w : Self) (S : ℕ → Bool) → asks u v S → asks v w S → asks u w S };

    ghost asks_within: { (u v : Self) (S T : ℕ → Bool) → asks u v S → ((q : ℕ) → IsTrue (S q) → IsTrue (T q))
        → asks u v T };

    ghost asks_rows: { (u v : Self) (S : ℕ → Bool) → asks u v S → rows v ≡ rows u };

    ghost asks_agrees: { (u v : Self) (S : ℕ → Bool) → asks u v S → (pos : BoardState) → agrees v pos → agrees u pos };

    ghost whole: { (v : Self) (pos : BoardState) → agrees v pos → length (cells v pos) ≡ rows v * rows v };
}

/// A board with a cell for each point of the largest board. Plays from a position are made on it.
#[derive(Clone, Copy)]
pub struct Flat {
    /// The size of the board.
    pub size: Size,
    /// The cells of the board in reading order, and the cells past it.
    pub cells: [Cell; MAX_POINTS],
}

impl View for Flat {
    ghost use Rattle.go_rules.specs.Board.{largest_size, largest_points};
    ghost use Rattle.go_base.specs.Flats.{KeepsRest, KeepsRest-refl, KeepsRest-trans, KeepsRest-back, flat_whole};

    ghost rows = { λ v. v.size };

    ghost agrees = { λ v _. (length v.cells ≡ largest_points) × (v.size ≤ largest_size) };

    ghost cells = { λ v _. take (v.size * v.size) v.cells };

    ghost asks = { λ u v _. KeepsRest u v };

    fn size(&self) -> Size {
        self.size
    }

    fn at(&mut self, p: Point) -> Cell {
        let _ = self.size.points();
        self.cells[p as usize]
    }

    fn put(&mut self, p: Point, cell: Cell) {
        let _ = self.size.points();
        self.cells[p as usize] = cell;
    }

    ghost asks_none = { λ v _. KeepsRest-refl v };

    ghost asks_more = { λ u v w _ a b. KeepsRest-trans u v w a b };

    ghost asks_within = { λ u v S T a _. a };

    ghost asks_rows = { λ u v _ a. a.size };

    ghost asks_agrees = { λ u v _ a _ b. KeepsRest-back u v a b };

    ghost whole = { λ v _ a. flat_whole v a };
}
