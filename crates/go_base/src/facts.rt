//! The recorded facts of a reading: the size of the board, the cells of points, and for a point and a colour whether
//! the ko ban forbids the play.

ghost use Rattle.std.specs.Prelude.{◌≡◌, ℕ, ◌*◌, ◌<◌, ◌↔◌, IsTrue, false};
ghost use Rattle.std.specs.FinSet as set;
ghost use Rattle.go_rules.specs.Board.{largest_points};
ghost use Rattle.go_rules.specs.declared.Cell.{Cell};
ghost use Rattle.go_rules.specs.declared.Colour.{Colour};
ghost use Rattle.go_rules.specs.Position.{is_banned};
ghost use Rattle.go_base.specs.Bits.{is_marked};
ghost use Rattle.go_base.specs.Facts.{Agrees};
ghost use Rattle.go_base.specs.AmongFacts.{told, seen_as, asked_of, SeesCell, AsksBan, AllShow, BanStays, is_fact_at};
ghost use Rattle.go_base.specs.AmongFacts.{HasFactOf};

use crate::ban::{are_same, is_banned};
use crate::bits::PointBits;
use crate::points::PointSet;
use crate::position::Position;
use crate::size::{MIN_SIZE, Point, Size};
use go_rules::{Cell, Colour};

/// The facts that were seen of a position, in some 420 bytes. The whole ban is kept, but only what was asked about it
/// is a fact.
#[derive(Clone, Copy, Debug)]
pub struct Facts {
    /// The size of the board, which is always a fact.
    size: Size,
    /// The ban of the position that was seen.
    ban: Option<(Point, Colour)>,
    /// The points that were seen to be empty.
    empty: PointBits,
    /// The points where a black stone was seen.
    black: PointBits,
    /// The points where a white stone was seen.
    white: PointBits,
    /// The points where it was asked whether the ban forbids Black to play.
    asked_of_black: PointBits,
    /// The points where it was asked whether the ban forbids White to play.
    asked_of_white: PointBits,
}

/// The only fact is the size of the smallest board.
impl Default for Facts {
    fn default() -> Facts {
        Facts::new(Size::new(MIN_SIZE).unwrap(), None)
    }
}

impl Facts {
    /// The facts at the beginning: nothing but the size was seen of a position with the ban `ban`.
    pub(crate) fn new(size: Size, ban: Option<(Point, Colour)>) -> Facts
        ensures size { result.size ≡ size }
        ensures ban { result.ban ≡ ban }
        ensures cells { (cell : Cell) (q : ℕ) → is_marked (seen_as result cell) q ≡ false }
        ensures bans { (c : Colour) (q : ℕ) → is_marked (asked_of result c) q ≡ false }
    {
        Facts {
            size,
            ban,
            empty: PointBits::new(),
            black: PointBits::new(),
            white: PointBits::new(),
            asked_of_black: PointBits::new(),
            asked_of_white: PointBits::new(),
        }
    }

    /// Records that `cell` was seen at `p`.
    pub(crate) fn see(&mut self, p: Point, cell: Cell)
        requires { p < largest_points }
        ensures { SeesCell self.old self.new p cell }
    {
        match cell {
            Cell::Empty => self.empty.add(p),
            Cell::Black => self.black.add(p),
            Cell::White => self.white.add(p),
        }
    }

    /// Records that it was asked whether the ban forbids `c` to play at `p`.
    pub(crate) fn ask(&mut self, p: Point, c: Colour)
        requires { p < largest_points }
        ensures { AsksBan self.old self.new p c }
    {
        match c {
            Colour::Black => self.asked_of_black.add(p),
            Colour::White => self.asked_of_white.add(p),
        }
    }

    /// Whether each cell that was seen is the same in `position`.
    fn cells_stand(&self, position: &Position) -> bool
        ensures { IsTrue result ↔ ((cell : Cell) → AllShow (seen_as self.now cell) cell position.now) }
    {
        if !all_show(&self.empty, Cell::Empty, position) {
            return false;
        }
        if !all_show(&self.black, Cell::Black, position) {
            return false;
        }
        all_show(&self.white, Cell::White, position)
    }

    /// Whether the ban of `position` gives the same answer wherever the ban was asked about. If the two bans are the
    /// same, no point is looked at.
    fn ban_stands(&self, position: &Position) -> bool
        ensures { IsTrue result ↔ ((c : Colour) → BanStays (asked_of self.now c) self.now.ban c position.now) }
    {
        if are_same(self.ban, position.ban()) {
            return true;
        }
        if !ban_stays(&self.asked_of_black, self.ban, Colour::Black, position) {
            return false;
        }
        ban_stays(&self.asked_of_white, self.ban, Colour::White, position)
    }

    /// Whether `position` has the same size and every fact holds on it. It looks only at points that a fact is about,
    /// and at no further point once a fact does not hold.
    pub fn stands(&self, position: &Position) -> bool
        ensures { IsTrue result ↔ Agrees (told self.now) position.now }
    {
        if self.size != position.size() {
            return false;
        }
        if !self.cells_stand(position) {
            return false;
        }
        self.ban_stands(position)
    }

    /// The points that some fact is about.
    pub fn points(&self) -> PointSet
        ensures { (p : ℕ) → IsTrue (set.contains result p) ↔ HasFactOf self.now p }
    {
        let end = self.size.points();
        let about = self.about();
        let mut points = PointSet::new();
        let mut next = 0;
        while let Some(q) = about.first_from(next, end) {
            points.add(q);
            next = q + 1;
        }
        points
    }

    /// A bit for each point that some fact is about.
    fn about(&self) -> PointBits
        ensures { (q : ℕ) → is_marked result q ≡ is_fact_at self.now q }
    {
        let mut about = self.empty;
        about.join(&self.black);
        about.join(&self.white);
        about.join(&self.asked_of_black);
        about.join(&self.asked_of_white);
        about
    }
}

/// Whether each point of the board that `points` marks holds `cell`.
fn all_show(points: &PointBits, cell: Cell, position: &Position) -> bool
    ensures { IsTrue result ↔ AllShow points.now cell position.now }
{
    points.all_below(position.size().points(), |q| position.cell(q) == cell)
}

/// Whether at each point of the board that `points` marks, the ban of `position` forbids `c` to play exactly if `ban`
/// does.
fn ban_stays(
    points: &PointBits,
    ban: Option<(Point, Colour)>,
    c: Colour,
    position: &Position,
) -> bool
    ensures { IsTrue result ↔ BanStays points.now ban c position.now }
{
    points.all_below(
        position.size().points(),
        |q| is_banned(ban, c, q) == position.bans(c, q),
    )
}
