//! Views of a position that record what was asked: a reading of the board rests on these facts alone.

ghost use Rattle.std.specs.Prelude.{◌≡◌, ◌*◌, ◌<◌, Bool, IsTrue};
ghost use Rattle.go_rules.specs.Position.{BoardState};
ghost use Rattle.go_base.specs.Facts.{Agrees, Grows, AddsOnly, Agrees-prop, ban_set};
ghost use Rattle.go_base.specs.AmongFacts.{told};

use crate::facts::Facts;
use crate::position::Position;
use crate::size::{Point, Size};
use go_rules::{Cell, Colour};

/// A view of one position that records what was asked of it. Each answer is true of the position shown, and is among
/// the facts seen afterwards. The facts only grow, and each call adds no fact but its own answer.
pub trait Look {
    ghost use Rattle.go_rules.specs.Position.{BoardState};
    ghost use Rattle.go_base.specs.Facts.{Fact, SizeIs, CellIs, BanIs};

    /// The position that the view shows, which no call changes.
    ghost shows: { Self → BoardState };

    /// The facts seen so far.
    ghost seen: { Self → Fact → Bool };

    /// The size of the position shown, which is always among the facts.
    fn size(&self) -> Size
        ensures { result ≡ (shows self.now).size };

    /// What stands at `p`.
    fn cell(&mut self, p: Point) -> Cell
        requires { p < (shows self.old).size * (shows self.old).size }
        ensures same { shows self.new ≡ shows self.old }
        ensures grows { Grows (seen self.old) (seen self.new) }
        ensures told { IsTrue (seen self.new (CellIs p result)) }
        ensures only { AddsOnly (seen self.old) (seen self.new) (CellIs p result) };

    /// Whether the ko ban forbids `c` to play at `p`.
    fn ko(&mut self, p: Point, c: Colour) -> bool
        requires { p < (shows self.old).size * (shows self.old).size }
        ensures same { shows self.new ≡ shows self.old }
        ensures grows { Grows (seen self.old) (seen self.new) }
        ensures told { IsTrue (seen self.new (BanIs p c result)) }
        ensures only { AddsOnly (seen self.old) (seen self.new) (BanIs p c result) };

    /// What was seen holds on the position shown.
    ghost holds: { (look : Self) → Agrees (seen look) (shows look) };

    /// The size is always among the facts.
    ghost sized: { (look : Self) → IsTrue (seen look (SizeIs (shows look).size)) };
}

/// The recording view over a position. Its facts hold on the position as long as the view lives. Dropping the view ends
/// it.
#[derive(Drop)]
pub struct Watch<'a> {
    position: &'a Position,
    facts: Facts,
    ghost holds: { Agrees (told facts) position.now } by { Agrees-prop _ _ },
    ghost ban: { facts.ban ≡ position.now.ban } by { ban_set _ _ },
}

impl<'a> Watch<'a> {
    ghost use Rattle.go_base.specs.Facts.{Fact, SizeIs};
    ghost use Rattle.go_base.specs.Watches.{shown_by, facts_of};

    /// A view with no fact but the size.
    pub fn new(position: &'a Position) -> Watch<'a>
        ensures shows { shown_by result ≡ position.now }
        ensures none { (fact : Fact) → IsTrue (told (facts_of result) fact) → fact ≡ SizeIs position.now.size }
    {
        Watch {
            position,
            facts: Facts::new(position.size(), position.ban()),
        }
    }

    /// The facts recorded until now.
    pub fn facts(&self) -> Facts
        ensures { result ≡ facts_of self.now }
    {
        self.facts
    }
}

impl<'a> Look for Watch<'a> {
    ghost use Rattle.go_base.specs.AmongFacts.{told};
    ghost use Rattle.go_base.specs.Sizes.{sized_of};

    ghost shows = { λ w. w.position.now };

    ghost seen = { λ w. told w.facts };

    ghost holds = { λ w. w.holds };

    ghost sized = { λ w. sized_of w.facts w.position.now w.holds };

    fn size(&self) -> Size {
        self.position.size()
    }

    fn cell(&mut self, p: Point) -> Cell {
        let _ = self.position.size().points();
        let cell = self.position.cell(p);
        self.facts.see(p, cell);
        cell
    }

    fn ko(&mut self, p: Point, c: Colour) -> bool {
        let _ = self.position.size().points();
        self.facts.ask(p, c);
        self.position.bans(c, p)
    }
}
