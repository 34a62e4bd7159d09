//! At which points of a position a colour may play; each point is asked about once.
ghost use Rattle.std.specs.Prelude.{◌≡◌, ℕ, Bool, true, ◌*◌, ◌<◌, if◌then◌else◌};
ghost use Rattle.std.specs.FinSet as set;
ghost use Rattle.go_rules.specs.Board.{largest_points};
ghost use Rattle.go_rules.specs.Play.{is_legal as is_legal_on};
ghost use Rattle.match_engine.specs.PointAnswers.{Knows};
ghost use Rattle.match_engine.specs.Open.{IsEmptyBeside};

use go_base::sides::neighbour;
use go_base::{Cell, Colour, Point, PointSet, Position};

/// The points that a question was asked about, and those among them for which the answer is yes.
#[derive(Drop)]
pub struct PointAnswers {
    /// The points that the question was asked about.
    pub asked: PointSet,
    /// The points among them for which the answer is yes.
    pub holds: PointSet,
}

impl PointAnswers {
    /// No point was asked about yet.
    pub fn new() -> PointAnswers
        ensures { (test : ℕ → Bool) → Knows test result }
    {
        PointAnswers {
            asked: PointSet::new(),
            holds: PointSet::new(),
        }
    }

    /// Whether the play of `colour` at `at` is legal; `self` must hold answers to this question. A play that was asked
    /// about before is not tried again.
    pub fn is_legal(&mut self, position: &Position, colour: Colour, at: Point) -> bool
        requires on_board { at < position.now.size * position.now.size }
        requires knows { Knows (λ q. is_legal_on position.now colour q) self.old }
        ensures value { result ≡ is_legal_on position.now colour at }
        ensures knows { Knows (λ q. is_legal_on position.now colour q) self.new }
    {
        let _ = position.size().points();
        if self.asked.has(at) {
            return self.holds.has(at);
        }
        let legal = is_legal(position, colour, at);
        self.note(at, legal);
        legal
    }

    /// Keeps the answer `holds` for the point `at`.
    fn note(&mut self, at: Point, holds: bool)
        requires on_board { at < largest_points }
        ensures asked { self.new.asked ≡ set.insert self.old.asked at }
        ensures holds { self.new.holds ≡ (if holds then set.insert self.old.holds at else self.old.holds) }
    {
        self.asked.add(at);
        if holds {
            self.holds.add(at);
        }
    }
}

/// Whether the neighbour of `p` on this `side` lies on the board and is empty.
fn is_empty_beside(position: &Position, p: Point, side: u8) -> bool
    requires on_board { p < position.now.size * position.now.size }
    requires side { side < 4 }
    ensures { result ≡ true → (q : ℕ) × IsEmptyBeside position.now p q }
{
    match neighbour(position.size(), p, side) {
        Some(q) => position.cell(q) == Cell::Empty,
        None => false,
    }
}

/// Whether a neighbour of `p` is empty.
fn has_empty_neighbour(position: &Position, p: Point) -> bool
    requires { p < position.now.size * position.now.size }
    ensures { result ≡ true → (q : ℕ) × IsEmptyBeside position.now p q }
{
    'sides: for side in 0..4 {
        if is_empty_beside(position, p, side) {
            return true;
        }
    }
    false
}

/// Whether the play of `colour` at `at` is legal. A stone that has an empty neighbour needs no trial.
fn is_legal(position: &Position, colour: Colour, at: Point) -> bool
    requires { at < position.now.size * position.now.size }
    ensures { result ≡ is_legal_on position.now colour at }
{
    let _ = position.size();
    if position.cell(at) != Cell::Empty {
        return false;
    }
    if position.bans(colour, at) {
        return false;
    }
    if has_empty_neighbour(position, at) {
        return true;
    }
    position.play(colour, at).is_ok()
}
