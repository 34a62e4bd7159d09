//! The plays of one colour on a position. The answer for a play is remembered, so that it is read once.
ghost use Rattle.std.specs.Prelude.{◌≡◌, ◌*◌, ◌<◌, true, if◌then◌else◌};
ghost use Rattle.std.specs.FinSet as set;
ghost use Rattle.go_rules.specs.Board.{largest_points};
ghost use Rattle.cons_eval.specs.Functions.{is_safe_move};
ghost use Rattle.cons_eval.specs.Readings.{Codes, code_at};
ghost use Rattle.go_rules.specs.Position.{BoardState};
ghost use Rattle.go_rules.specs.declared.Colour.{Colour as ColourSeen};
ghost use Rattle.match_engine.specs.Readings.{Follows, codes_of};
ghost use Rattle.match_engine.specs.Remembered.{Remembers};

use crate::readings::Readings;
use go_base::{Cell, Colour, Point, PointSet, Position};
use read_rules::Kind;

/// The points at which a colour's play was asked about, and those among them at which the play is legal and its stone
/// cannot be captured.
#[derive(Drop)]
pub struct Plays {
    /// The points at which a play was asked about.
    pub asked: PointSet,
    /// The points among them at which the play is legal and its stone is safe.
    pub safe: PointSet,
}

/// The code of an attack on the string at the point `at`, or 0 if the point is empty.
fn attack_code(readings: &mut Readings, position: &Position, at: Point) -> u8
    requires { at < position.now.size * position.now.size }
    ensures value { result ≡ code_at (codes_of readings.old) Kind.Attack position.now at }
    ensures follows { Follows readings.old readings.new }
{
    match position.cell(at) {
        Cell::Empty => 0,
        Cell::Black | Cell::White => readings.read(Kind::Attack, position, at).code,
    }
}

/// Whether the play of `colour` at `at` is legal, and its stone cannot be captured afterwards.
fn is_safe_play(readings: &mut Readings, position: &Position, colour: Colour, at: Point) -> bool
    requires { at < position.now.size * position.now.size }
    ensures value { result ≡ is_safe_move (codes_of readings.old) position.now colour at }
    ensures follows { Follows readings.old readings.new }
{
    match position.play(colour, at) {
        Ok(next) => attack_code(readings, &next, at) == 0,
        Err(_) => false,
    }
}

impl Plays {
    /// No play was asked about yet.
    pub fn new() -> Plays
        ensures { (code : Codes) (board : BoardState) (c : ColourSeen) → Remembers code board c result }
    {
        Plays {
            asked: PointSet::new(),
            safe: PointSet::new(),
        }
    }

    /// Whether the play of `colour` at `at` is legal, and its stone cannot be captured afterwards. If this play was
    /// asked about before, it is not read again.
    pub fn is_safe(
        &mut self,
        readings: &mut Readings,
        position: &Position,
        colour: Colour,
        at: Point,
    ) -> bool
        requires on_board { at < position.now.size * position.now.size }
        requires remembers { Remembers (codes_of readings.old) position.now colour self.old }
        ensures value { result ≡ is_safe_move (codes_of readings.old) position.now colour at }
        ensures remembers { Remembers (codes_of readings.old) position.now colour self.new }
        ensures follows { Follows readings.old readings.new }
        ensures again { set.contains self.old.asked at ≡ true → readings.new ≡ readings.old }
    {
        let _ = position.size().points();
        if self.asked.has(at) {
            return self.safe.has(at);
        }
        let safe = is_safe_play(readings, position, colour, at);
        self.note(at, safe);
        safe
    }

    /// Remembers whether the colour's play at `at` is legal and its stone safe.
    fn note(&mut self, at: Point, safe: bool)
        requires on_board { at < largest_points }
        ensures asked { self.new.asked ≡ set.insert self.old.asked at }
        ensures safe { self.new.safe ≡ (if safe then set.insert self.old.safe at else self.old.safe) }
    {
        self.asked.add(at);
        if safe {
            self.safe.add(at);
        }
    }
}
