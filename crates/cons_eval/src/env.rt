//! What the value of an expression depends on, as the matcher passes it in.

ghost use Rattle.std.specs.Prelude.{◌≡◌, ◌*◌, ◌<◌, IsTrue, IsSome, None};
ghost use Rattle.go_rules.specs.Strings.{cell_at, is_stone};
ghost use Rattle.cons_eval.specs.Meanings.{EnvView, KeepsMeanings};
ghost use Rattle.cons_eval.specs.Questions.{one_more};

use go_base::{Point, Position};
use go_rules::Colour;
use pat_types::Arg;
use read_rules::Kind;

/// What the value of an expression depends on: a position, the friend, the point of each argument and the codes of
/// readings. Each call answers from these and changes none of them. The readings that were asked for are counted, up to
/// the greatest value of a `u64`.
pub trait Env {
    ghost use Rattle.pat_types.specs.declared.expr.Arg.TheVariants.{Star, Nowhere};

    /// What contracts see: the meanings that the answers follow, numbers that no call changes, how many readings were
    /// asked for, and counts that no call lowers.
    ghost view: { Self → EnvView };

    /// The position before the pattern's move.
    fn position(&self) -> Position
        ensures { result ≡ (view self.now).meanings.position };

    /// The colour that plays the pattern's move.
    fn friend(&self) -> Colour
        ensures { result ≡ (view self.now).meanings.friend };

    /// The point of an argument. A pass has none.
    fn point(&self, arg: Arg) -> Option<Point>
        ensures { result ≡ (view self.now).meanings.point arg };

    /// The code of a reading of the string at `target`, where a stone stands. The reading counts as one asked for.
    fn code(&mut self, kind: Kind, on: &Position, target: Point) -> u8
        requires on_board { target < on.now.size * on.now.size }
        requires stone { IsTrue (is_stone (cell_at on.now.cells target)) }
        ensures value { result ≡ (view self.old).meanings.code kind on.now target }
        ensures asked { (view self.new).asked ≡ one_more (view self.old).asked }
        ensures stays { KeepsMeanings (view self.old) (view self.new) };

    /// A pass is no point.
    ghost nowhere: { (env : Self) → (view env).meanings.point Nowhere ≡ None };

    /// The pattern's move has a point.
    ghost star: { (env : Self) → IsSome ((view env).meanings.point Star) };
}
