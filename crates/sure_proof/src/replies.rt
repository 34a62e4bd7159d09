//! The replies for which a proof has to give proofs of their own.

ghost use Rattle.std.specs.Prelude.{◌≡◌, ℕ, ◌*◌, ◌<◌, true, None, Some, MatchOption};
ghost use Rattle.std.specs.FinSet as set;
ghost use Rattle.go_rules.specs.Play.{pass};
ghost use Rattle.go_rules.specs.Position.{other};
ghost use Rattle.read_rules.specs.GameTree.{allowance_of, next_node};
ghost use Rattle.read_rules.specs.Turns.{mover_of};
ghost use Rattle.read_proof.specs.Tokens.{words_in};
ghost use Rattle.sure_rules.specs.Zones.{WhereverAgrees};
ghost use Rattle.sure_proof.specs.Alike.{IsGuarded};
ghost use Rattle.sure_proof.specs.Rests.{asked_of};
ghost use Rattle.sure_proof.specs.SureProofs.{Proved, proves_surely};

use crate::guard::{Guarded, guard_zone};
use crate::walk::proved;
use go_base::{PointSet, Position};
use read_proof::children::passed;
use read_rules::Node;

/// A set of points, and its zone.
#[derive(Drop)]
pub struct Shown {
    /// The set of points.
    pub points: PointSet,
    /// The points on which the answer rests: on every position that agrees at these points, what the function says of
    /// `points` is true too.
    pub zone: PointSet,
}

/// The replies that have to be read for `zone`, a zone of the node after the defender's pass, and the points on which
/// it rests that these are all: `zone` itself, and the points that guard it.
pub fn replies_shown(pos: &Position, node: Node, zone: &PointSet) -> Shown
    requires on_board { (q : ℕ) → set.contains zone.now q ≡ true → q < pos.now.size * pos.now.size }
    ensures on_board { (p : ℕ) → set.contains result.points p ≡ true → p < pos.now.size * pos.now.size }
    ensures shown { WhereverAgrees pos.now (set.contains result.zone) (λ here.
        IsGuarded node (set.contains zone.now) here (set.contains result.points)) }
    ensures zone { (q : ℕ) → set.contains result.zone q ≡ true → q < pos.now.size * pos.now.size }
{
    let _ = pos.size();
    let Guarded { asked, mut guard } = guard_zone(pos, node.mover().other(), zone);
    guard.join(zone);
    Shown {
        points: asked,
        zone: guard,
    }
}

/// The replies that a proof of the node after the defender's pass asks for, with `plies` plies left after the pass.
/// `text` begins with that proof; `None` if it does not.
pub fn replies_asked(pos: &Position, node: Node, plies: u8, text: &[u8]) -> Option<PointSet>
    requires target { node.turn.target < pos.now.size * pos.now.size }
    ensures { MatchOption result
        (proves_surely plies (next_node node (allowance_of node)) (pass pos.now) (words_in text.now) ≡ None)
        (λ asked. (found : Proved)
        × (proves_surely plies (next_node node (allowance_of node)) (pass pos.now) (words_in text.now) ≡ Some found)
        × (asked ≡ asked_of pos.now.size pos.now.cells (other (mover_of node.turn)) found.zone)) }
{
    let (next, new) = passed(pos, node);
    let mut zone = PointSet::new();
    proved(&new, next, plies, text, &mut zone)?;
    Some(guard_zone(pos, node.mover().other(), &zone).asked)
}
