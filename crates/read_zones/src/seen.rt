//! Answers about a position, each with its zone: the points on which it rests.

ghost use Rattle.std.specs.Prelude.{◌≡◌, ℕ, ◌*◌, ◌<◌, true, false, MatchOption, IfSome};
ghost use Rattle.std.specs.FinSet as set;
ghost use Rattle.go_rules.specs.Position.{BoardState, IsPosition};
ghost use Rattle.go_base.specs.Facts.{Agrees};
ghost use Rattle.go_base.specs.AmongFacts.{told};
ghost use Rattle.go_base.specs.Watches.{shown_by, facts_of};
ghost use Rattle.read_rules.specs.ActiveArea.{AgreeOn};
ghost use Rattle.read_rules.specs.Candidates.{is_candidate};
ghost use Rattle.read_rules.specs.GameTree.{has_lost_one_stone};
ghost use Rattle.read_tree.specs.Steps.{IsTaken};
ghost use Rattle.sure_rules.specs.Nodes.{is_attackers, is_gone, has_too_many};
ghost use Rattle.sure_rules.specs.Zones.{points_of, WhereverAgrees};
ghost use Rattle.sure_proof.specs.Alike.{AreCandidates};

use crate::looks::{liberties_to_try, takes};
use go_base::{PointSet, Position, Watch};
use read_moves::candidates;
use read_rules::Node;
use read_sure::taking_back::has_lost_one_stone;
use read_tree::nodes::is_barred;
use sure_proof::Shown;
use trial_board::Trial;

/// Whether a lone stone was just taken at the target's point, so that it may be taken back, and the points on which
/// this rests.
#[derive(Drop)]
pub struct Loss {
    /// Whether a lone stone was just taken there, at the defender's turn in the wider tree.
    pub is_lone: bool,
    /// On every position that agrees at these points the target's point is empty and `is_lone` is the same.
    pub zone: PointSet,
}

/// The points that the board looked at. On every position that agrees at these points, all facts that it recorded hold.
fn points_seen<'a>(board: Trial<Watch<'a>>) -> PointSet
    ensures on_board { (p : ℕ) → set.contains result p ≡ true
        → p < (shown_by board.entry.look).size * (shown_by board.entry.look).size }
    ensures zone { (here : BoardState) → IsPosition here
        → AgreeOn (points_of (set.contains result)) (shown_by board.entry.look) here → Agrees (told (facts_of board.entry.look)) here }
{
    let look = board.finish();
    let facts = look.facts();
    facts.points()
}

/// The candidates at the attacker's turn, with their zone; `None` if the target has too many liberties for him.
pub fn candidates_shown(position: &Position, node: Node) -> Option<Shown>
    requires target { node.turn.target < position.now.size * position.now.size }
    requires turn { is_attackers node ≡ true }
    ensures shown { MatchOption result (has_too_many node position.now ≡ true)
        (λ shown. WhereverAgrees position.now (set.contains shown.zone) (λ here.
        (has_too_many node here ≡ false)
        × ((p : ℕ) → set.contains shown.points p ≡ is_candidate node.turn here p))) }
    ensures on_board { IfSome result (λ shown. (q : ℕ) → set.contains shown.zone q ≡ true
        → q < position.now.size * position.now.size) }
{
    let mut board = Trial::new(Watch::new(position));
    if is_barred(&mut board, node) {
        let _look = board.finish();
        return None;
    }
    let points = candidates(&mut board, node.turn);
    Some(Shown {
        points,
        zone: points_seen(board),
    })
}

/// The points on which it rests that the attacker takes the target at once, by its only liberty, and for good; `None`
/// if the target has too many liberties for him, or if the test does not show it.
pub fn taking_shown(position: &Position, node: Node) -> Option<PointSet>
    requires target { node.turn.target < position.now.size * position.now.size }
    requires turn { is_attackers node ≡ true }
    ensures shown { IfSome result (λ zone. WhereverAgrees position.now (set.contains zone) (λ here.
        (has_too_many node here ≡ false) × IsTaken node.turn here)) }
    ensures on_board { IfSome result (λ zone. (q : ℕ) → set.contains zone q ≡ true
        → q < position.now.size * position.now.size) }
{
    let mut board = Trial::new(Watch::new(position));
    if is_barred(&mut board, node) {
        let _look = board.finish();
        return None;
    }
    if takes(&mut board, node.turn) {
        return Some(points_seen(board));
    }
    let _look = board.finish();
    None
}

/// Whether the defender has just lost a lone stone at the target's point, with its zone. The point is empty.
pub fn loss_shown(position: &Position, node: Node) -> Loss
    requires target { node.turn.target < position.now.size * position.now.size }
    requires gone { is_gone node position.now ≡ true }
    ensures turn { result.is_lone ≡ true → is_attackers node ≡ false }
    ensures shown { WhereverAgrees position.now (set.contains result.zone) (λ here.
        (is_gone node here ≡ true) × (has_lost_one_stone node here ≡ result.is_lone)) }
    ensures on_board { (q : ℕ) → set.contains result.zone q ≡ true → q < position.now.size * position.now.size }
{
    let mut board = Trial::new(Watch::new(position));
    // The target's point shows that the target is captured, so it belongs to the zone.
    let _gone = board.cell(node.turn.target);
    let is_lone = has_lost_one_stone(&mut board, node);
    Loss {
        is_lone,
        zone: points_seen(board),
    }
}

/// The liberties of the target, which are the first candidates that the attacker tries, with their zone; `None` if the
/// target has too many liberties for him.
pub fn liberties_shown(position: &Position, node: Node) -> Option<Shown>
    requires target { node.turn.target < position.now.size * position.now.size }
    requires turn { is_attackers node ≡ true }
    ensures shown { MatchOption result (has_too_many node position.now ≡ true)
        (λ shown. AreCandidates node position.now (set.contains shown.points) (set.contains shown.zone)) }
    ensures on_board { IfSome result (λ shown. (q : ℕ) → set.contains shown.zone q ≡ true
        → q < position.now.size * position.now.size) }
{
    let mut board = Trial::new(Watch::new(position));
    if is_barred(&mut board, node) {
        let _look = board.finish();
        return None;
    }
    let points = liberties_to_try(&mut board, node);
    Some(Shown {
        points,
        zone: points_seen(board),
    })
}
