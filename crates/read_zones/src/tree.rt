//! Whether a string is surely captured at a node, and the points on which that rests.

ghost use Rattle.std.specs.Prelude.{◌≡◌, ℕ, ◌+◌, ◌*◌, ◌<◌, ◌&&◌, true, false, MatchOption, IsTrue, IfSome};
ghost use Rattle.std.specs.FinSet as set;
ghost use Rattle.go_rules.specs.Position.{BoardState};
ghost use Rattle.read_rules.specs.Candidates.{is_candidate};
ghost use Rattle.read_rules.specs.GameTree.{child_of, can_play, some_child, each_child, has_lost_one_stone};
ghost use Rattle.sure_rules.specs.Nodes.{is_attackers, is_gone, has_too_many};
ghost use Rattle.sure_rules.specs.SureTree.{surely_wins};
ghost use Rattle.sure_rules.specs.Zones.{IsZone, WhereverAgrees};
ghost use Rattle.sure_proof.specs.Alike.{AreCandidates};

use crate::outlook::is_lost;
use crate::seen::{candidates_shown, liberties_shown, loss_shown, taking_shown};
use go_base::{Cell, Point, PointSet, Position};
use read_proof::children::{child_of, passed};
use read_rules::Node;
use sure_proof::{Shown, candidate_shown, play_shown, replies_shown};

/// The zone that shows that the attacker's play at `p` surely captures, with `plies` plies left after it; `None` if it
/// does not.
#[cycle(zones)]
fn play_zone(position: &Position, node: Node, p: Point, plies: u8) -> Option<PointSet>
    requires target { node.turn.target < position.now.size * position.now.size }
    requires on_board { p < position.now.size * position.now.size }
    ensures zone { MatchOption result
        (some_child (surely_wins plies) (child_of node position.now p) ≡ false)
        (λ zone. WhereverAgrees position.now (set.contains zone) (λ here.
        IsTrue (some_child (surely_wins plies) (child_of node here p)))) }
    ensures on_board { IfSome result (λ zone. (q : ℕ) → set.contains zone q ≡ true
        → q < position.now.size * position.now.size) }
{
    let (next, new) = child_of(position, node, p)?;
    let after = zone_of(&new, next, plies)?;
    Some(play_shown(position, node, p, &after))
}

/// The zone that shows that the defender's reply at `p` fails or cannot be made, with `plies` plies left after it;
/// `None` if the reply holds.
#[cycle(zones)]
fn reply_zone(position: &Position, node: Node, p: Point, plies: u8) -> Option<PointSet>
    requires target { node.turn.target < position.now.size * position.now.size }
    requires on_board { p < position.now.size * position.now.size }
    ensures zone { MatchOption result
        (each_child (surely_wins plies) (child_of node position.now p) ≡ false)
        (λ zone. WhereverAgrees position.now (set.contains zone) (λ here.
        IsTrue (each_child (surely_wins plies) (child_of node here p)))) }
    ensures on_board { IfSome result (λ zone. (q : ℕ) → set.contains zone q ≡ true
        → q < position.now.size * position.now.size) }
{
    match child_of(position, node, p) {
        Some(child) => {
            let after = zone_of(&child.1, child.0, plies)?;
            Some(play_shown(position, node, p, &after))
        }
        None => Some(play_shown(position, node, p, &PointSet::new())),
    }
}

/// The points on which it rests that `p`, one of the points of `shown`, is a candidate, and that the target has not too
/// many liberties: the points that show this for `p` alone, or the zone of all of `shown` if that has no more points.
fn candidate_zone(position: &Position, node: Node, shown: &Shown, p: Point) -> PointSet
    requires target { node.turn.target < position.now.size * position.now.size }
    requires turn { is_attackers node ≡ true }
    requires stands { is_gone node position.now ≡ false }
    requires shown { AreCandidates node position.now (set.contains shown.now.points) (set.contains shown.now.zone) }
    requires on_board { (q : ℕ) → set.contains shown.now.zone q ≡ true → q < position.now.size * position.now.size }
    requires candidate { set.contains shown.now.points p ≡ true }
    ensures shown { WhereverAgrees position.now (set.contains result) (λ here. (has_too_many node here ≡ false)
        × (is_candidate node.turn here p ≡ true)) }
    ensures on_board { (q : ℕ) → set.contains result q ≡ true → q < position.now.size * position.now.size }
{
    let _ = position.size();
    let own = candidate_shown(position, node, p);
    if own.count() < shown.zone.count() {
        return own;
    }
    shown.zone.copied()
}

/// The zone that shows that the attacker's play at some point of `shown` surely captures, with `plies` plies left after
/// it; `None` if no such play does.
#[cycle(zones)]
fn some_zone(position: &Position, node: Node, shown: &Shown, plies: u8) -> Option<PointSet>
    requires target { node.turn.target < position.now.size * position.now.size }
    requires turn { is_attackers node ≡ true }
    requires stands { is_gone node position.now ≡ false }
    requires shown { AreCandidates node position.now (set.contains shown.now.points) (set.contains shown.now.zone) }
    requires on_board { (q : ℕ) → set.contains shown.now.zone q ≡ true → q < position.now.size * position.now.size }
    ensures zone { MatchOption result
        ((q : ℕ) → (set.contains shown.now.points q
        && some_child (surely_wins plies) (child_of node position.now q)) ≡ false)
        (λ zone. IsZone (plies + 1) node position.now (set.contains zone)) }
    ensures on_board { IfSome result (λ zone. (q : ℕ) → set.contains zone q ≡ true
        → q < position.now.size * position.now.size) }
{
    let _ = position.size();
    let mut from = 0;
    'plays: while let Some(p) = shown.points.first_from(from) {
        if let Some(zone) = play_zone(position, node, p, plies) {
            let mut all = zone;
            all.join(&candidate_zone(position, node, shown, p));
            return Some(all);
        }
        from = p + 1;
    }
    None
}

/// The zone of a node at the attacker's turn, with `plies` plies left after his move. A target in atari is taken at
/// once. The liberties of the target are read before the other candidates, since few points show that they are
/// candidates.
#[cycle(zones)]
fn attacker_zone(position: &Position, node: Node, plies: u8) -> Option<PointSet>
    requires target { node.turn.target < position.now.size * position.now.size }
    requires turn { is_attackers node ≡ true }
    requires stands { is_gone node position.now ≡ false }
    ensures zone { MatchOption result (surely_wins (plies + 1) node position.now ≡ false)
        (λ zone. IsZone (plies + 1) node position.now (set.contains zone)) }
    ensures on_board { IfSome result (λ zone. (q : ℕ) → set.contains zone q ≡ true
        → q < position.now.size * position.now.size) }
{
    let _ = position.size();
    if let Some(zone) = taking_shown(position, node) {
        return Some(zone);
    }
    let nearest = liberties_shown(position, node)?;
    if let Some(zone) = some_zone(position, node, &nearest, plies) {
        return Some(zone);
    }
    let all = candidates_shown(position, node)?;
    let rest = all.points.difference(&nearest.points);
    let others = Shown {
        points: rest,
        zone: all.zone,
    };
    some_zone(position, node, &others, plies)
}

/// The zone of a node at the defender's turn, with `plies` plies left after his move; `None` if the target is not
/// surely captured there.
#[cycle(zones)]
fn defender_zone(position: &Position, node: Node, plies: u8) -> Option<PointSet>
    requires target { node.turn.target < position.now.size * position.now.size }
    requires turn { is_attackers node ≡ false }
    requires stands { is_gone node position.now ≡ false }
    ensures zone { MatchOption result (surely_wins (plies + 1) node position.now ≡ false)
        (λ zone. IsZone (plies + 1) node position.now (set.contains zone)) }
    ensures on_board { IfSome result (λ zone. (q : ℕ) → set.contains zone q ≡ true
        → q < position.now.size * position.now.size) }
{
    let _ = position.size();
    let (next, new) = passed(position, node);
    let mut zone = zone_of(&new, next, plies)?;
    let replies = replies_shown(position, node, &zone);
    zone.join(&replies.zone);
    let mut from = 0;
    'replies: while let Some(p) = replies.points.first_from(from) {
        zone.join(&reply_zone(position, node, p, plies)?);
        from = p + 1;
    }
    Some(zone)
}

/// The zone that shows that the mover cannot play at `p`; `None` if he can.
fn refused_zone(position: &Position, node: Node, p: Point) -> Option<PointSet>
    requires target { node.turn.target < position.now.size * position.now.size }
    requires on_board { p < position.now.size * position.now.size }
    ensures zone { MatchOption result (can_play node position.now p ≡ true)
        (λ zone. WhereverAgrees position.now (set.contains zone) (λ here. can_play node here p ≡ false)) }
    ensures on_board { IfSome result (λ zone. (q : ℕ) → set.contains zone q ≡ true
        → q < position.now.size * position.now.size) }
{
    match child_of(position, node, p) {
        Some(_child) => None,
        None => Some(play_shown(position, node, p, &PointSet::new())),
    }
}

/// The zone that shows that a lone stone that was just taken is surely captured, with `plies` plies left: the defender
/// cannot take back, or a ply is left for it and the target is surely captured after it. `None` if neither is true.
#[cycle(zones)]
fn back_zone(position: &Position, node: Node, plies: u8) -> Option<PointSet>
    requires target { node.turn.target < position.now.size * position.now.size }
    requires lost { has_lost_one_stone node position.now ≡ true }
    ensures zone { MatchOption result (surely_wins plies node position.now ≡ false)
        (λ zone. WhereverAgrees position.now (set.contains zone) (λ here. has_lost_one_stone node here ≡ true
        → surely_wins plies node here ≡ true)) }
    ensures on_board { IfSome result (λ zone. (q : ℕ) → set.contains zone q ≡ true
        → q < position.now.size * position.now.size) }
{
    if plies == 0 {
        return refused_zone(position, node, node.turn.target);
    }
    reply_zone(position, node, node.turn.target, plies - 1)
}

/// The zone of a node at which the target's point is empty, with `plies` plies left; `None` if the target is not surely
/// captured there.
#[cycle(zones)]
fn taken_zone(position: &Position, node: Node, plies: u8) -> Option<PointSet>
    requires target { node.turn.target < position.now.size * position.now.size }
    requires gone { is_gone node position.now ≡ true }
    ensures zone { MatchOption result (surely_wins plies node position.now ≡ false)
        (λ zone. IsZone plies node position.now (set.contains zone)) }
    ensures on_board { IfSome result (λ zone. (q : ℕ) → set.contains zone q ≡ true
        → q < position.now.size * position.now.size) }
{
    let _ = position.size();
    let loss = loss_shown(position, node);
    if !loss.is_lone {
        return Some(loss.zone);
    }
    let mut zone = back_zone(position, node, plies)?;
    zone.join(&loss.zone);
    Some(zone)
}

/// The zone of the node: the points on which it rests that the target is surely captured with `plies` plies left;
/// `None` exactly if it is not. On every position that agrees at these points the target is surely captured too. The
/// plain game tree is asked at the defender's turn alone: at the attacker's turn the nodes after his plays ask it.
#[cycle(zones)]
pub fn zone_of(position: &Position, node: Node, plies: u8) -> Option<PointSet>
    requires target { node.turn.target < position.now.size * position.now.size }
    ensures zone { MatchOption result (surely_wins plies node position.now ≡ false)
        (λ zone. IsZone plies node position.now (set.contains zone)) }
    ensures on_board { IfSome result (λ zone. (q : ℕ) → set.contains zone q ≡ true
        → q < position.now.size * position.now.size) }
{
    let _ = position.size().points();
    if position.cell(node.turn.target) == Cell::Empty {
        return taken_zone(position, node, plies);
    }
    if plies == 0 {
        return None;
    }
    if node.turn.attacker_to_play {
        return attacker_zone(position, node, plies - 1);
    }
    if is_lost(position, node, plies) {
        return None;
    }
    defender_zone(position, node, plies - 1)
}
