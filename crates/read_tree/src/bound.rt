//! The bound on the target's liberties: a target with more is not captured.

ghost use Rattle.std.specs.Prelude.{◌≡◌, ℕ, ◌-◌, ◌&&◌, ◌||◌, false, nat_lt};
ghost use Rattle.std.specs.FinSet as set;
ghost use Rattle.read_rules.specs.Bound.{most_by_wide, outlasts, outlasts_at};
ghost use Rattle.read_rules.specs.Trees.{most_few};

use go_base::points::PointSet;
use read_rules::{Tree, Turn};

/// If one or two wide plies are left, a target that can be captured has at most this many liberties.
fn most_few(tree: Tree) -> u16
    ensures { result ≡ most_few tree }
{
    match tree {
        Tree::Stated => 3,
        Tree::Wider => 4,
    }
}

/// With `wide` wide plies left in the tree, a target that is captured has at most this many liberties.
fn most_by_wide(tree: Tree, wide: u8) -> u16
    ensures { result ≡ most_by_wide tree wide }
{
    if wide == 0 {
        tree.most_narrow()
    } else if wide < 3 {
        most_few(tree)
    } else {
        4
    }
}

/// Whether `liberties` liberties are too many for the plies and the wide plies that are left in the tree.
#[tactic(auto, unfolding(read_rules::specs::Bound::outlasts))]
pub fn outlasts(tree: Tree, attacker: bool, plies: u8, wide: u8, liberties: u16) -> bool
    ensures { result ≡ outlasts tree attacker plies wide liberties }
{
    if attacker {
        liberties > (u16::from(plies) + 1) / 2 || liberties > most_by_wide(tree, wide)
    } else {
        liberties > u16::from(plies) / 2 || liberties > most_by_wide(tree, wide.saturating_sub(1))
    }
}

/// The lesser of two bounds.
fn least(a: u16, b: u16) -> u16
    ensures { (l : ℕ) → (nat_lt a l || nat_lt b l) ≡ nat_lt result l }
{
    if a < b { a } else { b }
}

/// The most liberties that are not too many for the plies and the wide plies that are left in the tree.
#[tactic(auto, unfolding(read_rules::specs::Bound::outlasts))]
fn most_within(tree: Tree, attacker: bool, plies: u8, wide: u8) -> u16
    ensures { (l : ℕ) → outlasts tree attacker plies wide l ≡ nat_lt result l }
{
    if attacker {
        least((u16::from(plies) + 1) / 2, most_by_wide(tree, wide))
    } else {
        least(
            u16::from(plies) / 2,
            most_by_wide(tree, wide.saturating_sub(1)),
        )
    }
}

/// The most liberties of the target that are not too many to be captured, with `plies` plies left.
pub fn most_liberties(turn: Turn, plies: u8) -> u16
    ensures { (l : ℕ) → outlasts_at turn plies l ≡ nat_lt result l }
{
    most_within(turn.tree, turn.attacker_to_play, plies, turn.wide)
}

/// Whether the target has too many liberties to be captured, with `plies` plies left; `known` are its liberties.
pub fn has_too_many(turn: Turn, plies: u8, known: &PointSet) -> bool
    ensures { result ≡ outlasts_at turn plies (set.len known.now) }
{
    outlasts(
        turn.tree,
        turn.attacker_to_play,
        plies,
        turn.wide,
        known.count(),
    )
}

/// Whether the attacker is to play, and a play that takes no liberty of the target leaves it too many, with `plies`
/// plies left after it.
pub fn leaves_too_many(turn: Turn, plies: u8, liberties: u16) -> bool
    ensures { result ≡ (turn.attacker_to_play && outlasts turn.tree false plies (turn.wide - 1) liberties) }
{
    let wide = turn.wide.saturating_sub(1);
    turn.attacker_to_play && outlasts(turn.tree, false, plies, wide, liberties)
}
