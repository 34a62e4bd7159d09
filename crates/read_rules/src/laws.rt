//! What the computing definitions of the candidates, of the game tree and of the answers mean, in Go's words.

ghost use Rattle.std.specs.Prelude.{◌≡◌, ◌≢◌, ◌↔◌, ◌⊎◌, ℕ, ◌+◌, ◌-◌, ◌*◌, ◌<◌, ◌≤◌, ◌&&◌, ◌||◌, nat_lt};
ghost use Rattle.std.specs.Prelude.{Bool, true, false, not, IsTrue, Ok, Some, None};
ghost use Rattle.go_rules.specs.declared.Colour.{Colour};
ghost use Rattle.go_rules.specs.Position.{BoardState};
ghost use Rattle.go_rules.specs.Play.{play_free};
ghost use Rattle.go_rules.specs.Strings.{cell_at, is_liberty, liberties};
ghost use Rattle.go_base.specs.Surroundings.{is_last_liberty_of_enemy};
ghost use Rattle.wider_rules.specs.Further.{is_further_always};
ghost use Rattle.read_rules.specs.ActiveArea.{InActiveArea, IsNodeOf};
ghost use Rattle.read_rules.specs.AreaInWords.{IsFirstOf, IsNextOf, IsLookedAt};
ghost use Rattle.read_rules.specs.Bound.{outlasts, IsTooMany};
ghost use Rattle.read_rules.specs.Candidates.{is_candidate, IsCandidate};
ghost use Rattle.read_rules.specs.Stages.{is_later_candidate, has_later_candidates};
ghost use Rattle.read_rules.specs.declared.node.Node.{Node};
ghost use Rattle.read_rules.specs.declared.tree.Tree.{Tree};
ghost use Rattle.read_rules.specs.declared.turn.Turn.{Turn};
ghost use Rattle.read_rules.specs.declared.question.ReadingQuestion.{ReadingQuestion};
ghost use Rattle.read_rules.specs.declared.question.Spot.{Spot};
ghost use Rattle.read_rules.specs.GameTree.{is_captured, has_many_liberties, child_of, can_play, attacker_wins};
ghost use Rattle.read_rules.specs.GameTree.{has_lost_stones, taking_back};
ghost use Rattle.read_rules.specs.BanFree.{with_allowances, IsBanFree};
ghost use Rattle.read_rules.specs.Answer.{attains_code, is_about, code_of, first_node, answer_of};
ghost use Rattle.read_rules.specs.Rules.{HasManyLiberties, IsChild, SomeChildWins, EachChildWins};
ghost use Rattle.read_rules.specs.Rules.{HasLostStones, TakesBack};
ghost use Rattle.read_rules.specs.Rules.{IsFirstMove, node_under, IsGreatestCode};

use crate::question::Kind;
use go_base::Cell;

/// A candidate is one of these points: a liberty of the target; an empty neighbour of a liberty, if the target has at
/// most two liberties and a wide ply is left; the last liberty of an enemy string next to the target; if a wide ply is
/// left, the one liberty that a stone of the attacker on a liberty of the target would have; in the wider tree, a
/// further candidate at this turn.
pub fn candidates_are_by_strings()
    ensures candidate { (turn : Turn) (pos : BoardState) (p : ℕ) → turn.target < pos.size * pos.size →
        IsTrue (is_candidate turn pos p) ↔ IsCandidate turn pos p }
    ensures on_board { (turn : Turn) (pos : BoardState) (p : ℕ) → IsTrue (is_candidate turn pos p)
        → p < pos.size * pos.size }
{}

/// A candidate is a liberty of the target, the last liberty of an enemy string next to the target, or a later candidate
/// at the turn. The stated tree has later candidates only if a wide ply is left. If no wide ply is left in the wider
/// tree, its later candidates are the further candidates of every ply.
pub fn candidates_come_in_stages()
    ensures stages { (turn : Turn) (pos : BoardState) (p : ℕ) → is_candidate turn pos p
        ≡ (is_liberty pos.size pos.cells turn.target p || is_last_liberty_of_enemy pos.size pos.cells turn.target p
        || is_later_candidate turn pos p) }
    ensures none_later { (turn : Turn) (pos : BoardState) (p : ℕ) → has_later_candidates turn ≡ false
        → is_later_candidate turn pos p ≡ false }
    ensures narrow { (turn : Turn) (pos : BoardState) (p : ℕ) → turn.tree ≡ Tree.Wider → turn.wide ≡ 0
        → is_later_candidate turn pos p
        ≡ is_further_always turn.attacker_to_play pos.size pos.cells turn.target p }
{}

/// When a target is taken, when it has too many liberties, which children a node has, and when the defender takes back.
pub fn nodes_are_by_the_rules()
    ensures captured { (pos : BoardState) (target : ℕ)
        → IsTrue (is_captured pos target) ↔ (cell_at pos.cells target ≡ Cell.Empty) }
    ensures many { (turn : Turn) (pos : BoardState)
        → IsTrue (has_many_liberties turn pos) ↔ HasManyLiberties turn pos }
    ensures child { (node : Node) (pos : BoardState) (p : ℕ) (next : Node) (new : BoardState) →
        (child_of node pos p ≡ Some (next, new)) ↔ IsChild node pos p next new }
    ensures lost { (node : Node) (pos : BoardState)
        → IsTrue (has_lost_stones node pos) ↔ HasLostStones node pos }
    ensures taking_back { (node : Node) (pos : BoardState) (next : Node) (new : BoardState) →
        (taking_back node pos ≡ Some (next, new)) ↔ TakesBack node pos next new }
    ensures can_play { (node : Node) (pos : BoardState) (p : ℕ) →
        IsTrue (can_play node pos p) ↔ ((next : Node) × (new : BoardState) × IsChild node pos p next new) }
{}

/// The four rules that say who wins, in their order. A target that is taken is captured. If the defender can take back
/// the lone stone, it is only captured if a ply is left for taking back and the attacker wins afterwards.
pub fn the_tree_is_by_four_rules()
    ensures captured { (n : ℕ) (node : Node) (pos : BoardState) → IsTrue (is_captured pos node.turn.target)
        → ((next : Node) (new : BoardState) → TakesBack node pos next new → ⊥)
        → IsTrue (attacker_wins n node pos) }
    ensures taken_back { (n : ℕ) (node : Node) (pos : BoardState) (next : Node) (new : BoardState)
        → TakesBack node pos next new → attacker_wins (n + 1) node pos ≡ attacker_wins n next new }
    ensures none_left { (node : Node) (pos : BoardState) (next : Node) (new : BoardState)
        → TakesBack node pos next new → attacker_wins 0 node pos ≡ false }
    ensures out_of_plies { (node : Node) (pos : BoardState) → is_captured pos node.turn.target ≡ false
        → attacker_wins 0 node pos ≡ false }
    ensures attacker_to_play { (n : ℕ) (node : Node) (pos : BoardState) → is_captured pos node.turn.target ≡ false
        → node.turn.attacker_to_play ≡ true →
        IsTrue (attacker_wins (n + 1) node pos)
        ↔ ((has_many_liberties node.turn pos ≡ false) × SomeChildWins n node pos) }
    ensures defender_to_play { (n : ℕ) (node : Node) (pos : BoardState) → is_captured pos node.turn.target ≡ false
        → node.turn.attacker_to_play ≡ false →
        IsTrue (attacker_wins (n + 1) node pos) ↔ EachChildWins n node pos }
{}

/// If the attacker wins with some number of plies, he also wins with one more.
pub fn winning_is_monotone_in_the_plies()
    ensures one_more { (n : ℕ) (node : Node) (pos : BoardState) → IsTrue (attacker_wins n node pos)
        → IsTrue (attacker_wins (n + 1) node pos) }
{}

/// If the ban forbids no candidate and no taking back in a tree, the same side wins under every pair of ko allowances.
pub fn trees_without_a_ban_have_one_winner()
    ensures allowances { (n : ℕ) (node : Node) (pos : BoardState) (a d : ℕ) → IsBanFree n node pos
        → attacker_wins n (with_allowances node a d) pos ≡ attacker_wins n node pos }
{}

/// The ko allowances of attacker and defender under which each code is attained. The code of an answer is the greatest
/// that is attained, and its move is the first that attains it.
pub fn answers_are_by_codes()
    ensures attack_3 { (q : ReadingQuestion) (pos : BoardState) → q.kind ≡ Kind.Attack
        → attains_code q pos 3 ≡ attacker_wins q.plies (node_under q 0 1) pos }
    ensures attack_2 { (q : ReadingQuestion) (pos : BoardState) → q.kind ≡ Kind.Attack
        → attains_code q pos 2 ≡ attacker_wins q.plies (node_under q 0 0) pos }
    ensures attack_1 { (q : ReadingQuestion) (pos : BoardState) → q.kind ≡ Kind.Attack
        → attains_code q pos 1 ≡ attacker_wins q.plies (node_under q 1 0) pos }
    ensures defend_3 { (q : ReadingQuestion) (pos : BoardState) → q.kind ≡ Kind.Defend
        → attains_code q pos 3 ≡ not (attacker_wins q.plies (node_under q 1 0) pos) }
    ensures defend_2 { (q : ReadingQuestion) (pos : BoardState) → q.kind ≡ Kind.Defend
        → attains_code q pos 2 ≡ not (attacker_wins q.plies (node_under q 0 0) pos) }
    ensures defend_1 { (q : ReadingQuestion) (pos : BoardState) → q.kind ≡ Kind.Defend
        → attains_code q pos 1 ≡ not (attacker_wins q.plies (node_under q 0 1) pos) }

    ensures greatest { (q : ReadingQuestion) (pos : BoardState) → is_about q pos ≡ true
        → IsGreatestCode q pos (code_of q pos) }
    ensures another { (q : ReadingQuestion) (pos : BoardState) → is_about q pos ≡ false
        → answer_of q pos ≡ record { code = 0; at = None } }
    ensures code { (q : ReadingQuestion) (pos : BoardState) → (answer_of q pos).code ≡ code_of q pos }
    ensures no_move { (q : ReadingQuestion) (pos : BoardState) → code_of q pos ≡ 0 → (answer_of q pos).at ≡ None }
    ensures first_move { (q : ReadingQuestion) (pos : BoardState) → q.plies ≢ 0 → code_of q pos ≢ 0 →
        (spot : Spot) × ((answer_of q pos).at ≡ Some spot)
        × IsFirstMove (q.plies - 1) (first_node q (code_of q pos)) pos spot }
{}

/// Too many liberties: more than half of the plies, rounded up at the attacker's turn and down at the defender's, or
/// more than the attacker can play at with the wide plies that are left at his turn. A target with too many liberties
/// is not captured, since a play takes away at most one liberty. Neither is a target at which the attacker may not
/// play.
pub fn many_liberties_stand()
    ensures one_liberty { (pos : BoardState) (c : Colour) (p : ℕ) (new : BoardState) (t : ℕ) → t < pos.size * pos.size
        → play_free pos c p ≡ Ok new →
        liberties pos.size pos.cells t ≤ liberties new.size new.cells t + 1 }
    ensures too_many { (tree : Tree) (attacker : Bool) (n k l : ℕ) →
        IsTrue (outlasts tree attacker n k l) ↔ IsTooMany tree attacker n k l }
    ensures stands { (n : ℕ) (node : Node) (pos : BoardState) → node.turn.target < pos.size * pos.size →
        IsTooMany node.turn.tree node.turn.attacker_to_play n node.turn.wide (liberties pos.size pos.cells node.turn.target)
        → attacker_wins n node pos ≡ false }
    ensures many { (turn : Turn) (n : ℕ) (pos : BoardState) → HasManyLiberties turn pos
        → IsTooMany turn.tree true n turn.wide (liberties pos.size pos.cells turn.target) }
{}

/// How far the active area of a question reaches. At a node whose target stands, it has the points that five steps, or
/// six in the wider tree, lead to from the target's string; a step leads to a point of the same string or to a
/// neighbour of the string. At a node of the wider tree where the target is taken and the defender is to play, it has
/// the points that two steps lead to from the target's point. The nodes are the first nodes under the three pairs of ko
/// allowances, the nodes after a play at a candidate or after the defender's pass from an undecided node, and the nodes
/// after a defender's play that takes back.
pub fn the_active_area_is_reached_by_steps()
    ensures area { (q : ReadingQuestion) (pos : BoardState) (p : ℕ) → q.target < pos.size * pos.size →
        InActiveArea q pos p ↔ IsLookedAt q pos p }
    ensures nodes { (q : ReadingQuestion) (pos : BoardState) (n : ℕ) (node : Node) (here : BoardState) →
        IsNodeOf q pos n node here ↔ (IsFirstOf q pos n node here ⊎ IsNextOf q pos n node here) }
{}
