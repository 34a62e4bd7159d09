//! What the computing definitions of the connecting moves, of the tree and of the answers mean, in Go's words.

ghost use Rattle.std.specs.Prelude.{◌≡◌, ◌≢◌, ◌↔◌, ◌⊎◌, ℕ, ◌+◌, ◌*◌, ◌<◌, Bool, true, false, not, IsTrue, Some, None};
ghost use Rattle.go_rules.specs.Position.{BoardState};
ghost use Rattle.go_rules.specs.Strings.{IsInString};
ghost use Rattle.read_rules.specs.declared.question.Spot.{Spot};
ghost use Rattle.connect_rules.specs.declared.link.Link.{Link};
ghost use Rattle.connect_rules.specs.declared.question.LinkQuestion.{LinkQuestion};
ghost use Rattle.connect_rules.specs.ConnectingMoves.{is_connecting_move, IsConnectingMove};
ghost use Rattle.connect_rules.specs.Connection.{can_connect};
ghost use Rattle.connect_rules.specs.Linkages.{is_about, link_of, linkage_of};
ghost use Rattle.connect_rules.specs.AreaInWords.{IsLookedAt, IsFirstOf, IsNextOf};
ghost use Rattle.connect_rules.specs.ConnectionArea.{IsNodeOf, InConnectionArea};
ghost use Rattle.connect_rules.specs.InWords.{BothStand, SomeMoveJoins, NoMoveParts, IsFirstMove, exchanged};

use crate::question::LinkKind;

/// A connecting move is a liberty of both strings; a liberty of one string that is a neighbour of a liberty of the
/// other; the only liberty of either string; or the last liberty of an enemy string next to either.
pub fn connecting_moves_are_by_strings()
    ensures connecting { (link : Link) (pos : BoardState) (p : ℕ) → link.a < pos.size * pos.size
        → link.b < pos.size * pos.size →
        IsTrue (is_connecting_move link pos p) ↔ IsConnectingMove pos.size pos.cells link.a link.b p }
    ensures on_board { (link : Link) (pos : BoardState) (p : ℕ) → IsTrue (is_connecting_move link pos p)
        → p < pos.size * pos.size }
{}

/// The five rules that say whether two strings can be joined, in their order: a string is gone, the two are one string,
/// no ply is left, their own colour is to play, the other colour is to play.
pub fn the_tree_is_by_five_rules()
    ensures gone { (n : ℕ) (link : Link) (own : Bool) (pos : BoardState) → (BothStand link pos → ⊥)
        → can_connect n link own pos ≡ false }
    ensures one_string { (n : ℕ) (link : Link) (own : Bool) (pos : BoardState) → BothStand link pos
        → link.a < pos.size * pos.size → IsInString pos.size pos.cells link.a link.b
        → IsTrue (can_connect n link own pos) }
    ensures out_of_plies { (link : Link) (own : Bool) (pos : BoardState)
        → (IsInString pos.size pos.cells link.a link.b → ⊥) → can_connect 0 link own pos ≡ false }
    ensures own_turn { (n : ℕ) (link : Link) (pos : BoardState) → BothStand link pos
        → (IsInString pos.size pos.cells link.a link.b → ⊥) →
        IsTrue (can_connect (n + 1) link true pos) ↔ SomeMoveJoins n link pos }
    ensures other_turn { (n : ℕ) (link : Link) (pos : BoardState) → BothStand link pos
        → (IsInString pos.size pos.cells link.a link.b → ⊥) →
        IsTrue (can_connect (n + 1) link false pos) ↔ NoMoveParts n link pos }
{}

/// If two strings can be joined with some number of plies, they can be joined with one more.
pub fn joining_is_monotone_in_the_plies()
    ensures one_more { (n : ℕ) (link : Link) (own : Bool) (pos : BoardState) → IsTrue (can_connect n link own pos)
        → IsTrue (can_connect (n + 1) link own pos) }
{}

/// Which of the two strings is named first does not matter.
pub fn either_string_may_be_named_first()
    ensures { (n : ℕ) (link : Link) (own : Bool) (pos : BoardState) → link.a < pos.size * pos.size
        → link.b < pos.size * pos.size → can_connect n (exchanged link) own pos ≡ can_connect n link own pos }
{}

/// The answer is yes exactly if the question is about the position and the side that is asked about has its way; with
/// at least one ply it then names the first move that attains this.
pub fn linkages_are_by_the_tree()
    ensures another { (q : LinkQuestion) (pos : BoardState) → is_about q pos ≡ false
        → linkage_of q pos ≡ record { yes = false; at = None } }
    ensures connect { (q : LinkQuestion) (pos : BoardState) → is_about q pos ≡ true → q.kind ≡ LinkKind.Connect
        → (linkage_of q pos).yes ≡ can_connect q.plies (link_of q) true pos }
    ensures disconnect { (q : LinkQuestion) (pos : BoardState) → is_about q pos ≡ true
        → q.kind ≡ LinkKind.Disconnect
        → (linkage_of q pos).yes ≡ not (can_connect q.plies (link_of q) false pos) }
    ensures no_move { (q : LinkQuestion) (pos : BoardState) → (linkage_of q pos).yes ≡ false
        → (linkage_of q pos).at ≡ None }
    ensures first_move { (q : LinkQuestion) (pos : BoardState) → q.plies ≢ 0 → (linkage_of q pos).yes ≡ true →
        (spot : Spot) × ((linkage_of q pos).at ≡ Some spot) × IsFirstMove q pos spot }
{}

/// How far the active area of a connection reaches: its points are those that four steps lead to from the string of
/// either point, at some node at which that point holds a stone of the colour. The nodes are the first one, and each
/// node to which a legal connecting move of the side to play, or the other colour's pass, leads from a node at which
/// both strings stand and are not one.
pub fn the_active_area_is_reached_in_four_steps()
    ensures area { (q : LinkQuestion) (pos : BoardState) (p : ℕ) → q.a < pos.size * pos.size
        → q.b < pos.size * pos.size →
        InConnectionArea q pos p ↔ IsLookedAt q pos p }
    ensures nodes { (q : LinkQuestion) (pos : BoardState) (n : ℕ) (own : Bool) (here : BoardState)
        → q.a < pos.size * pos.size → q.b < pos.size * pos.size →
        IsNodeOf q pos n own here ↔ (IsFirstOf q pos n own here ⊎ IsNextOf q pos n own here) }
{}
