//! What the definitions of sure captures mean, in Go's words.

ghost use Rattle.std.specs.Prelude.{◌≡◌, ◌≢◌, ◌↔◌, ℕ, ◌+◌, ◌-◌, ◌*◌, ◌<◌, ◌≤◌, true, false, not, IsTrue, Some, None};
ghost use Rattle.std.specs.Prelude.{Bool, Ok, slice_set};
ghost use Rattle.go_rules.specs.declared.Colour.{Colour};
ghost use Rattle.go_rules.specs.Position.{BoardState, IsPosition, stone_of};
ghost use Rattle.go_rules.specs.Play.{play_free};
ghost use Rattle.go_rules.specs.Rules.{IsCaptured, IsOnlyLiberty};
ghost use Rattle.read_rules.specs.declared.node.Node.{Node};
ghost use Rattle.read_rules.specs.declared.question.ReadingQuestion.{ReadingQuestion};
ghost use Rattle.read_rules.specs.declared.question.Spot.{Spot};
ghost use Rattle.read_rules.specs.GameTree.{attacker_wins};
ghost use Rattle.read_rules.specs.Answer.{is_about, code_of, first_node};
ghost use Rattle.read_rules.specs.Rules.{TakesBack, node_under};
ghost use Rattle.sure_rules.specs.Nodes.{is_attackers, is_gone, has_too_many, target_of, defender_of};
ghost use Rattle.sure_rules.specs.Nodes.{IsNoHarder, HasMoreStones, in_wider_tree};
ghost use Rattle.sure_rules.specs.SureTree.{surely_wins, IsNeverTakenBack};
ghost use Rattle.sure_rules.specs.SureAnswer.{surely_attains, sure_code_of, sure_answer_of};
ghost use Rattle.sure_rules.specs.SureInWords.{SomeCandidateCaptures, EveryReplyFails};
ghost use Rattle.sure_rules.specs.SureInWords.{IsFirstSureMove, IsGreatestSureCode};
ghost use Rattle.sure_rules.specs.Defences.{IsTakenAnyway, HasPlanWithin, standing_at, start_of};
ghost use Rattle.sure_rules.specs.Zones.{IsZone, IsTakenZone, IsTakingBackZone, IsPlayZone, IsReplyZone};

use read_rules::Kind;

/// The four rules of a sure capture, in their order. The attacker plays a candidate; the defender passes, or plays
/// anywhere on the board. A target that is taken is surely captured. If the defender can take back the lone stone, it
/// is only surely captured if a ply is left for taking back and the capture is sure afterwards too.
pub fn sure_captures_are_by_four_rules()
    ensures captured { (n : ℕ) (node : Node) (pos : BoardState) → IsTrue (is_gone node pos)
        → ((next : Node) (new : BoardState) → TakesBack node pos next new → ⊥)
        → IsTrue (surely_wins n node pos) }
    ensures taken_back { (n : ℕ) (node : Node) (pos : BoardState) (next : Node) (new : BoardState)
        → TakesBack node pos next new → surely_wins (n + 1) node pos ≡ surely_wins n next new }
    ensures none_left { (node : Node) (pos : BoardState) (next : Node) (new : BoardState)
        → TakesBack node pos next new → surely_wins 0 node pos ≡ false }
    ensures out_of_plies { (node : Node) (pos : BoardState) → is_gone node pos ≡ false
        → surely_wins 0 node pos ≡ false }
    ensures attacker_to_play { (n : ℕ) (node : Node) (pos : BoardState) → is_gone node pos ≡ false
        → is_attackers node ≡ true →
        IsTrue (surely_wins (n + 1) node pos)
        ↔ ((has_too_many node pos ≡ false) × SomeCandidateCaptures n node pos) }
    ensures defender_to_play { (n : ℕ) (node : Node) (pos : BoardState) → is_gone node pos ≡ false
        → is_attackers node ≡ false →
        IsTrue (surely_wins (n + 1) node pos) ↔ EveryReplyFails n node pos }
{}

/// What is surely captured is captured in the game tree of a reading. So a sure attack is an attack, with at least its
/// code, and a string that is surely not to be saved is not saved by a reading.
pub fn sure_captures_are_captures()
    ensures node { (n : ℕ) (node : Node) (pos : BoardState) → IsTrue (surely_wins n node pos)
        → IsTrue (attacker_wins n node pos) }
    ensures attack { (q : ReadingQuestion) (pos : BoardState) → q.kind ≡ Kind.Attack
        → sure_code_of q pos ≤ code_of q pos }
    ensures defend { (q : ReadingQuestion) (pos : BoardState) → q.kind ≡ Kind.Defend
        → code_of q pos ≤ sure_code_of q pos }
{}

/// A sure capture stays sure with more plies; if the attacker may ignore the ko ban more often, or the defender less
/// often; and if the attacker tries further candidates, with more wide plies, or in the wider tree. In the wider tree a
/// string of two stones or more stays surely captured, and so does a lone stone that can never be taken back. The wider
/// tree does not count a stone as captured that is taken back at once, by a snapback or a ko, so the capture of a lone
/// stone may be sure in the stated tree alone.
pub fn sure_captures_stay_sure()
    ensures more_plies { (n : ℕ) (node : Node) (pos : BoardState) → IsTrue (surely_wins n node pos)
        → IsTrue (surely_wins (n + 1) node pos) }
    ensures wider_tree { (n : ℕ) (node : Node) (pos : BoardState) → IsPosition pos → HasMoreStones node pos
        → IsTrue (surely_wins n node pos) → IsTrue (surely_wins n (in_wider_tree node) pos) }
    ensures never_taken_back { (n : ℕ) (node : Node) (pos : BoardState) → IsNeverTakenBack n node pos
        → IsTrue (surely_wins n node pos) → IsTrue (surely_wins n (in_wider_tree node) pos) }
    ensures no_harder { (n m : ℕ) (node more : Node) (pos : BoardState) → n ≤ m → IsNoHarder node more
        → IsTrue (surely_wins n node pos) → IsTrue (surely_wins m more pos) }
{}

/// A sure capture stands against every defence: whatever the defender answers, by moves that he may make, some game of
/// at most as many moves as plies are left takes the stone. In the wider tree the game ends when the stone is taken and
/// cannot be taken back at once. The sides move in turn, and each may ignore the ko ban as often as its allowance says.
/// A sure attack takes the stone under the allowances of its code. A string that is surely not to be saved is taken
/// under the allowances of every code, whatever the defender plays first.
pub fn sure_captures_stand_against_every_defence()
    ensures node { (n : ℕ) (node : Node) (pos : BoardState) → IsTrue (surely_wins n node pos)
        → IsTakenAnyway node.turn.tree n (target_of node) (defender_of node) (standing_at node pos) }
    ensures attack { (q : ReadingQuestion) (pos : BoardState) → q.kind ≡ Kind.Attack → sure_code_of q pos ≢ 0
        → IsTakenAnyway q.tree q.plies q.target q.colour (start_of q pos (sure_code_of q pos)) }
    ensures defend { (q : ReadingQuestion) (pos : BoardState) → is_about q pos ≡ true → q.kind ≡ Kind.Defend
        → sure_code_of q pos ≡ 0 → (code : ℕ) → 1 ≤ code → code ≤ 3
        → IsTakenAnyway q.tree q.plies q.target q.colour (start_of q pos code) }
{}

/// A sure capture has a plan, which names a point for each list of moves so far. In every game in which the attacker
/// plays by the plan, and the defender as he likes, the plan's move may be made, and the stone is taken within as many
/// moves as plies are left.
pub fn sure_captures_have_a_plan()
    ensures node { (n : ℕ) (node : Node) (pos : BoardState) → IsTrue (surely_wins n node pos)
        → HasPlanWithin node.turn.tree n (target_of node) (defender_of node) (standing_at node pos) }
    ensures attack { (q : ReadingQuestion) (pos : BoardState) → q.kind ≡ Kind.Attack → sure_code_of q pos ≢ 0
        → HasPlanWithin q.tree q.plies q.target q.colour (start_of q pos (sure_code_of q pos)) }
    ensures defend { (q : ReadingQuestion) (pos : BoardState) → is_about q pos ≡ true → q.kind ≡ Kind.Defend
        → sure_code_of q pos ≡ 0 → (code : ℕ) → 1 ≤ code → code ≤ 3
        → HasPlanWithin q.tree q.plies q.target q.colour (start_of q pos code) }
{}

/// The ko allowances of attacker and defender under which each code of a sure answer is attained. A question that
/// attains a code attains the codes below it. The code of the answer is the greatest that is attained, and its move is
/// the first that attains it.
pub fn sure_answers_are_by_codes()
    ensures attack_3 { (q : ReadingQuestion) (pos : BoardState) → q.kind ≡ Kind.Attack
        → surely_attains q pos 3 ≡ surely_wins q.plies (node_under q 0 1) pos }
    ensures attack_2 { (q : ReadingQuestion) (pos : BoardState) → q.kind ≡ Kind.Attack
        → surely_attains q pos 2 ≡ surely_wins q.plies (node_under q 0 0) pos }
    ensures attack_1 { (q : ReadingQuestion) (pos : BoardState) → q.kind ≡ Kind.Attack
        → surely_attains q pos 1 ≡ surely_wins q.plies (node_under q 1 0) pos }
    ensures defend_3 { (q : ReadingQuestion) (pos : BoardState) → q.kind ≡ Kind.Defend
        → surely_attains q pos 3 ≡ not (surely_wins q.plies (node_under q 1 0) pos) }
    ensures defend_2 { (q : ReadingQuestion) (pos : BoardState) → q.kind ≡ Kind.Defend
        → surely_attains q pos 2 ≡ not (surely_wins q.plies (node_under q 0 0) pos) }
    ensures defend_1 { (q : ReadingQuestion) (pos : BoardState) → q.kind ≡ Kind.Defend
        → surely_attains q pos 1 ≡ not (surely_wins q.plies (node_under q 0 1) pos) }

    ensures three_in_two { (q : ReadingQuestion) (pos : BoardState) → IsTrue (surely_attains q pos 3)
        → IsTrue (surely_attains q pos 2) }
    ensures two_in_one { (q : ReadingQuestion) (pos : BoardState) → IsTrue (surely_attains q pos 2)
        → IsTrue (surely_attains q pos 1) }

    ensures greatest { (q : ReadingQuestion) (pos : BoardState) → is_about q pos ≡ true
        → IsGreatestSureCode q pos (sure_code_of q pos) }
    ensures another { (q : ReadingQuestion) (pos : BoardState) → is_about q pos ≡ false
        → sure_answer_of q pos ≡ record { code = 0; at = None } }
    ensures code { (q : ReadingQuestion) (pos : BoardState) → (sure_answer_of q pos).code ≡ sure_code_of q pos }
    ensures no_move { (q : ReadingQuestion) (pos : BoardState) → sure_code_of q pos ≡ 0
        → (sure_answer_of q pos).at ≡ None }
    ensures first_move { (q : ReadingQuestion) (pos : BoardState) → q.plies ≢ 0 → sure_code_of q pos ≢ 0 →
        (spot : Spot) × ((sure_answer_of q pos).at ≡ Some spot)
        × IsFirstSureMove (q.plies - 1) (first_node q (sure_code_of q pos)) pos spot }
{}

/// A zone of a sure capture is a set of points on which it rests: on every position that agrees there, in cells and
/// bans, the target is surely captured with the same plies. A target that is taken rests on its own point and on what
/// shows that it is not taken back; if it can be taken back, on what the capture afterwards rests on. At the attacker's
/// turn a capture rests on what shows one play of his, and on what its child rests on. At the defender's turn it rests
/// on what the capture after the pass rests on, and on the replies that are read: those at an empty point of the pass's
/// zone, and those at the only liberty of an attacker's string that has a stone in that zone. Every other reply changes
/// nothing in that zone, since what a play captures had its only liberty at the point of the play.
pub fn zones_are_by_rules()
    ensures itself { (n : ℕ) (node : Node) (pos : BoardState) (Z : ℕ → Bool) → IsPosition pos → IsZone n node pos Z
        → IsTrue (surely_wins n node pos) }
    ensures larger { (n : ℕ) (node : Node) (pos : BoardState) (Z W : ℕ → Bool) → ((p : ℕ) → IsTrue (Z p) → IsTrue (W p))
        → IsZone n node pos Z → IsZone n node pos W }
    ensures captured { (n : ℕ) (node : Node) (pos : BoardState) (Z : ℕ → Bool) → IsTrue (is_gone node pos)
        → IsTakenZone node pos Z → IsZone n node pos Z }
    ensures taken_back { (n : ℕ) (node : Node) (pos : BoardState) (Z : ℕ → Bool) → IsTrue (is_gone node pos)
        → IsTakingBackZone n node pos Z → IsZone (n + 1) node pos Z }
    ensures attacker { (n : ℕ) (node : Node) (pos : BoardState) (Z : ℕ → Bool) → is_attackers node ≡ true
        → IsPlayZone n node pos Z → IsZone (n + 1) node pos Z }
    ensures defender { (n : ℕ) (node : Node) (pos : BoardState) (Z : ℕ → Bool) → is_attackers node ≡ false
        → IsReplyZone n node pos Z → IsZone (n + 1) node pos Z }
    ensures last_liberty { (pos : BoardState) (c : Colour) (p : ℕ) (new : BoardState) → IsPosition pos
        → p < pos.size * pos.size → play_free pos c p ≡ Ok new → (q : ℕ) → q < pos.size * pos.size
        → IsCaptured pos.size (slice_set pos.cells p (stone_of c)) c q → IsOnlyLiberty pos.size pos.cells q p }
{}
