//! What a proof of a sure capture shows.

ghost use Rattle.std.specs.Prelude.{◌≡◌, ℕ, ◌*◌, ◌<◌, Some, true, IsTrue};
ghost use Rattle.std.specs.FinSet as set;
ghost use Rattle.go_rules.specs.Position.{BoardState, IsPosition};
ghost use Rattle.read_rules.specs.declared.node.Node.{Node};
ghost use Rattle.read_proof.specs.Tokens.{Word};
ghost use Rattle.std.specs.Prelude.{List};
ghost use Rattle.sure_rules.specs.SureTree.{surely_wins};
ghost use Rattle.sure_rules.specs.Zones.{IsZone};
ghost use Rattle.sure_proof.specs.SureProofs.{Proved, proves_surely};

/// If words prove that a string is surely captured, it is surely captured. The points on which the proof rests are a
/// zone: on every position that agrees at them, in cells and ko bans, the string is surely captured with the same
/// plies.
pub fn sure_proofs_are_sound()
    ensures won { (n : ℕ) (node : Node) (pos : BoardState) (words : List Word) (found : Proved) → IsPosition pos
        → node.turn.target < pos.size * pos.size → proves_surely n node pos words ≡ Some found
        → IsTrue (surely_wins n node pos) }
    ensures zone { (n : ℕ) (node : Node) (pos : BoardState) (words : List Word) (found : Proved) → IsPosition pos
        → node.turn.target < pos.size * pos.size → proves_surely n node pos words ≡ Some found
        → IsZone n node pos (set.contains found.zone) }
{}
