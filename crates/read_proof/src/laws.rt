//! What a proof shows, in the words of the game tree.

ghost use Rattle.std.specs.Prelude.{◌≡◌, ℕ, suc, ◌*◌, ◌<◌, ◌≤◌, ◌++◌, ◌∷◌, true, false, Bool, List, Some, None};
ghost use Rattle.go_rules.specs.Board.{IsSize};
ghost use Rattle.go_rules.specs.Position.{BoardState};
ghost use Rattle.read_rules.specs.declared.node.Node.{Node};
ghost use Rattle.read_rules.specs.declared.question.ReadingQuestion.{ReadingQuestion};
ghost use Rattle.read_rules.specs.declared.question.Spot.TheVariants.{At};
ghost use Rattle.read_rules.specs.GameTree.{attacker_wins, taking_back};
ghost use Rattle.read_rules.specs.Answer.{is_about, answer_of};
ghost use Rattle.read_proof.specs.Tokens.{Word};
ghost use Rattle.read_proof.specs.Proves.{proves, is_settled, is_wanted};
ghost use Rattle.read_proof.specs.ProofOf.{IsProofOf};
ghost use Rattle.read_proof.specs.FirstProof.{move_word, first_words, first_text};
ghost use Rattle.read_proof.specs.FirstProof.{BeginsWithFirstMove};

/// What is proved is true: if words prove at a node that the attacker wins, he wins there, and if they prove that he
/// does not, he does not. If a text is a proof of a code, the game tree has that code.
pub fn proofs_are_sound()
    ensures node { (n : ℕ) (won : Bool) (node : Node) (pos : BoardState) (words left : List Word)
        → node.turn.target < pos.size * pos.size → proves n won node pos words ≡ Some left
        → attacker_wins n node pos ≡ won }
    ensures code { (q : ReadingQuestion) (pos : BoardState) (code : ℕ) (text : List ℕ) → is_about q pos ≡ true
        → q.target < pos.size * pos.size → code ≤ 3 → IsProofOf q pos code text → (answer_of q pos).code ≡ code }
{}

/// What is true has a proof: the first words of a true claim prove it, whatever text follows them. If the claim is not
/// settled, and is what the side to play wants, its first words begin with the first move that leads to it; but if the
/// defender can take back a lone stone, they begin with the play at its point. So each question about a position has a
/// text that is a proof of its code: the first one.
pub fn first_proofs_prove()
    ensures node { (n : ℕ) (won : Bool) (node : Node) (pos : BoardState) (rest : List Word) → IsSize pos.size
        → node.turn.target < pos.size * pos.size → attacker_wins n node pos ≡ won
        → proves n won node pos (first_words n won node pos ++ rest) ≡ Some rest }
    ensures first { (n : ℕ) (won : Bool) (node : Node) (pos : BoardState) → attacker_wins (suc n) node pos ≡ won
        → taking_back node pos ≡ None → is_settled (suc n) won node pos ≡ false → is_wanted won node ≡ true
        → BeginsWithFirstMove n won node pos }
    ensures back { (n : ℕ) (won : Bool) (node : Node) (pos : BoardState) (child : Node × BoardState)
        → taking_back node pos ≡ Some child → first_words (suc n) won node pos
        ≡ move_word pos.size (At node.turn.target) ∷ first_words n won child.0 child.1 }
    ensures text { (q : ReadingQuestion) (pos : BoardState) → is_about q pos ≡ true → IsSize pos.size
        → q.target < pos.size * pos.size → IsProofOf q pos (answer_of q pos).code (first_text q pos) }
{}
