//! What a verdict means, in words that an author uses.

ghost use Rattle.std.specs.Prelude.{◌≡◌, ◌↔◌, Some, true, false};
ghost use Rattle.problem_verdicts.specs.declared.moves.Moves.{Moves};
ghost use Rattle.problem_verdicts.specs.declared.expected.Expected.{Expected};
ghost use Rattle.problem_verdicts.specs.declared.judged.Found.{Found};
ghost use Rattle.problem_verdicts.specs.declared.verdict.Verdict.TheVariants.{AsExpected};
ghost use Rattle.problem_verdicts.specs.MoveSets.{AreSameMoves, AreAmong};
ghost use Rattle.problem_verdicts.specs.Verdicts.{is_unsolved, needs_none, allows_code, verdict_on};

/// The verdict on a question that is solved, needs a move, and has a code that the author allows. With `only` it is as
/// expected exactly if the moves that attain the code are exactly those that the author tells; without `only`, exactly
/// if each move that the author tells attains the code.
pub fn answers_mean_moves()
    ensures only { (e : Expected) (f : Found) (m : Moves) → e.answers ≡ Some m → e.only ≡ true
        → is_unsolved e f ≡ false → needs_none e f ≡ false → allows_code e.code f.code ≡ true
        → (verdict_on e f ≡ AsExpected) ↔ AreSameMoves m f.moves }
    ensures some { (e : Expected) (f : Found) (m : Moves) → e.answers ≡ Some m → e.only ≡ false
        → is_unsolved e f ≡ false → needs_none e f ≡ false → allows_code e.code f.code ≡ true
        → (verdict_on e f ≡ AsExpected) ↔ AreAmong m f.moves }
{}
