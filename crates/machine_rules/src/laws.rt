//! Laws of the plain machine: what every step keeps, and which lines are certain hits.
ghost use Rattle.std.specs.Prelude.{List, [], ◌∷◌, ◌++◌};
ghost use Rattle.gtp_rules.specs.Lines.{RawLine};
ghost use Rattle.machine_rules.specs.Machine.{Machine};
ghost use Rattle.machine_rules.specs.Matcher.{Matcher};
ghost use Rattle.gtp_rules.specs.Steps.{Step};
ghost use Rattle.gtp_rules.specs.Transcript.{IsTotal};
ghost use Rattle.machine_rules.specs.Files.{Contents};
ghost use Rattle.machine_rules.specs.Step.{step};
ghost use Rattle.machine_rules.specs.Soundness.{IsSound};
ghost use Rattle.machine_rules.specs.AnsweredLines.{AnsweredLine};
ghost use Rattle.machine_rules.specs.CertainHit.{AsksFor, IsCertainHit};
ghost use Rattle.read_rules.specs.declared.question.ReadingQuestion.{ReadingQuestion};

/// A refused line keeps the machine. A fallback, which may stand in place of a reply, is a refusal that keeps the
/// machine but for the calls of helpers. Only a success ends the session, and it keeps the machine. `step` gives
/// something for each line.
pub fn replies_are_sound()
    ensures sound { (matcher : Matcher) (contents : Contents) (machine : Machine) (line : RawLine)
        (given : Step Machine) → step matcher contents machine line given → IsSound machine given }
    ensures total { (matcher : Matcher) (contents : Contents) → IsTotal (step matcher contents) }
{}

/// A question asked twice in a row of the same machine is a certain hit the second time. The first line is never one.
pub fn certain_hits_were_asked_before()
    ensures again { (before : List (AnsweredLine Machine)) (turn : AnsweredLine Machine) (q : ReadingQuestion)
        → AsksFor turn q → IsCertainHit (before ++ turn ∷ []) turn }
    ensures first { (turn : AnsweredLine Machine) → IsCertainHit [] turn → ⊥ }
{}
