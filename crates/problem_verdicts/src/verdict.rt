//! The rule that compares what was found with what is expected.

ghost use Rattle.std.specs.Prelude.{◌≡◌};
ghost use Rattle.problem_verdicts.specs.Verdicts.{allows_code, is_unsolved, all_attain, are_all_told, needs_none};
ghost use Rattle.problem_verdicts.specs.Verdicts.{misses, has_more, verdict_on};

use crate::expected::Expected;
use crate::judged::Found;
use crate::moves::Moves;

/// The verdict on a problem, for its author.
#[derive(Clone, Copy, Debug, PartialEq, Eq)]
pub enum Verdict {
    /// The code and the moves are those that the author expects.
    AsExpected,
    /// The moves that the author expects attain the code, but other moves attain it too, and the author rules them out.
    OtherAnswersToo,
    /// The code is not the expected one, or a move that the author expects does not attain it.
    AnotherAnswer,
    /// The question has its answer without a move: the target is captured already, or safe.
    NeedsNoMove,
    /// The side that is asked about does not succeed within the depths.
    NotSolved,
    /// The author tells neither a code nor a move.
    NotTold,
}

/// Whether the author allows `code`: the author tells this code, or no code.
fn allows_code(told: Option<u8>, code: u8) -> bool
    ensures { result ≡ allows_code told code }
{
    match told {
        Some(told) => told == code,
        None => true,
    }
}

/// Whether each move that the author tells attains the code.
fn all_attain(told: &Option<Moves>, attaining: &Moves) -> bool
    ensures { result ≡ all_attain told.now attaining.now }
{
    match told {
        Some(told) => told.are_among(attaining),
        None => true,
    }
}

/// Whether the author tells each move that attains the code.
fn are_all_told(told: &Option<Moves>, attaining: &Moves) -> bool
    ensures { result ≡ are_all_told told.now attaining.now }
{
    match told {
        Some(told) => attaining.are_among(told),
        None => true,
    }
}

/// Whether the side that is asked about fails, and the author does not tell this.
fn is_unsolved(expected: &Expected, found: &Found) -> bool
    ensures { result ≡ is_unsolved expected.now found.now }
{
    found.code == 0 && !(expected.code.is_some() && allows_code(expected.code, 0))
}

/// Whether the question has its answer without a move, and the author does not expect the pass.
fn needs_none(expected: &Expected, found: &Found) -> bool
    ensures { result ≡ needs_none expected.now found.now }
{
    found.needless && !expected.expects_pass()
}

/// Whether the code differs from the one that the author tells, or a move that the author tells does not attain it.
fn misses(expected: &Expected, found: &Found) -> bool
    ensures { result ≡ misses expected.now found.now }
{
    !(allows_code(expected.code, found.code) && all_attain(&expected.answers, &found.moves))
}

/// Whether the author rules out all other moves, but one of them attains the code.
fn has_more(expected: &Expected, found: &Found) -> bool
    ensures { result ≡ has_more expected.now found.now }
{
    expected.only && !are_all_told(&expected.answers, &found.moves)
}

/// The verdict for an author who has `expected` this, on a question of which this was `found`.
pub fn verdict_of(expected: &Expected, found: &Found) -> Verdict
    ensures { result ≡ verdict_on expected.now found.now }
{
    if !expected.is_told() {
        Verdict::NotTold
    } else if is_unsolved(expected, found) {
        Verdict::NotSolved
    } else if needs_none(expected, found) {
        Verdict::NeedsNoMove
    } else if misses(expected, found) {
        Verdict::AnotherAnswer
    } else if has_more(expected, found) {
        Verdict::OtherAnswersToo
    } else {
        Verdict::AsExpected
    }
}
