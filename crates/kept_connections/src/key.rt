//! Questions about connections as they are cached, and how one is read.

ghost use Rattle.std.specs.Prelude.{◌≡◌, ◌≢◌, ◌*◌, ◌<◌, ◌≤◌};
ghost use Rattle.go_rules.specs.Strings.{cell_at};
ghost use Rattle.go_rules.specs.Position.{stone_of};
ghost use Rattle.trial_board.specs.Trials.{most_moves};
ghost use Rattle.kept_connections.specs.Keys.{IsAbout, number_of, number_of_kind};
ghost use Rattle.kept_connections.specs.Connections.{key_on};

use connect_rules::{LinkKind, LinkQuestion, Linkage};
use go_base::{Cell, Point, Position, Watch};
use read_cache::{PLY_VALUES, POINT_VALUES, Question, Readable, Variant};
use read_connect::read;
use std::hash::{Hash, Hasher};

/// A question as it is cached: its size, kind, both points, colour and plies.
#[derive(Clone, Copy, Debug, PartialEq, Eq)]
pub struct LinkKey {
    /// The question.
    pub question: LinkQuestion,
}

impl Question for LinkKey {
    ghost use Rattle.kept_connections.specs.Keys.{meaning_of, same_key-is};

    type Answer = Linkage;

    ghost meaning = { meaning_of };

    ghost same = { same_key-is };
}

impl Readable for LinkKey {
    ghost use Rattle.kept_connections.specs.Keys.{IsAbout};
    ghost use Rattle.kept_connections.specs.Connections.{Rests};

    type Effort = ();

    ghost is_about = { IsAbout };

    ghost rests = { Rests };

    ghost takes = { λ _ _ _. Unit {0} };

    fn read(&self, position: &Position) -> (Variant<Linkage>, ()) {
        let report = read(Watch::new(position), self.question);
        let variant = Variant {
            answer: report.linkage,
            facts: report.look.facts(),
        };
        (variant, ())
    }

    ghost right = { λ key variant rests. record { right = λ pos stands. (rests.answers pos stands).right } };
}

/// A question is hashed as one number, so that the hasher needs one step.
impl Hash for LinkKey {
    ghost use Rattle.std.proofs.Common.{ap};
    ghost use Rattle.std.specs.Hash as fed;
    ghost use Rattle.kept_connections.specs.Keys.{number_of, same_number};

    ghost hash_input = { λ key. fed.u64 (number_of key.question) };

    ghost respects_eq = { λ x y e. ap fed.u64 (same_number x y e) };

    fn hash<H: Hasher>(&self, state: &mut H) {
        state.write_u64(number_of(&self.question));
    }
}

/// The number of a kind of question: 0 for `Connect` and 1 for `Disconnect`.
fn number_of_kind(kind: LinkKind) -> u64
    ensures value { result ≡ number_of_kind kind }
    ensures small { result < 2 }
{
    match kind {
        LinkKind::Connect => 0,
        LinkKind::Disconnect => 1,
    }
}

/// The number that a question is hashed as. Its digits are, from the highest to the lowest, the size, both points, the
/// kind and the plies. Questions that differ in one of these have different numbers.
fn number_of(question: &LinkQuestion) -> u64
    ensures { result ≡ number_of question.now }
{
    let first = question.size.get() as u64 * POINT_VALUES + question.a as u64;
    let both = first * POINT_VALUES + question.b as u64;
    (both * 2 + number_of_kind(question.kind)) * PLY_VALUES + question.plies as u64
}

/// The question of this kind about the stones at `a` and `b` on the position, which have one colour.
pub(crate) fn key_of(kind: LinkKind, position: &Position, a: Point, b: Point, plies: u8) -> LinkKey
    requires a_on { a < position.now.size * position.now.size }
    requires b_on { b < position.now.size * position.now.size }
    requires stone { cell_at position.now.cells a ≢ Cell.Empty }
    requires one_colour { cell_at position.now.cells b ≡ cell_at position.now.cells a }
    requires some_plies { 1 ≤ plies }
    requires few_plies { plies ≤ most_moves }
    ensures question { result ≡ key_on position.now kind a b plies }
    ensures about { IsAbout result position.now }
{
    LinkKey {
        question: LinkQuestion {
            size: position.size(),
            kind,
            a,
            b,
            colour: position.cell(a).colour(),
            plies,
        },
    }
}
