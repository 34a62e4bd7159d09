//! The keys under which the answers of readings are cached, and how a question is read.

ghost use Rattle.std.specs.Prelude.{◌≡◌, ◌≢◌, ◌*◌, ◌<◌};
ghost use Rattle.go_rules.specs.Strings.{cell_at};
ghost use Rattle.match_engine.specs.Keys.{IsAbout, number_of, number_of_kind};
ghost use Rattle.match_engine.specs.ReadingDepths.{asked_at, depths_of};

use go_base::{Cell, Point, Position, Watch};
use read_cache::{PLY_VALUES, POINT_VALUES, Question, Readable, Variant};
use read_rules::{Answer, Depths, Kind, ReadingQuestion};
use read_tree::read;
use std::hash::{Hash, Hasher};

/// A question as the key of its cached answers: its size, kind, target, colour, tree and depths.
#[derive(Clone, Copy, Debug, PartialEq, Eq)]
pub struct Key {
    /// The question.
    pub question: ReadingQuestion,
}

impl Question for Key {
    ghost use Rattle.match_engine.specs.Keys.{meaning_of, same_key-is};

    type Answer = Answer;

    ghost meaning = { meaning_of };

    ghost same = { same_key-is };
}

impl Readable for Key {
    ghost use Rattle.match_engine.specs.Keys.{IsAbout};
    ghost use Rattle.match_engine.specs.Readings.{Rests, MayTry};

    type Effort = u64;

    ghost is_about = { IsAbout };

    ghost rests = { Rests };

    ghost takes = { MayTry };

    fn read(&self, position: &Position) -> (Variant<Answer>, u64) {
        let report = read(Watch::new(position), self.question);
        let variant = Variant {
            answer: report.answer,
            facts: report.look.facts(),
        };
        (variant, report.trials)
    }

    ghost right = { λ key variant rests. record { right = rests.answers } };
}

/// A question is hashed as one number, so that the hasher takes one step.
impl Hash for Key {
    ghost use Rattle.std.proofs.Common.{ap};
    ghost use Rattle.std.specs.Hash as fed;
    ghost use Rattle.match_engine.specs.Keys.{number_of, same_number};

    ghost hash_input = { λ key. fed.u64 (number_of key.question) };

    ghost respects_eq = { λ x y e. ap fed.u64 (same_number x y e) };

    fn hash<H: Hasher>(&self, state: &mut H) {
        state.write_u64(number_of(&self.question));
    }
}

/// The number of `kind`.
fn number_of_kind(kind: Kind) -> u64
    ensures value { result ≡ number_of_kind kind }
    ensures small { result < 2 }
{
    match kind {
        Kind::Attack => 0,
        Kind::Defend => 1,
    }
}

/// The number that a question is hashed as. Its digits are, from the highest to the lowest, the size, the target, the
/// kind, the plies and the wide plies. Two questions that differ in one of these have different numbers. The tree is
/// left out, as a session reads one tree.
fn number_of(question: &ReadingQuestion) -> u64
    ensures { result ≡ number_of question.now }
{
    let place = question.size.get() as u64 * POINT_VALUES + question.target as u64;
    let about = place * 2 + number_of_kind(question.kind);
    (about * PLY_VALUES + question.plies as u64) * PLY_VALUES + question.wide as u64
}

/// The question of this `kind` about the string at `target`, where a stone of `position` stands.
pub(crate) fn key_of(kind: Kind, position: &Position, target: Point, depths: Depths) -> Key
    requires on_board { target < position.now.size * position.now.size }
    requires stone { cell_at position.now.cells target ≢ Cell.Empty }
    ensures question { result ≡ record { question = asked_at (depths_of depths) position.now kind target } }
    ensures about { IsAbout result position.now }
{
    Key {
        question: ReadingQuestion {
            tree: depths.tree,
            size: position.size(),
            kind,
            target,
            colour: position.cell(target).colour(),
            plies: depths.plies,
            wide: depths.wide,
        },
    }
}
