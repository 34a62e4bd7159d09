//! The fewest plies with which a question has a code.

ghost use Rattle.std.specs.Prelude.{◌≡◌, ◌≢◌, ◌*◌, ◌<◌, ◌≤◌};
ghost use Rattle.go_rules.specs.Position.{BoardState, stone_of};
ghost use Rattle.go_rules.specs.Strings.{cell_at};
ghost use Rattle.go_base.specs.Facts.{Agrees, Grows};
ghost use Rattle.read_rules.specs.Ranges.{most_plies};
ghost use Rattle.read_rules.specs.Answer.{asked_in};
ghost use Rattle.read_all.specs.FewestPlies.{with_plies, AreFewest};

use crate::question::question_on;
use go_base::{Cell, Look, Point};
use read_rules::{Depths, Kind, ReadingQuestion};
use read_tree::read;

/// The fewest plies with which a question has a code, and the view of the position, handed back after the reading.
#[derive(Drop)]
pub struct Fewest<L> {
    /// The plies; `None` if no number of plies that was asked for gives the question the code.
    pub plies: Option<u8>,
    /// The view that was handed in; its facts now include everything that was looked at.
    pub look: L,
}

/// The question `question` with `plies` plies in place of its own.
fn with_plies(question: &ReadingQuestion, plies: u8) -> ReadingQuestion
    ensures { result ≡ with_plies question.now plies }
{
    ReadingQuestion {
        tree: question.tree,
        size: question.size,
        kind: question.kind,
        target: question.target,
        colour: question.colour,
        plies,
        wide: question.wide,
    }
}

/// The fewest plies, from 1 to those of `question`, with which it has at least the code `code`. The question is about
/// the position.
fn fewest_of<L: Look>(look: L, question: ReadingQuestion, code: u8) -> Fewest<L>
    requires size { question.size ≡ (L.shows look).size }
    requires on_board { question.target < question.size * question.size }
    requires stone { cell_at (L.shows look).cells question.target ≡ stone_of question.colour }
    requires few { question.plies ≤ most_plies }
    ensures shown { L.shows result.look ≡ L.shows look }
    ensures grows { Grows (L.seen look) (L.seen result.look) }
    ensures over { (pos : BoardState) → Agrees (L.seen result.look) pos
        → AreFewest question pos code result.plies }
{
    let mut view = look;
    'depths: for plies in 1..=question.plies {
        let report = read(view, with_plies(&question, plies));
        view = report.look;
        if report.answer.code >= code {
            return Fewest {
                plies: Some(plies),
                look: view,
            };
        }
    }
    Fewest {
        plies: None,
        look: view,
    }
}

/// The fewest plies, from 1 to `depths.plies`, with which the attack on the string at `target`, or its defence, has at
/// least the code `code`; `None` exactly if no number of plies gives it the code. It tells how deep an attack has to be
/// read: a defence has code 3 with one ply, as the defender's own move captures nothing of his. Takes no memory.
pub fn fewest_plies<L: Look>(
    look: L,
    kind: Kind,
    target: Point,
    depths: Depths,
    code: u8,
) -> Fewest<L>
    requires on_board { target < (L.shows look).size * (L.shows look).size }
    requires stone { cell_at (L.shows look).cells target ≢ Cell.Empty }
    ensures shown { L.shows result.look ≡ L.shows look }
    ensures grows { Grows (L.seen look) (L.seen result.look) }

    // On every position that agrees with the facts seen afterwards the fewest plies are these; the position shown is
    // one of those positions.
    ensures over { (pos : BoardState) → Agrees (L.seen result.look) pos
        → AreFewest (asked_in depths.tree (L.shows look) kind target depths.plies depths.wide) pos code result.plies }
    ensures fewest { AreFewest (asked_in depths.tree (L.shows look) kind target depths.plies depths.wide)
        (L.shows look) code result.plies }
{
    let mut view = look;
    let question = question_on(&mut view, kind, target, depths);
    fewest_of(view, question, code)
}
