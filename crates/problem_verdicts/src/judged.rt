//! What a reading finds of a problem's question, and the verdict on it.

ghost use Rattle.std.specs.Prelude.{◌≡◌, ◌≢◌, ◌*◌, ◌<◌, ◌==◌, not, None};
ghost use Rattle.go_rules.specs.Strings.{cell_at};
ghost use Rattle.read_rules.specs.Answer.{asked_in, attains_code};
ghost use Rattle.read_all.specs.FewestPlies.{AreFewest};
ghost use Rattle.problem_verdicts.specs.Questions.{other_kind, code_of, is_needless, AreMovesOf, IsFound};
ghost use Rattle.problem_verdicts.specs.SureQuestions.{IsFoundAgainst};
ghost use Rattle.problem_verdicts.specs.Verdicts.{verdict_on};

use crate::expected::Expected;
use crate::moves::Moves;
use crate::replies::Replies;
use crate::scope::Scope;
use crate::sure_judged::find_surely;
use crate::verdict::{Verdict, verdict_of};
use go_base::{Cell, Look, Point, Position, Watch};
use read_all::{AllMoves, Depths, Kind, all_moves, fewest_plies, moves_anywhere};
use read_proof::codes::{first_node, question_on};
use read_tree::{NodeAt, wins};
use trial_board::Trial;

/// What is found of a question.
#[derive(Debug, Drop)]
pub struct Found {
    /// The code: 3, 2, 1 or 0.
    pub code: u8,
    /// All moves of the judged scope that attain the code; no move for code 0.
    pub moves: Moves,
    /// The fewest plies with which the question has this code; `None` for code 0.
    pub fewest: Option<u8>,
    /// The question has its answer without a move: the target is captured already, or safe.
    pub needless: bool,
}

/// What is found of a question, and the verdict for its author.
#[derive(Debug, Drop)]
pub struct Judged {
    /// What is found.
    pub found: Found,
    /// The verdict for the author.
    pub verdict: Verdict,
}

/// The question about a string that the other side asks: a defence for an attack, and an attack for a defence.
pub(crate) fn other_kind(kind: Kind) -> Kind
    ensures { result ≡ other_kind kind }
{
    match kind {
        Kind::Attack => Kind::Defend,
        Kind::Defend => Kind::Attack,
    }
}

/// Whether the question attains `code`.
fn attains(pos: &Position, kind: Kind, target: Point, depths: Depths, code: u8) -> bool
    requires on_board { target < pos.now.size * pos.now.size }
    ensures { result
        ≡ attains_code (asked_in depths.tree pos.now kind target depths.plies depths.wide) pos.now code }
{
    let node = first_node(&question_on(pos, kind, target, depths), code);
    let mut board = Trial::new(Watch::new(pos));
    let won = wins(
        &mut board,
        NodeAt {
            tree: node.turn.tree,
            target: node.turn.target,
            defender: node.turn.defender,
            attacker_turn: node.turn.attacker_to_play,
            n: depths.plies,
            k: node.turn.wide,
            a: node.attacker_ko,
            d: node.defender_ko,
        },
    );
    let _look = board.finish();
    match kind {
        Kind::Attack => won,
        Kind::Defend => !won,
    }
}

/// Whether the question has a code above 0. Code 1 is asked first: it lets the side that is asked about ignore the ko
/// ban.
fn has_code(pos: &Position, kind: Kind, target: Point, depths: Depths) -> bool
    requires on_board { target < pos.now.size * pos.now.size }
    requires stone { cell_at pos.now.cells target ≢ Cell.Empty }
    ensures { result ≡ not (code_of pos.now kind target depths == 0) }
{
    if attains(pos, kind, target, depths, 1) {
        return true;
    }
    if attains(pos, kind, target, depths, 2) {
        return true;
    }
    attains(pos, kind, target, depths, 3)
}

/// Whether no move is needed for a question with this `code`. For the other side it suffices to know whether it has any
/// code above 0: this costs less than its exact code and its first move.
fn is_needless(pos: &Position, kind: Kind, target: Point, depths: Depths, code: u8) -> bool
    requires on_board { target < pos.now.size * pos.now.size }
    requires stone { cell_at pos.now.cells target ≢ Cell.Empty }
    requires code { code ≡ code_of pos.now kind target depths }
    ensures { result ≡ is_needless pos.now kind target depths }
{
    code > 0 && !has_code(pos, other_kind(kind), target, depths)
}

/// The fewest plies with which a question has this `code`; `None` for code 0.
fn fewest_of(pos: &Position, kind: Kind, target: Point, depths: Depths, code: u8) -> Option<u8>
    requires on_board { target < pos.now.size * pos.now.size }
    requires stone { cell_at pos.now.cells target ≢ Cell.Empty }
    ensures some { code ≢ 0
        → AreFewest (asked_in depths.tree pos.now kind target depths.plies depths.wide) pos.now code result }
    ensures none { code ≡ 0 → result ≡ None }
{
    if code == 0 {
        return None;
    }
    fewest_plies(Watch::new(pos), kind, target, depths, code).plies
}

/// The code of a question, and all moves of `scope` that attain it.
fn moves_of<L: Look>(
    look: L,
    kind: Kind,
    target: Point,
    depths: Depths,
    scope: Scope,
) -> AllMoves<L>
    requires on_board { target < (L.shows look).size * (L.shows look).size }
    requires stone { cell_at (L.shows look).cells target ≢ Cell.Empty }
    ensures { AreMovesOf scope (asked_in depths.tree (L.shows look) kind target depths.plies depths.wide)
        (L.shows look) result.code result.pass result.points }
{
    match scope {
        Scope::Tried => all_moves(look, kind, target, depths),
        Scope::Anywhere => moves_anywhere(look, kind, target, depths),
    }
}

/// What is found of a question about the string at `target`, with the moves of `scope`.
fn find(pos: &Position, kind: Kind, target: Point, depths: Depths, scope: Scope) -> Found
    requires on_board { target < pos.now.size * pos.now.size }
    requires stone { cell_at pos.now.cells target ≢ Cell.Empty }
    ensures { IsFound scope pos.now kind target depths result }
{
    let all = moves_of(Watch::new(pos), kind, target, depths, scope);
    Found {
        code: all.code,
        fewest: fewest_of(pos, kind, target, depths, all.code),
        needless: is_needless(pos, kind, target, depths, all.code),
        moves: Moves {
            pass: all.pass,
            points: all.points,
        },
    }
}

/// What is found of a question by the answers that hold against `replies`, with the moves of `scope`.
fn find_against(
    pos: &Position,
    kind: Kind,
    target: Point,
    depths: Depths,
    replies: Replies,
    scope: Scope,
) -> Found
    requires on_board { target < pos.now.size * pos.now.size }
    requires stone { cell_at pos.now.cells target ≢ Cell.Empty }
    ensures { IsFoundAgainst replies scope pos.now kind target depths result }
{
    match replies {
        Replies::Tried => find(pos, kind, target, depths, scope),
        Replies::Every => find_surely(pos, kind, target, depths, scope),
    }
}

/// Judges the question whether the string at `target` can be captured or saved with these `depths`. Finds its code
/// against `replies` and the moves of `scope` that attain it, and compares them with what the author has `expected`.
pub fn judge(
    pos: &Position,
    kind: Kind,
    target: Point,
    depths: Depths,
    replies: Replies,
    scope: Scope,
    expected: &Expected,
) -> Judged
    requires on_board { target < pos.now.size * pos.now.size }
    requires stone { cell_at pos.now.cells target ≢ Cell.Empty }
    ensures found { IsFoundAgainst replies scope pos.now kind target depths result.found }
    ensures verdict { result.verdict ≡ verdict_on expected.now result.found }
{
    let found = find_against(pos, kind, target, depths, replies, scope);
    let verdict = verdict_of(expected, &found);
    Judged { found, verdict }
}
