//! The first proof of the code of a question, as it is printed.

ghost use Rattle.std.specs.Prelude.{◌≡◌, ◌≢◌, ◌↔◌, ◌+◌, ◌*◌, ◌<◌, ◌≤◌, [], Bool, false, IfOk, IfErr, Ok, Err};
ghost use Rattle.std.specs.Prelude.{length, drop};
ghost use Rattle.go_rules.specs.Strings.{cell_at};
ghost use Rattle.go_base.specs.Facts.{Fact};
ghost use Rattle.trial_board.specs.Trials.{KeepsTrial, most_moves};
ghost use Rattle.read_tree.specs.Walk.{IsPointOf};
ghost use Rattle.read_rules.specs.Ranges.{most_plies};
ghost use Rattle.read_rules.specs.Answer.{answer_of, asked_in};
ghost use Rattle.read_tree.specs.Table.{IsTrueTable};
ghost use Rattle.read_proof.specs.ProofOf.{codes_down_to, IsProofOf};
ghost use Rattle.read_proof.specs.FirstProof.{first_words_of, first_text};
ghost use Rattle.write_proof.specs.Printed.{behind_blanks, Puts, position_on};
ghost use Rattle.write_proof.specs.Room.{most_bytes};

use crate::codes::{write_all, write_claim};
use crate::room::Text;
use crate::text::{NoRoom, ProofError};
use crate::thrice::put_thrice;
use go_base::{Bytes, Cell, Look, NoMemory, Point, Position, Watch};
use read_proof::codes::{claim_under, question_on};
use read_rules::{Depths, Kind, ReadingQuestion};
use read_tree::memory::Memory;
use read_tree::table::{Entry, empty_table};
use read_tree::{Allowances, attack, defend};
use std::alloc::Global;
use trial_board::Trial;

/// With this many plies or more, a table remembers the nodes of a proof.
const PLIES_WITH_TABLE: u8 = 12;

/// The code of a question, and the first proof of it as it is printed.
#[derive(Debug, Drop)]
pub struct Proof {
    /// The code of the question: 3, 2, 1 or 0.
    pub code: u8,
    /// The words of the first proof of the code, with one blank between each two.
    pub text: Bytes,
}

/// The code of a question, by the reader.
fn code_of(pos: &Position, of: Kind, target: Point, depths: Depths) -> u8
    requires on_board { target < pos.now.size * pos.now.size }
    requires stone { cell_at pos.now.cells target ≢ Cell.Empty }
    ensures value { result
        ≡ (answer_of (asked_in depths.tree pos.now of target depths.plies depths.wide) pos.now).code }
    ensures few { result ≤ 3 }
{
    let look = Watch::new(pos);
    match of {
        Kind::Attack => attack(look, target, depths).answer.code,
        Kind::Defend => defend(look, target, depths).answer.code,
    }
}

/// Puts the words of the first proof of code 0 at the end of `out`, each after a blank, and answers true, if its three
/// parts are the same. If they may differ, it answers false and puts nothing.
fn alike_words<L: Look>(
    board: &mut Trial<L>,
    question: &ReadingQuestion,
    memory: &mut Memory,
    out: &mut Text,
) -> Result<bool, NoRoom>
    requires room { length board.old.moves + question.now.plies ≤ most_moves }
    requires target { IsPointOf L.shows board.old question.now.target }
    requires table { IsTrueTable (L.seen board.old.look) question.now.tree question.now.target question.now.colour
        memory.old.table.now }
    requires bytes { length out.old ≤ most_bytes }
    ensures stays { KeepsTrial L.shows L.seen board.old board.new }
    ensures table { IsTrueTable (L.seen board.new.look) question.now.tree question.now.target question.now.colour
        memory.new.table.now }
    ensures puts { result ≢ Ok false → Puts out.old
        (behind_blanks (first_words_of question.now (position_on L.shows board.old) 0 (codes_down_to 0))) out.new
        result }
    ensures kept { result ≡ Ok false → out.new ≡ out.old }
{
    let won = claim_under(question, 0, 3);
    let mut part = Text::new();
    match write_claim(board, question, Allowances::all(), won, memory, &mut part) {
        Ok(true) => match put_thrice(out, part.as_slice()) {
            Ok(()) => Ok(true),
            Err(why) => Err(why),
        },
        Ok(false) => Ok(false),
        Err(why) => Err(why),
    }
}

/// Puts the words of the first proof of `code` at the end of `out`, each after a blank. For code 0 it finds one part
/// and puts it three times, if the parts are the same.
fn words_on<L: Look>(
    board: &mut Trial<L>,
    question: &ReadingQuestion,
    code: u8,
    memory: &mut Memory,
    out: &mut Text,
) -> Result<(), NoRoom>
    requires room { length board.old.moves + question.now.plies ≤ most_moves }
    requires target { IsPointOf L.shows board.old question.now.target }
    requires table { IsTrueTable (L.seen board.old.look) question.now.tree question.now.target question.now.colour
        memory.old.table.now }
    requires bytes { length out.old ≤ most_bytes }
    ensures { Puts out.old (behind_blanks
        (first_words_of question.now (position_on L.shows board.old) code (codes_down_to code))) out.new result }
{
    if code != 0 {
        return write_all(board, question, code, memory, out);
    }
    match alike_words(board, question, memory, out) {
        Ok(true) => Ok(()),
        Ok(false) => write_all(board, question, code, memory, out),
        Err(why) => Err(why),
    }
}

/// Puts the words of the first proof of `code` on a position at the end of `out`, each after a blank. `table` remembers
/// the nodes of the whole proof.
fn words_with(
    pos: &Position,
    question: &ReadingQuestion,
    code: u8,
    table: &mut [Entry],
    out: &mut Text,
) -> Result<(), NoRoom>
    requires plies { question.now.plies ≤ most_plies }
    requires target { question.now.target < pos.now.size * pos.now.size }
    requires table { (seen : Fact → Bool)
        → IsTrueTable seen question.now.tree question.now.target question.now.colour table.old }
    requires bytes { length out.old ≤ most_bytes }
    ensures { Puts out.old (behind_blanks (first_words_of question.now pos.now code (codes_down_to code))) out.new
        result }
{
    let mut board = Trial::new(Watch::new(pos));
    let mut memory = Memory {
        reply: question.target,
        table,
    };
    let words = words_on(&mut board, question, code, &mut memory, out);
    board.finish();
    words
}

/// Puts the words of the first proof of `code` at the end of `out`, with a table. The table is made here: it is large,
/// and a short proof shall not pay for it.
#[inline(never)]
fn words_with_table(
    pos: &Position,
    question: &ReadingQuestion,
    code: u8,
    out: &mut Text,
) -> Result<(), NoRoom>
    requires plies { question.now.plies ≤ most_plies }
    requires target { question.now.target < pos.now.size * pos.now.size }
    requires bytes { length out.old ≤ most_bytes }
    ensures { Puts out.old (behind_blanks (first_words_of question.now pos.now code (codes_down_to code))) out.new
        result }
{
    let mut table = empty_table();
    words_with(pos, question, code, &mut table, out)
}

/// Puts the words of the first proof of `code` at the end of `out`, with a table if the question has at least
/// `PLIES_WITH_TABLE` plies.
fn words_of(
    pos: &Position,
    question: &ReadingQuestion,
    code: u8,
    out: &mut Text,
) -> Result<(), NoRoom>
    requires plies { question.now.plies ≤ most_plies }
    requires target { question.now.target < pos.now.size * pos.now.size }
    requires bytes { length out.old ≤ most_bytes }
    ensures { Puts out.old (behind_blanks (first_words_of question.now pos.now code (codes_down_to code))) out.new
        result }
{
    if question.plies < PLIES_WITH_TABLE {
        return words_with(pos, question, code, &mut [], out);
    }
    words_with_table(pos, question, code, out)
}

/// Writes the first proof of the code of an attack on the string at `target`, or of its defence, into the empty text
/// `out`, after one blank, and answers the code.
///
/// The word of a node is `.` if it proves the claim; else the play that takes back, if the defender can; else the first
/// move that proves it, the pass before all points; and else `*`. `NoRoom` exactly if the proof has more than 60,000
/// bytes. Takes no memory.
pub fn write_first(
    pos: &Position,
    of: Kind,
    target: Point,
    depths: Depths,
    out: &mut Text,
) -> Result<u8, NoRoom>
    requires on_board { target < pos.now.size * pos.now.size }
    requires stone { cell_at pos.now.cells target ≢ Cell.Empty }
    requires empty { out.old ≡ [] }
    ensures code { IfOk result (λ code. code
        ≡ (answer_of (asked_in depths.tree pos.now of target depths.plies depths.wide) pos.now).code) }
    ensures few { IfOk result (λ code. code ≤ 3) }
    ensures some { IfOk result (λ code. 0 < length out.new) }
    ensures text { IfOk result (λ code. drop 1 out.new
        ≡ first_text (asked_in depths.tree pos.now of target depths.plies depths.wide) pos.now) }
    ensures short { IfOk result (λ code.
        length (first_text (asked_in depths.tree pos.now of target depths.plies depths.wide) pos.now) ≤ 60000) }
    ensures too_long { IfErr result (λ e.
        60000 < length (first_text (asked_in depths.tree pos.now of target depths.plies depths.wide) pos.now)) }
    ensures accepted { IfOk result (λ code.
        IsProofOf (asked_in depths.tree pos.now of target depths.plies depths.wide) pos.now code (drop 1 out.new)) }
{
    let _ = pos.size();
    let question = question_on(pos, of, target, depths);
    let code = code_of(pos, of, target, depths);
    match words_of(pos, &question, code, out) {
        Ok(()) => Ok(code),
        Err(why) => Err(why),
    }
}

/// The bytes of `text` without the first.
fn without_first(alloc: Global, text: &Text) -> Result<Bytes, NoMemory>
    requires { 0 < length text.now }
    ensures { IfOk result (λ new. new ≡ drop 1 text.now) }
{
    let mut out = Bytes::new(alloc);
    out.extend(&text.as_slice()[1..])?;
    Ok(out)
}

/// The code of an attack on the string at `target`, or of its defence, with these depths, and the first proof of it.
///
/// The word of a node is `.` if it proves the claim; else the play that takes back, if the defender can; else the first
/// move that proves it, the pass before all points; and else `*`. `TooLong` exactly if the proof has more than 60,000
/// bytes, unless memory runs out. Takes memory.
pub fn first_proof(
    alloc: Global,
    pos: &Position,
    of: Kind,
    target: Point,
    depths: Depths,
) -> Result<Proof, ProofError>
    requires on_board { target < pos.now.size * pos.now.size }
    requires stone { cell_at pos.now.cells target ≢ Cell.Empty }
    ensures code { IfOk result (λ proof. proof.code
        ≡ (answer_of (asked_in depths.tree pos.now of target depths.plies depths.wide) pos.now).code) }
    ensures text { IfOk result (λ proof. proof.text
        ≡ first_text (asked_in depths.tree pos.now of target depths.plies depths.wide) pos.now) }
    ensures few { IfOk result (λ proof. proof.code ≤ 3) }
    ensures short { IfOk result (λ proof. length proof.text ≤ 60000) }
    ensures too_long { result ≢ Err ProofError.NoMemory → result ≡ Err ProofError.TooLong
        ↔ (60000 < length (first_text (asked_in depths.tree pos.now of target depths.plies depths.wide) pos.now)) }
    ensures accepted { IfOk result (λ proof.
        IsProofOf (asked_in depths.tree pos.now of target depths.plies depths.wide) pos.now proof.code proof.text) }
{
    let mut words = Text::new();
    match write_first(pos, of, target, depths, &mut words) {
        Ok(code) => match without_first(alloc, &words) {
            Ok(text) => Ok(Proof { code, text }),
            Err(NoMemory) => Err(ProofError::NoMemory),
        },
        Err(NoRoom) => Err(ProofError::TooLong),
    }
}
