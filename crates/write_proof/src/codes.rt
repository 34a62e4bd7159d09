//! The first proof of a code: a letter and the first proof of a claim for each code from 3 down.

ghost use Rattle.std.specs.Prelude.{◌≡◌, ◌≢◌, ◌+◌, ◌*◌, ◌<◌, ◌≤◌, [], ◌∷◌, length, Ok, true, false};
ghost use Rattle.trial_board.specs.Trials.{KeepsTrial, most_moves};
ghost use Rattle.read_tree.specs.Allowances.{has_some};
ghost use Rattle.read_tree.specs.Table.{IsTrueTable};
ghost use Rattle.read_tree.specs.Walk.{IsPointOf};
ghost use Rattle.read_proof.specs.ProofOf.{codes_down_to, letter_of};
ghost use Rattle.read_proof.specs.FirstProof.{first_words_of};
ghost use Rattle.write_proof.specs.Printed.{behind_blanks, Puts, position_on};
ghost use Rattle.write_proof.specs.Room.{most_bytes};
ghost use Rattle.write_proof.specs.Alike.{only, ko_under, claim_words, IsOne, PutsAlike};

use crate::room::Text;
use crate::text::{NoRoom, put_word};
use crate::walk::write;
use go_base::Look;
use read_proof::codes::claim_under;
use read_rules::ReadingQuestion;
use read_tree::Allowances;
use read_tree::memory::Memory;
use trial_board::Trial;

/// The letter of a claim.
pub fn letter(won: bool) -> &'static [u8]
    ensures { result.now ≡ letter_of won }
{
    if won { b"W" } else { b"N" }
}

/// The set of one allowance, that of `code`: under code 3 the other side may ignore the ko ban, under code 1 the side
/// that is asked about, and under other codes neither. The attacker is asked about if `attack`.
fn allowance_under(attack: bool, code: u8) -> Allowances
    ensures { result ≡ only (ko_under attack code) }
{
    match code {
        3 => Allowances::own_where(!attack, true),
        1 => Allowances::own_where(attack, true),
        _ => Allowances::neither_alone(),
    }
}

/// Writes the letter and the first proof of a claim, and answers true, if the proof is the same under each asked ko
/// allowance. If it may differ, the answer is false.
pub fn write_claim<L: Look>(
    board: &mut Trial<L>,
    question: &ReadingQuestion,
    asked: Allowances,
    won: bool,
    memory: &mut Memory,
    out: &mut Text,
) -> Result<bool, NoRoom>
    requires room { length board.old.moves + question.now.plies ≤ most_moves }
    requires target { IsPointOf L.shows board.old question.now.target }
    requires some { has_some asked ≡ true }
    requires table { IsTrueTable (L.seen board.old.look) question.now.tree question.now.target question.now.colour
        memory.old.table.now }
    requires bytes { length out.old ≤ most_bytes }
    ensures stays { KeepsTrial L.shows L.seen board.old board.new }
    ensures table { IsTrueTable (L.seen board.new.look) question.now.tree question.now.target question.now.colour
        memory.new.table.now }
    ensures puts { PutsAlike asked out.old (claim_words question.now (position_on L.shows board.old) won) out.new
        result }
    ensures one { IsOne asked → result ≢ Ok false }
{
    put_word(out, letter(won))?;
    write(
        board,
        question.first_turn(),
        asked,
        question.plies,
        won,
        memory,
        out,
    )
}

/// Writes the letter and the first proof of what a proof of `code` claims under the allowances of `more`.
fn write_under<L: Look>(
    board: &mut Trial<L>,
    question: &ReadingQuestion,
    code: u8,
    more: u8,
    memory: &mut Memory,
    out: &mut Text,
) -> Result<(), NoRoom>
    requires room { length board.old.moves + question.now.plies ≤ most_moves }
    requires target { IsPointOf L.shows board.old question.now.target }
    requires table { IsTrueTable (L.seen board.old.look) question.now.tree question.now.target question.now.colour
        memory.old.table.now }
    requires bytes { length out.old ≤ most_bytes }
    ensures stays { KeepsTrial L.shows L.seen board.old board.new }
    ensures table { IsTrueTable (L.seen board.new.look) question.now.tree question.now.target question.now.colour
        memory.new.table.now }
    ensures puts { Puts out.old
        (behind_blanks (first_words_of question.now (position_on L.shows board.old) code (more ∷ []))) out.new result }
{
    let asked = allowance_under(question.first_turn().attacker_to_play, more);
    let won = claim_under(question, code, more);
    match write_claim(board, question, asked, won, memory, out) {
        Ok(_) => Ok(()),
        Err(why) => Err(why),
    }
}

/// Writes the first proof of `code`: what it claims under the allowances of each code from 3 down to `code`, or to 1.
pub fn write_all<L: Look>(
    board: &mut Trial<L>,
    question: &ReadingQuestion,
    code: u8,
    memory: &mut Memory,
    out: &mut Text,
) -> Result<(), NoRoom>
    requires room { length board.old.moves + question.now.plies ≤ most_moves }
    requires target { IsPointOf L.shows board.old question.now.target }
    requires table { IsTrueTable (L.seen board.old.look) question.now.tree question.now.target question.now.colour
        memory.old.table.now }
    requires bytes { length out.old ≤ most_bytes }
    ensures { Puts out.old (behind_blanks
        (first_words_of question.now (position_on L.shows board.old) code (codes_down_to code))) out.new result }
{
    write_under(board, question, code, 3, memory, out)?;
    if code == 3 {
        return Ok(());
    }
    write_under(board, question, code, 2, memory, out)?;
    if code == 2 {
        return Ok(());
    }
    write_under(board, question, code, 1, memory, out)
}
