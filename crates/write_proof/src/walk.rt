//! Writes the first proof of a claim at a node once for all of the asked ko allowances, if it is the same under each of
//! them. One board with trial moves serves the whole proof.

ghost use Rattle.std.specs.Prelude.{◌≡◌, ◌≢◌, ◌+◌, ◌<◌, ◌≤◌, [], ◌∷◌, codes, length, Ok, None, true, false};
ghost use Rattle.std.specs.Option.{option_to_list};
ghost use Rattle.trial_board.specs.Trials.{KeepsTrial, most_moves};
ghost use Rattle.read_rules.specs.declared.question.Spot.TheVariants.{At};
ghost use Rattle.read_rules.specs.GameTree.{child_of, first_move, taking_back};
ghost use Rattle.read_tree.specs.Allowances.{Ko, under, neither_may, has, has_some};
ghost use Rattle.read_tree.specs.Table.{IsTrueTableAt};
ghost use Rattle.read_tree.specs.Walk.{IsPointOf};
ghost use Rattle.read_proof.specs.Proves.{pass_children, play_children};
ghost use Rattle.read_proof.specs.FirstProof.{move_word, write_each, write_move, first_words};
ghost use Rattle.write_proof.specs.Printed.{behind_blanks, Puts, position_on};
ghost use Rattle.write_proof.specs.Room.{most_bytes};
ghost use Rattle.write_proof.specs.Alike.{IsOne, PutsAlike};

use crate::alike::{Common, MoveSuccess, first_alike, is_own_alone};
use crate::room::Text;
use crate::settled::{is_settled, is_wanted};
use crate::taking_back::back_success;
use crate::text::{NoRoom, put_move, put_word};
use go_base::{Look, Point};
use read_moves::candidates;
use read_rules::{Node, Spot, Turn};
use read_tree::Allowances;
use read_tree::making::{Made, make};
use read_tree::memory::Memory;
use trial_board::Trial;

/// The node of a turn at which neither side may ignore the ko ban.
fn node_of(turn: Turn) -> Node
    ensures { result ≡ under turn neither_may }
{
    Node {
        turn,
        attacker_ko: 0,
        defender_ko: 0,
    }
}

/// Writes `.`, which says that the claim is settled, and answers true.
fn put_dot(out: &mut Text) -> Result<bool, NoRoom>
    requires { length out.old ≤ most_bytes }
    ensures puts { Puts out.old (behind_blanks (codes "." ∷ [])) out.new result }
    ensures told { result ≢ Ok false }
{
    put_word(out, b".")?;
    Ok(true)
}

/// Writes the first proof of the claim at the child after the defender's pass; the answer is false if the proof may
/// differ between the asked allowances. At the attacker's turn it writes nothing and answers true.
#[cycle(write)]
fn write_pass<L: Look>(
    board: &mut Trial<L>,
    turn: Turn,
    asked: Allowances,
    plies: u8,
    won: bool,
    memory: &mut Memory,
    out: &mut Text,
) -> Result<bool, NoRoom>
    requires room { length board.old.moves + plies < most_moves }
    requires target { IsPointOf L.shows board.old turn.target }
    requires some { has_some asked ≡ true }
    requires table { IsTrueTableAt (L.seen board.old.look) turn memory.old.table.now }
    requires bytes { length out.old ≤ most_bytes }
    ensures stays { KeepsTrial L.shows L.seen board.old board.new }
    ensures table { IsTrueTableAt (L.seen board.new.look) turn memory.new.table.now }
    ensures puts { PutsAlike asked out.old (λ ko. write_each (first_words plies won)
        (pass_children (under turn ko) (position_on L.shows board.old))) out.new result }
    ensures one { IsOne asked → result ≢ Ok false }
{
    if turn.attacker_to_play {
        return Ok(true);
    }
    board.pass();
    let done = write(board, turn.next(), asked, plies, won, memory, out);
    board.back();
    done
}

/// Writes the first proof of the claim at the child after the play at `p`, if `p` can be played; the answer is false if
/// the proof may differ. A play that the ko ban alone forbids leads to a child under the mover's own allowance alone.
#[cycle(write)]
fn write_play<L: Look>(
    board: &mut Trial<L>,
    turn: Turn,
    asked: Allowances,
    p: Point,
    plies: u8,
    won: bool,
    memory: &mut Memory,
    out: &mut Text,
) -> Result<bool, NoRoom>
    requires room { length board.old.moves + plies < most_moves }
    requires target { IsPointOf L.shows board.old turn.target }
    requires on_board { IsPointOf L.shows board.old p }
    requires some { has_some asked ≡ true }
    requires table { IsTrueTableAt (L.seen board.old.look) turn memory.old.table.now }
    requires bytes { length out.old ≤ most_bytes }
    ensures stays { KeepsTrial L.shows L.seen board.old board.new }
    ensures table { IsTrueTableAt (L.seen board.new.look) turn memory.new.table.now }
    ensures puts { PutsAlike asked out.old (λ ko. write_each (first_words plies won)
        (option_to_list (child_of (under turn ko) (position_on L.shows board.old) p))) out.new result }
    ensures one { IsOne asked → result ≢ Ok false }
{
    match make(board, turn, p, asked.has_own(turn.attacker_to_play)) {
        Made::Legal => {
            let done = write(board, turn.next(), asked, plies, won, memory, out);
            board.back();
            done
        }
        Made::Allowed => {
            if !is_own_alone(asked, turn.attacker_to_play) {
                board.back();
                return Ok(false);
            }
            let neither = Allowances::neither_alone();
            let done = write(board, turn.next(), neither, plies, won, memory, out);
            board.back();
            done
        }
        Made::Not => Ok(true),
    }
}

/// Writes the first proofs of the claim at the children after the candidates that can be played; the answer is false if
/// one of them may differ between the asked allowances.
#[cycle(write)]
fn write_plays<L: Look>(
    board: &mut Trial<L>,
    turn: Turn,
    asked: Allowances,
    plies: u8,
    won: bool,
    memory: &mut Memory,
    out: &mut Text,
) -> Result<bool, NoRoom>
    requires room { length board.old.moves + plies < most_moves }
    requires target { IsPointOf L.shows board.old turn.target }
    requires some { has_some asked ≡ true }
    requires table { IsTrueTableAt (L.seen board.old.look) turn memory.old.table.now }
    requires bytes { length out.old ≤ most_bytes }
    ensures stays { KeepsTrial L.shows L.seen board.old board.new }
    ensures table { IsTrueTableAt (L.seen board.new.look) turn memory.new.table.now }
    ensures puts { PutsAlike asked out.old (λ ko. write_each (first_words plies won)
        (play_children (under turn ko) (position_on L.shows board.old))) out.new result }
    ensures one { IsOne asked → result ≢ Ok false }
{
    let candidates = candidates(board, turn);
    let mut from = 0;
    'plays: while let Some(p) = candidates.first_from(from) {
        let alike = write_play(board, turn, asked, p, plies, won, memory, out)?;
        if !alike {
            return Ok(false);
        }
        from = p + 1;
    }
    Ok(true)
}

/// Writes the word of the first move that gives the side to play its way, and the first proof of the claim at the child
/// to which it leads; the answer is false if they may differ between the asked allowances.
#[cycle(write)]
fn write_move<L: Look>(
    board: &mut Trial<L>,
    turn: Turn,
    asked: Allowances,
    plies: u8,
    won: bool,
    memory: &mut Memory,
    out: &mut Text,
) -> Result<bool, NoRoom>
    requires room { length board.old.moves + plies < most_moves }
    requires target { IsPointOf L.shows board.old turn.target }
    requires some { has_some asked ≡ true }
    requires table { IsTrueTableAt (L.seen board.old.look) turn memory.old.table.now }
    requires bytes { length out.old ≤ most_bytes }
    ensures stays { KeepsTrial L.shows L.seen board.old board.new }
    ensures table { IsTrueTableAt (L.seen board.new.look) turn memory.new.table.now }
    ensures puts { PutsAlike asked out.old (λ ko. write_move (first_words plies won) (under turn ko)
        (position_on L.shows board.old) (first_move plies (under turn ko) (position_on L.shows board.old)))
        out.new result }
    ensures one { IsOne asked → result ≢ Ok false }
{
    match first_alike(board, turn, asked, plies, memory) {
        Common::Move(spot) => {
            put_move(out, board.size(), spot)?;
            match spot {
                Spot::At(p) => write_play(board, turn, asked, p, plies, won, memory, out),
                Spot::Pass => write_pass(board, turn, asked, plies, won, memory, out),
            }
        }
        Common::Nothing => Ok(true),
        Common::Differs => Ok(false),
    }
}

/// Writes the word of the play at the target's point, by which the defender takes back, and, if it can be played, the
/// first proof of the claim at the child to which it leads.
#[cycle(write)]
fn write_back<L: Look>(
    board: &mut Trial<L>,
    turn: Turn,
    asked: Allowances,
    plies: u8,
    won: bool,
    memory: &mut Memory,
    out: &mut Text,
) -> Result<bool, NoRoom>
    requires room { length board.old.moves + plies < most_moves }
    requires target { IsPointOf L.shows board.old turn.target }
    requires some { has_some asked ≡ true }
    requires table { IsTrueTableAt (L.seen board.old.look) turn memory.old.table.now }
    requires bytes { length out.old ≤ most_bytes }
    ensures stays { KeepsTrial L.shows L.seen board.old board.new }
    ensures table { IsTrueTableAt (L.seen board.new.look) turn memory.new.table.now }
    ensures puts { PutsAlike asked out.old (λ ko. move_word (position_on L.shows board.old).size (At turn.target)
        ∷ write_each (first_words plies won)
        (option_to_list (child_of (under turn ko) (position_on L.shows board.old) turn.target))) out.new result }
    ensures one { IsOne asked → result ≢ Ok false }
{
    put_move(out, board.size(), Spot::At(turn.target))?;
    write_play(board, turn, asked, turn.target, plies, won, memory, out)
}

/// Writes the first proof of the claim at a node with `plies` plies left, at least one, if the defender cannot take
/// back there under any asked ko allowance.
#[cycle(write)]
fn write_moves<L: Look>(
    board: &mut Trial<L>,
    turn: Turn,
    asked: Allowances,
    plies: u8,
    won: bool,
    memory: &mut Memory,
    out: &mut Text,
) -> Result<bool, NoRoom>
    requires room { length board.old.moves + plies ≤ most_moves }
    requires plies { plies ≢ 0 }
    requires none { (ko : Ko) → has asked ko ≡ true
        → taking_back (under turn ko) (position_on L.shows board.old) ≡ None }
    requires target { IsPointOf L.shows board.old turn.target }
    requires some { has_some asked ≡ true }
    requires table { IsTrueTableAt (L.seen board.old.look) turn memory.old.table.now }
    requires bytes { length out.old ≤ most_bytes }
    ensures stays { KeepsTrial L.shows L.seen board.old board.new }
    ensures table { IsTrueTableAt (L.seen board.new.look) turn memory.new.table.now }
    ensures puts { PutsAlike asked out.old (λ ko. first_words plies won (under turn ko) (position_on L.shows board.old))
        out.new result }
    ensures one { IsOne asked → result ≢ Ok false }
{
    if is_settled(board, turn, plies, won) {
        return put_dot(out);
    }
    if is_wanted(node_of(turn), won) {
        return write_move(board, turn, asked, plies - 1, won, memory, out);
    }
    put_word(out, b"*")?;
    let alike = write_pass(board, turn, asked, plies - 1, won, memory, out)?;
    if !alike {
        return Ok(false);
    }
    write_plays(board, turn, asked, plies - 1, won, memory, out)
}

/// Writes the first proof of the claim at the node with `plies` plies left, each word after a blank, and answers true,
/// if the proof is the same under each asked ko allowance. If it may differ, the answer is false, and what was written
/// counts for nothing. The table in `memory` remembers attacker's nodes over the position that the view shows.
#[cycle(write)]
pub fn write<L: Look>(
    board: &mut Trial<L>,
    turn: Turn,
    asked: Allowances,
    plies: u8,
    won: bool,
    memory: &mut Memory,
    out: &mut Text,
) -> Result<bool, NoRoom>
    requires room { length board.old.moves + plies ≤ most_moves }
    requires target { IsPointOf L.shows board.old turn.target }
    requires some { has_some asked ≡ true }
    requires table { IsTrueTableAt (L.seen board.old.look) turn memory.old.table.now }
    requires bytes { length out.old ≤ most_bytes }
    ensures stays { KeepsTrial L.shows L.seen board.old board.new }
    ensures table { IsTrueTableAt (L.seen board.new.look) turn memory.new.table.now }
    ensures puts { PutsAlike asked out.old (λ ko. first_words plies won (under turn ko) (position_on L.shows board.old))
        out.new result }
    ensures one { IsOne asked → result ≢ Ok false }
{
    if plies == 0 {
        return put_dot(out);
    }
    match back_success(board, turn, asked) {
        MoveSuccess::Always => write_back(board, turn, asked, plies - 1, won, memory, out),
        MoveSuccess::Differs => Ok(false),
        MoveSuccess::Never => write_moves(board, turn, asked, plies, won, memory, out),
    }
}
