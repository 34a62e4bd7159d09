//! A command with its arguments.

ghost use Rattle.std.specs.Prelude.{◌≡◌, ◌≤◌, length, drop};
ghost use Rattle.gtp_cmd.specs.Words.{plain, words_of};
ghost use Rattle.gtp_cmd.specs.Komi.{komi_of};
ghost use Rattle.gtp_cmd.specs.Rooms.{longest_line};
ghost use Rattle.gtp_cmd.specs.Spans.{spans_at};
ghost use Rattle.gtp_cmd.specs.Commands.{command_of, known_of, first_argument};

use crate::arguments::{
    claim_made, colour, colour_and_target, depths, first_number, points, size_numbered, vertex,
};
use crate::commands::{Command, CommandName};
use crate::komi::KomiText;
use crate::rows::named;
use crate::word_spans::{second_span, tokens_span};
use go_base::Size;
use vertices::next_word;

/// Whether the first word names a command.
fn known(text: &[u8]) -> Option<bool>
    ensures { result ≡ known_of (words_of (plain text.now)) }
{
    match next_word(text) {
        Some((word, _)) => Some(named(word).is_some()),
        None => None,
    }
}

/// The komi that the first word writes, if it has the form of a komi.
fn komi(text: &[u8]) -> Option<KomiText>
    ensures { result ≡ first_argument komi_of (words_of (plain text.now)) }
{
    match next_word(text) {
        Some((word, _)) => KomiText::named(word),
        None => None,
    }
}

/// The command `name` with the arguments in `text`, which stands after the name, or `None` if an argument is missing or
/// malformed. The name begins in `whole` at `place` or after it.
pub fn arguments(
    name: CommandName,
    text: &[u8],
    size: Size,
    whole: &[u8],
    place: usize,
) -> Option<Command>
    requires inside { place ≤ length whole.now }
    requires short { length whole.now ≤ longest_line }
    ensures { result ≡ command_of name size (words_of (plain text.now)) (drop 1 (spans_at whole.now place)) }
{
    match name {
        CommandName::ProtocolVersion => Some(Command::ProtocolVersion),
        CommandName::Name => Some(Command::Name),
        CommandName::Version => Some(Command::Version),
        CommandName::KnownCommand => known(text).map(Command::KnownCommand),
        CommandName::ListCommands => Some(Command::ListCommands),
        CommandName::Quit => Some(Command::Quit),
        CommandName::BoardSize => first_number(text).map(|n| Command::BoardSize(size_numbered(n))),
        CommandName::ClearBoard => Some(Command::ClearBoard),
        CommandName::Komi => komi(text).map(Command::Komi),
        CommandName::GetKomi => Some(Command::GetKomi),
        CommandName::Play => colour_and_target(text, size).map(|(c, at)| Command::Play(c, at)),
        CommandName::Undo => Some(Command::Undo),
        CommandName::ShowBoard => Some(Command::ShowBoard),
        CommandName::IsLegal => colour_and_target(text, size).map(|(c, at)| Command::IsLegal(
            c, at,
        )),
        CommandName::AllLegal => colour(text).map(Command::AllLegal),
        CommandName::CountLib => vertex(text, size).map(Command::CountLib),
        CommandName::FindLib => vertex(text, size).map(Command::FindLib),
        CommandName::Captures => colour(text).map(Command::Captures),
        CommandName::Attack => vertex(text, size).map(Command::Attack),
        CommandName::Defend => vertex(text, size).map(Command::Defend),
        CommandName::Depths => depths(text).map(|(plies, wide)| Command::Depths { plies, wide }),
        CommandName::MatchPatterns => colour(text).map(Command::MatchPatterns),
        CommandName::ListPatterns => Some(Command::ListPatterns),
        CommandName::LoadSgf => second_span(whole, place).map(Command::LoadSgf),
        CommandName::AttackProof => vertex(text, size).map(Command::AttackProof),
        CommandName::DefendProof => vertex(text, size).map(Command::DefendProof),
        CommandName::CheckProof => claim_made(text, size).map(|claim| Command::CheckProof {
            attack: claim.attack,
            target: claim.target,
            code: claim.code,
            tokens: tokens_span(whole, place),
        }),
        CommandName::Connect => points(text, size).map(|(a, b)| Command::Connect(a, b)),
        CommandName::Disconnect => points(text, size).map(|(a, b)| Command::Disconnect(a, b)),
        CommandName::GenMove => colour(text).map(Command::GenMove),
        CommandName::RegGenMove => colour(text).map(Command::RegGenMove),
        CommandName::HelperOff => second_span(whole, place).map(Command::HelperOff),
        CommandName::HelperCalls => second_span(whole, place).map(Command::HelperCalls),
        CommandName::HelperDrop => second_span(whole, place).map(Command::HelperDrop),
    }
}
