//! What lines of the protocol say, row by row, and the bytes of replies.

mod lines;
mod moves;
mod proofs;
mod replies;
mod spans;

use go_base::{Colour, Point, Size};
use gtp_cmd::{Command, Parsed, RefuseText, Span, parse};
use std::panic::Expect;
use std::process::Abort;

/// How many bytes a line may have.
const LONGEST_LINE: usize = 65_536;

/// The commands that the rows ask for. They are named as in `Command`, which cannot stand in a table itself.
enum Asks {
    Name,
    KnownCommand(bool),
    Quit,
    /// `BoardSize` with a number that is no size of a board.
    NoSize,
    Play(Colour, Option<Point>),
    IsLegal(Colour, Option<Point>),
    CountLib(Point),
    LoadSgf(Span),
    AttackProof(Point),
    DefendProof(Point),
    CheckProof {
        attack: bool,
        target: Point,
        code: u8,
        tokens: Span,
    },
    Connect(Point, Point),
    Disconnect(Point, Point),
    GenMove(Colour),
    RegGenMove(Colour),
    HelperOff(Span),
    HelperCalls(Span),
    HelperDrop(Span),
}

/// What a line says.
enum Says {
    Nothing,
    /// An argument is missing or malformed.
    Malformed,
    /// No word of the line names a command.
    Unknown,
    /// The line is an id, and names no command.
    IdAlone(u32),
    Command(Asks),
    IdAndCommand(u32, Asks),
}

/// What is special about a line, the line, and what it says.
type Row = (&'static str, &'static str, Says);

/// The command that a row asks for.
fn command(asks: &Asks) -> Command {
    match *asks {
        Asks::Name => Command::Name,
        Asks::KnownCommand(known) => Command::KnownCommand(known),
        Asks::Quit => Command::Quit,
        Asks::NoSize => Command::BoardSize(None),
        Asks::Play(colour, point) => Command::Play(colour, point),
        Asks::IsLegal(colour, point) => Command::IsLegal(colour, point),
        Asks::CountLib(point) => Command::CountLib(point),
        Asks::LoadSgf(name) => Command::LoadSgf(name),
        Asks::AttackProof(target) => Command::AttackProof(target),
        Asks::DefendProof(target) => Command::DefendProof(target),
        Asks::CheckProof {
            attack,
            target,
            code,
            tokens,
        } => Command::CheckProof {
            attack,
            target,
            code,
            tokens,
        },
        Asks::Connect(one, other) => Command::Connect(one, other),
        Asks::Disconnect(one, other) => Command::Disconnect(one, other),
        Asks::GenMove(colour) => Command::GenMove(colour),
        Asks::RegGenMove(colour) => Command::RegGenMove(colour),
        Asks::HelperOff(name) => Command::HelperOff(name),
        Asks::HelperCalls(name) => Command::HelperCalls(name),
        Asks::HelperDrop(name) => Command::HelperDrop(name),
    }
}

/// What a line says, as `parse` answers it.
fn parsed(says: &Says) -> Parsed {
    match says {
        Says::Nothing => Parsed::Nothing,
        Says::Malformed => Parsed::Refused {
            id: None,
            text: RefuseText::SyntaxError,
        },
        Says::Unknown => Parsed::Refused {
            id: None,
            text: RefuseText::UnknownCommand,
        },
        Says::IdAlone(id) => Parsed::Refused {
            id: Some(*id),
            text: RefuseText::UnknownCommand,
        },
        Says::Command(asks) => Parsed::Command {
            id: None,
            command: command(asks),
        },
        Says::IdAndCommand(id, asks) => Parsed::Command {
            id: Some(*id),
            command: command(asks),
        },
    }
}

/// Compares what lines say on a board of `rows` rows with what the rows of the table have.
fn compare(rt: &impl Abort, rows: u8, lines: &[Row]) {
    let size = Size::new(rows).expect(rt, "the size is one of a board");
    for (name, line, want) in lines {
        assert!(rt; line.len() <= LONGEST_LINE);
        assert!(rt; parse(line.as_bytes(), size) == parsed(want), "{name}");
    }
}
