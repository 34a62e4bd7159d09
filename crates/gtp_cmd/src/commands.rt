//! The commands of the protocol, and what a line says.

use crate::komi::KomiText;
use crate::refusals::RefuseText;
use crate::spans::Span;
use go_base::{Colour, Point, Size};

/// The name of a command. The variants stand in the order in which the commands are listed.
#[derive(Clone, Copy, Debug, PartialEq, Eq)]
pub enum CommandName {
    /// `protocol_version`
    ProtocolVersion,
    /// `name`
    Name,
    /// `version`
    Version,
    /// `known_command`
    KnownCommand,
    /// `list_commands`
    ListCommands,
    /// `quit`
    Quit,
    /// `boardsize`
    BoardSize,
    /// `clear_board`
    ClearBoard,
    /// `komi`
    Komi,
    /// `get_komi`
    GetKomi,
    /// `play`
    Play,
    /// `undo`
    Undo,
    /// `showboard`
    ShowBoard,
    /// `is_legal`
    IsLegal,
    /// `all_legal`
    AllLegal,
    /// `countlib`
    CountLib,
    /// `findlib`
    FindLib,
    /// `captures`
    Captures,
    /// `attack`
    Attack,
    /// `defend`
    Defend,
    /// `depths`
    Depths,
    /// `match_patterns`
    MatchPatterns,
    /// `list_patterns`
    ListPatterns,
    /// `loadsgf`
    LoadSgf,
    /// `attack_proof`
    AttackProof,
    /// `defend_proof`
    DefendProof,
    /// `check_proof`
    CheckProof,
    /// `connect`
    Connect,
    /// `disconnect`
    Disconnect,
    /// `genmove`
    GenMove,
    /// `reg_genmove`
    RegGenMove,
    /// `helper_off`
    HelperOff,
    /// `helper_calls`
    HelperCalls,
    /// `helper_drop`
    HelperDrop,
}

/// A command with its arguments. In a move, no point means a pass.
#[derive(Clone, Copy, Debug, PartialEq, Eq)]
pub enum Command {
    /// Asks for the version of the protocol.
    ProtocolVersion,
    /// Asks for the name of the program.
    Name,
    /// Asks for the version of the program.
    Version,
    /// Asks whether a word names a command; the answer is known already.
    KnownCommand(bool),
    /// Asks for the names of the commands.
    ListCommands,
    /// Ends the session.
    Quit,
    /// Sets the size of the board; `None` exactly if the number in the line is no size of a board.
    BoardSize(Option<Size>),
    /// Clears the board.
    ClearBoard,
    /// Sets the komi, a text that is kept as it is.
    Komi(KomiText),
    /// Asks for the komi.
    GetKomi,
    /// Makes a move.
    Play(Colour, Option<Point>),
    /// Takes the last move back.
    Undo,
    /// Asks for the board.
    ShowBoard,
    /// Asks whether a move is legal.
    IsLegal(Colour, Option<Point>),
    /// Asks for the points where a colour may play.
    AllLegal(Colour),
    /// Asks for the number of liberties of the string at a point.
    CountLib(Point),
    /// Asks for the liberties of the string at a point.
    FindLib(Point),
    /// Asks how many stones a colour's moves have taken.
    Captures(Colour),
    /// Asks whether the string at a point can be captured.
    Attack(Point),
    /// Asks whether the string at a point can be saved.
    Defend(Point),
    /// Sets how deep readings go.
    Depths {
        /// The plies, from `MIN_PLIES` to `MAX_PLIES` of `read_rules`.
        plies: u8,
        /// The wide plies, from 0 to `MAX_WIDE`.
        wide: u8,
    },
    /// Asks for the matches of the patterns for a colour.
    MatchPatterns(Colour),
    /// Asks for the patterns.
    ListPatterns,
    /// Sets up the position of a game record, whose name is this word of the line.
    LoadSgf(Span),
    /// Asks for a proof of the code of an attack on the string at a point.
    AttackProof(Point),
    /// Asks for a proof of the code of a defence of the string at a point.
    DefendProof(Point),
    /// Asks whether words of the line prove a code.
    CheckProof {
        /// The code is of an attack, and else of a defence.
        attack: bool,
        /// The point whose string is attacked or defended.
        target: Point,
        /// The code, from 0 to 3.
        code: u8,
        /// The words of the proof, of which there may be none.
        tokens: Span,
    },
    /// Asks whether the strings at two points can be joined.
    Connect(Point, Point),
    /// Asks whether the strings at two points can be kept apart.
    Disconnect(Point, Point),
    /// Chooses a move for a colour, and makes it.
    GenMove(Colour),
    /// Chooses a move for a colour.
    RegGenMove(Colour),
    /// Switches off the helper that this word of the line names.
    HelperOff(Span),
    /// Asks how often the helper that this word of the line names was called.
    HelperCalls(Span),
    /// Drops the helper that this word of the line names.
    HelperDrop(Span),
}

/// What a line says.
#[derive(Clone, Copy, Debug, PartialEq, Eq)]
pub enum Parsed {
    /// The line has no words, so it gets no reply.
    Nothing,
    /// The line names no command, or its arguments are missing or malformed.
    Refused {
        /// The id, if the line has one.
        id: Option<u32>,
        /// Why the line is refused.
        text: RefuseText,
    },
    /// The command that the line asks for.
    Command {
        /// The id, if the line has one.
        id: Option<u32>,
        /// The command with its arguments.
        command: Command,
    },
}
