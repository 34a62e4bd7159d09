//! A game that protocol lines set up, and how deep readings go in it.
use go_base::{Bytes, NoMemory, Position, Size};
use go_history::{History, HistoryError, Move};
use gtp_cmd::{Command, Parsed, RefuseText, Span, parse, text};
use gtp_io::{LoadError, Loader};
use read_rules::Depths;
use sgf_read::read;
use std::alloc::Global;
use std::str::from_utf8;

/// The most bytes of a line.
const LONGEST_LINE: usize = 65536;

/// The size of the board before the first line.
const FIRST_SIZE: u8 = 19;

/// The plies of a reading before the first line.
const FIRST_PLIES: u8 = 10;

/// The wide plies of a reading before the first line.
const FIRST_WIDE: u8 = 2;

/// Why a line is not taken.
#[derive(Clone, Copy, Debug, PartialEq, Eq)]
pub enum LineFault {
    /// The line asks for a command other than those that set up a game.
    OtherCommand,
    /// The line is refused, as `gopat` refuses it.
    Refused(RefuseText),
    /// There is no memory.
    NoMemory,
}

/// A game, and how deep readings go.
#[derive(Drop)]
pub struct Game {
    /// The allocator of the game's memory.
    alloc: Global,
    /// The position and the moves that led to it.
    history: History,
    /// How deep readings go.
    depths: Depths,
}

impl Game {
    /// A game on an empty board of 19 rows, with the depths that `gopat` has at first, or `None` if there is no memory.
    pub fn new(alloc: Global) -> Option<Game> {
        let history = History::new(alloc, Size::new(FIRST_SIZE)?).ok()?;
        Some(Game {
            alloc,
            history,
            depths: Depths::new(FIRST_PLIES, FIRST_WIDE)?,
        })
    }

    /// The present position.
    pub fn position(&self) -> Position {
        self.history.position()
    }

    /// How deep readings go.
    pub fn depths(&self) -> Depths {
        self.depths
    }

    /// Makes `position` the board, without any move.
    pub fn start(&mut self, position: &Position) {
        self.history.start(position);
    }

    /// Obeys a line, which is given without its line feed. A line with a fault changes nothing.
    pub fn line<L: Loader>(&mut self, line: &[u8], files: &mut L) -> Result<(), LineFault> {
        if line.len() > LONGEST_LINE {
            return Err(LineFault::Refused(RefuseText::LineTooLong));
        }
        match parse(line, self.history.size()) {
            Parsed::Nothing => Ok(()),
            Parsed::Refused { text, .. } => Err(LineFault::Refused(text)),
            Parsed::Command { command, .. } => self.command(line, command, files),
        }
    }

    /// Obeys the command of a line.
    fn command<L: Loader>(
        &mut self,
        line: &[u8],
        command: Command,
        files: &mut L,
    ) -> Result<(), LineFault> {
        match command {
            Command::BoardSize(size) => self.resize(size),
            Command::ClearBoard => {
                self.history.clear();
                Ok(())
            }
            Command::Play(colour, at) => self.play(Move { colour, at }),
            Command::Undo => self.undo(),
            Command::Komi(_) => Ok(()),
            Command::Depths { plies, wide } => self.deepen(plies, wide),
            Command::LoadSgf(span) => self.load(line, span, files),
            _ => Err(LineFault::OtherCommand),
        }
    }

    /// Begins again from the empty board of this size, or refuses a number that is no size.
    fn resize(&mut self, size: Option<Size>) -> Result<(), LineFault> {
        match size {
            Some(size) => {
                self.history.resize(size);
                Ok(())
            }
            None => Err(LineFault::Refused(RefuseText::UnacceptableSize)),
        }
    }

    /// Adds a move.
    fn play(&mut self, m: Move) -> Result<(), LineFault> {
        if let Some(at) = m.at
            && at >= self.history.size().points()
        {
            return Err(LineFault::Refused(RefuseText::SyntaxError));
        }
        match self.history.play(m) {
            Ok(()) => Ok(()),
            Err(HistoryError::Illegal(_)) => Err(LineFault::Refused(RefuseText::IllegalMove)),
            Err(HistoryError::Full) => Err(LineFault::Refused(RefuseText::HistoryFull)),
            Err(HistoryError::NoMemory) => Err(LineFault::NoMemory),
        }
    }

    /// Takes the last move back.
    fn undo(&mut self) -> Result<(), LineFault> {
        match self.history.undo() {
            Ok(()) => Ok(()),
            Err(_) => Err(LineFault::Refused(RefuseText::CannotUndo)),
        }
    }

    /// Sets how deep readings go.
    fn deepen(&mut self, plies: u8, wide: u8) -> Result<(), LineFault> {
        match Depths::new(plies, wide) {
            Some(depths) => {
                self.depths = depths;
                Ok(())
            }
            None => Err(LineFault::Refused(RefuseText::SyntaxError)),
        }
    }

    /// Makes the position of a game record the board. A part of the line, `span`, names the record.
    fn load<L: Loader>(&mut self, line: &[u8], span: Span, files: &mut L) -> Result<(), LineFault> {
        if span.from > span.to || span.to as usize > line.len() {
            return Err(LineFault::Refused(RefuseText::SyntaxError));
        }
        let Ok(word) = text(line, span, Bytes::new(self.alloc)) else {
            return Err(LineFault::NoMemory);
        };
        let Ok(name) = from_utf8(word.as_slice()) else {
            return Err(LineFault::Refused(RefuseText::SyntaxError));
        };
        match files.load(name, Vec::new(self.alloc)) {
            Ok(record) => self.start_record(record.as_slice()),
            Err(LoadError::Failed) => Err(LineFault::Refused(RefuseText::CannotLoadFile)),
            Err(LoadError::NoMemory) => Err(LineFault::NoMemory),
        }
    }

    /// Makes the position at the end of the record's main line the board, without any move.
    pub fn start_record(&mut self, record: &[u8]) -> Result<(), LineFault> {
        match read(record) {
            Ok(position) => {
                self.history.start(&position);
                Ok(())
            }
            Err(error) => Err(LineFault::Refused(RefuseText::BadSgf(error.kind))),
        }
    }
}

/// A failure to find memory is the fault `NoMemory`.
impl From<NoMemory> for LineFault {
    fn from(_: NoMemory) -> LineFault {
        LineFault::NoMemory
    }
}
