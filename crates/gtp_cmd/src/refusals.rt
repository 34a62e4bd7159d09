//! The reasons for which a line is refused.

/// Why a line is refused. The reply has the text that is given here for each reason.
#[derive(Clone, Copy, Debug, PartialEq, Eq)]
pub enum RefuseText {
    /// No word names a command: `unknown command`.
    UnknownCommand,
    /// An argument is missing or malformed: `syntax error`.
    SyntaxError,
    /// The line has more than 65,536 bytes: `line too long`.
    LineTooLong,
    /// The number is no size of a board: `unacceptable size`.
    UnacceptableSize,
    /// The rules forbid the move: `illegal move`.
    IllegalMove,
    /// The history holds as many moves as it can: `history full`.
    HistoryFull,
    /// There is no move to take back: `cannot undo`.
    CannotUndo,
    /// No stone stands at the vertex: `vertex must not be empty`.
    VertexEmpty,
    /// There is no memory for a reply that grows: `out of memory`.
    OutOfMemory,
    /// The file that the command names, a game record or a proof, cannot be loaded: `cannot load file`.
    CannotLoadFile,
    /// The text is no game record, for the reason with this number: `bad sgf kind 5`.
    BadSgf(u8),
    /// The proof has more bytes than the program prints: `proof too long`.
    ProofTooLong,
    /// The stones at the two vertices have different colours: `colours differ`.
    ColoursDiffer,
    /// No helper has the name: `no such helper`.
    NoSuchHelper,
}
