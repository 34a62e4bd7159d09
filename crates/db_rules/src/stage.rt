//! The stages in which a database text is read.

use crate::kind::FaultKind;

/// Where in a block the reader stands.
#[derive(Clone, Copy, Debug, PartialEq, Eq)]
pub enum Stage {
    /// Before the first Pattern line.
    Start,
    /// Behind a Pattern line, in its main diagram.
    Diagram,
    /// Behind a colon line, in the constraint diagram.
    Labels,
    /// Behind an expression line.
    Expression,
    /// Behind an action line.
    Actions,
}

/// What the table of stages has for a line: the next stage, or the kind of the fault.
#[derive(Clone, Copy, Debug, PartialEq, Eq)]
pub enum TableCell {
    /// The line is accepted, and this is the next stage.
    Next(Stage),
    /// The line is refused with this kind of fault.
    Refused(FaultKind),
}
