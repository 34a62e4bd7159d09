//! Lines that may take long.
use go_base::{Colour, Point};
use gtp_cmd::Span;

/// The work of a line that may take long.
#[derive(Clone, Copy, Debug, PartialEq, Eq)]
pub enum Work {
    /// Whether the string of a point can be captured; no answer is cached.
    Attack(Point),
    /// Whether the string of a point can be saved; no answer is cached.
    Defend(Point),
    /// The list of matches for a friend.
    Match(Colour),
    /// The game record in the file whose name stands in this part of the line.
    Load(Span),
    /// The first proof of the code of an attack.
    AttackProof(Point),
    /// The first proof of the code of a defence.
    DefendProof(Point),
    /// Whether the words in this part of the line are a proof of `code`, for an attack if `attack`, else for a defence.
    CheckProof {
        attack: bool,
        target: Point,
        code: u8,
        tokens: Span,
    },
    /// Whether the strings of two points can be joined; no answer is cached.
    Connect(Point, Point),
    /// Whether the strings of two points can be kept apart; no answer is cached.
    Disconnect(Point, Point),
    /// The move for a friend that the patterns choose, which is played.
    GenMove(Colour),
    /// The move for a friend that the patterns choose, which is not played.
    RegGenMove(Colour),
}

/// A line that may take long and is not answered yet: its id, and what it asks.
#[derive(Clone, Copy, Debug, PartialEq, Eq)]
pub struct Slow {
    /// The id of the line.
    pub id: Option<u32>,
    /// What the line asks.
    pub work: Work,
}
