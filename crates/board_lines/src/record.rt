//! The front of a game record, cut after a given number of moves of its main line.
use go_base::NoMemory;
use std::alloc::Global;

/// The front of a record, and how many moves it has.
#[derive(Drop)]
pub struct Cut {
    /// The front as a record of its own: its main line ends before the first move that is left out.
    pub text: Vec<u8>,
    /// How many moves the main line of the front has.
    pub moves: u64,
}

/// What the reader of a record knows at a byte.
#[derive(Clone, Copy)]
struct Reading {
    /// Whether the next byte stands in a value.
    in_value: bool,
    /// Whether the next byte of a value is taken as it is, since a backslash stands before it.
    is_escaped: bool,
    /// How many trees are open.
    open: u64,
    /// How many nodes have begun.
    nodes: u64,
    /// Whether a tree has begun after the last node, and has no node yet.
    begins: bool,
    /// The length of the front that has all nodes but the present one.
    front: usize,
    /// How many trees are open at the end of that front.
    open_in_front: u64,
    /// How many capitals the present name has so far.
    letters: u64,
    /// The last of these capitals.
    letter: u8,
    /// Whether a move of the present node was counted.
    has_move: bool,
    /// How many moves were counted.
    moves: u64,
}

/// What a byte means for the cut.
#[derive(Clone, Copy, PartialEq, Eq)]
enum Step {
    /// The record goes on.
    On,
    /// The first value of a move begins: the node is the next move of the main line.
    Move,
    /// The main line ends here.
    End,
}

impl Reading {
    /// The reader before the first byte.
    fn new() -> Reading {
        Reading {
            in_value: false,
            is_escaped: false,
            open: 0,
            nodes: 0,
            begins: false,
            front: 0,
            open_in_front: 0,
            letters: 0,
            letter: b' ',
            has_move: false,
            moves: 0,
        }
    }

    /// Reads a byte that stands in a value.
    fn value_byte(&mut self, byte: u8) {
        if self.is_escaped {
            self.is_escaped = false;
        } else if byte == b'\\' {
            self.is_escaped = true;
        } else if byte == b']' {
            self.in_value = false;
            self.letters = 0;
        }
    }

    /// Begins a tree, whose `(` stands at the index `at`.
    fn begin_tree(&mut self, at: usize) {
        if !self.begins {
            self.front = at;
            self.open_in_front = self.open;
        }
        self.begins = true;
        self.open = self.open.saturating_add(1);
    }

    /// Begins a node, whose `;` stands at the index `at`.
    fn begin_node(&mut self, at: usize) {
        if !self.begins {
            self.front = at;
            self.open_in_front = self.open;
        }
        self.begins = false;
        self.nodes = self.nodes.saturating_add(1);
        self.letters = 0;
        self.has_move = false;
    }

    /// Begins a value. The step is `Move` if this is the first value of `B` or `W` in its node. In the first node it is
    /// `On`, since a move there belongs to the position from which the record begins.
    fn begin_value(&mut self) -> Step {
        self.in_value = true;
        let is_move = self.letters == 1 && (self.letter == b'B' || self.letter == b'W');
        if is_move && !self.has_move && self.nodes > 1 {
            Step::Move
        } else {
            Step::On
        }
    }

    /// Reads the byte that stands at the index `at`.
    fn byte(&mut self, at: usize, byte: u8) -> Step {
        if self.in_value {
            self.value_byte(byte);
            return Step::On;
        }
        match byte {
            b'(' => self.begin_tree(at),
            b')' if self.open > 0 => return Step::End,
            b';' => self.begin_node(at),
            b'[' => return self.begin_value(),
            b'A'..=b'Z' => {
                self.letters = self.letters.saturating_add(1);
                self.letter = byte;
            }
            _ => {}
        }
        Step::On
    }
}

/// The bytes of `front` as a record: `open` trees are closed at its end.
fn closed(alloc: Global, front: &[u8], open: u64) -> Result<Vec<u8>, NoMemory> {
    let mut text = Vec::new(alloc);
    text.extend_from_slice(front)?;
    for _ in 0..open {
        text.push(b')')?;
    }
    Ok(text)
}

/// The front of a record with at most `most` moves of its main line: it ends before the node of the next move, and is
/// the whole record if there is none. The nodes of the main line are those before the first `)`; a move is a node after
/// the first node with a property `B` or `W`.
pub fn cut_record(alloc: Global, record: &[u8], most: u64) -> Result<Cut, NoMemory> {
    let mut reading = Reading::new();
    for (at, byte) in record.iter().enumerate() {
        match reading.byte(at, *byte) {
            Step::On => {}
            Step::Move if reading.moves >= most => {
                let front = record.get(..reading.front).unwrap_or(&[]);
                return Ok(Cut {
                    text: closed(alloc, front, reading.open_in_front)?,
                    moves: reading.moves,
                });
            }
            Step::Move => {
                reading.has_move = true;
                reading.moves = reading.moves.saturating_add(1);
            }
            Step::End => break,
        }
    }
    let mut text = Vec::new(alloc);
    text.extend_from_slice(record)?;
    Ok(Cut {
        text,
        moves: reading.moves,
    })
}
