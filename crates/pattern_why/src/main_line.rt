//! The positions of a game record's main line.

use crate::fault::Fault;
use crate::game::{game_after, move_count};
use go_base::Position;
use std::alloc::Global;

/// The positions of a record's main line, up to its first fault.
#[derive(Drop)]
pub(crate) struct MainLine {
    /// The position before the first move, the position after it, and so on.
    pub(crate) positions: Vec<Position>,
    /// The note on the fault of the record, if it has one.
    pub(crate) fault: Option<String>,
}

/// The positions of the main line of the record called `name`.
pub(crate) fn main_line(alloc: Global, name: &str, record: &[u8]) -> Result<MainLine, Fault> {
    let last = move_count(alloc, record)?;
    let mut positions = Vec::new(alloc);
    for moves in 0..last.saturating_add(1) {
        match game_after(alloc, name, record, Some(moves)) {
            Ok(game) => positions.push(game.position())?,
            Err(Fault::Note(note)) => {
                return Ok(MainLine {
                    positions,
                    fault: Some(note),
                });
            }
            Err(fault) => return Err(fault),
        }
    }
    Ok(MainLine {
        positions,
        fault: None,
    })
}
