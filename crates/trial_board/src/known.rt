//! What is known of a point of a trial board.

use go_base::Cell;

/// What is known of a point: nothing yet, the cell that the look gave, or the cell that trial moves put there.
#[derive(Clone, Copy)]
pub enum Known {
    /// Nothing is known.
    NotAsked,
    /// The look gave this cell.
    Seen(Cell),
    /// Trial moves put this cell there.
    Put(Cell),
}
