//! Games as lists of moves: what is refused, what is taken back, and where a list begins and ends.

use super::{KO, Play};
use go_base::Colour::{Black, White};
use go_base::{Cell, Colour, Illegal, Position, Size};
use go_history::{History, HistoryError, MAX_MOVES, Move, Nothing};
use std::panic::Expect;
use std::process::Abort;
use std::test::Fail;

/// Makes a play, whose point is on the board.
fn put(rt: &impl Abort, history: &mut History, play: Play) -> Result<(), HistoryError> {
    let (colour, row, column) = play;
    let at = history.size().point(row, column).expect(rt, "on the board");
    assert!(rt; at < history.size().points());
    history.play(Move {
        colour,
        at: Some(at),
    })
}

/// Passes a turn of a colour.
fn pass(history: &mut History, colour: Colour) -> Result<(), HistoryError> {
    history.play(Move { colour, at: None })
}

#[test]
fn occupied_point_is_illegal_and_undo_stops_at_the_start(rt: HostRuntime) -> Result<(), Fail> {
    let size = Size::new(19).expect(&rt, "the size is one of a board");
    let mut history = History::new(rt.alloc(), size)?;
    let occupied = Err(HistoryError::Illegal(Illegal::Occupied));
    for (play, want) in [
        ((Black, 15, 3), Ok(())),
        ((White, 15, 3), occupied),
        ((White, 14, 3), Ok(())),
    ] {
        assert!(rt; put(&rt, &mut history, play) == want);
    }
    assert!(rt; history.moves().len() == 2);
    for (move_number, want) in [(2, Ok(())), (1, Ok(())), (0, Err(Nothing))] {
        assert!(rt; history.undo() == want, "with {move_number} moves");
    }
    Ok(())
}

#[test]
fn passes_lift_the_ban_and_undo_restores_stones(rt: HostRuntime) -> Result<(), Fail> {
    let size = Size::new(5).expect(&rt, "the size is one of a board");
    let mut history = History::new(rt.alloc(), size)?;
    for &play in &KO {
        assert!(rt; put(&rt, &mut history, play).is_ok());
    }
    assert!(rt; [history.captures(Black), history.captures(White)] == [0, 1]);
    let retake = put(&rt, &mut history, (Black, 2, 3));
    assert!(rt; retake == Err(HistoryError::Illegal(Illegal::Ko)));

    assert!(rt; pass(&mut history, Black).is_ok());
    assert!(rt; pass(&mut history, White).is_ok());
    assert!(rt; put(&rt, &mut history, (Black, 2, 3)).is_ok());
    assert!(rt; history.captures(Black) == 1, "the ban is lifted");
    for _ in 0..4 {
        assert!(rt; history.undo().is_ok());
    }
    assert!(rt; [history.captures(Black), history.captures(White)] == [0, 0]);
    let position = history.position();
    assert!(rt; 13 < position.size().points());
    assert!(rt; position.cell(13) == Cell::Black, "it stands again");
    Ok(())
}

#[test]
fn undo_stops_at_the_position_that_was_set(rt: HostRuntime) -> Result<(), Fail> {
    let size = Size::new(5).expect(&rt, "the size is one of a board");
    let mut history = History::new(rt.alloc(), size)?;
    assert!(rt; put(&rt, &mut history, (Black, 2, 2)).is_ok());
    let base = history.position();
    history.start(&base);
    assert!(rt; history.moves().is_empty());
    assert!(rt; put(&rt, &mut history, (White, 1, 1)).is_ok());
    assert!(rt; history.undo().is_ok());
    assert!(rt; history.undo() == Err(Nothing));
    assert!(rt; history.position() == base, "the stone that was set stands");
    history.clear();
    assert!(rt; history.position() == Position::new(size), "an empty board");
    Ok(())
}

#[test]
fn a_full_list_still_tells_an_illegal_move(rt: HostRuntime) -> Result<(), Fail> {
    let size = Size::new(2).expect(&rt, "the size is one of a board");
    let mut history = History::new(rt.alloc(), size)?;
    assert!(rt; put(&rt, &mut history, (Black, 0, 0)).is_ok());
    for _ in 1..MAX_MOVES {
        assert!(rt; !history.full());
        assert!(rt; pass(&mut history, White).is_ok());
    }
    assert!(rt; history.full());
    assert!(rt; pass(&mut history, Black) == Err(HistoryError::Full));
    let occupied = put(&rt, &mut history, (White, 0, 0));
    assert!(rt; occupied == Err(HistoryError::Illegal(Illegal::Occupied)));
    assert!(rt; history.undo().is_ok());
    assert!(rt; !history.full());
    assert!(rt; put(&rt, &mut history, (White, 0, 1)).is_ok());
    history.resize(size);
    assert!(rt; history.moves().is_empty());
    assert!(rt; history.undo() == Err(Nothing));
    Ok(())
}
