//! What the numbers of a reply mean.

ghost use Rattle.std.specs.Prelude.{◌≡◌, ◌≢◌, ℕ, Some, Ok};
ghost use Rattle.go_rules.specs.Position.{BoardState};
ghost use Rattle.board_bytes.specs.declared.board.BoardBytes.{BoardBytes};
ghost use Rattle.board_bytes.specs.Bytes.{position_of};
ghost use Rattle.board_doors.specs.declared.fault.DoorFault.{DoorFault};
ghost use Rattle.board_doors.specs.Doors.{play_of};
ghost use Rattle.board_doors.specs.Replies.{status_of, fault_named, play_reply};

/// Each status names one fault, and no fault has the status 0, the status of an answer.
pub fn statuses_tell_faults()
    ensures fault { (fault : DoorFault) → fault_named (status_of fault) ≡ Some fault }
    ensures not_zero { (fault : DoorFault) → status_of fault ≢ 0 }
{}
